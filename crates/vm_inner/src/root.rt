//! The growth of a tree by a new root.

ghost use Rattle.std.specs.Prelude.{◌<◌, ◌≤◌};
ghost use Rattle.vm_page.specs.Sizes.{IsSize};
ghost use Rattle.vm_tree_model.specs.Fixed.{fixed};
ghost use Rattle.vm_tree_model.specs.Page.{IsInner};
ghost use Rattle.vm_tree_model.specs.Edits.{IsNewRoot};

use vm_node::header::{Header, write_header};
use vm_page::PageBuf;

// The tag of an inner node.
const INNER: u64 = 3;

/// Makes the page a root over two nodes: `left` from key 0 on, and `right` from the separator on. What the page held
/// before is lost. It is an inner node where the level is 1 or more and the separator is above 0.
pub fn new_root<const N: usize>(
    page: &mut PageBuf<N>,
    level: u64,
    left: u64,
    separator: u64,
    right: u64,
)
    requires { IsSize N }
    ensures root { IsNewRoot (fixed N) page.new level left separator right }
    ensures inner { 1 ≤ level → 0 < separator → IsInner (fixed N) page.new }
{
    *page = PageBuf::zero();
    write_header(
        page,
        Header {
            tag: INNER,
            count: 2,
            low: 0,
            high: 0,
            endless: 1,
            level,
        },
    );
    page.set(9, left);
    page.set(10, separator);
    page.set(11, right);
}
