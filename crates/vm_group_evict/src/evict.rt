// The eviction of one group.
ghost use Rattle.std.specs.Prelude.{◌<◌, ◌≡◌, None};
ghost use Rattle.vm_event.specs.Prelude.{MARKED, MAX_VERSION, state_of, version_of};
ghost use Rattle.vm_page.specs.Sizes.{IsSize};
ghost use Rattle.vm_step.specs.Prelude.{GoesOn, IsReadyOn, view};
ghost use Rattle.vm_group_guard.specs.Group.{IsGroupAt};
ghost use Rattle.vm_group_evict.specs.Ends.{EndsGroup};

use crate::empty::empty_pages;
use crate::save::{Failure, save_pages};
use arrayvec::ArrayVec;
use vm_block::PageBlock;
use vm_event::StateWord;
use vm_group_guard::MOST_PAGES;
use vm_group_step::{lock_group_write_back, release_group_evicted, unshare_group, upgrade_group};
use vm_owner::Owner;
use vm_rule::words::{Pass, Words};
use vm_step::Took;

/// What became of a group that was to be evicted.
#[derive(Drop)]
pub enum GroupEnd {
    /// It is Evicted; these were the frames of its pages, and so many of them were written.
    Freed {
        frames: ArrayVec<u32, MOST_PAGES>,
        written: u32,
    },
    /// The write of one of its pages failed; the group stays resident, and that page dirty.
    Failed(Failure),
    /// It changed before it could be locked exclusively; so many of its pages were written.
    Lost {
        written: u32,
    },
}

/// Evicts the group of so many pages from the word at which it was marked: it is locked for write-back, each page written where it is dirty, locked
/// exclusively, taken out of its frames, and released as evicted.
pub fn evict_group<U: Owner, B: PageBlock<N>, const N: usize>(
    words: &Words<U, B>,
    pass: &mut Pass<U>,
    head: u32,
    size: usize,
    word: u64,
) -> GroupEnd
    requires ready { IsReadyOn words.now B.tells pass.old }
    requires sized { IsSize N }
    requires size { N ≡ words.now.table.shared.key.size }
    requires group { IsGroupAt words.now.table.shared.key head size }
    requires home { (view pass.old).out ≡ None }
    requires marked { state_of word ≡ MARKED }
    requires below { version_of word < MAX_VERSION }
    ensures goes { GoesOn words.now B.tells pass.old pass.new }
    ensures ended { EndsGroup head size word (view pass.old) (view pass.new) result }
{
    if let Took::Lost(_) = lock_group_write_back(words, pass, head, word) {
        return GroupEnd::Lost { written: 0 };
    }
    let written = match save_pages::<U, B, N>(words, pass, head, size) {
        Ok(written) => written,
        Err(failure) => {
            unshare_group(words, pass, head);
            return GroupEnd::Failed(failure);
        }
    };
    let version = StateWord::version(word);
    let shared = StateWord::of(1, version);
    if let Took::Lost(_) = upgrade_group(words, pass, head, shared) {
        unshare_group(words, pass, head);
        return GroupEnd::Lost { written };
    }
    let frames = empty_pages(words, pass, head, size);
    release_group_evicted(words, pass, head, version);
    GroupEnd::Freed { frames, written }
}
