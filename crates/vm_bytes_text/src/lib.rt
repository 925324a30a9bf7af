//! Texts of byte keys: hexadecimal digits, and the rows of a map that has such keys.
#![tactic(auto)]

ghost use Rattle.std.specs.Prelude.{◌++◌, ◌≡◌, if◌then◌else◌, IfOk, is_ok, OnOk, string_bytes};
ghost use Rattle.vm_bytes_form.specs.KeyMap.{ranks_of};
ghost use Rattle.vm_bytes_form.specs.Strings.{rank};
ghost use Rattle.vm_bytes_text.specs.KeyTexts.{key_row_line, key_rows_text, key_text as text_of_key, line_with};

use std::alloc::{AllocError, Global};
use vm_bytes_node::in_range;
use vm_bytes_node::window::KeyPair;
use vm_map::key::Key;

/// A key as two lower-case hexadecimal digits a byte, or `-` where it is empty.
pub fn key_text(alloc: Global, key: &Key) -> Result<String, AllocError>
    ensures { IfOk result (λ text. string_bytes text ≡ text_of_key key.now) }
{
    let bytes = key.as_slice();
    if bytes.is_empty() {
        return String::from_str(alloc, "-");
    }
    hex::encode(alloc, bytes)
}

/// Appends the line `row K V`.
///
/// # Errors
///
/// `AllocError` where memory was refused; `out` is then as before.
pub fn key_row_text(
    alloc: Global,
    key: &Key,
    value: u64,
    out: &mut Vec<u8>,
) -> Result<(), AllocError>
    ensures { out.new.items ≡ (if is_ok result then out.old.items ++ key_row_line (rank key.now, value) else out.old.items) }
{
    in_range(key);
    let text = key_text(alloc, key)?;
    let line = row_of(alloc, &text, value)?;
    out.extend_from_slice(line.as_bytes())
}

// The line of a key's text.
fn row_of(alloc: Global, key: &str, value: u64) -> Result<String, AllocError>
    ensures { IfOk result (λ line. string_bytes line ≡ line_with key.now value) }
{
    let line = format!(in alloc; "row {key} {value}\n")?;
    Ok(line)
}

/// Appends the lines of rows.
pub fn add_key_rows(alloc: Global, rows: &[KeyPair], out: &mut Vec<u8>) -> Result<(), AllocError>
    ensures { OnOk result (out.new.items ≡ out.old.items ++ key_rows_text (ranks_of rows.now)) }
{
    'rows: for row in rows {
        key_row_text(alloc, &row.key, row.value, out)?;
    }
    Ok(())
}
