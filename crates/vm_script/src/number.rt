// Reads canonical decimals.
ghost use Rattle.vm_script.specs.Decimals.{ReadsNumber};

/// The number that a canonical decimal below 2^64 stands for: digits alone, no leading zero but in
/// `0`. All other bytes are `None`.
pub fn number_of(bytes: &[u8]) -> Option<u64>
    ensures { ReadsNumber bytes.now result }
{
    if bytes.is_empty() {
        return None;
    }
    let first = bytes[0];
    if first == b'+' {
        return None;
    }
    if first == b'0' && bytes.len() > 1 {
        return None;
    }
    match str::from_utf8(bytes) {
        Ok(text) => text.parse::<u64>().ok(),
        Err(_) => None,
    }
}
