//! How a page file whose nodes have byte keys is known.

ghost use Rattle.std.specs.Prelude.{◌≡◌};
ghost use Rattle.vm_bytes_file.specs.KeyFiles.{is_key_file};

// The first bytes of such a file.
const FIRST: &[u8] = b"VMCBYTE1";

/// Whether the bytes begin as those of a page file whose nodes have byte keys.
pub fn is_key_file(bytes: &[u8]) -> bool
    ensures { result ≡ is_key_file bytes.now }
{
    bytes.starts_with(FIRST)
}
