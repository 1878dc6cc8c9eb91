//! Names of tables.
ghost use Rattle.std.specs.Prelude.{◌≢◌, ◌↔◌, IsTrue};
ghost use Rattle.std.specs.List.{AllByRecursion};
ghost use Rattle.manifest.specs.Manifest.{IsName};

/// How many bytes a name has at most.
pub(crate) const MAX_NAME: usize = 64;

/// Whether bytes are a table's name: 1 to 64, none of them a zero or the end of a line.
pub(crate) fn is_name(name: &[u8]) -> bool
    ensures { IsTrue result ↔ IsName name.now }
{
    1 <= name.len() && name.len() <= MAX_NAME && are_plain(name)
}

/// Whether no byte is a zero or ends a line.
pub(crate) fn are_plain(bytes: &[u8]) -> bool
    ensures { IsTrue result ↔ AllByRecursion (λ byte. (byte ≢ 0) × (byte ≢ 10)) bytes.now }
{
    for byte in bytes {
        if *byte == 0 || *byte == b'\n' {
            return false;
        }
    }
    true
}
