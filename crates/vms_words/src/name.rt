// The form of names.
ghost use Rattle.std.specs.Prelude.{◌≡◌};
ghost use Rattle.std.specs.List.{list_all};
ghost use Rattle.vms_spec.specs.Names.{is_name_byte, is_name};

/// Returns whether `byte` may be in a name: an ASCII letter or digit, `_`, `-` or `.`.
pub fn is_name_byte(byte: u8) -> bool
    ensures { result ≡ is_name_byte byte }
{
    matches!(byte, b'0'..=b'9' | b'A'..=b'Z' | b'a'..=b'z' | b'_' | b'-' | b'.')
}

/// Returns whether all of `bytes` may be in a name.
pub fn are_name_bytes(bytes: &[u8]) -> bool
    ensures { result ≡ list_all is_name_byte bytes.now }
{
    bytes.iter().all(|byte| is_name_byte(*byte))
}

/// Returns whether `name` is a name of 1 to `most` bytes.
pub fn is_name(most: usize, name: &[u8]) -> bool
    ensures { result ≡ is_name most name.now }
{
    1 <= name.len() && name.len() <= most && are_name_bytes(name)
}
