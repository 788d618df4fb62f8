// Whether a line consists of given pieces.
ghost use Rattle.std.specs.Prelude.{◌≡◌};
ghost use Rattle.std.specs.Str.{bytes_eq};
ghost use Rattle.vms_values.specs.Written.{joined};

/// Returns whether `line` is these pieces, one after the other.
pub(crate) fn is_joined(line: &[u8], pieces: &[&[u8]]) -> bool
    ensures { result ≡ bytes_eq line.now (joined pieces.now) }
{
    let mut rest = line;
    for piece in pieces {
        match rest.strip_prefix(piece) {
            Some(more) => rest = more,
            None => return false,
        }
    }
    rest.is_empty()
}
