// Reads the whole input.
ghost use Rattle.std.specs.Prelude.{length};
ghost use Rattle.vms_io.specs.Told.{intake};
ghost use Rattle.vms_analyze.specs.Inputs.{TakesInput, TakesPiece};

use std::alloc::Global;
use vms_io::{Source, read_exact_of};

/// The most bytes of an input.
pub(crate) const LONGEST: usize = 100_000_000;

// The number of bytes that are read at once, which a source over a reader buffers.
const PIECE: usize = 8192;

/// Why there is no input.
#[derive(Clone, Copy, Drop)]
pub(crate) enum NoInput {
    TooLong,
    ReadFault,
    NoMemory,
}

/// Returns all bytes of `source`. If there are more than 100,000,000, it reads 100,000,001.
///
/// # Errors
///
/// The [`NoInput`]: too many bytes, a failed read, or no memory.
pub(crate) fn read_input<S: Source>(alloc: Global, source: &mut S) -> Result<Vec<u8>, NoInput>
    ensures { TakesInput (intake S.Source source.old) (intake S.Source source.new) result }
{
    let mut input = Vec::new(alloc);
    let mut piece = [0; PIECE];
    while input.len() <= LONGEST {
        let room = (LONGEST + 1 - input.len()).min(PIECE);
        match read_piece(source, &mut piece[..room], &mut input) {
            Ok(done) => {
                if done {
                    return Ok(input);
                }
            }
            Err(none) => return Err(none),
        }
    }
    Err(NoInput::TooLong)
}

// Appends the next bytes to `input`: those for which `piece` has room, or the rest of the input if
// that is shorter. Returns whether it is.
fn read_piece<S: Source>(
    source: &mut S,
    piece: &mut [u8],
    input: &mut Vec<u8>,
) -> Result<bool, NoInput>
    ensures { TakesPiece (intake S.Source source.old) (intake S.Source source.new)
        input.old.items input.new.items (length piece.old) result }
{
    let count = match read_exact_of(source, piece) {
        Ok(count) => count,
        Err(_) => return Err(NoInput::ReadFault),
    };
    match input.extend_from_slice(&piece[..count]) {
        Ok(()) => Ok(count < piece.len()),
        Err(_) => Err(NoInput::NoMemory),
    }
}
