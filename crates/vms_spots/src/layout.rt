// The places of numbers in a buffer.
ghost use Rattle.vms_spec.specs.declared.TheConstants.{MOST_ITEMS};
ghost use Rattle.std.specs.Prelude.{◌≡◌, ◌≤◌, ◌+◌, length, IfOk};
ghost use Rattle.vms_kinds.specs.Codes.{width};
ghost use Rattle.vms_spots.specs.declared.layout.TheConstants.{MOST_BYTES};
ghost use Rattle.vms_spots.specs.Spots.{aligned, spots_of, kinds_of, bytes_of, AreApart};

use std::alloc::{AllocError, Global};
use vms_kinds::Kind;

/// The greatest number of bytes of the numbers of a well-formed set's devices: eight for each item.
pub const MOST_BYTES: u32 = 131_072;

/// The place of a cell's number in an image's bytes.
#[derive(Clone, Copy, Debug, PartialEq, Eq)]
pub struct Spot {
    /// The offset of its first byte, a multiple of the kind's width.
    pub offset: u32,
    /// The kind of the number, which has the number of its bytes.
    pub kind: Kind,
}

impl Spot {
    // Returns the first spot for a number of this kind that isn't before byte `end`.
    fn behind(end: u32, kind: Kind) -> Spot
        requires { end ≤ MOST_BYTES }
        ensures { result ≡ record { offset = aligned (width kind) end; kind = kind } }
    {
        let low = kind.width() as u32 - 1;
        Spot {
            offset: (end + low) & !low,
            kind,
        }
    }

    /// Returns the offset after its last byte.
    ///
    /// # Requires
    ///
    /// `offset` is at most [`MOST_BYTES`].
    pub fn end(self) -> u32
        requires { self.offset ≤ MOST_BYTES }
        ensures { result ≡ self.offset + width self.kind }
    {
        self.offset + self.kind.width() as u32
    }
}

/// Returns the spots of numbers of these `kinds`, in order.
///
/// The first spot is at 0. Each further one is at the least multiple of its kind's width that isn't
/// below the end of the one before.
///
/// # Errors
///
/// - [`AllocError`]: out of memory.
///
/// # Requires
///
/// There are at most [`MOST_ITEMS`] kinds.
pub fn lay_out(alloc: Global, kinds: &[Kind]) -> Result<Vec<Spot>, AllocError>
    requires { length kinds.now ≤ MOST_ITEMS }
    ensures spots { IfOk result (λ spots. spots.items ≡ spots_of kinds.now) }
    ensures apart { IfOk result (λ spots. AreApart kinds.now spots.items) }
{
    let mut spots = Vec::with_capacity(alloc, kinds.len())?;
    let mut end = 0;
    for kind in kinds {
        let spot = Spot::behind(end, *kind);
        end = spot.end();
        spots.push(spot)?;
    }
    Ok(spots)
}

/// Returns the number of bytes of numbers at these `spots`: the end of the last, or 0 if there is
/// none.
///
/// # Requires
///
/// The spots are those that [`lay_out`] returns for their kinds, and there are at most
/// [`MOST_ITEMS`].
pub fn size(spots: &[Spot]) -> u32
    requires few { length spots.now ≤ MOST_ITEMS }
    requires laid { spots.now ≡ spots_of (kinds_of spots.now) }
    ensures size { result ≡ bytes_of (kinds_of spots.now) }
    ensures bound { result ≤ MOST_BYTES }
{
    match spots.last() {
        None => 0,
        Some(last) => last.end(),
    }
}
