// Laws of self-descriptions.
ghost use Rattle.vms_selfdesc.specs.Laws.{ClockLaw, ShippedLaw, ShortLaw};

/// States that the text of [`describe`](crate::describe) has less than the 16,777,216 bytes that a
/// description section may have.
///
/// This is so for a well-formed set whose instance ids and versions have at most four bytes,
/// whatever the images are.
#[tactic(auto, using(crate::proofs::Lengths::short_holds))]
pub fn short_law()
    ensures { ShortLaw }
{}

/// States that the text of [`describe`](crate::describe) has less than 60,000 bytes for a shipped
/// set of the boards `isa-1` to `isa-4`.
#[tactic(auto, using(crate::proofs::Lengths::shipped_holds))]
pub fn shipped_law()
    ensures { ShippedLaw }
{}

/// States that the text of [`describe`](crate::describe) has less than 60,000 bytes for a set of
/// the clock boards.
#[tactic(auto, using(crate::proofs::Lengths::clock_holds))]
pub fn clock_law()
    ensures { ClockLaw }
{}
