// The faults of a set, and the lowest rule that fails at a place.
ghost use Rattle.std.specs.Prelude.{◌≡◌};
ghost use Rattle.vms_spec.specs.WellFormed.{failing};
ghost use Rattle.vms_rules.specs.Judged.{Judges};

use std::alloc::AllocError;
use vms_parts::Place;

/// A reason why parts are no description set.
#[derive(Clone, Copy, Debug, PartialEq, Eq)]
pub enum DescFault {
    /// A rule of well-formed sets, 1 to 8, fails first at this place. No lower rule fails there.
    IllFormed { rule: u8, place: Place },
    /// Out of memory.
    NoMemory,
}

impl From<AllocError> for DescFault {
    ghost use Rattle.vms_rules.specs.declared.fault.DescFault.TheVariants.{NoMemory};

    ghost from_gives = { λ _ fault. fault ≡ NoMemory };

    fn from(_: AllocError) -> Self {
        DescFault::NoMemory
    }
}

// Finds the lowest rule that fails at a place.
#[tactic(auto, using(crate::proofs::WalkLaws::lowest_laws))]
pub(crate) fn lowest(rules: [bool; 8], place: Place) -> Result<(), DescFault>
    ensures { Judges (failing 1 rules place) result }
{
    for (index, holds) in rules.iter().enumerate() {
        if !*holds {
            let rule = index as u8 + 1;
            return Err(DescFault::IllFormed { rule, place });
        }
    }
    Ok(())
}
