// The steps of a walk, and what is done at each.
ghost use Rattle.std.specs.Prelude.{◌≡◌};
ghost use Rattle.vms_spec.specs.Numbers.{exceeds};
ghost use Rattle.vms_walk.specs.Steps.{capacities_of};

use crate::PartAt;
use vms_desc::{Cells, DescSet};
use vms_kinds::Kind;

/// One thing that a part has in the bytes, or the end of its fields.
#[derive(Clone, Copy, Drop)]
pub enum WalkStep {
    /// The number of cell `cell`, which is at most `most` if it counts elements.
    Number {
        cell: u32,
        kind: Kind,
        most: Option<u32>,
    },
    /// A number that has no cell.
    Constant {
        kind: Kind,
        value: i128,
    },
    /// Unused bytes: their number, `bytes`.
    Filler {
        bytes: u16,
    },
    /// The end of a description, or of a structure element; `holds` is whether its validations
    /// hold.
    Rule {
        holds: bool,
    },
}

/// Returns whether `number` is above `most`, the least capacity of the arrays that it counts.
///
/// If `most` is `None`, it counts no array, and the result is false.
pub fn is_above(number: i128, most: Option<u32>) -> bool
    ensures { result ≡ exceeds (capacities_of most) number }
{
    match most {
        Some(most) => number > i128::from(most),
        None => false,
    }
}

/// The most numbers that one call of [`Walker::run`] takes.
pub const LONGEST_RUN: u32 = 128;

/// What is done at each step of a walk.
///
/// A walker may change numbers, but only those of the cells at which it is called.
pub trait Walker: Cells {
    ghost use Rattle.std.specs.Prelude.{List, [], ◌∷◌, ◌+◌, ◌<◌, ◌≤◌, ◌≡◌, length, Result};
    ghost use Rattle.vms_spec.specs.declared.TheConstants.{MOST_ITEMS};
    ghost use Rattle.vms_walk.specs.Runs.{run_of, MayRun};
    ghost use Rattle.vms_walk.specs.declared.step.TheConstants.{LONGEST_RUN};
    ghost use Rattle.vms_walk.specs.declared.step.WalkStep.{WalkStep as OneStep};
    ghost use Rattle.vms_walk.specs.declared.step.WalkStep.TheVariants.{Rule};
    ghost use Rattle.vms_walk.specs.Inside.{IsInside};
    ghost use Rattle.vms_walk.specs.Laws.{IsWalk};
    ghost use Rattle.vms_walk.specs.Calls.{IsSpotOf, holds_in};

    /// Why the walker stops.
    type Fault: Drop;

    /// These steps lead from one state to another if the result is `Ok`. If it is a fault, the
    /// walker stops within them.
    ghost does: { List OneStep → Self → Result (Unit {0}) Self.Fault → Self → Type 0 };

    /// A step may come in this state.
    ghost may: { Self → OneStep → Type 0 };

    /// Takes `step`, or stops at it.
    ///
    /// # Errors
    ///
    /// [`Walker::Fault`] if it stops.
    ///
    /// # Requires
    ///
    /// The cell of a number is among the walker's numbers, and the step may come.
    fn step(&mut self, step: WalkStep) -> Result<(), Self::Fault>
        requires inside { IsInside (Self.numbers self.old) step }
        requires may { may self.old step }
        ensures { does (step ∷ []) self.old result self.new };

    /// Takes the step at the end of a part or of one structure element, which says whether its
    /// validations hold.
    ///
    /// Override this if the outcome doesn't depend on the validations.
    ///
    /// # Errors
    ///
    /// [`Walker::Fault`] if it stops.
    ///
    /// # Requires
    ///
    /// The set has the part at `spot`, its cells are among the walker's numbers, and the step may
    /// come.
    #[inline(always)]
    fn rules(&mut self, set: &DescSet, spot: PartAt) -> Result<(), Self::Fault>
        requires spot { IsSpotOf set.now spot (Self.numbers self.old) }
        requires may { may self.old (Rule (holds_in set.now spot (Self.numbers self.old))) }
        ensures { let holds = holds_in set.now spot (Self.numbers self.old) in
            does (Rule holds ∷ []) self.old result self.new }
    {
        let holds = set.holds_rules(spot.part, spot.base, spot.version, self);
        self.step(WalkStep::Rule { holds })
    }

    /// Takes `count` steps for numbers of one kind in consecutive cells from `first` on, or stops
    /// at one of them.
    ///
    /// The numbers count nothing.
    ///
    /// # Errors
    ///
    /// [`Walker::Fault`] if it stops.
    ///
    /// # Requires
    ///
    /// `count` is 1 to [`LONGEST_RUN`], `kind` isn't `Bool`, the cells are among the walker's
    /// numbers, and the steps may come.
    fn run(&mut self, first: u32, count: u32, kind: Kind) -> Result<(), Self::Fault>
        requires some { 0 < count }
        requires short { count ≤ LONGEST_RUN }
        requires number { kind ≡ Kind.Bool → ⊥ }
        requires room { first + count ≤ length (Self.numbers self.old) }
        requires few { length (Self.numbers self.old) ≤ MOST_ITEMS }
        requires may { MayRun does may (run_of first count kind) self.old }
        ensures { does (run_of first count kind) self.old result self.new }
    {
        for cell in first..first + count {
            self.step(WalkStep::Number {
                cell,
                kind,
                most: None,
            })?;
        }
        Ok(())
    }

    /// What is done at steps makes up what is done at all of them, and only their cells change.
    ghost laws: { IsWalk Self.numbers does };
}
