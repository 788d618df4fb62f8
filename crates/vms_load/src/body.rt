// Reads the fields and checks the validations of a part, step by step.
ghost use Rattle.vms_io.specs.Told.{intake};
ghost use Rattle.vms_load.specs.Calls.{CanReadPart, CanTakeStep, ReadsPart, TakesStep, input};

use crate::items::{constant, number, rule};
use vms_desc::{Cells, DescSet};
use vms_frames::{Cursor, FrameFault};
use vms_image::Image;
use vms_io::Source;
use vms_kinds::Kind;
use vms_spec::Reason;
use vms_walk::{PartAt, WalkStep, Walker, walk};

/// Reads the fields of the part at `spot` into `image` and checks the validations.
///
/// # Errors
///
/// - [`FrameFault::Refused`]: a unit is invalid, the input ends, or a validation fails.
/// - [`FrameFault::ReadFault`]: the source failed.
pub(crate) fn read_part<S: Source>(
    set: &DescSet,
    spot: PartAt,
    image: &mut Image,
    cursor: &mut Cursor,
    source: &mut S,
) -> Result<(), FrameFault>
    requires { CanReadPart set.now spot image.old cursor.old }
    ensures { let from = input cursor.old (intake S.Source source.old) in
        let to = input cursor.new (intake S.Source source.new) in
        ReadsPart set.now spot image.old image.new from to result }
{
    let mut reader = Reader {
        image,
        cursor,
        source,
    };
    match walk(set, spot, &mut reader) {
        Ok(()) => Ok(()),
        Err(fault) => Err(fault),
    }
}

// The most bytes that the codes of a run take: 128 numbers of 8 bytes.
const LONGEST_CODES: usize = 1024;

// Reads each step and puts the numbers into the image.
#[derive(Drop)]
struct Reader<'a, S> {
    image: &'a mut Image,
    cursor: &'a mut Cursor,
    source: &'a mut S,
}

impl<S: Source> Cells for Reader<'_, S> {
    ghost numbers = { λ reader. reader.image.now.numbers };

    fn number(&self, cell: u32) -> i128 {
        self.image.get(cell)
    }
}

impl<S: Source> Walker for Reader<'_, S> {
    ghost use Rattle.std.specs.Prelude.{◌≡◌, ◌≤◌, ◌^◌, None, OnOk, refl};
    ghost use Rattle.std.proofs.Common.{◌∙◌};
    ghost use Rattle.vms_io.specs.Told.{intake};
    ghost use Rattle.vms_load.specs.Bodies.{IsOfKind};
    ghost use Rattle.vms_load.specs.Reading.{told, Fills, fills_none, fills_more, fills_before};

    type Fault = FrameFault;

    ghost does = { λ xs a result b. (b.image.ghost_name ≡ a.image.ghost_name)
        × (b.cursor.ghost_name ≡ a.cursor.ghost_name)
        × (b.source.ghost_name ≡ a.source.ghost_name)
        × Fills xs
        (told a.image.now a.cursor.now.at (intake S.Source a.source.now))
        result (told b.image.now b.cursor.now.at (intake S.Source b.source.now))
        × (a.cursor.now.held ≡ None → OnOk result (b.cursor.now.held ≡ None)) };

    ghost may = { λ a step. (a.cursor.now.at ≤ 2 ^ 63) × (a.cursor.now.held ≡ None)
        × IsOfKind a.image.now.kinds step };

    ghost laws = { record {
      none = λ a. (refl, refl, refl, fills_none _ (S.counted a.source.now), λ e. e);
      more = λ xs ys a b c result h k. (
        k.0 ∙ h.0,
        k.1 ∙ h.1,
        k.2 ∙ h.2,
        fills_more xs ys _ _ _ result h.3 k.3,
        λ e. k.4 (h.4 e),
      );
      before = λ xs ys a b fault h. (h.0, h.1, h.2, fills_before xs ys _ _ fault h.3, λ e. tt);
      keeps = λ xs a b result h. h.3.keeps;
    } };

    #[inline(always)]
    fn step(&mut self, step: WalkStep) -> Result<(), FrameFault> {
        read_step(step, self.image, self.cursor, self.source)
    }

    // As the trait has it, but without the match on the step: `walk` keeps its mark for inlining only
    // if what is inlined into it is small.
    #[inline(always)]
    fn rules(&mut self, set: &DescSet, spot: PartAt) -> Result<(), FrameFault> {
        let holds = set.holds_rules(spot.part, spot.base, spot.version, self);
        rule(holds, self.cursor)
    }

    fn run(&mut self, first: u32, count: u32, kind: Kind) -> Result<(), FrameFault> {
        let width = kind.width();
        let mut room = [0; LONGEST_CODES];
        let codes = &mut room[..count as usize * width];
        let came = self.cursor.codes(self.source, kind, codes)?;
        let whole = came / width;
        let codes = &codes[..whole * width];
        self.image.put_codes(first, whole as u32, kind, codes);
        if whole < count as usize {
            return Err(FrameFault::Refused {
                at: self.cursor.at(),
                reason: Reason::Truncated,
            });
        }
        Ok(())
    }
}

#[inline(always)]
fn read_step<S: Source>(
    step: WalkStep,
    image: &mut Image,
    cursor: &mut Cursor,
    source: &mut S,
) -> Result<(), FrameFault>
    requires { CanTakeStep image.old step cursor.old }
    ensures { let from = input cursor.old (intake S.Source source.old) in
        let to = input cursor.new (intake S.Source source.new) in
        TakesStep step image.old image.new from to result }
{
    match step {
        WalkStep::Number { cell, kind, most } => {
            let number = number(cursor, source, kind, most)?;
            image.set(cell, number);
            Ok(())
        }
        WalkStep::Constant { kind, value } => constant(cursor, source, kind, value),
        WalkStep::Filler { bytes } => cursor.skip(source, bytes),
        WalkStep::Rule { holds } => rule(holds, cursor),
    }
}
