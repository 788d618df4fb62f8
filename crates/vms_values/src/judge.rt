// Judges the sections and subsections that were read.
ghost use Rattle.std.specs.Prelude.{◌≡◌, ◌==◌, length};
ghost use Rattle.std.specs.List.{list_all};
ghost use Rattle.vms_values.specs.Judging.{HasLines, HasRules, HasSub, bad_of, has_defaults, hold_rules, holds_sub, judge_device, judge_sub};

use vms_desc::{Cells, Desc, DescSet, Part};
use vms_image::Image;
use vms_spec::ValuesReason;
use vms_walk::{PartAt, WalkStep, Walker, walk};
use vms_write::is_bare;

/// A line that is refused, and why.
#[derive(Clone, Copy, Drop)]
pub(crate) struct BadLine {
    pub(crate) line: usize,
    pub(crate) reason: ValuesReason,
}

/// Returns the first bad line of `device`, if there is one.
///
/// Its section is at `line`, its subsections at `sub_lines`. All its numbers are in `image`.
pub(crate) fn judge_device(
    set: &DescSet,
    device: u32,
    image: &Image,
    line: usize,
    sub_lines: &[usize],
) -> Option<BadLine>
    requires { HasLines set.now device image.now sub_lines.now }
    ensures { bad_of result ≡ judge_device set.now device image.now line sub_lines.now }
{
    let own = PartAt {
        part: Part::Device(device),
        version: image.version(),
        base: 0,
    };
    if !hold_rules(set, own, image) {
        let reason = ValuesReason::Invalid;
        return Some(BadLine { line, reason });
    }
    for sub in 0..set.sub_count(device) {
        if let Some(reason) = judge_sub(set, device, sub, image) {
            let line = sub_lines[sub as usize];
            return Some(BadLine { line, reason });
        }
    }
    None
}

// Returns why the line of a subsection is refused, if it is.
fn judge_sub(set: &DescSet, device: u32, sub: u32, image: &Image) -> Option<ValuesReason>
    requires { HasSub set.now device sub image.now }
    ensures { result ≡ judge_sub set.now device sub image.now }
{
    let came = image.came(sub);
    if !holds_sub(set, device, sub, image, came) {
        return Some(ValuesReason::Invalid);
    }
    let well = if set.is_needed(device, sub, image) {
        came.is_some()
    } else {
        came.is_none() && has_defaults(set, device, sub, image)
    };
    if well {
        None
    } else {
        Some(ValuesReason::Needed)
    }
}

// Returns whether the validations of a subsection hold, if it came.
fn holds_sub(set: &DescSet, device: u32, sub: u32, image: &Image, came: Option<u32>) -> bool
    requires { HasSub set.now device sub image.now }
    ensures { result ≡ holds_sub set.now device sub image.now came }
{
    match came {
        Some(version) => {
            let part = Part::Sub(device, sub);
            let spot = PartAt {
                part,
                version,
                base: set.first_cell(part),
            };
            hold_rules(set, spot, image)
        }
        None => true,
    }
}

// Returns whether all cells of a subsection are at their defaults.
fn has_defaults(set: &DescSet, device: u32, sub: u32, image: &Image) -> bool
    requires { HasSub set.now device sub image.now }
    ensures { result ≡ has_defaults set.now device sub image.now }
{
    is_bare(set, device, image, sub)
}

// Returns whether the validations of a part hold, and those of the structures that are sent in it.
// If no structure has any, only the part's own are checked, without a walk over its cells.
fn hold_rules(set: &DescSet, spot: PartAt, image: &Image) -> bool
    requires spot { HasRules set.now spot image.now }
    ensures { result ≡ hold_rules set.now spot image.now }
{
    if are_unruled(set.parts().structs.as_slice()) {
        set.holds_rules(spot.part, spot.base, spot.version, image)
    } else {
        walk_rules(set, spot, image)
    }
}

// Returns whether none of `structs` has validations.
fn are_unruled(structs: &[Desc]) -> bool
    ensures { result ≡ list_all (λ d. length d.validate == 0) structs.now }
{
    structs
        .iter()
        .all(|desc| desc.validate.as_slice().is_empty())
}

fn walk_rules(set: &DescSet, spot: PartAt, image: &Image) -> bool
    requires spot { HasRules set.now spot image.now }
    ensures { result ≡ hold_rules set.now spot image.now }
{
    let mut rules = Rules { image };
    match walk(set, spot, &mut rules) {
        Ok(()) => true,
        Err(Broken) => false,
    }
}

// Stops at the first validation that doesn't hold.
#[derive(Clone, Copy, Drop)]
struct Rules<'a> {
    image: &'a Image,
}

// A validation doesn't hold.
#[derive(Clone, Copy, Drop)]
struct Broken;

impl Cells for Rules<'_> {
    ghost numbers = { λ rules. rules.image.now.numbers };

    fn number(&self, cell: u32) -> i128 {
        self.image.get(cell)
    }
}

impl Walker for Rules<'_> {
    ghost use Rattle.std.specs.Prelude.{◌≡◌, is_ok, refl};
    ghost use Rattle.std.proofs.Common.{ap, ◌∙◌};
    ghost use Rattle.vms_walk.proofs.Walking.{keeps_same};
    ghost use Rattle.vms_values.specs.Judging.{steps_hold, hold_then, fail_before};

    type Fault = Broken;

    ghost does = { λ xs a result b. (b.image ≡ a.image) × (steps_hold xs ≡ is_ok result) };

    ghost may = { λ a step. Unit {0} };

    ghost laws = { record {
      none = λ a. (refl, refl);
      more = λ xs ys a b c result h k. (k.0 ∙ h.0, hold_then xs ys (is_ok result) h.1 k.1);
      before = λ xs ys a b fault h. (h.0, fail_before xs ys h.1);
      keeps = λ xs a b result h. keeps_same xs _ _ (ap (λ image. image.now.numbers) h.0);
    } };

    fn step(&mut self, step: WalkStep) -> Result<(), Broken> {
        match step {
            WalkStep::Rule { holds } => { if holds { Ok(()) } else { Err(Broken) } }
            WalkStep::Number { .. } | WalkStep::Constant { .. } | WalkStep::Filler { .. } => Ok(()),
        }
    }
}
