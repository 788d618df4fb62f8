// Whether a part of an image may be written, step by step.
ghost use Rattle.vms_spec.specs.declared.TheConstants.{MOST_ITEMS};
ghost use Rattle.std.specs.Prelude.{◌≡◌, ◌-◌, [], get_or, pos};
ghost use Rattle.vms_spec.specs.Rules.{in_range};
ghost use Rattle.vms_spec.specs.Numbers.{same_number};
ghost use Rattle.vms_write.specs.Calls.{CanJudge, HasForm, HasForms, is_part_fine};
ghost use Rattle.vms_write.specs.Fine.{no_form, formed, is_within, settle};
ghost use Rattle.vms_write.specs.Steps.{is_number_fine};

use vms_desc::{Cells, DescSet};
use vms_image::Image;
use vms_kinds::Kind;
use vms_spots::Buffer;
use vms_walk::{PartAt, WalkStep, Walker, walk};

// Returns whether the numbers of a part may be written. Each is in range and at most the capacity
// that it counts. Each cell without a byte is at its default. The validations hold, those of
// structures included.
pub(crate) fn is_part_fine(set: &DescSet, spot: PartAt, image: &Image, defaults: &Buffer) -> bool
    requires { CanJudge set.now spot image.now defaults.now }
    ensures { result ≡ is_part_fine set.now spot image.now defaults.now }
{
    let mut judge = Judge {
        image,
        defaults,
        next: spot.base,
    };
    match walk(set, spot, &mut judge) {
        Ok(()) => {
            let end = spot.base + set.cells_of(spot.part);
            are_default(image, defaults, judge.next, end)
        }
        Err(Unfit) => false,
    }
}

// Judges each step. The cells from `next` on haven't been judged yet.
#[derive(Clone, Copy, Drop)]
struct Judge<'a> {
    image: &'a Image,
    defaults: &'a Buffer,
    next: u32,
}

// A step isn't fine.
#[derive(Clone, Copy, Drop)]
struct Unfit;

impl Cells for Judge<'_> {
    ghost numbers = { λ judge. judge.image.now.numbers };

    fn number(&self, cell: u32) -> i128 {
        self.image.get(cell)
    }
}

impl Walker for Judge<'_> {
    ghost use Rattle.std.specs.Prelude.{◌≡◌, ◌≤◌, OnOk, is_ok, refl, length};
    ghost use Rattle.std.proofs.Common.{ap, ◌∙◌};
    ghost use Rattle.std.proofs.lemmas.Result.{on_ok_weaker};
    ghost use Rattle.vms_walk.proofs.Walking.{keeps_same};
    ghost use Rattle.vms_write.specs.Fine.{formed};
    ghost use Rattle.vms_write.specs.Steps.{behind, behind_then};
    ghost use Rattle.vms_write.specs.Steps.{are_steps_fine, fine_then, fine_before};

    type Fault = Unfit;

    ghost does = { λ xs a result b. (b.image ≡ a.image) × (b.defaults ≡ a.defaults)
        × OnOk result (b.next ≡ behind a.next xs)
        × (are_steps_fine (formed a.defaults.now) a.image.now.numbers a.next xs ≡ is_ok result) };

    ghost may = { λ a step. (length a.image.now.numbers ≤ MOST_ITEMS)
        × (length (formed a.defaults.now) ≡ length a.image.now.numbers) };

    ghost laws = { record {
      none = λ a. (refl, refl, refl, refl);
      more = λ xs ys a b c result h k.
          let forms = ap (λ defaults. formed defaults.now) h.1 in
          let numbers = ap (λ image. image.now.numbers) h.0 in (
            k.0 ∙ h.0,
            k.1 ∙ h.1,
            on_ok_weaker result (behind_then a.next b.next c.next xs ys h.2) k.2,
            fine_then _ _ _ _ a.next b.next xs ys (is_ok result) forms numbers h.2 h.3 k.3,
          );
      before = λ xs ys a b fault h. (h.0, h.1, tt, fine_before _ _ a.next xs ys h.3);
      keeps = λ xs a b result h. keeps_same xs _ _ (ap (λ image. image.now.numbers) h.0);
    } };

    fn step(&mut self, step: WalkStep) -> Result<(), Unfit> {
        match step {
            WalkStep::Number { cell, kind, most } => {
                if !is_number_fine(kind, most, self.image.get(cell)) {
                    return Err(Unfit);
                }
                if !are_default(self.image, self.defaults, self.next, cell) {
                    return Err(Unfit);
                }
                self.next = cell + 1;
                Ok(())
            }
            WalkStep::Constant { .. } | WalkStep::Filler { .. } => Ok(()),
            WalkStep::Rule { holds } => { if holds { Ok(()) } else { Err(Unfit) } }
        }
    }
}

// Returns whether a number is in its kind's range and at most `most`.
fn is_number_fine(kind: Kind, most: Option<u32>, number: i128) -> bool
    ensures { result ≡ is_number_fine kind most number }
{
    is_in_range(kind, number) && is_within(most, number)
}

fn is_in_range(kind: Kind, number: i128) -> bool
    ensures { result ≡ in_range kind number }
{
    kind.in_range(number)
}

fn is_within(most: Option<u32>, number: i128) -> bool
    ensures { result ≡ is_within most number }
{
    match most {
        None => true,
        Some(most) => number <= i128::from(most),
    }
}

// Returns whether the cells from `first` up to `end` are at their defaults.
pub(crate) fn are_default(image: &Image, defaults: &Buffer, first: u32, end: u32) -> bool
    requires { HasForms image.now defaults.now end }
    ensures { result ≡ settle [] (formed defaults.now) image.now.numbers first (end - first) }
{
    for cell in first..end {
        if !is_default(image, defaults, cell) {
            return false;
        }
    }
    true
}

fn is_default(image: &Image, defaults: &Buffer, cell: u32) -> bool
    requires { HasForm image.now defaults.now cell }
    ensures { let default = (get_or (formed defaults.now) cell no_form).default in
        result ≡ same_number (get_or image.now.numbers cell (pos 0)) default }
{
    image.get(cell) == defaults.get(cell)
}
