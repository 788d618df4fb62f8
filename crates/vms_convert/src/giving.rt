// The numbers of an older device that a newer device receives, cell by cell in the bytes of a part.
ghost use Rattle.std.specs.Prelude.{◌≡◌};
ghost use Rattle.vms_walk.specs.Inside.{IsInside};
ghost use Rattle.vms_walk.specs.Steps.{HasSpot};
ghost use Rattle.vms_desc.specs.Described.{described};
ghost use Rattle.vms_convert.specs.Changes.{Changes};
ghost use Rattle.vms_convert.specs.Giving.{MayGive, MayPut, give_partner, give_step};
ghost use Rattle.vms_convert.specs.OneDevice.{part_steps};

use std::convert::Infallible;
use vms_desc::{Cells, DescSet};
use vms_image::Image;
use vms_walk::{PartAt, WalkStep, Walker, walk};

/// An image and the partners of its cells.
#[derive(Clone, Copy)]
pub(crate) struct Gift<'a> {
    pub(crate) image: &'a Image,
    pub(crate) partners: &'a [Option<u32>],
}

/// Copies the number of each cell that is in the bytes of `part` into its partner in `target`.
pub(crate) fn give_part(set: &DescSet, part: PartAt, gift: Gift, target: &mut Image)
    requires part { HasSpot (described set.now) part gift.image.now.numbers }
    requires may { MayGive gift.image.now gift.partners.now target.old }
    ensures { let numbers = gift.entry.image.now.numbers in
        let steps = part_steps set.now part numbers in
        Changes (give_step gift.entry.partners.now numbers) steps target.old target.new }
{
    let mut giver = Giver {
        image: gift.image,
        target,
        partners: gift.partners,
    };
    match walk(set, part, &mut giver) {
        Ok(()) => (),
        Err(never) => match never {},
    }
}

// A walker that copies numbers of `image` into `target`.
#[derive(Drop)]
struct Giver<'a> {
    image: &'a Image,
    target: &'a mut Image,
    partners: &'a [Option<u32>],
}

impl Cells for Giver<'_> {
    ghost numbers = { λ giver. giver.image.now.numbers };

    fn number(&self, cell: u32) -> i128 {
        self.image.get(cell)
    }
}

impl Walker for Giver<'_> {
    ghost use Rattle.std.specs.Prelude.{◌≡◌, IfErr, refl};
    ghost use Rattle.std.proofs.Common.{ap, ◌∙◌};
    ghost use Rattle.vms_walk.proofs.Walking.{keeps_same};
    ghost use Rattle.vms_convert.specs.Changes.{Changes, changes_more};
    ghost use Rattle.vms_convert.specs.Giving.{MayGive, give_step, same_gifts};

    type Fault = Infallible;

    ghost does = { λ xs a result b. (b.target.ghost_name ≡ a.target.ghost_name)
        × (b.image ≡ a.image) × (b.partners ≡ a.partners)
        × Changes (give_step a.partners.now a.image.now.numbers) xs a.target.now b.target.now
        × IfErr result (λ never. ⊥) };

    ghost may = { λ a step. MayGive a.image.now a.partners.now a.target.now };

    ghost laws = { record {
      none = λ a. (refl, refl, refl, refl, tt);
      more = λ xs ys a b c result h k.
          let partners = ap (λ p. p.now) h.2 in
          let numbers = ap (λ image. image.now.numbers) h.1 in
          let steps = same_gifts a.partners.now b.partners.now _ _ partners numbers in
          let target = changes_more _ _ xs ys a.target.now b.target.now c.target.now steps in
          (k.0 ∙ h.0, k.1 ∙ h.1, k.2 ∙ h.2, target h.3 k.3, k.4);
      before = λ xs ys a b never h. absurd h.4;
      keeps = λ xs a b result h. keeps_same xs _ _ (ap (λ image. image.now.numbers) h.1);
    } };

    fn step(&mut self, step: WalkStep) -> Result<(), Infallible> {
        give_step(step, self.image, self.target, self.partners);
        Ok(())
    }
}

// Takes one step of the walk.
fn give_step(step: WalkStep, image: &Image, target: &mut Image, partners: &[Option<u32>])
    requires inside { IsInside image.now.numbers step }
    requires may { MayGive image.now partners.now target.old }
    ensures { let numbers = give_step partners.now image.now.numbers step target.old.numbers in
        target.new ≡ record target.old { numbers = numbers } }
{
    if let WalkStep::Number { cell, .. } = step {
        give_number(target, image.get(cell), partners[cell as usize]);
    }
}

// Copies a number to a partner, if there is one.
fn give_number(target: &mut Image, number: i128, partner: Option<u32>)
    requires { MayPut target.old number partner }
    ensures { target.new
        ≡ record target.old { numbers = give_partner number partner target.old.numbers } }
{
    if let Some(k) = partner {
        target.set(k, number);
    }
}
