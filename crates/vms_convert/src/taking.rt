// The numbers of a newer device that an older one takes, cell by cell in the bytes of a part.
ghost use Rattle.std.specs.Prelude.{◌≡◌};
ghost use Rattle.vms_walk.specs.Inside.{IsInside};
ghost use Rattle.vms_walk.specs.Steps.{HasSpot};
ghost use Rattle.vms_desc.specs.Described.{described};
ghost use Rattle.vms_convert.specs.Changes.{Changes};
ghost use Rattle.vms_convert.specs.OneDevice.{part_steps};
ghost use Rattle.vms_convert.specs.Putting.{MayTake, MayTakeAt, put_partner, put_step};

use std::convert::Infallible;
use vms_desc::{Cells, DescSet};
use vms_image::Image;
use vms_walk::{PartAt, WalkStep, Walker, is_above, walk};

/// Sets each cell that is in the bytes of `part` to its partner's number, unless the number is
/// above the cell's capacity.
///
/// Which cells are in the bytes depends on the numbers that are set.
pub(crate) fn take_part(
    set: &DescSet,
    part: PartAt,
    image: &mut Image,
    source: &Image,
    partners: &[Option<u32>],
)
    requires part { HasSpot (described set.now) part image.old.numbers }
    requires may { MayTake image.old source.now partners.now }
    ensures { let steps = part_steps set.now part image.new.numbers in
        Changes (put_step partners.now source.now.numbers) steps image.old image.new }
{
    let mut taker = Taker {
        image,
        source,
        partners,
    };
    match walk(set, part, &mut taker) {
        Ok(()) => (),
        Err(never) => match never {},
    }
}

// A walker that takes numbers of `source` into the image.
#[derive(Drop)]
struct Taker<'a> {
    image: &'a mut Image,
    source: &'a Image,
    partners: &'a [Option<u32>],
}

impl Cells for Taker<'_> {
    ghost numbers = { λ taker. taker.image.now.numbers };

    fn number(&self, cell: u32) -> i128 {
        self.image.get(cell)
    }
}

impl Walker for Taker<'_> {
    ghost use Rattle.std.specs.Prelude.{◌≡◌, IfErr, refl};
    ghost use Rattle.std.proofs.Common.{ap, ◌∙◌};
    ghost use Rattle.vms_convert.specs.Changes.{Changes, changes_more};
    ghost use Rattle.vms_convert.specs.Putting.{MayTake, put_step};
    ghost use Rattle.vms_convert.specs.Takes.{takes_keeps, same_steps};

    type Fault = Infallible;

    ghost does = { λ xs a result b. (b.image.ghost_name ≡ a.image.ghost_name)
        × (b.source ≡ a.source) × (b.partners ≡ a.partners)
        × Changes (put_step a.partners.now a.source.now.numbers) xs a.image.now b.image.now
        × IfErr result (λ never. ⊥) };

    ghost may = { λ a step. MayTake a.image.now a.source.now a.partners.now };

    ghost laws = { record {
      none = λ a. (refl, refl, refl, refl, tt);
      more = λ xs ys a b c result h k.
          let partners = ap (λ p. p.now) h.2 in
          let source = ap (λ s. s.now.numbers) h.1 in
          let steps = same_steps a.partners.now b.partners.now _ _ partners source in
          let image = changes_more _ _ xs ys a.image.now b.image.now c.image.now steps h.3 k.3 in
          (k.0 ∙ h.0, k.1 ∙ h.1, k.2 ∙ h.2, image, k.4);
      before = λ xs ys a b never h. absurd h.4;
      keeps = λ xs a b result h.
          takes_keeps a.partners.now a.source.now.numbers xs a.image.now b.image.now h.3;
    } };

    fn step(&mut self, step: WalkStep) -> Result<(), Infallible> {
        take_step(step, self.image, self.source, self.partners);
        Ok(())
    }
}

// Takes one step of the walk.
fn take_step(step: WalkStep, image: &mut Image, source: &Image, partners: &[Option<u32>])
    requires inside { IsInside image.old.numbers step }
    requires may { MayTake image.old source.now partners.now }
    ensures { let numbers = put_step partners.now source.now.numbers step image.old.numbers in
        image.new ≡ record image.old { numbers = numbers } }
{
    if let WalkStep::Number { cell, most, .. } = step {
        take_number(image, cell, most, source, partners[cell as usize]);
    }
}

// Takes one number, if its cell has a partner.
fn take_number(
    image: &mut Image,
    cell: u32,
    most: Option<u32>,
    source: &Image,
    partner: Option<u32>,
)
    requires { MayTakeAt image.old source.now cell partner }
    ensures { let numbers = put_partner source.now.numbers cell most partner image.old.numbers in
        image.new ≡ record image.old { numbers = numbers } }
{
    if let Some(k) = partner {
        let number = source.get(k);
        if !is_above(number, most) {
            image.set(cell, number);
        }
    }
}
