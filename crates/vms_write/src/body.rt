// The bytes of a part, step by step.
ghost use Rattle.vms_io.specs.Told.{outlet};
ghost use Rattle.vms_io.specs.Writing.{Wrote};
ghost use Rattle.vms_write.specs.Bytes.{step_bytes};
ghost use Rattle.vms_write.specs.Calls.{CanWriteFields, CanWriteStep, fields_bytes};

use crate::WriteFault;
use crate::pieces::{append, write_zeros};
use vms_desc::{Cells, DescSet};
use vms_image::Image;
use vms_io::Sink;
use vms_kinds::Kind;
use vms_walk::{PartAt, WalkStep, Walker, walk};

// Writes the bytes of the part at `spot` to `sink`.
pub(crate) fn write_fields<K: Sink>(
    set: &DescSet,
    spot: PartAt,
    image: &Image,
    sink: &mut K,
) -> Result<(), WriteFault>
    requires { CanWriteFields set.now spot image.now }
    ensures { let bytes = fields_bytes set.now spot image.now.numbers in
        Wrote (outlet K.Sink sink.old) (outlet K.Sink sink.new) bytes result }
{
    let mut writer = Writer { image, sink };
    match walk(set, spot, &mut writer) {
        Ok(()) => Ok(()),
        Err(fault) => Err(fault),
    }
}

// Writes each step that is in the bytes.
#[derive(Drop)]
struct Writer<'a, K> {
    image: &'a Image,
    sink: &'a mut K,
}

impl<K: Sink> Cells for Writer<'_, K> {
    ghost numbers = { λ writer. writer.image.now.numbers };

    fn number(&self, cell: u32) -> i128 {
        self.image.get(cell)
    }
}

impl<K: Sink> Walker for Writer<'_, K> {
    ghost use Rattle.std.specs.Prelude.{◌≡◌, refl};
    ghost use Rattle.std.proofs.Common.{ap, ◌∙◌};
    ghost use Rattle.vms_walk.proofs.Walking.{keeps_same};
    ghost use Rattle.vms_write.specs.Bytes.{CanStep};
    ghost use Rattle.vms_io.specs.Told.{outlet};
    ghost use Rattle.vms_io.specs.Writing.{Wrote};
    ghost use Rattle.vms_io.proofs.WritingLemmas.{puts_none};
    ghost use Rattle.vms_write.specs.Bytes.{bytes_of};
    ghost use Rattle.vms_write.specs.Wrote.{wrote_then, stops_before};

    type Fault = WriteFault;

    ghost does = { λ xs a result b.
        (b.sink.ghost_name ≡ a.sink.ghost_name) × (b.image ≡ a.image)
        × Wrote (outlet K.Sink a.sink.now) (outlet K.Sink b.sink.now)
        (bytes_of a.image.now.numbers xs) result };

    ghost may = { λ a step. CanStep a.image.now.kinds step };

    ghost laws = { record {
      none = λ a. (refl, refl, puts_none _);
      more = λ xs ys a b c result h k.
          let same = ap (λ image. image.now.numbers) h.1 in
          (k.0 ∙ h.0, k.1 ∙ h.1, wrote_then _ _ _ xs ys result same h.2 k.2);
      before = λ xs ys a b fault h. (h.0, h.1, stops_before _ xs ys h.2);
      keeps = λ xs a b result h. keeps_same xs _ _ (ap (λ image. image.now.numbers) h.1);
    } };

    #[inline(always)]
    fn step(&mut self, step: WalkStep) -> Result<(), WriteFault> {
        write_step(self.image, step, self.sink)
    }

    #[inline(always)]
    fn run(&mut self, first: u32, count: u32, kind: Kind) -> Result<(), WriteFault> {
        append(self.sink, self.image.codes(first, count, kind))
    }

    // Whether validations hold doesn't change what is written.
    #[inline(always)]
    fn rules(&mut self, _: &DescSet, _: PartAt) -> Result<(), WriteFault> {
        Ok(())
    }
}

#[inline(always)]
fn write_step<K: Sink>(image: &Image, step: WalkStep, sink: &mut K) -> Result<(), WriteFault>
    requires { CanWriteStep image.now step }
    ensures { let bytes = step_bytes image.now.numbers step in
        Wrote (outlet K.Sink sink.old) (outlet K.Sink sink.new) bytes result }
{
    match step {
        WalkStep::Number { cell, .. } => append(sink, image.code(cell)),
        WalkStep::Constant { kind, value } => append(sink, kind.put(value).as_slice()),
        WalkStep::Filler { bytes } => write_zeros(bytes, sink),
        WalkStep::Rule { .. } => Ok(()),
    }
}
