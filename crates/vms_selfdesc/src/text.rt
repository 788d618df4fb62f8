// A text that is written piece by piece.
ghost use Rattle.std.specs.Prelude.{◌≡◌, true, IfOk, string_capacity};
ghost use Rattle.vms_selfdesc.specs.Drafts.{Extends, IsEmpty};

use vms_io::NoMemory;

// What has been written, and whether memory was enough for all of it. A piece that finds none is left
// out, so that a caller asks once, at the end.
#[derive(Drop)]
pub(crate) struct Text {
    pub(crate) written: String,
    pub(crate) whole: bool,
}

impl Text {
    // Appends `piece`.
    #[inline(always)]
    pub(crate) fn push(&mut self, piece: &str)
        ensures { Extends self.old self.new piece.now }
    {
        if self.written.push_str(piece).is_err() {
            self.whole = false;
        }
    }

    // Removes everything that was written. The room stays.
    pub(crate) fn clear(&mut self)
        ensures { IsEmpty self.new (string_capacity self.old.written) }
    {
        self.written.clear();
        self.whole = true;
    }

    // Returns what was written, if nothing is missing.
    pub(crate) fn finish(self) -> Result<String, NoMemory>
        ensures { IfOk result (λ s. (self.whole ≡ true) × (s ≡ self.written)) }
    {
        if self.whole {
            Ok(self.written)
        } else {
            Err(NoMemory)
        }
    }
}
