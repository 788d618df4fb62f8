// Restores a board.
ghost use Rattle.std.specs.Prelude.{◌≡◌, IfErr, IfOk, OnErr, OnOk};
ghost use Rattle.vms_io.specs.Told.{intake};
ghost use Rattle.vms_load.specs.Lean.{loads, has, taken_by};
ghost use Rattle.vms_board.specs.Comes.{CanRestore, CanTake, IsUnfit, RestoreReads, TakingsRead};
ghost use Rattle.vms_board.specs.Comes.{refusal_of as refusal_by};
ghost use Rattle.vms_board.specs.Family.{lists_in};

use crate::board::MachineBoard;
use crate::machine::Machine;
use dev_board::Misfit;
use thiserror::Error;
use vms_io::Source;
use vms_load::{LeanLoader, LoadFault, Reason, Refusal};

/// Why a board wasn't restored. It is as it was.
#[derive(Debug, Drop, Error)]
pub enum RestoreFault {
    /// The input isn't a stream of the newest set that names this board's machine or none, or no
    /// board has the state in it.
    #[error("the stream is refused")]
    Refused(Refusal),
    /// The source failed and counted a failure.
    #[error("a read has failed")]
    ReadFault,
}

impl<M: Machine> MachineBoard<M> {
    /// Reads one stream from `source` and restores the board from it.
    ///
    /// The stream is one of the newest set, and names this board's machine or none. No memory is
    /// allocated.
    ///
    /// # Errors
    ///
    /// After an error the board is as it was.
    ///
    /// - [`RestoreFault::Refused`]: the input is invalid, or no board has the state in it. In the
    ///   second case the whole stream is valid. The reason is then the first rule that fails, by
    ///   devices and then by rules (`Unsound`); or `LinesDisagree`, if the master remembers other
    ///   lines than the devices have.
    /// - [`RestoreFault::ReadFault`]: the source failed.
    pub fn restore<S: Source>(&mut self, source: &mut S) -> Result<(), RestoreFault>
        ensures reads { RestoreReads M.family (M.family.number self.old.state)
            (intake S.Source source.old) (intake S.Source source.new) self.new result }
        ensures same { OnErr result (self.new ≡ self.old) }
        ensures sound { M.is_sound self.new.state }
        ensures number { M.family.number self.new.state ≡ M.family.number self.old.state }
    {
        let number = self.devices.number();
        take::<M, S>(&mut self.loader, number, source)?;
        self.devices = devices_of(number, &self.loader)?;
        self.taken = self.loader.taken();
        Ok(())
    }
}

// Reads a stream that names the machine with the number `number` or none.
fn take<M: Machine, S: Source>(
    loader: &mut LeanLoader,
    number: u8,
    source: &mut S,
) -> Result<(), RestoreFault>
    requires { CanTake M.family loader.old number }
    ensures reads { TakingsRead M.family number (intake S.Source source.old)
        (intake S.Source source.new) (has loader.new) (taken_by loader.new) result }
    ensures newest { loads loader.new ≡ M.family.set M.family.newest }
    ensures told { OnOk result (M.are_told (lists_in (has loader.new))) }
{
    match loader.load(source, Some(u32::from(number - 1))) {
        Ok(_) => Ok(()),
        Err(LoadFault::Refused(refusal)) => Err(RestoreFault::Refused(refusal)),
        Err(LoadFault::ReadFault) => Err(RestoreFault::ReadFault),
    }
}

// Returns the devices in the images that `loader` has, or the refusal of the stream.
#[inline(always)]
fn devices_of<M: Machine>(number: u8, loader: &LeanLoader) -> Result<M, RestoreFault>
    requires { CanRestore M.are_told M.family loader.now number }
    ensures restored { let lists = lists_in (has loader.now) in
        IfOk result (λ devices. M.family.restored number lists ≡ Ok devices) }
    ensures sound { IfOk result M.is_sound }
    ensures unfit { IfErr result (IsUnfit M.family number (taken_by loader.now) (has loader.now)) }
{
    match M::of_images(number, loader.images()) {
        Ok(devices) => Ok(devices),
        Err(misfit) => Err(RestoreFault::Refused(refusal_of(loader.taken(), misfit))),
    }
}

// Returns the refusal of a stream of `taken` bytes whose cells no board has.
fn refusal_of(taken: u64, misfit: Misfit) -> Refusal
    ensures { result ≡ refusal_by taken misfit }
{
    match misfit {
        Misfit::Unsound { device, rule } => Refusal {
            section: Some(device),
            at: taken,
            reason: Reason::Unsound(rule),
        },
        Misfit::LinesDisagree { device } => Refusal {
            section: Some(device),
            at: taken,
            reason: Reason::LinesDisagree,
        },
    }
}
