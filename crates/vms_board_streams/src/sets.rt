// The sets of a family that saves have used, kept for later saves.
ghost use Rattle.std.specs.List.{All};
ghost use Rattle.std.specs.Prelude.{◌≡◌, ◌≤◌, None, IfOk, IfSome};
ghost use Rattle.vms_board.specs.Family.{MaySaveIn};
ghost use Rattle.vms_board.specs.Saving.{saved_stream, stream_with};
ghost use Rattle.vms_board_streams.specs.Sets.{AreOf, IsOf};
ghost use Rattle.vms_desc.specs.Described.{described};

use crate::memory::{bare_under, stream_again};
use std::alloc::Global;
use vms_board::{LastDescription, Machine, MachineBoard, NoMemory};
use vms_desc::DescSet;

/// A set and its number.
#[derive(Drop)]
struct KeptSet {
    number: u8,
    set: DescSet,
}

/// The sets that saves of one family's boards have used, each made once, and the description of the
/// last save.
#[derive(Drop)]
pub struct KeptSets {
    sets: Vec<KeptSet>,
    last: LastDescription,
}

impl KeptSets {
    /// Creates an empty list of sets.
    pub fn new<M: Machine>(alloc: Global) -> KeptSets
        ensures { AreOf M.family result }
    {
        KeptSets {
            sets: Vec::new(alloc),
            last: LastDescription::new::<M>(alloc),
        }
    }

    /// Returns the allocator of the sets.
    pub fn alloc(&self) -> Global {
        *self.sets.allocator()
    }

    // Keeps a set under its number. Fails only if memory runs out.
    fn keep<M: Machine>(&mut self, number: u8, set: DescSet) -> Result<(), NoMemory>
        requires of { AreOf M.family self.old }
        requires set { described set ≡ M.family.set number }
        ensures { AreOf M.family self.new }
    {
        self.sets.push(KeptSet { number, set })?;
        Ok(())
    }
}

// Returns the set with the number `number`, if it is kept.
fn find<M: Machine>(sets: &[KeptSet], number: u8) -> Option<&DescSet>
    requires { All (IsOf M.family) sets.now }
    ensures { IfSome result (λ set. described set.now ≡ M.family.set number) }
{
    for kept in sets {
        if kept.number == number {
            return Some(&kept.set);
        }
    }
    None
}

/// Returns the stream of `board` as `stream_of` does, and keeps the set for later saves.
///
/// If the set is in `sets`, it isn't made again, and neither is the description of the last save if
/// it is the same.
///
/// # Errors
///
/// [`NoMemory`] if memory runs out.
///
/// # Requires
///
/// `set` is as `stream_of` requires, and `sets` are of the board's family.
pub fn stream_by<M: Machine>(
    alloc: Global,
    board: &MachineBoard<M>,
    set: u8,
    sets: &mut KeptSets,
) -> Result<Vec<u8>, NoMemory>
    requires may { MaySaveIn M.family board.now.state set }
    requires sets { AreOf M.family sets.old }
    ensures stream { let bytes = saved_stream M.family set board.now.state in
        IfOk result (λ stream. stream.items ≡ bytes) }
    ensures sets { AreOf M.family sets.new }
{
    if set == M::newest() {
        return stream_again(board, set, board.set(), &mut sets.last);
    }
    if let Some(own) = find::<M>(&sets.sets, set) {
        return stream_again(board, set, own, &mut sets.last);
    }
    let own = M::set(alloc, set)?;
    let stream = stream_again(board, set, &own, &mut sets.last)?;
    sets.keep::<M>(set, own)?;
    Ok(stream)
}

/// Returns the stream of `board` without a description, and keeps the set for later saves.
///
/// If the set is in `sets`, it isn't made again.
///
/// # Errors
///
/// [`NoMemory`] if memory runs out.
///
/// # Requires
///
/// `set` is a number from the board's to the newest, and `sets` are of the board's family.
pub fn bare_by<M: Machine>(
    alloc: Global,
    board: &MachineBoard<M>,
    set: u8,
    sets: &mut KeptSets,
) -> Result<Vec<u8>, NoMemory>
    requires may { MaySaveIn M.family board.now.state set }
    requires sets { AreOf M.family sets.old }
    ensures stream { let bytes = stream_with M.family set board.now.state None in
        IfOk result (λ stream. stream.items ≡ bytes) }
    ensures sets { AreOf M.family sets.new }
{
    if set == M::newest() {
        return bare_under(alloc, board, set, board.set());
    }
    if let Some(own) = find::<M>(&sets.sets, set) {
        return bare_under(alloc, board, set, own);
    }
    let own = M::set(alloc, set)?;
    let stream = bare_under(alloc, board, set, &own)?;
    sets.keep::<M>(set, own)?;
    Ok(stream)
}
