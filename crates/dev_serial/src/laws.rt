// Laws of the definitions. Each is a clause of a function with an empty body.
ghost use Rattle.dev_serial.specs.Laws.{AlikeItself, AlikeBack, AlikeOn, ReadsKeepLevel, WritesKeepLevel, BytesInKeepLevel, AdvancesKeepLevel, ListsComeBack, HoldsWhatItGives, SavedAreCells, SavedComesBack, SoundMeetsRules, RestoredIsSound, ReadsAlike, WritesAlike, BytesInAlike, AdvancesAlike, SavesAlike, LinesAlike, PowerOnIsSound, ReadsKeepSound, WritesKeepSound, BytesInKeepSound, AdvancesKeepSound};
ghost use Rattle.dev_serial.specs.Recast.{RecastOnce};
ghost use Rattle.dev_serial.specs.RegisterLaws.{IdentifiesFirst, LineTellsAsking, SwitchClearsBoth, ResetsByBits, StaysOff, WritesSwitch, ReachesDivisor, LoopsModem};
ghost use Rattle.dev_serial.specs.RoomLaws.{RoomIsHeld};
ghost use Rattle.dev_serial.specs.Sending.{SendsInOrder, ReplacesOne, LeavesForLine, AdvancesInParts, WaitsUntilDue, LoopsAtMoment, LongestCharacter};
ghost use Rattle.dev_serial.specs.Places.{PlacesAre};
ghost use Rattle.dev_serial.specs.SheetNumbers.{NumbersAre};

/// States the numbers that this crate uses.
///
/// A FIFO holds sixteen bytes, `MOST_SENT` is 17, and the longest character takes 6,826,562,500
/// nanoseconds. FIFOs, the character timeout and rings exist from the levels 2, 3 and 4 on.
#[tactic(auto, using(crate::proofs::RegisterLaws::numbers_are))]
pub fn numbers_law()
    ensures { NumbersAre }
{}

/// States the index of each field's first cell, and of the number of bytes in each ring, among the
/// `PORT_CELLS` of the newest set.
#[tactic(auto, using(crate::proofs::SavedCells::places_are))]
pub fn places_law()
    ensures { PlacesAre }
{}

/// States that likeness of ports is an equivalence.
///
/// A port is like itself. If a port is like another, the other is like it. If that one is like a
/// third, so is the first.
#[tactic(auto, using(crate::proofs::AlikeLaws::alike_itself, crate::proofs::AlikeLaws::alike_back, crate::proofs::AlikeLaws::alike_on))]
pub fn likeness_law()
    ensures itself { AlikeItself }
    ensures back { AlikeBack }
    ensures on { AlikeOn }
{}

/// States that ports that are alike behave alike.
///
/// `read`, `write`, `byte_in` and `advance` give equal results and leave the ports alike. Their
/// interrupt lines are equal, and they save the same cells.
#[tactic(auto, using(crate::proofs::AlikeLaws::reads_alike, crate::proofs::AlikeLaws::writes_alike, crate::proofs::AlikeLaws::bytes_in_alike, crate::proofs::AlikeLaws::advances_alike, crate::proofs::AlikeLaws::saves_alike, crate::proofs::AlikeLaws::lines_alike))]
pub fn alike_law()
    ensures reads { ReadsAlike }
    ensures writes { WritesAlike }
    ensures bytes_in { BytesInAlike }
    ensures advances { AdvancesAlike }
    ensures saves { SavesAlike }
    ensures lines { LinesAlike }
{}

/// States that a new [`Serial`](crate::Serial) is sound at any moment.
///
/// `read`, `write`, `byte_in` and `advance` keep it sound.
pub fn sound_law()
    ensures power_on { PowerOnIsSound }
    ensures reads { ReadsKeepSound }
    ensures writes { WritesKeepSound }
    ensures bytes_in { BytesInKeepSound }
    ensures advances { AdvancesKeepSound }
{}

/// States that `read`, `write`, `byte_in` and `advance` keep the port's level.
#[tactic(auto, using(crate::proofs::RegisterLaws::reads_keep_level, crate::proofs::RegisterLaws::writes_keep_level, crate::proofs::RegisterLaws::bytes_in_keep_level, crate::proofs::RegisterLaws::advances_keep_level))]
pub fn level_law()
    ensures reads { ReadsKeepLevel }
    ensures writes { WritesKeepLevel }
    ensures bytes_in { BytesInKeepLevel }
    ensures advances { AdvancesKeepLevel }
{}

/// States that a list of at most sixteen bytes can be read back from its ring and its counted
/// array.
///
/// That ring meets the rule of rings. The elements that a ring holds are exactly those that its
/// list of bytes is read from.
pub fn ring_law()
    ensures back { ListsComeBack }
    ensures held { HoldsWhatItGives }
{}

/// States that the `cells` of a sound port under a set from its level on are cells of that set.
///
/// Each cell is of its kind, and the counted arrays agree with their counts. The cells of a
/// subsection that isn't needed have their defaults.
pub fn cells_law()
    ensures { SavedAreCells }
{}

/// States that a sound port that is saved by `cells` is restored by `of_cells` as a port like it.
///
/// This holds for each set from the port's level on, after its cells are carried to the newest set.
pub fn saved_law()
    ensures { SavedComesBack }
{}

/// States that a port that `of_cells` restores is sound and has the level of the pass.
pub fn restored_law()
    ensures { RestoredIsSound }
{}

/// States that the ten rules of `of_cells` describe exactly the sound ports.
///
/// Of the ports that a stream can describe, those are sound for which each rule holds for what the
/// newest set saves.
pub fn rules_law()
    ensures { SoundMeetsRules }
{}

/// States that `advance` sends bytes in the order in which they were written, each once.
///
/// Only bytes that are written to a full FIFO, or that are replaced while FIFOs are off, are lost.
/// What is sent leaves on the line, except in loop mode.
pub fn sending_law()
    ensures in_order { SendsInOrder }
    ensures replaced { ReplacesOne }
    ensures for_line { LeavesForLine }
{}

/// States when bytes are sent.
///
/// Letting time pass in two parts has the same effect as letting it pass at once. No byte is sent
/// before its moment. In loop mode a byte is received at the moment at which it is sent. The
/// longest character takes `LONGEST_CHARACTER`, 6,826,562,500 nanoseconds.
#[tactic(auto, using(crate::proofs::WaitLaws::advances_in_parts, crate::proofs::WaitLaws::waits_until_due, crate::proofs::WaitLaws::loops_at_moment, crate::proofs::SoundLaws::longest_character))]
pub fn time_law()
    ensures in_parts { AdvancesInParts }
    ensures not_before { WaitsUntilDue }
    ensures loops { LoopsAtMoment }
    ensures longest { LongestCharacter }
{}

/// States that the identified interrupt is pending and that none of higher priority is.
///
/// The interrupt line, [`Serial::line`](crate::Serial::line), is high exactly if one is pending.
pub fn interrupt_law()
    ensures first { IdentifiesFirst }
    ensures line { LineTellsAsking }
{}

/// States what a write of the FIFO Control Register does.
///
/// Switching the FIFOs on or off clears both lists. While they stay on, bit 1 clears the receive
/// list and bit 2 the transmit list. While they stay off, nothing changes. The latch is set if
/// waiting bytes are cleared, and the shift register isn't affected.
#[tactic(auto, using(crate::proofs::RegisterLaws::switch_clears_both, crate::proofs::RegisterLaws::resets_by_bits, crate::proofs::RegisterLaws::stays_off, crate::proofs::RegisterLaws::writes_switch))]
pub fn fifo_control_law()
    ensures switched { SwitchClearsBoth }
    ensures reset { ResetsByBits }
    ensures stays_off { StaysOff }
    ensures written { WritesSwitch }
{}

/// States how the divisor latch is read and written.
///
/// While bit 7 of the Line Control Register is set, offsets 0 and 1 are the low and the high byte
/// of the divisor. While it is clear, no write changes the divisor.
#[tactic(auto, using(crate::proofs::RegisterLaws::reaches_divisor))]
pub fn divisor_law()
    ensures { ReachesDivisor }
{}

/// States that the Modem Status Register reads the modem control's outputs in loop mode.
///
/// Its four bits for changes of the inputs are 0.
#[tactic(auto, using(crate::proofs::RegisterLaws::loops_modem))]
pub fn modem_law()
    ensures { LoopsModem }
{}

/// States that `recast` is idempotent and that its result is equivalent to its argument.
///
/// The result has the kinds of the newest set, and is restored as the argument is. If no
/// direction's bytes are in the ring alone, the cells stay as they are.
#[tactic(auto, using(crate::proofs::RecastLaws::recast_once))]
pub fn recast_law()
    ensures { RecastOnce }
{}

/// States that bytes up to the port's `room` are held in order and none is lost.
///
/// If there is no room, one more byte sets the overrun flag, except in loop mode.
#[tactic(auto, using(crate::proofs::RegisterLaws::room_is_held))]
pub fn room_law()
    ensures { RoomIsHeld }
{}
