//! Laws of the whole program. Each is the contract of a function with an empty body. The statements
//! are in `specs/Laws.antt`, `specs/AnalyzeLaws.antt`, `specs/ClockSets.antt`,
//! `specs/ConvertLaws.antt`, `specs/Limits.antt` and `specs/States.antt`.
ghost use Rattle.vms_cli.specs.AnalyzeLaws.{PackThenAnalyzeLaw, SaveThenAnalyzeLaw, ShowThenAnalyzeLaw};
ghost use Rattle.vms_cli.specs.ClockSets.{ClockSetsLaw};
ghost use Rattle.vms_cli.specs.ConvertLaws.{ConvertAgainLaw, ConvertThenAnalyzeLaw, ConvertThenLoadLaw};
ghost use Rattle.vms_cli.specs.Limits.{LimitsLaw};
ghost use Rattle.vms_cli.specs.States.{AlwaysNamedLaw, StateLaw};
ghost use Rattle.vms_cli.specs.Laws.{AskedLaw, CheckThenShowLaw, OutcomeLaw, CompleteLaw, AmpleLaw, PackThenShowLaw, ShowThenPackLaw};

/// States that a call has exactly one outcome, whatever the arguments, the input's bytes and the
/// shelf's bytes are.
///
/// The laws `octets` of [`Source`](vms_io::Source) and of [`Shelf`](vms_io::Shelf) say that these
/// hold bytes.
#[tactic(auto, using(crate::proofs::OutcomeLaws::outcome_holds))]
pub fn outcome_law()
    ensures { OutcomeLaw }
{}

/// States that arguments name only existing boards, and for `save` a set of the board's kind at or
/// above it.
#[tactic(auto, using(crate::proofs::Entries::words_ask))]
pub fn asked_law()
    ensures { AskedLaw }
{}

/// States that a call ends with status 0, or with 10 if memory runs out, under these conditions:
///
/// - the arguments name a command;
/// - everything that it reads is there and in its grammar;
/// - no object counts a failure in the call.
#[tactic(auto, using(crate::proofs::OutcomeLaws::complete_holds))]
pub fn complete_law()
    ensures { CompleteLaw }
{}

/// States that no object counts a failure in a call under these conditions, if the outcome is
/// known:
///
/// - no object lists failing calls;
/// - standard output has room for the outcome's text;
/// - standard error has room for its line and for that of a failure.
#[tactic(auto, using(crate::proofs::OutcomeLaws::ample_holds))]
pub fn ample_law()
    ensures { AmpleLaw }
{}

/// States that `show NEW` prints each stream that OLD's set wrote of ready images, as carried, if
/// `check OLD NEW` succeeded.
///
/// The whole stream is read, or the call stops early.
pub fn check_then_show_law()
    ensures { CheckThenShowLaw }
{}

/// States that `show` prints the text from which `pack` made a stream.
pub fn pack_then_show_law()
    ensures { PackThenShowLaw }
{}

/// States that `analyze` prints the text from which `pack` made a stream, without the set.
pub fn pack_then_analyze_law()
    ensures { PackThenAnalyzeLaw }
{}

/// States that `show` with the set named to `save`, and `analyze`, print the same text for what
/// `save` wrote, and read all of it.
pub fn save_then_analyze_law()
    ensures { SaveThenAnalyzeLaw }
{}

/// States that `show` with the set named to `convert`, and `analyze`, print the same text for what
/// `convert` wrote, and read all of it.
pub fn convert_then_analyze_law()
    ensures { ConvertThenAnalyzeLaw }
{}

/// States that `convert` writes a stream which is one of the newest set too, with its input's
/// machine and cells.
///
/// Only the bytes of FIFOs differ: they move from rings into arrays, if the set keeps them so.
/// `convert` with the set gives the same bytes for that stream.
pub fn convert_again_law()
    ensures { ConvertAgainLaw }
{}

/// States that `load` on a board `isa-1` to `isa-4` has the same trace for what `convert` wrote as
/// for the input of `convert`.
///
/// The whole stream is read.
pub fn convert_then_load_law()
    ensures { ConvertThenLoadLaw }
{}

/// States that `analyze` prints the same text as `show` for a stream that was written under the
/// set, with its description.
pub fn show_then_analyze_law()
    ensures { ShowThenAnalyzeLaw }
{}

/// States that `pack` makes the same stream again from the text that `show` printed for a written
/// stream, with or without a machine.
pub fn show_then_pack_law()
    ensures { ShowThenPackLaw }
{}

/// States what holds of a state that is the answer to the two sets named to `counter`.
///
/// `counter` prints it. The old set packs its text. `show` with the new set refuses the old set's
/// stream of it at the printed place and for the printed reason. It refuses the stream with a
/// description as well, unless the reason is that the stream ends too early.
pub fn state_law()
    ensures { StateLaw }
{}

/// States when `counter` prints the old set's defaults as a state that the new set refuses.
///
/// The first rule that fails is that of machines, of a device's version, or of a constant in a
/// field of a device that is always present; and the defaults are ready.
pub fn always_named_law()
    ensures { AlwaysNamedLaw }
{}

/// States that the outcome of `check @c1 @c2` is that the sets are compatible, whatever the input
/// and the shelf are.
#[tactic(auto, using(crate::proofs::KindLaws::clock_sets_hold))]
pub fn clock_sets_law()
    ensures { ClockSetsLaw }
{}

/// States the numbers behind the constants that the definitions cite: limits of files, scripts,
/// drills, names and sets, the newest shipped sets, and times.
#[tactic(auto, using(crate::proofs::OutcomeLaws::limits_hold))]
pub fn limits_law()
    ensures { LimitsLaw }
{}
