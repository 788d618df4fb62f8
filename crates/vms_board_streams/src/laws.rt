// Laws of the streams of boards. Each is a clause of a function with an empty body.
ghost use Rattle.dev_board.specs.Sound.{IsSound, Alike};
ghost use Rattle.dev_clock.specs.Sound.{IsSound as IsSoundClock, Alike as AlikeClocks};
ghost use Rattle.vms_board.specs.Clock.{clock};
ghost use Rattle.vms_board.specs.Isa.{isa};
ghost use Rattle.vms_board_streams.specs.Streams.{StreamsComeBack, BoardsGoOn, BytesAreOne, StreamsAreShort, StreamsAreBytes};

/// States that the stream of a sound board restores a board like it, for each set from its level
/// on.
///
/// The restore reads the whole stream. Whatever a restore of these bytes results in is that board,
/// and none is refused.
#[tactic(auto, using(crate::proofs::BoardStreams::isa_laws))]
pub fn stream_law()
    ensures { StreamsComeBack isa Alike IsSound }
{}

/// States that the stream of a sound board is shorter than `STREAM_ROOM`, 65,536 bytes.
#[tactic(auto, using(crate::proofs::BoardStreams::isa_are_short))]
pub fn short_law()
    ensures { StreamsAreShort isa IsSound }
{}

/// States that each number in the stream of a sound board is a byte, less than 256.
#[tactic(auto, using(crate::proofs::BoardStreams::isa_are_bytes))]
pub fn octets_law()
    ensures { StreamsAreBytes isa IsSound }
{}

/// States that a restored board continues as the saved one does.
///
/// The stream of a sound board under any set from its level on may have any description that fits,
/// or none. On the board that it restores, each list of events leaves the same trace as on the
/// saved board.
#[tactic(auto, using(crate::proofs::BoardStreams::isa_laws))]
pub fn continuation_law()
    ensures { BoardsGoOn isa Alike IsSound }
{}

/// States that restoring a [`Board`](vms_board::Board) from bytes has exactly one outcome.
///
/// It is the board that their stream restores, or one refusal.
#[tactic(auto, using(crate::proofs::BoardStreams::isa_laws))]
pub fn bytes_law()
    ensures { BytesAreOne isa }
{}

/// States that the stream of a sound clock board restores a board like it, and nothing else.
///
/// This holds for each clock set from its version on.
#[tactic(auto, using(crate::proofs::BoardStreams::clock_laws))]
pub fn clock_stream_law()
    ensures { StreamsComeBack clock AlikeClocks IsSoundClock }
{}

/// States that the stream of a sound clock board is shorter than `STREAM_ROOM`, 65,536 bytes.
#[tactic(auto, using(crate::proofs::BoardStreams::clock_are_short))]
pub fn clock_short_law()
    ensures { StreamsAreShort clock IsSoundClock }
{}

/// States that each number in the stream of a sound clock board is a byte.
#[tactic(auto, using(crate::proofs::BoardStreams::clock_are_bytes))]
pub fn clock_octets_law()
    ensures { StreamsAreBytes clock IsSoundClock }
{}

/// States that a restored clock board continues as the saved one does.
///
/// The stream of a sound clock board under any clock set from its version on may have any
/// description that fits, or none. On the board that it restores, each list of events leaves the
/// same trace as on the saved board.
#[tactic(auto, using(crate::proofs::BoardStreams::clock_laws))]
pub fn clock_continuation_law()
    ensures { BoardsGoOn clock AlikeClocks IsSoundClock }
{}

/// States that restoring a [`ClockBoard`](vms_board::ClockBoard) from bytes has one outcome.
#[tactic(auto, using(crate::proofs::BoardStreams::clock_laws))]
pub fn clock_bytes_law()
    ensures { BytesAreOne clock }
{}
