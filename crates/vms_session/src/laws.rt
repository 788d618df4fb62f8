// Laws of sessions. Each is the contract of a function with an empty body.
ghost use Rattle.vms_session.specs.Laws.{RefusalsLeave, SessionsAreOne};
ghost use Rattle.vms_session.specs.Laws.{LevelStays, SessionsStaySound, SessionsEnd, LinesAreOne};

/// States that a `restore` of a stream that isn't there, is too large or is refused leaves only its
/// line: the session is unchanged, and all later lines do what they do without it.
#[tactic(auto, using(crate::proofs::SoundLaws::refusals_leave))]
pub fn refusal_law()
    ensures { RefusalsLeave }
{}

/// States that no session changes its board's level.
#[tactic(auto, using(crate::proofs::SoundLaws::level_stays))]
pub fn level_law()
    ensures { LevelStays }
{}

/// States that no session makes its board unsound, neither by an event nor by restoring any bytes.
#[tactic(auto, using(crate::proofs::SoundLaws::sessions_stay_sound))]
pub fn sound_law()
    ensures { SessionsStaySound }
{}

/// States that each script of a session has a trace and an end, whatever bytes the shelf holds.
#[tactic(auto, using(crate::proofs::EndLaws::sessions_end))]
pub fn end_law()
    ensures { SessionsEnd }
{}

/// States that a line of a session has exactly one text and one session after it.
#[tactic(auto, using(crate::proofs::SoundLaws::lines_are_one))]
pub fn line_law()
    ensures { LinesAreOne }
{}

/// States that a script of a session has exactly one trace and one session after it, if the shelf
/// holds bytes; and that it holds bytes afterwards.
#[tactic(auto, using(crate::proofs::EndLaws::sessions_are_one))]
pub fn script_law()
    ensures { SessionsAreOne }
{}
