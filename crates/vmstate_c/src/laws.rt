//! Consequences for all calls. Each law is the contract of a function with an empty body.
ghost use Rattle.vmstate_c.specs.Laws.{CompleteLaw, CompleteStoredLaw};

/// States that `vmstate_call` succeeds if its input and files have what its words need.
///
/// The status is then 0, or 10 if memory runs out, or 100 if a buffer is too small.
pub fn complete_law()
    ensures { CompleteLaw }
{}

/// States the same of `vmstate_call_stored`.
pub fn complete_stored_law()
    ensures { CompleteStoredLaw }
{}
