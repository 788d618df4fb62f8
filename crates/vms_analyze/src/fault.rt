// Why an input isn't listed.
/// Why an input has no listing.
#[derive(Clone, Copy, PartialEq, Eq, Debug)]
pub enum AnalyzeReason {
    /// It has more than 100,000,000 bytes.
    TooLong,
    /// There is no description at its end.
    NoDescription,
    /// The description isn't a JSON value, or has another shape.
    Shape,
    /// The bytes before the description aren't as described.
    Mismatch,
}

/// Why a call of [`analyze`](crate::analyze) failed.
#[derive(Clone, Copy, PartialEq, Eq, Debug)]
pub enum AnalyzeFault {
    /// The input has no listing, because of `reason`, at offset `at`.
    Refused { at: u64, reason: AnalyzeReason },
    /// The source failed.
    ReadFault,
    /// The sink failed, after a beginning of the text.
    WriteFault,
    /// Out of memory.
    NoMemory,
}
