//! The laws of values texts, each the contract of a function without a body. The statements are in
//! `specs/Laws.antt` and `specs/Rounds.antt`. They hold for every well-formed set.
ghost use Rattle.vms_values_laws.specs.Laws.{ReadLaw, OnlyLaw, AcceptedLaw, PrintedLaw, LineLaw};
ghost use Rattle.vms_values_laws.specs.Rounds.{WrittenLaw, PackedLaw, ShownLaw};

/// States that what is read of a text (`values_read`) is what its lines mean (`Reads`).
///
/// That is the machine and the ready images whose text it is; else the first line that may not be
/// where it is, with its reason; else the first bad section or subsection, with its reason.
#[tactic(auto, using(crate::proofs::Stated::read_holds))]
pub fn read_law()
    ensures { ReadLaw }
{}

/// States that nothing but what its lines mean is read of a text: one machine and one list of
/// images, or one first bad line.
#[tactic(auto, using(crate::proofs::Stated::only_holds))]
pub fn only_law()
    ensures { OnlyLaw }
{}

/// States that an accepted text is the one printed for its machine and images (`IsText`).
///
/// The machine is one of the set or none, and the images may be written.
pub fn accepted_law()
    ensures { AcceptedLaw }
{}

/// States that the `values_text` of a machine of the set or none, and of images that may be
/// written, is read back as these.
#[tactic(auto, using(crate::proofs::Stated::printed_holds))]
pub fn printed_law()
    ensures { PrintedLaw }
{}

/// States that a text of any length is refused at line `most_lines` + 1 at the latest.
///
/// `most_lines` is the number of lines that a text of the set may have.
#[tactic(auto, using(crate::proofs::Stated::line_holds))]
pub fn line_law()
    ensures { LineLaw }
{}

/// States that an input takes a stream that is `written` whole, with its machine and images and
/// with nothing else.
///
/// The machine is one of the set or none, the images may be written, and the description fits or
/// there is none.
pub fn written_law()
    ensures { WrittenLaw }
{}

/// States that the stream written for what a text says shows as that text (`ShowsAs`).
///
/// The description fits or there is none.
#[tactic(auto, using(crate::proofs::Stated::packed_holds))]
pub fn packed_law()
    ensures { PackedLaw }
{}

/// States that the text as which a written stream shows (`ShowsAs`) is read as its machine and
/// images. So the same stream is written for it.
pub fn shown_law()
    ensures { ShownLaw }
{}
