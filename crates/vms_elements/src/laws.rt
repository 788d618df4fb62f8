//! The laws of elements, each the contract of a function without a body. The statements are in
//! `specs/Laws.antt`.
ghost use Rattle.vms_elements.specs.Laws.{ElementsLaw, DeviceLaw, CountedLaw, TextLaw, EntryLaw, CellLaw, DistinctLaw, PathLaw};

/// States that the elements of a description (`elements_in`) are its cells and its slots.
///
/// Its numbers are the cells, in order, and what is in the bytes are the slots.
pub fn elements_law()
    ensures { ElementsLaw }
{}

/// States that the elements of a device for an image (`device_elements`) are the device's cells and
/// the image's slots.
#[tactic(auto, using(crate::proofs::Walk::device_law))]
pub fn device_law()
    ensures { DeviceLaw }
{}

/// States that each element in the bytes (`present`) is `counted`, so each number in the bytes has
/// its line in the values text.
pub fn counted_law()
    ensures { CountedLaw }
{}

/// States that the lines of the counted numbers, with those of sections and subsections
/// (`values_lines`), are the values text.
#[tactic(auto, using(crate::proofs::Walk::text_law))]
pub fn text_law()
    ensures { TextLaw }
{}

/// States that the `entries` of a values text have exactly its lines: a machine, sections,
/// subsections and numbers.
#[tactic(auto, using(crate::proofs::LinesOf::entry_law))]
pub fn entry_law()
    ensures { EntryLaw }
{}

/// States that the path of a number among the elements of a description is that of its cell
/// (`path_at`).
pub fn cell_law()
    ensures { CellLaw }
{}

/// States that distinct paths of a device have distinct cells (`cell_at`).
#[tactic(auto, using(crate::proofs::PathsOf::distinct_law))]
pub fn distinct_law()
    ensures { DistinctLaw }
{}

/// States that each cell of a device has a path (`HasPath`), which names a field of the cell's kind
/// and default.
#[tactic(auto, using(crate::proofs::PathsOf::path_law))]
pub fn path_law()
    ensures { PathLaw }
{}
