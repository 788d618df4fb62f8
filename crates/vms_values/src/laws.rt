//! The law of the room that a line has. The statement is in `specs/Lines.antt`.
ghost use Rattle.vms_values.specs.Lines.{LineLaw};

/// States the numbers behind the constants that the definitions cite: the most bytes of a line and
/// of its pieces.
pub fn line_law()
    ensures { LineLaw }
{}
