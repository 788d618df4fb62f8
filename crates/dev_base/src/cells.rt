// Reading and appending cells.
ghost use Rattle.std.specs.Prelude.{◌≡◌, ◌+◌, ◌++◌, ◌<◌, ◌≤◌, ◌↔◌, length, IsTrue};
ghost use Rattle.vms_kinds.specs.Codes.{InRange};
ghost use Rattle.dev_base.specs.Cells.{cell_at, number_at, flag_at as flag_at_of, kind_at, AreInRange, AreOf};
ghost use Rattle.vms_kinds.specs.declared.TheConstants.{MOST_CELLS};

use vms_kinds::{DevCells, Kind};

/// Returns the number of the cell at `place`, a cell of eight bits.
///
/// # Requires
///
/// There is a cell at `place`, and it is in the range of `u8`.
pub fn byte_at(cells: &DevCells, place: usize) -> u8
    requires within { place < length cells.now.items }
    requires in_range { InRange Kind.U8 (cell_at cells.now.items place) }
    ensures { result ≡ number_at cells.now.items place }
{
    cells[place] as u8
}

/// Returns the number of the cell at `place`, a cell of sixteen bits.
///
/// # Requires
///
/// There is a cell at `place`, and it is in the range of `u16`.
pub fn word_at(cells: &DevCells, place: usize) -> u16
    requires within { place < length cells.now.items }
    requires in_range { InRange Kind.U16 (cell_at cells.now.items place) }
    ensures { result ≡ number_at cells.now.items place }
{
    cells[place] as u16
}

/// Returns the number of the cell at `place`, a cell of 64 bits (`u64` or `timer`): a moment in
/// nanoseconds.
///
/// # Requires
///
/// There is a cell at `place`, and it is in the range of `u64`.
pub fn moment_at(cells: &DevCells, place: usize) -> u64
    requires within { place < length cells.now.items }
    requires in_range { InRange Kind.U64 (cell_at cells.now.items place) }
    ensures { result ≡ number_at cells.now.items place }
{
    cells[place] as u64
}

/// Returns the number of the cell at `place`, a signed cell of eight bits.
///
/// # Requires
///
/// There is a cell at `place`, and it is in the range of `i8`.
pub fn signed_at(cells: &DevCells, place: usize) -> i8
    requires within { place < length cells.now.items }
    requires in_range { InRange Kind.I8 (cell_at cells.now.items place) }
    ensures { result ≡ cell_at cells.now.items place }
{
    cells[place] as i8
}

/// Returns the truth value of the cell at `place`: true is 1, false is 0.
///
/// # Requires
///
/// There is a cell at `place`, and it is 0 or 1.
pub fn flag_at(cells: &DevCells, place: usize) -> bool
    requires within { place < length cells.now.items }
    requires in_range { InRange Kind.Bool (cell_at cells.now.items place) }
    ensures { result ≡ flag_at_of cells.now.items place }
{
    cells[place] == 1
}

/// Appends the cells `more` to `cells`.
///
/// # Requires
///
/// There is room for them: together there are at most `MOST_CELLS`.
pub fn append(cells: &mut DevCells, more: &[i128])
    requires { length cells.old.items + length more.now ≤ MOST_CELLS }
    ensures { cells.new.items ≡ cells.old.items ++ more.now }
{
    let _fits = cells.try_extend_from_slice(more);
}

/// Tells whether `cells` fit `kinds`: they are the same number, and each is in its kind's range.
pub fn are_of(kinds: &[Kind], cells: &[i128]) -> bool
    ensures { IsTrue result ↔ AreOf kinds.now cells.now }
{
    cells.len() == kinds.len() && are_in_range(kinds, cells)
}

// Tells whether the cell at `place` is in its kind's range.
fn is_in_range(kinds: &[Kind], cells: &[i128], place: usize) -> bool
    requires count { length cells.now ≡ length kinds.now }
    requires within { place < length kinds.now }
    ensures { IsTrue result ↔ InRange (kind_at kinds.now place) (cell_at cells.now place) }
{
    kinds[place].in_range(cells[place])
}

// Tells whether each cell is in its kind's range.
fn are_in_range(kinds: &[Kind], cells: &[i128]) -> bool
    requires { length cells.now ≡ length kinds.now }
    ensures { IsTrue result ↔ AreInRange kinds.now cells.now }
{
    for place in 0..kinds.len() {
        if !is_in_range(kinds, cells, place) {
            return false;
        }
    }
    true
}
