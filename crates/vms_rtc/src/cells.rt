// The cells of the chip.
ghost use Rattle.std.specs.Prelude.{◌≡◌, ◌+◌, ◌<◌, ◌∷◌, length, map, pos};
ghost use Rattle.dev_base.specs.Cells.{AreOf, firsts};
ghost use Rattle.vms_rtc.specs.Cells.{kinds};
ghost use Rattle.vms_rtc.specs.Saved.{register_in, registers_hold};
ghost use Rattle.vms_rtc.specs.declared.limits.TheConstants.{NEWEST_CLOCK, REGISTERS};

use crate::limits::{REGISTER_A, REGISTER_C, REGISTER_D, REGISTERS};
use arrayvec::ArrayVec;
use dev_base::byte_at;
use vms_fields::clock::CMOS;
use vms_kinds::DevCells;

/// Returns the cells of `index` and of the registers `cmos`.
pub(crate) fn byte_cells(index: u8, cmos: &[u8; REGISTERS]) -> DevCells
    ensures items { result.items ≡ pos index ∷ map pos cmos.now }
    ensures count { length result.items ≡ 65 }
{
    let mut cells = ArrayVec::new();
    cells.push(i128::from(index));
    for byte in cmos {
        cells.push(i128::from(*byte));
    }
    cells
}

// Returns register `number` from `cells` of the newest clock set.
fn register_at(cells: &DevCells, number: usize) -> u8
    requires of_kinds { AreOf (kinds NEWEST_CLOCK) cells.now.items }
    requires within { number < REGISTERS }
    ensures { result ≡ register_in cells.now.items number }
{
    byte_at(cells, CMOS + number)
}

/// Returns the registers from `cells` of the newest clock set.
pub(crate) fn registers_at(cells: &DevCells) -> [u8; REGISTERS]
    requires { AreOf (kinds NEWEST_CLOCK) cells.now.items }
    ensures { result ≡ firsts REGISTERS (register_in cells.now.items) }
{
    let mut cmos = [0; REGISTERS];
    for k in 0..REGISTERS {
        cmos[k] = register_at(cells, k);
    }
    cmos
}

/// Reports whether register A has only bits 6 to 0, and C and D are 0.
pub(crate) fn has_registers(cells: &DevCells) -> bool
    requires { AreOf (kinds NEWEST_CLOCK) cells.now.items }
    ensures { result ≡ registers_hold cells.now.items }
{
    register_at(cells, usize::from(REGISTER_A)) <= 127
        && register_at(cells, usize::from(REGISTER_C)) == 0
        && register_at(cells, usize::from(REGISTER_D)) == 0
}
