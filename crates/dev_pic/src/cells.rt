// The cells that a chip is saved in.
ghost use Rattle.std.specs.Prelude.{◌≡◌, ◌+◌, ◌<◌, ◌≤◌, ◌++◌, [], ◌∷◌, if◌then◌else◌, length, nat_le, IfErr};
ghost use Rattle.vms_kinds.specs.declared.TheConstants.{MOST_CELLS};
ghost use Rattle.dev_pic.specs.Cells.{cell_count, IsChipCells, state_number as state_number_of, state_of as state_of_number, saved_cells, chip_of as chip_of_cells, registers_hold as registers_hold_of, levels_hold as levels_hold_of, requests_hold as requests_hold_of, mode_holds as mode_holds_of, restored};

use crate::chip::{Chip, InitState, Role, level_inputs_by};
use crate::levels::{ELCR_SINCE, LTIM_SINCE};
use arrayvec::ArrayVec;
use dev_base::{append, byte_at, first_failing, flag_at};
use vms_fields::pic::{
    AUTO_EOI, BASE, ELCR, ICW4, IMR, INIT_STATE, IRR, ISR, LINES, LOWEST, LTIM, NESTED, POLL,
    READ_ISR, ROTATE, SINGLE, SPECIAL_MASK,
};
use vms_kinds::DevCells;

/// Returns the cells of `chip` in set `set`.
pub(crate) fn save_chip(set: u8, chip: &Chip) -> DevCells
    ensures cells { result.items ≡ saved_cells set chip.now }
    ensures count { length result.items ≤ cell_count }
{
    let mut cells = ArrayVec::new();
    put_chip(&mut cells, set, chip);
    cells
}

/// Appends the cells of `chip` in set `set` to `cells`.
#[tactic(auto, using(crate::proofs::PutLemmas::put))]
pub(crate) fn put_chip(cells: &mut DevCells, set: u8, chip: &Chip)
    requires { length cells.old.items ≤ cell_count }
    ensures cells { cells.new.items ≡ cells.old.items ++ saved_cells set chip.now }
    ensures count { length cells.new.items ≤ length cells.old.items + cell_count }
{
    append(cells, &oldest_cells(chip));
    put_since(cells, ELCR_SINCE, set, i128::from(chip.elcr));
    put_since(cells, LTIM_SINCE, set, i128::from(chip.ltim));
}

// Returns the cells that each set has, those of set 1.
#[inline(always)]
#[tactic(auto, unfolding(crate::specs::Cells::saved_cells))]
fn oldest_cells(chip: &Chip) -> [i128; 15]
    ensures { result ≡ saved_cells 1 chip.now }
{
    [
        i128::from(chip.irr),
        i128::from(chip.isr),
        i128::from(chip.imr),
        i128::from(chip.lines),
        i128::from(chip.lowest),
        i128::from(chip.base),
        i128::from(state_number(chip.init_state)),
        i128::from(chip.icw4),
        i128::from(chip.single),
        i128::from(chip.read_isr),
        i128::from(chip.poll),
        i128::from(chip.special_mask),
        i128::from(chip.auto_eoi),
        i128::from(chip.rotate),
        i128::from(chip.nested),
    ]
}

// Appends a cell if the set `set` is `first` or newer.
fn put_since(cells: &mut DevCells, first: u8, set: u8, number: i128)
    requires { length cells.old.items < MOST_CELLS }
    ensures cells { let more = if nat_le first set then number ∷ [] else [] in
        cells.new.items ≡ cells.old.items ++ more }
    ensures count { length cells.new.items ≤ length cells.old.items + 1 }
{
    if set >= first {
        cells.push(number);
    }
}

// Returns the number of a state of the initialization, 0 to 3.
fn state_number(state: InitState) -> u8
    ensures { result ≡ state_number_of state }
{
    state as u8
}

// Returns the state with this number, 0 to 3; rule 1 refuses other numbers earlier.
fn state_of(number: u8) -> InitState
    ensures { result ≡ state_of_number number }
{
    match number {
        0 => InitState::Ready,
        1 => InitState::Icw2,
        2 => InitState::Icw3,
        _ => InitState::Icw4,
    }
}

// Returns the chip of cells whose first rule holds.
#[tactic(auto, unfolding(crate::specs::Cells::chip_of))]
fn chip_of(cells: &DevCells) -> Chip
    requires { IsChipCells cells.now.items }
    ensures { result ≡ chip_of_cells cells.now.items }
{
    Chip {
        irr: byte_at(cells, IRR),
        isr: byte_at(cells, ISR),
        imr: byte_at(cells, IMR),
        lines: byte_at(cells, LINES),
        lowest: byte_at(cells, LOWEST),
        base: byte_at(cells, BASE),
        init_state: state_of(byte_at(cells, INIT_STATE)),
        icw4: flag_at(cells, ICW4),
        single: flag_at(cells, SINGLE),
        read_isr: flag_at(cells, READ_ISR),
        poll: flag_at(cells, POLL),
        special_mask: flag_at(cells, SPECIAL_MASK),
        auto_eoi: flag_at(cells, AUTO_EOI),
        rotate: flag_at(cells, ROTATE),
        nested: flag_at(cells, NESTED),
        elcr: byte_at(cells, ELCR),
        ltim: flag_at(cells, LTIM),
    }
}

// Tells whether rule 1 of a restore holds.
#[tactic(auto, unfolding(crate::specs::Cells::registers_hold))]
fn registers_hold(lowest: u8, state: u8, base: u8) -> bool
    ensures { result ≡ registers_hold_of lowest state base }
{
    lowest <= 7 && state <= 3 && base % 8 == 0
}

// Tells whether rule 2 of a restore holds.
#[tactic(auto, unfolding(crate::specs::Cells::levels_hold))]
fn levels_hold(level: u8, role: Role, elcr: u8) -> bool
    ensures { result ≡ levels_hold_of level role elcr }
{
    if level >= ELCR_SINCE {
        elcr & role.elcr_mask() == elcr
    } else {
        elcr == 0
    }
}

// Tells whether rule 3 of a restore holds.
#[tactic(auto, unfolding(crate::specs::Cells::requests_hold))]
fn requests_hold(irr: u8, lines: u8, levels: u8) -> bool
    ensures { result ≡ requests_hold_of irr lines levels }
{
    irr & levels == lines & levels
}

// Tells whether rule 4 of a restore holds.
#[tactic(auto, unfolding(crate::specs::Cells::mode_holds))]
fn mode_holds(level: u8, ltim: bool) -> bool
    ensures { result ≡ mode_holds_of level ltim }
{
    level >= LTIM_SINCE || !ltim
}

/// Returns the chip that `cells`, of the newest set, describe.
///
/// # Errors
///
/// The number of the first rule that fails, 1 to 4.
#[tactic(auto, unfolding(dev_base::specs::Rules::judged_by))]
pub(crate) fn restore_chip(level: u8, role: Role, cells: &DevCells) -> Result<Chip, u8>
    requires { IsChipCells cells.now.items }
    ensures restored { result ≡ restored level role cells.now.items }
    ensures rule { IfErr result (λ rule. rule ≤ 4) }
{
    let elcr = byte_at(cells, ELCR);
    let ltim = flag_at(cells, LTIM);
    let rules = [
        registers_hold(
            byte_at(cells, LOWEST),
            byte_at(cells, INIT_STATE),
            byte_at(cells, BASE),
        ),
        levels_hold(level, role, elcr),
        requests_hold(
            byte_at(cells, IRR),
            byte_at(cells, LINES),
            level_inputs_by(ltim, elcr),
        ),
        mode_holds(level, ltim),
    ];
    match first_failing(&rules) {
        None => Ok(chip_of(cells)),
        Some(rule) => Err(rule),
    }
}
