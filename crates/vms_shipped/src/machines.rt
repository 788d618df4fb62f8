// The names of the machines.
ghost use Rattle.std.specs.Prelude.{◌≡◌, ◌≤◌};
ghost use Rattle.vms_kinds.specs.declared.TheConstants.{NEWEST_CLOCK_SET, NEWEST_SET};
ghost use Rattle.vms_shipped.specs.ClockSets.{clock_machine};
ghost use Rattle.vms_spec.specs.Shipped.{isa_machine};

/// The machine of set 0, whose only device is a timer.
pub const ISA_0: &str = "isa-0";
/// The machine of a board of level 1.
pub const ISA_1: &str = "isa-1";
/// The machine of a board of level 2.
pub const ISA_2: &str = "isa-2";
/// The machine of a board of level 3.
pub const ISA_3: &str = "isa-3";
/// The machine of a board of level 4.
pub const ISA_4: &str = "isa-4";
/// The machine of a board with version 1 of the clock chip.
pub const CLK_1: &str = "clk-1";
/// The machine of a board with version 2 of the clock chip.
pub const CLK_2: &str = "clk-2";

/// Returns the machine name of `level`: `isa-` and its number.
///
/// # Requires
///
/// `level` is at most `NEWEST_SET`.
pub fn isa_machine(level: u8) -> &'static str
    requires { level ≤ NEWEST_SET }
    ensures { result.now ≡ isa_machine level }
{
    match level {
        0 => ISA_0,
        1 => ISA_1,
        2 => ISA_2,
        3 => ISA_3,
        _ => ISA_4,
    }
}

/// Returns the machine name for `version` of the clock chip, `clk-1` or `clk-2`.
///
/// # Requires
///
/// `version` is 1 or 2.
pub fn clock_machine(version: u8) -> &'static str
    requires first { 1 ≤ version }
    requires last { version ≤ NEWEST_CLOCK_SET }
    ensures { result.now ≡ clock_machine version }
{
    match version {
        1 => CLK_1,
        _ => CLK_2,
    }
}
