// The line of a refused values text.
ghost use Rattle.std.specs.Prelude.{◌≡◌, IfOk, string_bytes};
ghost use Rattle.vms_cli.specs.ValuesLines.{values_line};

use std::alloc::Global;
use vms_io::NoMemory;
use vms_values::ValuesReason;

// Returns the line of a values text that is refused at line `line`.
pub(crate) fn values_line(
    alloc: Global,
    line: u32,
    reason: ValuesReason,
) -> Result<String, NoMemory>
    ensures { IfOk result (λ text. string_bytes text ≡ values_line line reason) }
{
    let word = match reason {
        ValuesReason::Form => "Form",
        ValuesReason::Number => "Number",
        ValuesReason::Count => "Count",
        ValuesReason::Absent => "Absent",
        ValuesReason::Invalid => "Invalid",
        ValuesReason::Needed => "Needed",
    };
    Ok(format!(in alloc; "values line {line}: {word}\n")?)
}
