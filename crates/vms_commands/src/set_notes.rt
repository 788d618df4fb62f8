// The lines about sets.
ghost use Rattle.std.specs.Prelude.{◌≡◌, IfOk, string_bytes};
ghost use Rattle.vms_commands.specs.SetLines.{mismatch_line, part_text, place_text, rule_line, shape_line, syntax_line};

use std::alloc::Global;
use vms_check::Mismatch;
use vms_desc::{Part, Place};
use vms_io::NoMemory;

fn part_text(alloc: Global, part: Part) -> Result<String, NoMemory>
    ensures { IfOk result (λ text. string_bytes text ≡ part_text part) }
{
    match part {
        Part::Set => Ok(String::from_str(alloc, "set")?),
        Part::Struct(number) => Ok(format!(in alloc; "struct {number}")?),
        Part::Device(number) => Ok(format!(in alloc; "device {number}")?),
        Part::Sub(device, number) => Ok(format!(in alloc; "device {device} sub {number}")?),
    }
}

// Returns the text of `place`: the part and, if there is one, its field.
fn place_text(alloc: Global, place: Place) -> Result<String, NoMemory>
    ensures { IfOk result (λ text. string_bytes text ≡ place_text place) }
{
    let part = part_text(alloc, place.part)?;
    match place.field {
        Some(field) => Ok(format!(in alloc; "{part} field {field}")?),
        None => Ok(part),
    }
}

/// Returns the line for a description file that isn't a JSON value: `set NAME: Syntax`.
///
/// # Errors
///
/// [`NoMemory`] if memory runs out.
pub fn syntax_line(alloc: Global, name: &str) -> Result<String, NoMemory>
    ensures { IfOk result (λ line. string_bytes line ≡ syntax_line name.now) }
{
    Ok(format!(in alloc; "set {name}: Syntax\n")?)
}

/// Returns the line for a description file with a wrong shape at `path`: `set NAME: Shape at PATH`.
///
/// # Errors
///
/// [`NoMemory`] if memory runs out.
pub fn shape_line(alloc: Global, name: &str, path: &str) -> Result<String, NoMemory>
    ensures { IfOk result (λ line. string_bytes line ≡ shape_line name.now path.now) }
{
    Ok(format!(in alloc; "set {name}: Shape at {path}\n")?)
}

/// Returns the line for a description file whose set breaks rule `rule` at `place`: `set NAME: rule
/// RULE at PLACE`.
///
/// # Errors
///
/// [`NoMemory`] if memory runs out.
pub fn rule_line(alloc: Global, name: &str, rule: u8, place: Place) -> Result<String, NoMemory>
    ensures { IfOk result (λ line. string_bytes line ≡ rule_line name.now rule place) }
{
    let place = place_text(alloc, place)?;
    Ok(format!(in alloc; "set {name}: rule {rule} at {place}\n")?)
}

/// Returns the line for two sets that aren't compatible, with the rule and the places in both sets.
///
/// # Errors
///
/// [`NoMemory`] if memory runs out.
pub fn mismatch_line(alloc: Global, mismatch: Mismatch) -> Result<String, NoMemory>
    ensures { IfOk result (λ line. string_bytes line ≡ mismatch_line mismatch) }
{
    let rule = mismatch.rule;
    let old = place_text(alloc, mismatch.in_old)?;
    let new = place_text(alloc, mismatch.in_new)?;
    Ok(format!(in alloc; "not compatible: rule {rule} at {old} against {new}\n")?)
}
