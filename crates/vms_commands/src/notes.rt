// The lines about names on the shelf.
ghost use Rattle.std.specs.Prelude.{◌≡◌, IfOk, string_bytes};
ghost use Rattle.vms_commands.specs.Lines.{not_there_line, too_large_line};

use std::alloc::Global;
use vms_io::NoMemory;

/// Returns the line for a `name` that isn't on the shelf: `not there: NAME`.
///
/// # Errors
///
/// [`NoMemory`] if memory runs out.
pub fn not_there_line(alloc: Global, name: &str) -> Result<String, NoMemory>
    ensures { IfOk result (λ line. string_bytes line ≡ not_there_line name.now) }
{
    Ok(format!(in alloc; "not there: {name}\n")?)
}

/// Returns the line for a `name` whose file is larger than its limit: `too large: NAME`.
///
/// # Errors
///
/// [`NoMemory`] if memory runs out.
pub fn too_large_line(alloc: Global, name: &str) -> Result<String, NoMemory>
    ensures { IfOk result (λ line. string_bytes line ≡ too_large_line name.now) }
{
    Ok(format!(in alloc; "too large: {name}\n")?)
}
