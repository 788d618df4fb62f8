// The capacities of the arrays that a number counts.
ghost use Rattle.std.specs.Prelude.{◌≡◌, map, IfOk};
ghost use Rattle.vms_parts.specs.Views.{field_of};
ghost use Rattle.vms_parts.specs.Capacities.{AreLeast, lesser, lowered_at, counted_in};

use crate::{Count, Field};
use std::alloc::{AllocError, Global};

/// Returns for each of `fields` the least capacity of the arrays whose elements it counts, or
/// `None` if it counts none.
///
/// # Errors
///
/// - [`AllocError`]: out of memory.
pub fn least_capacities(alloc: Global, fields: &[Field]) -> Result<Vec<Option<u32>>, AllocError>
    ensures { IfOk result (λ table. AreLeast (map field_of fields.now) table.items) }
{
    let mut table = vec![in alloc; None; fields.len()]?;
    for field in fields {
        count_in(&mut table, field.count);
    }
    Ok(table)
}

// Lowers the entry of the field that counts an array, if there is one.
fn count_in(table: &mut [Option<u32>], count: Count)
    ensures { table.new ≡ counted_in table.old count }
{
    if let Count::Counted { by, capacity } = count {
        lower_at(table, by as usize, capacity);
    }
}

fn lower_at(table: &mut [Option<u32>], number: usize, capacity: u32)
    ensures { table.new ≡ lowered_at table.old number capacity }
{
    if number < table.len() {
        table[number] = lesser(table[number], capacity);
    }
}

// Returns the lesser of a capacity and the earlier ones.
fn lesser(least: Option<u32>, capacity: u32) -> Option<u32>
    ensures { result ≡ lesser least capacity }
{
    match least {
        Some(least) => Some(least.min(capacity)),
        None => Some(capacity),
    }
}
