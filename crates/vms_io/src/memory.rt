// The outside in memory: for tests, and for a board that is saved and restored within one process.
ghost use Rattle.std.specs.Prelude.{◌↔◌, Contains, IsTrue};

pub mod shelf;
pub mod sink;
pub mod source;

// Returns whether the call of this number must fail.
fn is_listed(numbers: &[u32], number: u64) -> bool
    ensures { IsTrue result ↔ Contains numbers.now number }
{
    numbers.iter().any(|n| *n as u64 == number)
}
