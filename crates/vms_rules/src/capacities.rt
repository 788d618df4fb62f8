// Whether a number is within the capacities that it counts.
ghost use Rattle.std.specs.Prelude.{◌≡◌};
ghost use Rattle.vms_rules.specs.Capacities.{fits};

// Returns whether a number is at most the least capacity, if there is one.
pub(crate) fn fits(least: Option<u32>, number: i128) -> bool
    ensures { result ≡ fits least number }
{
    match least {
        Some(most) => number <= most as i128,
        None => true,
    }
}
