// The ticks of the clock input.
ghost use Rattle.std.specs.Prelude.{◌≡◌, ◌<◌, ◌≤◌};
ghost use Rattle.dev_pit.specs.Count.{ticks as ticks_of, period as period_of};
ghost use Rattle.dev_pit.specs.Turns.{moment_of as moment_by};

use crate::limits::CLOCK_HERTZ;
use dev_base::{LAST_MOMENT, NANOSECONDS};

/// Returns the whole ticks of the clock input between the moments `load` and `now`, in nanoseconds.
///
/// # Requires
///
/// `load` is not after `now`, and `now` is at most `LAST_MOMENT`.
#[tactic(auto, unfolding(crate::specs::Count::ticks))]
pub(crate) fn ticks(load: u64, now: u64) -> u64
    requires order { load ≤ now }
    requires moment { now ≤ LAST_MOMENT }
    ensures ticks { result ≡ ticks_of load now }
    ensures small { result < 4800000000000000 }
{
    // Whole seconds and the rest separately, since the product of the whole doesn't fit 64 bits.
    let gone = now - load;
    gone / NANOSECONDS * CLOCK_HERTZ + gone % NANOSECONDS * CLOCK_HERTZ / NANOSECONDS
}

/// Returns the first moment at which `tick` ticks have passed since moment `load`.
#[tactic(auto, unfolding(crate::specs::Turns::moment_of))]
pub(crate) fn moment_of(load: u64, tick: u64) -> u64
    requires load { load ≤ LAST_MOMENT }
    requires tick { tick < 4900000000000000 }
    ensures { result ≡ moment_by load tick }
{
    let rest = tick % CLOCK_HERTZ * NANOSECONDS;
    load + tick / CLOCK_HERTZ * NANOSECONDS + (rest + CLOCK_HERTZ - 1) / CLOCK_HERTZ
}

/// Returns the number of ticks, 1 to 65,536, that the written `count` means: 0 means 65,536.
pub(crate) fn period(count: u16) -> u64
    ensures period { result ≡ period_of count }
    ensures positive { 0 < result }
    ensures small { result ≤ 65536 }
{
    if count == 0 { 65_536 } else { count as u64 }
}
