// The crystal's ticks, and the periods of the periodic interrupt.
ghost use Rattle.std.specs.Prelude.{◌≡◌, ◌<◌, ◌≤◌, IfSome};
ghost use Rattle.dev_base.specs.declared.limits.TheConstants.{LAST_MOMENT as last_moment};
ghost use Rattle.vms_rtc.specs.Chip.{ends_within as ends_within_of, period_of as period_by, period_of_rate as period_by_rate, ticks as ticks_of};
ghost use Rattle.vms_rtc.specs.Ends.{IsNextEnd, moment_of as moment_by};

use crate::limits::CRYSTAL_HERTZ;
use dev_base::NANOSECONDS;

// Returns the whole ticks from power on to `moment`, in nanoseconds.
#[tactic(auto, unfolding(crate::specs::Chip::ticks))]
fn ticks(moment: u64) -> u64
    ensures ticks { result ≡ ticks_of moment }
    ensures small { moment ≤ last_moment → result ≤ 131072000000000 }
{
    // Seconds and the rest are converted apart, since the product of both would exceed 64 bits.
    moment / NANOSECONDS * CRYSTAL_HERTZ + moment % NANOSECONDS * CRYSTAL_HERTZ / NANOSECONDS
}

// Returns the first moment at which `tick` ticks have passed since power on.
#[tactic(auto, unfolding(crate::specs::Ends::moment_of))]
fn moment_of(tick: u64) -> u64
    requires { tick < 200000000000000 }
    ensures { result ≡ moment_by tick }
{
    let rest = tick % CRYSTAL_HERTZ * NANOSECONDS;
    tick / CRYSTAL_HERTZ * NANOSECONDS + (rest + CRYSTAL_HERTZ - 1) / CRYSTAL_HERTZ
}

// Returns the ticks of a period at `rate`.
fn period_of_rate(rate: u8) -> Option<u64>
    requires { rate < 16 }
    ensures period { result ≡ period_by_rate rate }
    ensures some { IfSome result (λ period. 0 < period) }
    ensures small { IfSome result (λ period. period ≤ 16384) }
{
    match rate {
        0 => None,
        1 => Some(128),
        2 => Some(256),
        _ => Some(1 << (rate - 1)),
    }
}

/// Returns the ticks of a period by register A, or `None` if nothing is counted.
#[tactic(auto, unfolding(crate::specs::Chip::period_of))]
pub(crate) fn period_of(a: u8) -> Option<u64>
    ensures period { result ≡ period_by a }
    ensures some { IfSome result (λ period. 0 < period) }
    ensures small { IfSome result (λ period. period ≤ 16384) }
{
    if a / 16 % 8 == 0b010 {
        period_of_rate(a % 16)
    } else {
        None
    }
}

/// Reports whether a period ends after `from` and not after `to`.
pub(crate) fn ends_within(period: Option<u64>, from: u64, to: u64) -> bool
    requires { IfSome period (λ period. 0 < period) }
    ensures { result ≡ ends_within_of period from to }
{
    match period {
        None => false,
        Some(period) => ticks(from) / period < ticks(to) / period,
    }
}

/// Returns the first moment after `from` at which a period ends, or `None` if none is counted.
#[tactic(auto, using(crate::proofs::StepLaws::end_is_next, crate::proofs::StepLaws::none_ends))]
pub(crate) fn next_end(period: Option<u64>, from: u64) -> Option<u64>
    requires some { IfSome period (λ period. 0 < period) }
    requires small { IfSome period (λ period. period ≤ 16384) }
    requires moment { from ≤ last_moment }
    ensures { IsNextEnd period from result }
{
    let period = period?;
    let gone = ticks(from);
    Some(moment_of(gone - gone % period + period))
}
