// The moments at which OUT of a counter may turn.
ghost use Rattle.std.specs.Prelude.{◌≡◌, ◌<◌, ◌≤◌};
ghost use Rattle.dev_pit.specs.Turns.{marks_of as marks_by};

use crate::mode::Mode;

/// Three moments, in nanoseconds, at which OUT of a counter may turn.
#[derive(Clone, Copy, Debug, PartialEq, Eq)]
pub struct Turns {
    pub first: u64,
    pub second: u64,
    pub third: u64,
}

/// Three ticks at which OUT may turn.
#[derive(Clone, Copy, Debug, PartialEq, Eq)]
pub(crate) struct Marks {
    pub first: u64,
    pub second: u64,
    pub third: u64,
}

/// Returns the ticks after tick `k` at which OUT of a counter of period `n` turns, up to where all that it does repeats.
pub(crate) fn marks_of(mode: Mode, n: u64, k: u64) -> Marks
    requires positive { 0 < n }
    requires small { n ≤ 65536 }
    requires tick { k < 4800000000000000 }
    ensures marks { result ≡ marks_by mode n k }
    ensures first { result.first < 4900000000000000 }
    ensures second { result.second < 4900000000000000 }
    ensures third { result.third < 4900000000000000 }
{
    let start = k / n * n;
    let high = (n + 1) / 2;
    let (first, second, third) = match mode {
        Mode::TerminalCount => (n, n, n),
        Mode::OneShot | Mode::HardwareStrobe => (k, k, k),
        Mode::RateGenerator => (start + n - 1, start + n, start + n + n - 1),
        Mode::SquareWave => (start + high, start + n, start + n + high),
        Mode::SoftwareStrobe => (n, n + 1, n + 1),
    };
    Marks {
        first,
        second,
        third,
    }
}
