// One counter of the chip.
ghost use Rattle.std.specs.Prelude.{◌≡◌, ◌<◌, ◌≤◌, ◌+◌, ◌*◌, ◌/◌, ◌%◌, IsTrue, ◌↔◌};
ghost use Rattle.dev_pit.specs.Count.{down as down_of, square as square_of};

use crate::mode::{Access, Mode};
use crate::ticks::{moment_of, period, ticks};
use crate::turns::{Turns, marks_of};
use dev_base::LAST_MOMENT;

/// The registers of a counter ("Counter" in "Internal Block Diagram of a Counter").
///
/// The live count isn't kept. It follows from the written count and the ticks since it was loaded.
#[derive(Clone, Copy, Debug, PartialEq, Eq)]
pub(crate) struct Counter {
    /// The written count, from the count register; 0 means 65,536.
    pub count: u16,
    /// The mode in which it counts.
    pub mode: Mode,
    /// Which bytes of a count are read and written.
    pub access: Access,
    /// Whether counting in four decades was requested; it is kept and has no effect.
    pub bcd: bool,
    /// The moment of the load, in nanoseconds; none if nothing was loaded since the mode was set.
    pub loaded_at: Option<u64>,
    /// Whether the next read of two returns the most significant byte.
    pub read_high: bool,
    /// The least significant byte of a new count whose other byte hasn't been written yet.
    pub held_low: Option<u8>,
    /// The latched count, in the output latch.
    pub latch: Option<u16>,
    /// The latched status byte.
    pub status: Option<u8>,
}

impl Counter {
    ghost use Rattle.dev_pit.specs.Turns.{AreTurns};
    ghost use Rattle.dev_pit.specs.Counter.{LoadedBy, live_of, out_of, edge_of, status_of, powered_on, latched, status_latched, read_back, programmed, loaded, written, read_of, counted_of};

    /// Returns a counter at power on: mode 0, RW 3, nothing loaded and nothing latched.
    #[tactic(auto, unfolding(crate::specs::Counter::powered_on))]
    pub fn new() -> Counter
        ensures { result ≡ powered_on }
    {
        Counter {
            count: 0,
            mode: Mode::TerminalCount,
            access: Access::LowThenHigh,
            bcd: false,
            loaded_at: None,
            read_high: false,
            held_low: None,
            latch: None,
            status: None,
        }
    }

    /// Tells whether the counter wasn't loaded after the moment `now`.
    pub fn is_loaded_by(&self, now: u64) -> bool
        ensures { IsTrue result ↔ LoadedBy now self.now.loaded_at }
    {
        match self.loaded_at {
            None => true,
            Some(load) => load <= now,
        }
    }

    /// Returns the live count at `now`, as 16 bits.
    #[inline(always)]
    #[tactic(auto, unfolding(crate::specs::Counter::live_of, crate::specs::Count::live_at))]
    pub fn live(&self, now: u64) -> u16
        requires loaded { LoadedBy now self.now.loaded_at }
        requires moment { now ≤ LAST_MOMENT }
        ensures { result ≡ live_of self.now now }
    {
        let Some(load) = self.loaded_at else {
            return self.count;
        };
        let k = ticks(load, now);
        let n = period(self.count);
        match self.mode {
            Mode::TerminalCount | Mode::SoftwareStrobe => down(n, k),
            Mode::OneShot | Mode::HardwareStrobe => self.count,
            Mode::RateGenerator if n > 1 => ((n - k % n) % 65_536) as u16,
            Mode::SquareWave if n > 1 => square(n, k),
            Mode::RateGenerator | Mode::SquareWave => 1,
        }
    }

    /// Returns the level of OUT at `now`; true is high.
    #[inline(always)]
    #[tactic(auto, unfolding(crate::specs::Counter::out_of, crate::specs::Count::out_at))]
    pub fn out(&self, now: u64) -> bool
        requires loaded { LoadedBy now self.now.loaded_at }
        requires moment { now ≤ LAST_MOMENT }
        ensures { result ≡ out_of self.now now }
    {
        let Some(load) = self.loaded_at else {
            return self.mode != Mode::TerminalCount;
        };
        let k = ticks(load, now);
        let n = period(self.count);
        match self.mode {
            Mode::TerminalCount => k >= n,
            Mode::OneShot | Mode::HardwareStrobe => true,
            Mode::RateGenerator => n == 1 || k % n != n - 1,
            Mode::SquareWave => n == 1 || k % n < (n + 1) / 2,
            Mode::SoftwareStrobe => k != n,
        }
    }

    /// Tells whether OUT has a rising edge after `from` and not after `to`.
    #[inline(always)]
    #[tactic(auto, unfolding(crate::specs::Counter::edge_of, crate::specs::Count::rises))]
    pub fn edge(&self, from: u64, to: u64) -> bool
        requires loaded { LoadedBy from self.now.loaded_at }
        requires order { from ≤ to }
        requires moment { to ≤ LAST_MOMENT }
        ensures { result ≡ edge_of self.now from to }
    {
        let Some(load) = self.loaded_at else {
            return false;
        };
        let before = ticks(load, from);
        let after = ticks(load, to);
        let n = period(self.count);
        match self.mode {
            Mode::TerminalCount => before < n && n <= after,
            Mode::OneShot | Mode::HardwareStrobe => false,
            Mode::RateGenerator | Mode::SquareWave => n != 1 && before / n < after / n,
            Mode::SoftwareStrobe => before < n + 1 && n + 1 <= after,
        }
    }

    /// Returns moments from `base` on by which OUT has done all that it does.
    pub fn turns(&self, base: u64) -> Turns
        requires loaded { LoadedBy base self.now.loaded_at }
        requires moment { base ≤ LAST_MOMENT }
        ensures { AreTurns result self.now base }
    {
        let Some(load) = self.loaded_at else {
            return Turns {
                first: base,
                second: base,
                third: base,
            };
        };
        let marks = marks_of(self.mode, period(self.count), ticks(load, base));
        Turns {
            first: moment_of(load, marks.first),
            second: moment_of(load, marks.second),
            third: moment_of(load, marks.third),
        }
    }

    /// Returns the status byte at `now` ("Status Byte" in the data sheet of the 8254).
    ///
    /// OUT is in bit 7, RW in bits 5 and 4, the mode in bits 3 to 1, BCD in bit 0. Bit 6, the null
    /// count, is 0, since a count is loaded at once.
    #[tactic(auto, unfolding(crate::specs::Counter::status_of))]
    pub fn status_byte(&self, now: u64) -> u8
        requires loaded { LoadedBy now self.now.loaded_at }
        requires moment { now ≤ LAST_MOMENT }
        ensures { result ≡ status_of self.now now }
    {
        let out = self.out(now) as u8;
        128 * out + 16 * self.access.number() + 2 * self.mode.number() + self.bcd as u8
    }

    /// Latches the live count at `now`, unless a count is latched.
    #[tactic(auto, unfolding(crate::specs::Counter::latched))]
    pub fn latch_count(&mut self, now: u64)
        requires loaded { LoadedBy now self.old.loaded_at }
        requires moment { now ≤ LAST_MOMENT }
        ensures { self.new ≡ latched now self.old }
    {
        if self.latch.is_none() {
            self.latch = Some(self.live(now));
        }
    }

    /// Latches the status at `now`, unless one is latched.
    #[tactic(auto, unfolding(crate::specs::Counter::status_latched))]
    pub fn latch_status(&mut self, now: u64)
        requires loaded { LoadedBy now self.old.loaded_at }
        requires moment { now ≤ LAST_MOMENT }
        ensures { self.new ≡ status_latched now self.old }
    {
        if self.status.is_none() {
            self.status = Some(self.status_byte(now));
        }
    }

    /// Latches the count if `count` is true, and the status if `status` is true.
    #[tactic(auto, unfolding(crate::specs::Counter::read_back, crate::specs::Counter::latched))]
    pub fn read_back(&mut self, count: bool, status: bool, now: u64)
        requires loaded { LoadedBy now self.old.loaded_at }
        requires moment { now ≤ LAST_MOMENT }
        ensures { self.new ≡ read_back count status now self.old }
    {
        if count {
            self.latch_count(now);
        }
        if status {
            self.latch_status(now);
        }
    }

    /// Sets the mode; the counter then waits for a count. The written count is unchanged.
    #[tactic(auto, unfolding(crate::specs::Counter::programmed))]
    pub fn set_mode(&mut self, access: Access, mode: Mode, bcd: bool)
        ensures { self.new ≡ programmed access mode bcd self.old }
    {
        *self = Counter {
            count: self.count,
            mode,
            access,
            bcd,
            ..Counter::new()
        };
    }

    /// Loads `count`, which is counted down from `now` on in every mode.
    #[tactic(auto, unfolding(crate::specs::Counter::loaded))]
    fn load(&mut self, count: u16, now: u64)
        ensures { self.new ≡ loaded count now self.old }
    {
        self.count = count;
        self.loaded_at = Some(now);
    }

    /// Takes the byte `value` of a new count, and loads the count if this byte completes it.
    #[tactic(auto, unfolding(crate::specs::Counter::written))]
    pub fn write(&mut self, value: u8, now: u64)
        ensures { self.new ≡ written value now self.old }
    {
        match (self.access, self.held_low) {
            (Access::LowByte, _) => self.load(value as u16, now),
            (Access::HighByte, _) => self.load(value as u16 * 256, now),
            (Access::LowThenHigh, None) => self.held_low = Some(value),
            (Access::LowThenHigh, Some(low)) => {
                self.held_low = None;
                self.load(value as u16 * 256 + low as u16, now);
            }
        }
    }

    /// Returns a latched status, else the next byte of the latched count, else of the live count.
    #[inline(always)]
    #[tactic(auto, unfolding(crate::specs::Counter::read_of, crate::specs::Counter::counted_of))]
    pub fn read(&mut self, now: u64) -> u8
        requires loaded { LoadedBy now self.old.loaded_at }
        requires moment { now ≤ LAST_MOMENT }
        ensures { (result, self.new) ≡ read_of now self.old }
    {
        if let Some(status) = self.status.take() {
            return status;
        }
        let count = self.latch.unwrap_or(self.live(now));
        self.read_byte(count)
    }

    /// Returns the byte of `count` that is read next, and unlatches the count after its last byte.
    #[inline(always)]
    #[tactic(auto, unfolding(crate::specs::Counter::counted_of))]
    fn read_byte(&mut self, count: u16) -> u8
        ensures { (result, self.new) ≡ counted_of count self.old }
    {
        let low = (count % 256) as u8;
        let high = (count / 256) as u8;
        let (byte, is_last) = match self.access {
            Access::LowByte => (low, true),
            Access::HighByte => (high, true),
            Access::LowThenHigh => {
                self.read_high = !self.read_high;
                if self.read_high {
                    (low, false)
                } else {
                    (high, true)
                }
            }
        };
        if is_last {
            self.latch = None;
        }
        byte
    }
}

/// Returns the live count, modulo 65,536, of a counter that counts on below 0.
fn down(n: u64, k: u64) -> u16
    requires { n ≤ 65536 }
    ensures { result ≡ down_of n k }
{
    ((n + 65_536 - k % 65_536) % 65_536) as u16
}

/// Returns the live count of a square wave of period `n` after `k` ticks.
#[tactic(auto, unfolding(crate::specs::Count::square))]
fn square(n: u64, k: u64) -> u16
    requires positive { 1 < n }
    requires small { n ≤ 65536 }
    ensures { result ≡ square_of n k }
{
    let even = n / 2 * 2;
    let j = k % n;
    let high = (n + 1) / 2;
    let gone = if j < high { j } else { j - high };
    ((even - 2 * gone) % 65_536) as u16
}
