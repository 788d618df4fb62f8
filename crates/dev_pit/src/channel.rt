// A counter in the form in which a stream carries its fields.
ghost use Rattle.std.specs.Prelude.{◌≡◌, ◌<◌};
ghost use Rattle.dev_pit.specs.Channel.{channel_of, counter_from, registers_hold, moment_holds, status_holds, toggles_hold};

use crate::counter::Counter;
use crate::limits::READ_BACK_LEVEL;
use crate::mode::{Access, Mode};

/// The fields of a `pit_channel`, with the latched status, which the description keeps beside it.
///
/// A number that isn't held is 0 here.
#[derive(Clone, Copy, Debug, PartialEq, Eq)]
pub(crate) struct Channel {
    /// The written count; 0 means 65,536.
    pub count: u16,
    /// The number of the mode, 0 to 5.
    pub mode: u8,
    /// The bits RW, 1 to 3.
    pub rw: u8,
    /// Whether BCD counting was requested.
    pub bcd: bool,
    /// Whether a count has been loaded since the mode was set.
    pub loaded: bool,
    /// The moment of the load, in nanoseconds; 0 if none has been loaded.
    pub load_time: u64,
    /// Whether the next read of two returns the most significant byte.
    pub read_high: bool,
    /// Whether the first of two written bytes is held.
    pub wlow_held: bool,
    /// The held byte, or 0.
    pub wlow: u8,
    /// Whether a count is latched.
    pub latched: bool,
    /// The latched count, or 0.
    pub latch: u16,
    /// Whether a status is latched.
    pub status_latched: bool,
    /// The latched status, or 0.
    pub status: u8,
}

impl Channel {
    /// Returns the fields of `counter`.
    #[tactic(auto, unfolding(crate::specs::Channel::channel_of))]
    pub fn of(counter: &Counter) -> Channel
        ensures { result ≡ channel_of counter.now }
    {
        Channel {
            count: counter.count,
            mode: counter.mode.number(),
            rw: counter.access.number(),
            bcd: counter.bcd,
            loaded: counter.loaded_at.is_some(),
            load_time: counter.loaded_at.unwrap_or(0),
            read_high: counter.read_high,
            wlow_held: counter.held_low.is_some(),
            wlow: counter.held_low.unwrap_or(0),
            latched: counter.latch.is_some(),
            latch: counter.latch.unwrap_or(0),
            status_latched: counter.status.is_some(),
            status: counter.status.unwrap_or(0),
        }
    }

    /// Returns the counter that has these fields.
    #[tactic(auto, unfolding(crate::specs::Channel::counter_from))]
    pub fn counter(&self) -> Counter
        ensures { result ≡ counter_from self.now }
    {
        Counter {
            count: self.count,
            mode: Mode::of(self.mode),
            access: Access::of(self.rw),
            bcd: self.bcd,
            loaded_at: self.loaded.then_some(self.load_time),
            read_high: self.read_high,
            held_low: self.wlow_held.then_some(self.wlow),
            latch: self.latched.then_some(self.latch),
            status: self.status_latched.then_some(self.status),
        }
    }

    /// Tells whether rule 1 holds: `mode` is at most 5, and `rw` is 1, 2 or 3.
    #[tactic(auto, unfolding(crate::specs::Channel::registers_hold))]
    pub fn has_registers(&self) -> bool
        ensures { result ≡ registers_hold self.now }
    {
        self.mode <= 5 && 1 <= self.rw && self.rw <= 3
    }

    /// Tells whether rule 2 holds at `now`: `load_time` isn't after `now`, and is 0 if nothing is
    /// loaded.
    #[tactic(auto, unfolding(crate::specs::Channel::moment_holds))]
    pub fn has_moment(&self, now: u64) -> bool
        ensures { result ≡ moment_holds now self.now }
    {
        self.load_time <= now && (self.loaded || self.load_time == 0)
    }

    /// Tells whether rule 3 holds at `level`: a status that isn't latched is 0, and an 8253 latches
    /// none.
    #[tactic(auto, unfolding(crate::specs::Channel::status_holds))]
    pub fn has_status(&self, level: u8) -> bool
        ensures { result ≡ status_holds level self.now }
    {
        (self.status_latched || self.status == 0)
            && (level >= READ_BACK_LEVEL || !self.status_latched)
    }

    /// Tells whether rule 4 holds: only counts of two bytes (`rw` 3) are read or written by halves.
    #[tactic(auto, unfolding(crate::specs::Channel::toggles_hold))]
    pub fn has_toggles(&self) -> bool
        ensures { result ≡ toggles_hold self.now }
    {
        self.rw == 3 || !self.read_high && !self.wlow_held
    }
}
