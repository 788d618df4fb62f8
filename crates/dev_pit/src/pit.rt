// The chip: three counters and a control word register.
ghost use Rattle.std.specs.Prelude.{◌≡◌, ℕ, ◌<◌, ◌≤◌, IsTrue, ◌↔◌};

use crate::control::ControlWord;
use crate::counter::Counter;
use crate::limits::READ_BACK_LEVEL;
use crate::turns::Turns;
use dev_base::LAST_MOMENT;

/// The port of counter 0; those of counters 1 and 2 follow.
const COUNTER_PORT: u16 = 0x40;

/// The port of control words.
const CONTROL_PORT: u16 = 0x43;

/// The timer chip: an 8253 at level 1, an 8254 from level 2 on.
///
/// Moments are nanoseconds since power on, at most `LAST_MOMENT`. A call's moment must not be
/// before the moment at which any counter was loaded. After a call this holds for its moment and
/// every later one.
#[derive(Clone, Copy, Debug, PartialEq, Eq)]
pub struct Pit {
    /// The level, 1 to 4.
    pub(crate) level: u8,
    /// Counters 0 to 2.
    pub(crate) counters: [Counter; 3],
}

impl Pit {
    ghost use Rattle.dev_pit.specs.Control.{IsWord};
    ghost use Rattle.dev_pit.specs.Pit.{IsPort, IsLoadedBy, counter_of, new_pit, pit_read, pit_written, asked_back, controlled, pit_out, pit_edge};
    ghost use Rattle.dev_pit.specs.Turns.{AreTurns};
    ghost use Rattle.dev_base.specs.Levels.{IsLevel};

    /// Returns the chip at power on, at `level` from 1 to 4.
    ///
    /// No counter is loaded. Each counter is in mode 0 and reads and writes counts of two bytes.
    ///
    /// # Requires
    ///
    /// `level` is one that boards have, 1 to 4.
    #[tactic(auto, unfolding(crate::specs::Pit::new_pit, crate::specs::Counter::powered_on))]
    pub fn new(level: u8) -> Pit
        requires { IsLevel level }
        ensures made { result ≡ new_pit level }
        ensures loaded { (now : ℕ) → IsLoadedBy now result }
    {
        Pit {
            level,
            counters: [Counter::new(); 3],
        }
    }

    /// Tells whether `port` is one of the chip's: 0x40 to 0x42 for counters, 0x43 for control
    /// words.
    pub fn is_port(port: u16) -> bool
        ensures { IsTrue result ↔ IsPort port }
    {
        matches!(port, 0x40..=0x43)
    }

    /// Tells whether no counter was loaded after the moment `now`.
    pub fn is_loaded_by(&self, now: u64) -> bool
        ensures { IsTrue result ↔ IsLoadedBy now self.now }
    {
        self.counters[0].is_loaded_by(now)
            && self.counters[1].is_loaded_by(now)
            && self.counters[2].is_loaded_by(now)
    }

    /// Reads a byte from the port of `counter`, 0 to 2 ("Read Operations", data sheet of the 8254).
    ///
    /// The byte is the latched status, if there is one. Otherwise it is the next byte of the
    /// latched count, or of the live count if none is latched.
    ///
    /// # Requires
    ///
    /// `counter` is below 3, `now` is at most `LAST_MOMENT`, and no counter was loaded after `now`.
    #[tactic(auto, unfolding(crate::specs::Pit::pit_read))]
    pub fn read(&mut self, counter: u8, now: u64) -> u8
        requires counter { counter < 3 }
        requires moment { now ≤ LAST_MOMENT }
        requires loaded { IsLoadedBy now self.old }
        ensures step { (result, self.new) ≡ pit_read counter now self.old }
        ensures keeps { (later : ℕ) → now ≤ later → IsLoadedBy later self.new }
    {
        self.counters[counter as usize].read(now)
    }

    /// Reads a byte from the port of counter 0, as [`Pit::read`] does.
    ///
    /// # Requires
    ///
    /// `now` is at most `LAST_MOMENT`, and no counter was loaded after `now`.
    #[inline(always)]
    #[tactic(auto, unfolding(crate::specs::Pit::pit_read))]
    pub fn read_first(&mut self, now: u64) -> u8
        requires moment { now ≤ LAST_MOMENT }
        requires loaded { IsLoadedBy now self.old }
        ensures { (result, self.new) ≡ pit_read 0 now self.old }
    {
        self.counters[0].read(now)
    }

    /// Writes `value` to `port` at the moment `now` ("Write Operations").
    ///
    /// A write to a counter's port is a byte of a count; the count is loaded when its last byte is
    /// written. A write to port 0x43 is a control word.
    ///
    /// # Requires
    ///
    /// `port` is one of the chip's, `now` is at most `LAST_MOMENT`, and no counter was loaded after
    /// `now`.
    #[tactic(auto, unfolding(crate::specs::Pit::pit_written))]
    pub fn write(&mut self, port: u16, value: u8, now: u64)
        requires port { IsPort port }
        requires moment { now ≤ LAST_MOMENT }
        requires loaded { IsLoadedBy now self.old }
        ensures step { self.new ≡ pit_written port value now self.old }
        ensures keeps { (later : ℕ) → now ≤ later → IsLoadedBy later self.new }
    {
        if port == CONTROL_PORT {
            self.control(ControlWord::of(value), now);
        } else {
            self.counters[(port - COUNTER_PORT) as usize].write(value, now);
        }
    }

    /// Tells whether OUT of `counter`, 0 to 2, is high at `now` ("Mode Definitions").
    ///
    /// # Requires
    ///
    /// `counter` is below 3, `now` is at most `LAST_MOMENT`, and no counter was loaded after `now`.
    #[inline(always)]
    #[tactic(auto, unfolding(crate::specs::Pit::pit_out))]
    pub fn out(&self, counter: u8, now: u64) -> bool
        requires counter { counter < 3 }
        requires moment { now ≤ LAST_MOMENT }
        requires loaded { IsLoadedBy now self.now }
        ensures { result ≡ pit_out counter now self.now }
    {
        self.counters[counter as usize].out(now)
    }

    /// Tells whether OUT of `counter`, 0 to 2, has a rising edge after `from` and not after `to`.
    ///
    /// An edge at `from` itself doesn't count.
    ///
    /// # Requires
    ///
    /// `counter` is below 3, `from` is not after `to`, `to` is at most `LAST_MOMENT`, and no
    /// counter was loaded after `from`.
    #[inline(always)]
    #[tactic(auto, unfolding(crate::specs::Pit::pit_edge))]
    pub fn edge(&self, counter: u8, from: u64, to: u64) -> bool
        requires counter { counter < 3 }
        requires order { from ≤ to }
        requires moment { to ≤ LAST_MOMENT }
        requires loaded { IsLoadedBy from self.now }
        ensures { result ≡ pit_edge counter from to self.now }
    {
        self.counters[counter as usize].edge(from, to)
    }

    /// Returns moments from `base` on by which OUT of `counter`, 0 to 2, has done all that it does.
    ///
    /// At each later moment its level, and whether it rose since one before `base`, are those at `base` or
    /// at one of these moments that has come.
    ///
    /// # Requires
    ///
    /// `counter` is below 3, `base` is at most `LAST_MOMENT`, and no counter was loaded after `base`.
    pub fn turns(&self, counter: u8, base: u64) -> Turns
        requires counter { counter < 3 }
        requires moment { base ≤ LAST_MOMENT }
        requires loaded { IsLoadedBy base self.now }
        ensures { AreTurns result (counter_of counter self.now) base }
    {
        self.counters[counter as usize].turns(base)
    }

    // Latches the count of counter `k`, its status or both.
    #[tactic(auto, unfolding(crate::specs::Pit::asked_back))]
    fn ask_back(&mut self, count: bool, status: bool, k: usize, now: u64)
        requires counter { k < 3 }
        requires moment { now ≤ LAST_MOMENT }
        requires loaded { IsLoadedBy now self.old }
        ensures step { self.new ≡ asked_back count status k now self.old }
        ensures keeps { IsLoadedBy now self.new }
    {
        self.counters[k].read_back(count, status, now);
    }

    // Carries out the control word `word`.
    #[tactic(auto, unfolding(crate::specs::Pit::controlled))]
    fn control(&mut self, word: ControlWord, now: u64)
        requires word { IsWord word }
        requires moment { now ≤ LAST_MOMENT }
        requires loaded { IsLoadedBy now self.old }
        ensures { self.new ≡ controlled word now self.old }
    {
        match word {
            ControlWord::LatchCount { counter } => self.counters[counter as usize].latch_count(now),
            ControlWord::SetMode {
                counter,
                access,
                mode,
                bcd,
            } => self.counters[counter as usize].set_mode(access, mode, bcd),
            ControlWord::ReadBack {
                count,
                status,
                counter0,
                counter1,
                counter2,
            } => {
                if self.level >= READ_BACK_LEVEL {
                    self.ask_back(count && counter0, status && counter0, 0, now);
                    self.ask_back(count && counter1, status && counter1, 1, now);
                    self.ask_back(count && counter2, status && counter2, 2, now);
                }
            }
        }
    }
}
