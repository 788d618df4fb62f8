// A board's devices on one clock, while an event happens to them.
ghost use Rattle.std.specs.Prelude.{◌≡◌, ◌<◌, ◌≤◌, IsTrue, true, false, None};
ghost use Rattle.dev_base.specs.Bits.{has as has_of};
ghost use Rattle.dev_base.specs.Levels.{IsLevel};
ghost use Rattle.dev_base.specs.declared.limits.TheConstants.{LAST_MOMENT as last_moment};
ghost use Rattle.dev_board.specs.Kept.{IsCalm, IsKept};
ghost use Rattle.dev_board.specs.Touch.{asks_int};
ghost use Rattle.dev_pic.specs.Pair.{int_of, settled_pair};
ghost use Rattle.dev_pit.specs.Pit.{pit_edge, pit_out};
ghost use Rattle.dev_serial.specs.Port.{line_of};
ghost use Rattle.dev_board.specs.declared.event.Event.TheVariants.{Wait};

use crate::event::{Answer, Event, saying};
use crate::kept::Kept;
use crate::ports::Target;
use crate::touch::{
    Before, Touch, ack_touches, is_command, is_quiet, is_untouched, leaves_port, time_touches,
};
use crate::wires::{SERIAL, TIMER, WIRES, bits_where, is_high, with_wire};
use arrayvec::ArrayVec;
use dev_pic::PicPair;
use dev_pit::Pit;
use dev_serial::{MOST_SENT, Serial};
use std::marker::Model;

/// What a read of a port without a device returns.
pub(crate) const NO_DEVICE: u8 = 0xff;

/// The devices of a board at a present moment, whatever lines the master remembers of them.
#[derive(Drop)]
pub(crate) struct Parts {
    /// The level, 1 to 4.
    pub(crate) level: u8,
    /// The present moment, in nanoseconds after power on.
    pub(crate) moment: u64,
    /// The two 8259A.
    pub(crate) pair: PicPair,
    /// The timer chip.
    pub(crate) pit: Pit,
    /// The serial port.
    pub(crate) serial: Serial,
}

impl Model for Parts {
    ghost use Rattle.dev_board.specs.State.{State};

    ghost Value = { State };

    ghost use Rattle.dev_board.specs.View.{parts_view};
    ghost use Rattle.dev_board.specs.Sound.{HasDevices};

    ghost view = { parts_view };

    ghost invariant = { λ d. HasDevices (parts_view d) };
}

impl Parts {
    ghost use Rattle.dev_board.specs.Ports.{target_of, read as read_of, write as written};
    ghost use Rattle.dev_board.specs.Sound.{IsSound};
    ghost use Rattle.dev_board.specs.State.{power_on};
    ghost use Rattle.dev_board.specs.Step.{byte_came, waited, inputs_of, settled, step, names_wire};
    ghost use Rattle.dev_board.specs.Touch.{IsBefore, Stays, read_touches, write_touches};
    ghost use Rattle.dev_board.specs.Wires.{AreWires, wires_of};

    /// Returns the devices of level `level` at power on.
    #[tactic(auto, unfolding(crate::specs::State::power_on))]
    pub(crate) fn new(level: u8) -> Parts
        requires { IsLevel level }
        ensures state { result ≡ power_on level }
        ensures sound { IsSound result }
    {
        Parts {
            level,
            moment: 0,
            pair: PicPair::new(level),
            pit: Pit::new(level),
            serial: Serial::new(level),
        }
    }

    /// Returns the present moment.
    pub(crate) fn now(&self) -> u64
        ensures moment { result ≡ self.now.moment }
        ensures last { result ≤ last_moment }
    {
        self.moment
    }

    /// Applies `event`, updates the interrupt lines once, and returns the answer.
    ///
    /// The board is sound before and after, and `kept` is of it. A wire is one of the inputs 1, 3, 5,
    /// 6, 7 and 8 to 15. Time passes at most up to the last moment.
    #[inline(always)]
    #[tactic(auto, unfolding(crate::specs::Step::step, crate::specs::Step::after_act, crate::specs::Step::acted, crate::specs::Step::wires_after))]
    pub(crate) fn event(&mut self, event: Event, kept: &mut Kept) -> Answer
        requires wire { IsTrue (names_wire event) }
        requires sound { IsSound self.old }
        requires kept { IsKept kept.old self.old }
        ensures step { (result, self.new) ≡ step event self.old }
        ensures sound { IsSound self.new }
        ensures kept { IsKept kept.new self.new }
    {
        let before = self.before(kept);
        let wires = self.wires();
        match event {
            Event::Read { port } => {
                let (value, touch) = self.read(port);
                kept.int = self.settle(wires, before, touch, false);
                saying(Some(value), kept.int)
            }
            Event::Write { port, value } => {
                let touch = self.write(port, value);
                kept.int = self.settle(wires, before, touch, false);
                kept.calm = touch.calm(kept.calm);
                saying(None, kept.int)
            }
            Event::Byte { value } => {
                self.byte_in(value);
                kept.int = self.settle(wires, before, Touch::Port, false);
                saying(None, kept.int)
            }
            Event::Wait { ns } => self.pass(ns, kept),
            Event::Wire { input, up } => {
                let wires = with_wire(wires, input, up);
                kept.int = self.settle(wires, before, Touch::Untouched, false);
                saying(None, kept.int)
            }
            Event::Ack => {
                let value = self.pair.ack();
                kept.int = self.settle(wires, before, ack_touches(before.lines), false);
                saying(Some(value), kept.int)
            }
        }
    }

    // Lets `ns` nanoseconds pass, as `event` does.
    #[inline(always)]
    #[tactic(auto, unfolding(crate::specs::Step::step, crate::specs::Step::after_act, crate::specs::Step::acted, crate::specs::Step::wires_after))]
    fn pass(&mut self, ns: u64, kept: &mut Kept) -> Answer
        requires sound { IsSound self.old }
        requires kept { IsKept kept.old self.old }
        ensures step { (result, self.new) ≡ step (Wait ns) self.old }
        ensures sound { IsSound self.new }
        ensures kept { IsKept kept.new self.new }
    {
        let before = self.before(kept);
        let wires = self.wires();
        let to = self.later_by(ns);
        let is_calm = to < kept.calm;
        let (edge, sent) = self.wait(to, is_calm);
        kept.int = self.settle(wires, before, time_touches(is_calm), edge);
        kept.calm = self.still_calm(is_calm, kept.calm);
        Answer {
            value: None,
            int: kept.int,
            sent,
        }
    }

    // Returns the lines and the output that the master has before an event.
    #[inline(always)]
    fn before(&self, kept: &Kept) -> Before
        requires { IsKept kept.now self.now }
        ensures { IsBefore result self.now }
    {
        Before {
            lines: self.pair.lines(),
            int: kept.int,
        }
    }

    // Returns the wires as they are now.
    #[inline(always)]
    #[tactic(auto, unfolding(crate::specs::Wires::wires_of))]
    fn wires(&self) -> u16
        ensures wires { result ≡ wires_of self.now }
        ensures are { AreWires result }
    {
        self.pair.lines() & WIRES
    }

    // Receives a byte on the serial line.
    fn byte_in(&mut self, value: u8)
        ensures { self.new ≡ byte_came value self.old }
    {
        self.serial.byte_in(value, self.moment);
    }

    /// Returns what a port reaches.
    #[inline(always)]
    #[tactic(auto, unfolding(crate::specs::Ports::target_of))]
    pub(crate) fn target(&self, port: u16) -> Target
        ensures { result ≡ target_of self.now.level port }
    {
        if self.pair.is_port(port) {
            return Target::Pair;
        }
        match port {
            0x40..=0x42 => Target::Counter {
                counter: (port - 0x40) as u8,
            },
            0x43 => Target::Control,
            0x3f8..=0x3ff => Target::Register {
                offset: (port - 0x3f8) as u8,
            },
            _ => Target::Nothing,
        }
    }

    // Reads a port, and returns the value and what that touched.
    #[inline(always)]
    #[tactic(auto, unfolding(crate::specs::Ports::read_at))]
    fn read(&mut self, port: u16) -> (u8, Touch)
        ensures step { (result.0, self.new) ≡ read_of port self.old }
        ensures touch { result.1
            ≡ read_touches (target_of self.old.level port) (read_of port self.old).0 }
    {
        match self.target(port) {
            Target::Pair => (self.pair.read(port), Touch::Access),
            Target::Counter { counter } => (self.pit.read(counter, self.moment), Touch::Untouched),
            Target::Register { offset } => {
                let value = self.serial.read(offset, self.moment);
                (
                    value,
                    if leaves_port(offset, value) {
                        Touch::Untouched
                    } else {
                        Touch::Port
                    },
                )
            }
            Target::Control | Target::Nothing => (NO_DEVICE, Touch::Untouched),
        }
    }

    // Writes a byte to a port, and returns what that touched.
    #[inline(always)]
    #[tactic(auto, unfolding(crate::specs::Ports::written_at))]
    fn write(&mut self, port: u16, value: u8) -> Touch
        ensures step { self.new ≡ written port value self.old }
        ensures touch { result ≡ write_touches (target_of self.old.level port) port value }
    {
        match self.target(port) {
            Target::Pair => {
                self.pair.write(port, value);
                if is_command(port, value) {
                    Touch::Command
                } else {
                    Touch::Access
                }
            }
            Target::Counter { .. } | Target::Control => {
                self.pit.write(port, value, self.moment);
                Touch::Timer
            }
            Target::Register { offset } => {
                self.serial.write(offset, value, self.moment);
                Touch::Port
            }
            Target::Nothing => Touch::Untouched,
        }
    }

    // Lets time pass up to `to`; returns whether counter 0 had a rising edge, and the bytes that
    // left. There is no edge if `is_calm`.
    #[inline(always)]
    #[tactic(auto, unfolding(crate::specs::Step::waited))]
    fn wait(&mut self, to: u64, is_calm: bool) -> (bool, ArrayVec<u8, MOST_SENT>)
        requires later { self.old.moment ≤ to }
        requires last { to ≤ last_moment }
        requires calm { is_calm ≡ true → pit_edge 0 self.old.moment to self.old.pit ≡ false }
        ensures { (record { value = None; edge = result.0; sent = result.1.items }, self.new)
            ≡ waited to self.old }
    {
        let sent = self.serial.advance(to);
        let edge = if is_calm {
            false
        } else {
            self.pit.edge(0, self.moment, to)
        };
        self.moment = to;
        (edge, sent)
    }

    // Returns OUT of counter 0, which is still in the earlier lines if it wasn't touched.
    #[inline(always)]
    fn timer_out(&self, touched: bool, lines: u16) -> bool
        requires { touched ≡ false → has_of lines 0 ≡ pit_out 0 self.now.moment self.now.pit }
        ensures { result ≡ pit_out 0 self.now.moment self.now.pit }
    {
        if touched {
            self.pit.out(0, self.moment)
        } else {
            is_high(lines, 0)
        }
    }

    // Returns the serial port's line, which is still in the earlier lines if it wasn't touched.
    fn line(&self, touched: bool, lines: u16) -> bool
        requires { touched ≡ false → has_of lines 4 ≡ line_of self.now.moment self.now.serial }
        ensures { result ≡ line_of self.now.moment self.now.serial }
    {
        if touched {
            self.serial.line(self.moment)
        } else {
            is_high(lines, 4)
        }
    }

    // Returns the inputs of the pair: the wires, OUT of counter 0 and the serial port's line.
    #[inline(always)]
    #[tactic(auto, unfolding(crate::specs::Step::inputs_of))]
    fn inputs(&self, wires: u16, before: Before, touch: Touch) -> u16
        requires { Stays touch before self.now }
        ensures { result ≡ inputs_of wires self.now }
    {
        let out = self.timer_out(touch.asks_timer(), before.lines);
        let line = self.line(touch.asks_port(), before.lines);
        wires | bits_where(out, TIMER) | bits_where(line, SERIAL)
    }

    // Updates the lines, with an edge at the timer's input or none, and returns the master's
    // output.
    #[inline(always)]
    #[tactic(auto, unfolding(crate::specs::Step::settled))]
    fn settle(&mut self, wires: u16, before: Before, touch: Touch, edge: bool) -> bool
        requires wires { AreWires wires }
        requires stays { Stays touch before self.old }
        ensures int { result ≡ int_of self.new.pair }
        ensures state { self.new ≡ settled wires edge self.old }
        ensures sound { IsSound self.new }
    {
        let lines = before.lines;
        if is_untouched(touch, edge, wires, lines) {
            return int_after(&self.pair, touch, before.int);
        }
        let inputs = self.inputs(wires, before, touch);
        if is_quiet(touch, edge, inputs, lines) {
            return int_after(&self.pair, touch, before.int);
        }
        take(&mut self.pair, inputs, bits_where(edge, TIMER));
        self.pair.int()
    }
}

// Updates the lines. This is rare, so it isn't inlined, which keeps each event's code short.
#[inline(never)]
fn take(pair: &mut PicPair, inputs: u16, edges: u16)
    ensures { pair.new ≡ settled_pair inputs edges pair.old }
{
    pair.settle(inputs, edges);
}

// Returns the master's output, which is still as before if it wasn't touched.
#[inline(always)]
fn int_after(pair: &PicPair, touch: Touch, before: bool) -> bool
    requires { asks_int touch ≡ false → before ≡ int_of pair.now }
    ensures { result ≡ int_of pair.now }
{
    if touch.asks_int() { pair.int() } else { before }
}
