// The events of a drill.
ghost use Rattle.std.specs.Prelude.{◌≡◌, ◌%◌, IsTrue, get_or};
ghost use Rattle.dev_board.specs.Step.{names_wire};
ghost use Rattle.vms_board_commands.specs.DrillEvents.{next_number, ports, wires, event_of};

use dev_board::Event;

/// The multiplier of the sequence of numbers.
const MULTIPLIER: u64 = 6_364_136_223_846_793_005;

const INCREMENT: u64 = 1_442_695_040_888_963_407;

/// The length of a wait for each unit of its byte, in nanoseconds.
const WAIT: u64 = 100_000;

/// The ports of the serial port, of the two 8259A and of the timer chip.
const PORTS: [u16; 16] = [
    0x3f8, 0x3f9, 0x3fa, 0x3fb, 0x3fc, 0x3fd, 0x3fe, 0x3ff, 0x20, 0x21, 0xa0, 0xa1, 0x40, 0x41,
    0x42, 0x43,
];

/// The interrupt inputs that no device drives.
const WIRES: [u8; 13] = [1, 3, 5, 6, 7, 8, 9, 10, 11, 12, 13, 14, 15];

/// An endless sequence of events that a seed determines.
#[derive(Drop)]
pub struct Events {
    number: u64,
}

impl Events {
    /// Returns the events of `seed`.
    pub fn new(seed: u64) -> Events
        ensures { result.number ≡ seed }
    {
        Events { number: seed }
    }

    /// Returns the next event. An event of a wire names a wire that boards have.
    #[tactic(auto, using(crate::proofs::DrillLaws::sum_rest, crate::proofs::DrillLaws::names_a_wire), unfolding(crate::specs::DrillEvents::next_number))]
    pub fn next_event(&mut self) -> Event
        ensures number { self.new.number ≡ next_number self.old.number }
        ensures event { result ≡ event_of self.new.number }
        ensures wire { IsTrue (names_wire result) }
    {
        self.number = self.number.wrapping_mul(MULTIPLIER).wrapping_add(INCREMENT);
        event_of(self.number)
    }
}

// Returns the event of a number. Its upper half modulo 8 chooses what happens, the next eight bits are the byte,
// and the six bits after them choose the port or the wire.
#[tactic(auto, unfolding(crate::specs::DrillEvents::event_of, crate::specs::DrillEvents::event_by))]
fn event_of(number: u64) -> Event
    ensures { result ≡ event_of number }
{
    let chosen = number / 0x1_0000_0000;
    let value = (chosen / 8 % 256) as u8;
    let place = chosen / 2048 % 64;
    match chosen % 8 {
        0 | 1 => Event::Read {
            port: port_at(place),
        },
        2 | 3 => Event::Write {
            port: port_at(place),
            value,
        },
        4 => Event::Byte { value },
        5 => Event::Wait {
            ns: u64::from(value) * WAIT,
        },
        6 => Event::Ack,
        _ => Event::Wire {
            input: wire_at(place),
            up: value % 2 == 1,
        },
    }
}

fn port_at(place: u64) -> u16
    ensures { result ≡ get_or ports (place % 16) 0 }
{
    PORTS[(place % 16) as usize]
}

fn wire_at(place: u64) -> u8
    ensures { result ≡ get_or wires (place % 13) 0 }
{
    WIRES[(place % 13) as usize]
}
