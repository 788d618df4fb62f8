// The line that names a machine.
ghost use Rattle.std.specs.Prelude.{◌<◌, length};
ghost use Rattle.vms_spec.specs.Spelling.{first_line};
ghost use Rattle.vms_spec.specs.ValuesReading.{machine_named};
ghost use Rattle.vms_values.specs.Machines.{IsMachineLine, StartsAt};

use crate::cursor::Lines;
use vms_desc::{Text, find_name};
use vms_words::next_line;

/// The number of the machine that a text names, and what follows.
#[derive(Clone, Copy)]
pub(crate) struct Start<'a> {
    pub(crate) machine: Option<u32>,
    pub(crate) lines: Lines<'a>,
}

/// Reads the machine's line, if `text` begins with one that names a machine of `machines`.
pub(crate) fn read_machine<'a>(machines: &[Text], text: &'a [u8]) -> Start<'a>
    requires { length machines.now < 4294967296 }
    ensures { StartsAt machines.now text.now
        (machine_named machines.now (first_line text.now)) result }
{
    if let Some(line) = next_line(text) {
        if let Some(machine) = machine_in(machines, line.text) {
            let lines = Lines {
                rest: line.after,
                line: 2,
            };
            return Start {
                machine: Some(machine),
                lines,
            };
        }
    }
    Start {
        machine: None,
        lines: Lines {
            rest: text,
            line: 1,
        },
    }
}

/// Returns the number of the machine that `line` names, if it names one.
fn machine_in(machines: &[Text], line: &[u8]) -> Option<u32>
    requires { length machines.now < 4294967296 }
    ensures { IsMachineLine machines.now line.now result }
{
    match line.strip_prefix(b"machine ") {
        Some(name) => find_name(machines, name),
        None => None,
    }
}
