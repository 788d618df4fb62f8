// Reasons why a file gives no set.
ghost use Rattle.vms_descfile.specs.Given.{IsFileFault};

use std::alloc::Global;
use vms_desc::{Place, Text};
use vms_json::Fault;

/// A reason why a description file gives no set.
#[derive(Drop)]
pub enum FileFault {
    /// The bytes are no JSON value.
    Syntax,
    /// The value hasn't the shape of a description file. The first fault is at this path of keys
    /// and positions, for example `devices.0.instance`; `file` is the whole.
    Shape(Text),
    /// A rule of well-formed sets, 1 to 8, fails first at this place. No lower rule fails there.
    IllFormed { rule: u8, place: Place },
    /// Out of memory.
    NoMemory,
}

impl FileFault {
    pub(crate) fn of(alloc: Global, fault: Fault) -> FileFault
        ensures { IsFileFault fault result }
    {
        match fault {
            Fault::Shape(path) => {
                if !path.as_str().is_empty() {
                    return FileFault::Shape(path);
                }
                match String::from_str(alloc, "file") {
                    Ok(whole) => FileFault::Shape(Text::new(whole)),
                    Err(_) => FileFault::NoMemory,
                }
            }
            Fault::NoMemory => FileFault::NoMemory,
        }
    }
}
