// The names of fields.
ghost use Rattle.std.specs.Prelude.{ℕ, min};
ghost use Rattle.vms_json.specs.Answers.{Answers};
ghost use Rattle.vms_json.specs.Names.{names_seen, number_in, name_in};

use crate::fault::Fault;
use crate::words::Reads;
use crate::{FieldNames, Node};
use std::alloc::Global;

/// The index in which names are looked up, or `None` in a first walk, in which each name has the
/// number 0.
pub type Names<'a> = Option<&'a FieldNames>;

/// The fields that a test may name: those of its own description, and in a needed test also the
/// device's.
#[derive(Clone, Copy)]
pub struct Scope<'a> {
    /// The fields of the test's own description.
    pub own: Names<'a>,
    /// The fields of the device, if the test is a needed test.
    pub parent: Option<Names<'a>>,
}

// Returns the number of a field by its name.
fn number_in(alloc: Global, names: Names, name: &str) -> Result<u32, Fault>
    ensures { Answers (λ n. n) (number_in (names_seen names.entry) name.now) result }
{
    let Some(names) = names else {
        return Ok(0);
    };
    match names.find(name) {
        Some(number) => Ok(number.min(u32::MAX as usize) as u32),
        None => Err(Fault::here(alloc)),
    }
}

/// A reader of a field's name, which gives the field's number.
#[derive(Clone, Copy)]
pub struct NameIn<'a>(pub Names<'a>);

impl<'a> Reads for NameIn<'a> {
    type Out = u32;

    ghost Meaning = { ℕ };

    ghost means = { λ n. n };

    ghost says = { λ s. name_in (names_seen s.0) };

    fn read(&self, alloc: Global, value: &Node) -> Result<u32, Fault> {
        match value.as_str() {
            Some(name) => number_in(alloc, self.0, name),
            None => Err(Fault::here(alloc)),
        }
    }
}
