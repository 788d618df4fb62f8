// The readers of single values: numbers and texts.
ghost use Rattle.std.specs.Prelude.{List, ℕ, ℤ};
ghost use Rattle.serde_json.specs.Data.{Data};
ghost use Rattle.vms_json.specs.Nodes.{view};
ghost use Rattle.vms_json.specs.Answers.{Answer, Answers};
ghost use Rattle.vms_json.specs.Members.{natural, u16_of, u32_of, u64_of, integer_of, text_of};

use crate::Node;
use crate::fault::Fault;
use serde_json::Number;
use std::alloc::Global;
use vms_parts::Text;

/// A reader of one value.
pub trait Reads {
    /// The type of what is read.
    type Out;

    // The same as plain data.
    ghost Meaning: { Type 0 };

    ghost means: { Self.Out → Meaning };

    // What a value says to this reader.
    ghost says: { Self → Data → Answer Meaning };

    /// Reads `value`.
    ///
    /// # Errors
    ///
    /// - [`Fault::Shape`]: the value is invalid. The path leads to the first fault in it.
    /// - [`Fault::NoMemory`]: out of memory.
    fn read(&self, alloc: Global, value: &Node) -> Result<Self::Out, Fault>
        ensures { Answers means (says self.now (view value.now)) result };
}

// Reads a whole number from 0 to `most`.
fn read_natural(alloc: Global, most: u64, value: &Node) -> Result<u64, Fault>
    ensures { Answers (λ n. n) (natural most (view value.now)) result }
{
    match value.as_u64() {
        Some(number) if number <= most => Ok(number),
        _ => Err(Fault::here(alloc)),
    }
}

/// A reader of a whole number from 0 to 2^32 - 1.
#[derive(Clone, Copy)]
pub struct U32;

impl Reads for U32 {
    type Out = u32;

    ghost Meaning = { ℕ };

    ghost means = { λ n. n };

    ghost says = { λ _. u32_of };

    fn read(&self, alloc: Global, value: &Node) -> Result<u32, Fault> {
        Ok(read_natural(alloc, u32::MAX as u64, value)? as u32)
    }
}

/// A reader of a text.
#[derive(Clone, Copy)]
pub struct TextOf;

impl Reads for TextOf {
    type Out = Text;

    ghost Meaning = { List ℕ };

    ghost means = { λ t. t };

    ghost says = { λ _. text_of };

    fn read(&self, alloc: Global, value: &Node) -> Result<Text, Fault> {
        match value.as_str() {
            Some(text) => Ok(Text::copied(alloc, text)?),
            None => Err(Fault::here(alloc)),
        }
    }
}

/// A reader of a whole number from 0 to 2^16 - 1.
#[derive(Clone, Copy)]
pub struct U16;

impl Reads for U16 {
    type Out = u16;

    ghost Meaning = { ℕ };

    ghost means = { λ n. n };

    ghost says = { λ _. u16_of };

    fn read(&self, alloc: Global, value: &Node) -> Result<u16, Fault> {
        Ok(read_natural(alloc, u16::MAX as u64, value)? as u16)
    }
}

/// A reader of a whole number from 0 to 2^64 - 1.
#[derive(Clone, Copy)]
pub struct U64;

impl Reads for U64 {
    type Out = u64;

    ghost Meaning = { ℕ };

    ghost means = { λ n. n };

    ghost says = { λ _. u64_of };

    fn read(&self, alloc: Global, value: &Node) -> Result<u64, Fault> {
        read_natural(alloc, u64::MAX, value)
    }
}

/// A reader of a whole number of 64 bits, signed or unsigned.
#[derive(Clone, Copy)]
pub struct Integer;

impl Reads for Integer {
    type Out = i128;

    ghost Meaning = { ℤ };

    ghost means = { λ z. z };

    ghost says = { λ _. integer_of };

    fn read(&self, alloc: Global, value: &Node) -> Result<i128, Fault> {
        match value.as_number().and_then(Number::as_i128) {
            Some(number) => Ok(number),
            None => Err(Fault::here(alloc)),
        }
    }
}
