// Reads one unit a call, from its first byte on. Each is refused at the offset `at`.
ghost use Rattle.std.specs.Prelude.{◌≡◌, true, false, ◌∷◌, [], ◌≤◌, length, IfOk, Err};
ghost use Rattle.vms_kinds.specs.Codes.{InRange};
ghost use Rattle.vms_frames.specs.Calls.{IsNext, is_configuration, tail_of};
ghost use Rattle.vms_io.specs.Told.{intake};
ghost use Rattle.vms_frames.specs.Reads.{ReadsMagic, ReadsVersion, ReadsCode, ReadsStep, ReadsNext, ReadsBehind, ReadsSub, ReadsFoot, ReadsText, ReadsTrailer, IsBegun, held_bytes, head_seen, start_seen, configuration_seen, IsStartReason, IsMarkReason};
ghost use Rattle.vms_marks.specs.declared.description.TheConstants.{DESCRIPTION_FRONT, LONGEST_DESCRIPTION};

use crate::fault::refused;
use crate::fill::{Unit, fill, grow, grow_head, pass};
use crate::units::{Begins, Behind};
use crate::{Between, FrameFault, Step, Tail};
use byteorder::{BigEndian, ByteOrder};
use vms_io::{Source, read_exact_of};
use vms_kinds::Kind;
use vms_marks::{
    CONFIGURATION_FRONT, Configuration, DESCRIPTION_FRONT, Foot, HEAD_FRONT, Head, MAGIC, Mark,
    SUB_FRONT, SubHead,
};
use vms_spec::{LONGEST_NAME, LONGEST_TEXT, Reason};

/// Reads the magic, the first four bytes of a stream.
pub(crate) fn magic<S: Source>(source: &mut S, at: u64) -> Result<(), FrameFault>
    ensures reads { ReadsMagic (intake S.Source source.old) (intake S.Source source.new)
        at result }
{
    let mut unit = Unit::new();
    grow(source, at, &mut unit, 4)?;
    if unit.as_slice() != MAGIC.as_slice() {
        return Err(refused(at, Reason::BadMagic));
    }
    Ok(())
}

/// Reads the stream's version, which must be 3.
pub(crate) fn version<S: Source>(source: &mut S, at: u64) -> Result<(), FrameFault>
    ensures reads { ReadsVersion (intake S.Source source.old) (intake S.Source source.new)
        at result }
{
    let mut unit = Unit::new();
    grow(source, at, &mut unit, 4)?;
    match BigEndian::read_u32(&unit) {
        3 => Ok(()),
        2 => Err(refused(at, Reason::OldStream)),
        _ => Err(refused(at, Reason::BadVersion)),
    }
}

/// Reads a number of `kind`.
#[inline(always)]
pub(crate) fn number<S: Source>(source: &mut S, at: u64, kind: Kind) -> Result<i128, FrameFault>
    ensures range { IfOk result (InRange kind) }
    ensures reads { ReadsCode (intake S.Source source.old) (intake S.Source source.new)
        kind at result }
{
    let mut room = [0; 8];
    let code = &mut room[..kind.width()];
    fill(source, at, code)?;
    match kind.take(code) {
        Some(value) => Ok(value),
        None => Err(refused(at, Reason::BadBool)),
    }
}

/// Reads a unit between sections. Its first byte may be held.
pub(crate) fn step<S: Source>(
    source: &mut S,
    at: u64,
    between: Between,
    held: Option<u8>,
) -> Result<Step, FrameFault>
    ensures reads { ReadsStep (intake S.Source source.old) (intake S.Source source.new)
        between (held_bytes held) at result }
    ensures place { IfOk result (λ step. is_configuration step ≡ true → between ≡ Between.First) }
{
    let mut unit = Unit::new();
    match held {
        Some(mark) => unit.push(mark),
        None => grow(source, at, &mut unit, 1)?,
    }
    marked(source, at, between, unit)
}

// Reads the unit that begins with the byte in `unit`.
fn marked<S: Source>(
    source: &mut S,
    at: u64,
    between: Between,
    unit: Unit,
) -> Result<Step, FrameFault>
    requires { length unit.items ≡ 1 }
    ensures reads { ReadsStep (intake S.Source source.old) (intake S.Source source.new)
        between unit.items at result }
    ensures place { IfOk result (λ step. is_configuration step ≡ true → between ≡ Between.First) }
{
    let mark = unit[0];
    match Mark::of(mark) {
        Some(Mark::End) => Ok(Step::End),
        Some(Mark::Start) => Err(start(source, at, unit)),
        Some(Mark::Full) => section(source, at, unit),
        Some(Mark::Configuration) if between == Between::First => configuration(source, at, unit),
        _ => Err(refused(at, mark_reason(mark, between))),
    }
}

// Returns why the byte `mark` begins nothing between sections.
fn mark_reason(mark: u8, between: Between) -> Reason
    ensures { IsMarkReason between mark result }
{
    match Mark::of(mark) {
        Some(Mark::Part) | Some(Mark::SectionEnd) => Reason::Iterative,
        Some(Mark::Command) => Reason::Command,
        Some(Mark::Sub) if between == Between::AfterConfiguration => Reason::ConfigurationExtra,
        _ => Reason::BadMark,
    }
}

// Reads the head of a section, whose mark is in `unit`.
fn section<S: Source>(source: &mut S, at: u64, unit: Unit) -> Result<Step, FrameFault>
    requires { length unit.items ≡ 1 }
    ensures reads { ReadsNext (intake S.Source source.old) (intake S.Source source.new)
        head_seen unit.items at result }
    ensures section { IfOk result (λ step. is_configuration step ≡ false) }
{
    let mut unit = unit;
    grow_head(source, at, &mut unit, HEAD_FRONT, 8)?;
    Ok(Step::Section(Head::of(&unit)))
}

// Reads a configuration, whose mark is in `unit`.
fn configuration<S: Source>(source: &mut S, at: u64, unit: Unit) -> Result<Step, FrameFault>
    requires { length unit.items ≡ 1 }
    ensures reads { ReadsNext (intake S.Source source.old) (intake S.Source source.new)
        configuration_seen unit.items at result }
{
    let mut unit = unit;
    grow(source, at, &mut unit, CONFIGURATION_FRONT - 1)?;
    let length = Configuration::name_length(&unit);
    if length as usize > LONGEST_NAME {
        return Err(refused(at, Reason::WrongMachine));
    }
    grow(source, at, &mut unit, length as usize)?;
    Ok(Step::Configuration(Configuration::of(&unit).machine))
}

// Reads the head of a section that is sent in parts, whose mark is in `unit`, and returns why it is
// refused.
fn start<S: Source>(source: &mut S, at: u64, unit: Unit) -> FrameFault
    requires { length unit.items ≡ 1 }
    ensures { ReadsNext (intake S.Source source.old) (intake S.Source source.new)
        start_seen unit.items at (Err result) }
{
    let mut unit = unit;
    match grow_head(source, at, &mut unit, HEAD_FRONT, 0) {
        Ok(()) => refused(at, start_reason(&unit[HEAD_FRONT..])),
        Err(fault) => fault,
    }
}

// Returns why the section `name`, which is sent in parts, is refused.
fn start_reason(name: &[u8]) -> Reason
    ensures { IsStartReason name.now result }
{
    if name == b"ram".as_slice() {
        Reason::Ram
    } else {
        Reason::Iterative
    }
}

/// Reads what follows the fields of the section `id`.
pub(crate) fn behind<S: Source>(
    source: &mut S,
    at: u64,
    id: u32,
    tail: Tail,
) -> Result<Behind, FrameFault>
    ensures reads { ReadsBehind (intake S.Source source.old) (intake S.Source source.new)
        tail id [] at result }
    ensures next { IfOk result (λ behind. IsNext behind → tail ≡ Tail.Footed → ⊥) }
{
    let mut unit = Unit::new();
    grow(source, at, &mut unit, 1)?;
    behind_marked(source, at, id, tail, unit)
}

// Reads what begins after fields with the byte in `unit`.
fn behind_marked<S: Source>(
    source: &mut S,
    at: u64,
    id: u32,
    tail: Tail,
    unit: Unit,
) -> Result<Behind, FrameFault>
    requires { length unit.items ≡ 1 }
    ensures reads { ReadsBehind (intake S.Source source.old) (intake S.Source source.new)
        tail id unit.items at result }
    ensures next { IfOk result (λ behind. IsNext behind → tail ≡ Tail.Footed → ⊥) }
{
    match begins(tail, unit[0]) {
        Begins::Sub => {
            let SubHead { name, version } = subsection(source, at, unit)?;
            Ok(Behind::Sub { name, version })
        }
        Begins::Footer => {
            footer(source, at, id, unit)?;
            Ok(Behind::Done)
        }
        Begins::NoFooter => Err(no_footer(at)),
        Begins::Next => Ok(Behind::Next(unit[0])),
    }
}

// Returns what `byte` begins after fields. In a footed stream a footer must come, in a bare one
// none may.
fn begins(tail: Tail, byte: u8) -> Begins
    ensures { IsBegun (tail_of tail) byte result }
{
    if byte == Mark::Sub.byte() {
        return Begins::Sub;
    }
    let is_footer = byte == Mark::Footer.byte();
    match tail {
        Tail::Unknown | Tail::Footed if is_footer => Begins::Footer,
        Tail::Footed => Begins::NoFooter,
        Tail::Unknown | Tail::Bare => Begins::Next,
    }
}

// Reads the head of a subsection, whose mark is in `unit`.
fn subsection<S: Source>(source: &mut S, at: u64, unit: Unit) -> Result<SubHead, FrameFault>
    requires { length unit.items ≡ 1 }
    ensures { ReadsSub (intake S.Source source.old) (intake S.Source source.new)
        unit.items at result }
{
    let mut unit = unit;
    grow_head(source, at, &mut unit, SUB_FRONT, 4)?;
    Ok(SubHead::of(&unit))
}

// Reads the footer of the section `id`, whose mark is in `unit`.
fn footer<S: Source>(source: &mut S, at: u64, id: u32, unit: Unit) -> Result<(), FrameFault>
    requires { length unit.items ≡ 1 }
    ensures { ReadsFoot (intake S.Source source.old) (intake S.Source source.new)
        id unit.items at result }
{
    let mut unit = unit;
    grow(source, at, &mut unit, 4)?;
    if Foot::of(&unit).id != id {
        return Err(no_footer(at));
    }
    Ok(())
}

// Returns the refusal of what isn't the footer that the section must have.
fn no_footer(at: u64) -> FrameFault
    ensures { result ≡ FrameFault.Refused at Reason.BadFooter }
{
    refused(at, Reason::BadFooter)
}

/// Reads what belongs to the stream after its end mark, and returns its length: nothing, or a
/// description section.
pub(crate) fn trailer<S: Source>(source: &mut S, at: u64) -> Result<u64, FrameFault>
    ensures reads { ReadsTrailer (intake S.Source source.old) (intake S.Source source.new)
        at result }
    ensures most { IfOk result (λ n. n ≤ LONGEST_DESCRIPTION) }
{
    let mut mark = [0; 1];
    match read_exact_of(source, &mut mark) {
        Ok(0) => Ok(0),
        Ok(_) if mark[0] == Mark::Description.byte() => description(source, at),
        Ok(_) => Err(refused(at, Reason::Trailing)),
        Err(_) => Err(FrameFault::ReadFault),
    }
}

// Reads a description section after its mark, and returns its length with the mark.
fn description<S: Source>(source: &mut S, at: u64) -> Result<u64, FrameFault>
    ensures reads { ReadsText (intake S.Source source.old) (intake S.Source source.new)
        (0x06 ∷ []) at result }
    ensures least { IfOk result (λ n. DESCRIPTION_FRONT ≤ n) }
    ensures most { IfOk result (λ n. n ≤ LONGEST_DESCRIPTION) }
{
    let mut length = [0; 4];
    fill(source, at, &mut length)?;
    let length = BigEndian::read_u32(&length);
    if length > LONGEST_TEXT {
        return Err(refused(at, Reason::DescriptionTooLong));
    }
    pass(source, at, length as usize)?;
    Ok(DESCRIPTION_FRONT as u64 + length as u64)
}
