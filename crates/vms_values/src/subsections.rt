// Reads the lines of subsections.
ghost use Rattle.std.specs.Prelude.{◌≡◌, ◌∷◌, ◌++◌, [], OnOk, codes};
ghost use Rattle.std.specs.Fmt.{decimal};
ghost use Rattle.std.specs.Str.{bytes_eq};
ghost use Rattle.vms_spec.specs.Spelling.{first_line};
ghost use Rattle.vms_spec.specs.ValuesReading.{sub_line, sub_said as said};
ghost use Rattle.vms_parts.specs.Views.{sub_of};
ghost use Rattle.vms_values.specs.Calls.{CanReadSub, CanReadSubs, ReadsSub, ReadsSubs};
ghost use Rattle.vms_values.specs.SubsTaken.{line_said, SubPassed};

use crate::cursor::Lines;
use crate::fault::LineFault;
use crate::line::Line;
use crate::read::{bad, pass};
use crate::taken::{Taken, read_part};
use crate::text::is_joined;
use itoa::Buffer;
use vms_desc::{DescSet, Part, Sub};
use vms_io::NoMemory;
use vms_spec::ValuesReason;
use vms_walk::PartAt;
use vms_words::next_line;

/// Reads the subsections of `device`, and appends their line numbers to `lines`. `path` is for the
/// paths of lines.
///
/// # Errors
///
/// - [`LineFault::Bad`]: the first line that is refused, and why.
/// - [`LineFault::NoMemory`]: out of memory.
pub(crate) fn read_subs(
    set: &DescSet,
    device: u32,
    path: &mut Line,
    taken: &mut Taken,
    lines: &mut Vec<usize>,
) -> Result<(), LineFault>
    requires { CanReadSubs set.now device taken.old.image lines.old.items }
    ensures { ReadsSubs set.now device taken.old taken.new lines.new.items result }
{
    for sub in 0..set.sub_count(device) {
        push_line(lines, taken.lines.line)?;
        read_sub(set, device, sub, path, taken)?;
    }
    Ok(())
}

// Appends the number of a line.
fn push_line(lines: &mut Vec<usize>, line: usize) -> Result<(), NoMemory>
    ensures { OnOk result (lines.new.items ≡ lines.old.items ++ line ∷ []) }
{
    lines.push(line)?;
    Ok(())
}

// Reads the line and the numbers of a subsection.
fn read_sub(
    set: &DescSet,
    device: u32,
    sub: u32,
    path: &mut Line,
    taken: &mut Taken,
) -> Result<(), LineFault>
    requires { CanReadSub set.now device sub taken.old.image }
    ensures read { ReadsSub set.now device sub taken.old taken.new result }
{
    let described = &set.device(device).subs.as_slice()[sub as usize];
    let came = read_sub_line(described, &mut taken.lines)?;
    taken.image.mark(sub, came);
    let part = Part::Sub(device, sub);
    let spot = PartAt {
        part,
        version: described.desc.version,
        base: set.first_cell(part),
    };
    read_part(set, spot, path, taken)
}

// Reads the line of a subsection, and returns the version at which it came, if it did.
fn read_sub_line(sub: &Sub, lines: &mut Lines) -> Result<Option<u32>, LineFault>
    ensures { let o = said (sub_of sub.now) (first_line lines.old.rest.now) in
        SubPassed o lines.old lines.new result }
{
    let Some(line) = next_line(lines.rest) else {
        return Err(bad(lines, ValuesReason::Form));
    };
    match sub_said(sub, line.text) {
        Some(came) => {
            pass(lines, line);
            Ok(came)
        }
        None => Err(bad(lines, ValuesReason::Form)),
    }
}

// Returns what `line` says about a subsection: its version, a dash, or nothing.
fn sub_said(sub: &Sub, line: &[u8]) -> Option<Option<u32>>
    ensures { result ≡ line_said (sub_of sub.now) line.now }
{
    if is_at_version(sub, line) {
        Some(Some(sub.desc.version))
    } else if is_dashed(sub, line) {
        Some(None)
    } else {
        None
    }
}

fn is_at_version(sub: &Sub, line: &[u8]) -> bool
    ensures { let version = codes "v" ++ decimal sub.now.desc.version in
        result ≡ bytes_eq line.now (sub_line (sub_of sub.now) version) }
{
    let mut version = Buffer::new();
    let version = version.format(sub.desc.version).as_bytes();
    is_joined(line, &[b"sub ", sub.desc.name.as_bytes(), b" v", version])
}

fn is_dashed(sub: &Sub, line: &[u8]) -> bool
    ensures { result ≡ bytes_eq line.now (sub_line (sub_of sub.now) (codes "-")) }
{
    is_joined(line, &[b"sub ", sub.desc.name.as_bytes(), b" -"])
}
