// The line of a refused stream. It needs no allocation, so it can't be lost after the input was read.
ghost use Rattle.std.specs.Prelude.{◌≡◌, ◌+◌, ◌++◌, ◌≤◌, ◌<◌, Some, length};
ghost use Rattle.vms_desc.specs.Described.{described, device_at};
ghost use Rattle.vms_commands.specs.Lines.{device_text, refusal_text, refused_line, section_text};
ghost use Rattle.vms_commands.specs.declared.refused.TheConstants.{SECTION_ROOM};

use crate::line_parts::{append_number, append_reason};
use arrayvec::ArrayVec;
use vms_desc::DescSet;
use vms_load::Refusal;
use vms_words::append;

/// A line of at most 256 bytes in a fixed buffer, built without an allocation.
pub type NoteLine = ArrayVec<u8, 256>;

/// Returns the line of the refused stream: `refused at OFFSET in DEVICE: REASON`.
///
/// `set` is the set that the stream was read with; `refusal` holds the offset, the device and the
/// reason.
pub fn refused_line(set: &DescSet, refusal: &Refusal) -> NoteLine
    ensures { let r = refusal.now in
        result.items ≡ refused_line (described set.now) r.at r.section r.reason }
{
    refusal_line(set, refusal, b"refused at ", b" in ", b": ")
}

/// Returns a line of `refusal` in which each part follows a text of the caller: the offset follows
/// `before_place`, the device `before_device` and the reason `before_reason`.
///
/// # Requires
///
/// `before_place` has at most 16 bytes; `before_device` and `before_reason` have at most 8 each.
pub fn refusal_line(
    set: &DescSet,
    refusal: &Refusal,
    before_place: &[u8],
    before_device: &[u8],
    before_reason: &[u8],
) -> NoteLine
    requires place { length before_place.now ≤ 16 }
    requires device { length before_device.now ≤ 8 }
    requires reason { length before_reason.now ≤ 8 }
    ensures { let r = refusal.now in
        result.items ≡ refusal_text before_place.now before_device.now before_reason.now
        (described set.now) r.at r.section r.reason }
{
    let mut line = ArrayVec::new();
    append(&mut line, before_place);
    append_number(&mut line, refusal.at);
    append(&mut line, before_device);
    append_section(&mut line, set, refusal.section);
    append(&mut line, before_reason);
    append_reason(&mut line, refusal.reason);
    append(&mut line, b"\n");
    line
}

/// The most bytes that [`append_section`] appends.
pub const SECTION_ROOM: usize = 121;

/// Appends the name and the instance of device `section` of `set` to `line`, or a dash if there is
/// none.
///
/// # Requires
///
/// `line` has room for [`SECTION_ROOM`] more bytes.
pub fn append_section<const N: usize>(
    line: &mut ArrayVec<u8, N>,
    set: &DescSet,
    section: Option<u32>,
)
    requires { length line.old.items + SECTION_ROOM ≤ N }
    ensures items { line.new.items ≡ line.old.items ++ section_text (described set.now) section }
    ensures few { length line.new.items ≤ length line.old.items + SECTION_ROOM }
{
    match section {
        Some(device) if (device as usize) < set.parts().devices.as_slice().len() => {
            append_device(line, set, device)
        }
        _ => append(line, b"-"),
    }
}

fn append_device<const N: usize>(line: &mut ArrayVec<u8, N>, set: &DescSet, device: u32)
    requires is_device { device < length (described set.now).devices }
    requires room { length line.old.items + SECTION_ROOM ≤ N }
    ensures items { let d = device_at (described set.now) device in
        line.new.items ≡ line.old.items ++ device_text (Some d) }
    ensures few { length line.new.items ≤ length line.old.items + SECTION_ROOM }
{
    let device = set.device(device);
    append(line, device.desc.name.as_bytes());
    append(line, b"/");
    append_number(line, u64::from(device.instance));
}
