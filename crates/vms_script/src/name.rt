// Names on the shelf.
ghost use Rattle.std.specs.Prelude.{◌≡◌, ◌==◌, get_or};
ghost use Rattle.vms_script.specs.Names.{is_shelf_name};
ghost use Rattle.vms_script.specs.Lines.{name_spelled};
ghost use Rattle.vms_script.specs.Views.{name_view};

use arrayvec::ArrayString;
use vms_words::is_name;

/// Checks whether `name` is a name for the shelf: 1 to 64 ASCII letters, digits, `_`, `-` and `.`,
/// of which the first isn't a dot.
pub fn is_shelf_name(name: &[u8]) -> bool
    ensures { result ≡ is_shelf_name name.now }
{
    is_name(64, name) && !begins_with_dot(name)
}

fn begins_with_dot(bytes: &[u8]) -> bool
    ensures { result ≡ (get_or bytes.now 0 46 == 46) }
{
    match bytes.first() {
        Some(first) => *first == b'.',
        None => true,
    }
}

/// Returns the name for the shelf that `text` is, or `None` if it isn't one.
pub(crate) fn name_of(text: &[u8]) -> Option<ArrayString<64>>
    ensures { name_view result ≡ name_spelled text.now }
{
    if !is_shelf_name(text) {
        return None;
    }
    match str::from_utf8(text) {
        Ok(name) => ArrayString::from(name).ok(),
        Err(_) => None,
    }
}
