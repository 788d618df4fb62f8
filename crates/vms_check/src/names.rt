// Names of machines and fields.
ghost use Rattle.std.specs.Prelude.{◌≡◌};
ghost use Rattle.vms_parts.specs.Views.{field_of};
ghost use Rattle.vms_check.specs.Comparing.{names_match};

use vms_desc::{Field, is_one_of};

// Checks whether the old field's name is the new one's, or one of its former names.
pub(crate) fn names_match(old: &Field, new: &Field) -> bool
    ensures { result ≡ names_match (field_of old.now) (field_of new.now) }
{
    let name = old.name.as_bytes();
    name == new.name.as_bytes() || is_one_of(new.former.as_slice(), name)
}
