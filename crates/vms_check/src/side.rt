// A description of one of the two sets.
ghost use Rattle.std.specs.Prelude.{◌≡◌, map};
ghost use Rattle.vms_desc.specs.Described.{described};
ghost use Rattle.vms_desc.specs.Parts.{HasPart};
ghost use Rattle.vms_parts.specs.Views.{formula, field_of, desc_of};
ghost use Rattle.vms_spec.specs.WellFormed.{here, in_field};
ghost use Rattle.vms_check.specs.Sides.{IsSide, desc_on, own_side};

use vms_desc::{Desc, DescSet, Field, Part, Place, Test};

/// A part of a set at the version at which it is compared.
#[derive(Clone, Copy)]
pub struct Side<'a> {
    /// The set.
    pub set: &'a DescSet,
    /// The part of the set.
    pub part: Part,
    /// The version.
    pub version: u32,
}

/// Returns `part` at the version that its own `set` writes.
///
/// # Requires
///
/// `set` has `part`.
pub fn at_own_version(set: &DescSet, part: Part) -> Side<'_>
    requires { HasPart (described set.now) part }
    ensures { result ≡ own_side set.entry part }
{
    let version = set.desc(part).version;
    Side { set, part, version }
}

/// Returns the description of `side`.
pub(crate) fn desc_of(side: Side<'_>) -> &Desc
    requires { IsSide side }
    ensures { desc_of result.now ≡ desc_on side.entry }
{
    side.set.desc(side.part)
}

/// Returns the fields of `side`.
///
/// # Requires
///
/// The set of `side` has its part.
pub fn fields_of(side: Side<'_>) -> &[Field]
    requires { IsSide side }
    ensures { map field_of result.now ≡ (desc_on side.entry).fields }
{
    desc_of(side).fields.as_slice()
}

/// Returns the validations of `side`.
pub(crate) fn validations_of(side: Side<'_>) -> &[Test]
    requires { IsSide side }
    ensures { map formula result.now ≡ (desc_on side.entry).validate }
{
    desc_of(side).validate.as_slice()
}

// Returns the place of a part itself.
pub(crate) fn here(part: Part) -> Place
    ensures { result ≡ here part }
{
    Place { part, field: None }
}

// Returns the place of a field of a part.
pub(crate) fn in_field(part: Part, field: u32) -> Place
    ensures { result ≡ in_field part field }
{
    Place {
        part,
        field: Some(field),
    }
}
