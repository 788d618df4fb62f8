// The rules inside of a description, and the rules that all descriptions share.
ghost use Rattle.std.specs.Prelude.{◌≡◌, ◌≤◌, ℕ, length};
ghost use Rattle.vms_spec.specs.Lists.{or_else};
ghost use Rattle.vms_spec.specs.Rules.{is_steady_in, validation_rules};
ghost use Rattle.vms_spec.specs.WellFormed.{has_few, fields_fault, validations_fault, here};
ghost use Rattle.vms_parts.specs.Views.{formula, desc_of};
ghost use Rattle.vms_rules.specs.Judged.{Judges};
ghost use Rattle.vms_rules.specs.Naming.{may_name};

use crate::DescFault;
use crate::fault::lowest;
use crate::fields::check_fields;
use crate::formulas::{Scope, is_small, names_well};
use std::alloc::Global;
use vms_parts::{Desc, Part, Place, Test};

// Returns the place of a part itself.
pub(crate) fn here(part: Part) -> Place
    ensures { result ≡ here part }
{
    Place { part, field: None }
}

// Returns all fields of a description, which a validation and a needed test may name.
pub(crate) fn all_fields(desc: &Desc) -> Scope<'_>
    ensures { (i : ℕ) → may_name result i ≡ is_steady_in (desc_of desc.now) i }
{
    Scope {
        fields: desc.fields.as_slice(),
        minimum: desc.minimum,
    }
}

// Returns whether a description has at most 256 fields and 16 validations.
pub(crate) fn has_few(desc: &Desc) -> bool
    ensures { result ≡ has_few (desc_of desc.now) }
{
    desc.fields.as_slice().len() <= 256 && desc.validate.as_slice().len() <= 16
}

// Checks the fields and the validations of a description that may use the structures of numbers
// below `usable`.
pub(crate) fn check_inside(
    alloc: Global,
    desc: &Desc,
    usable: u32,
    part: Part,
) -> Result<(), DescFault>
    requires { length desc.now.fields ≤ 256 }
    ensures { Judges
        (or_else (fields_fault usable (desc_of desc.now) part)
        (validations_fault (desc_of desc.now) part))
        result }
{
    check_fields(alloc, desc, usable, part)?;
    check_validations(desc, part)
}

fn check_validations(desc: &Desc, part: Part) -> Result<(), DescFault>
    ensures { Judges (validations_fault (desc_of desc.now) part) result }
{
    for test in desc.validate.as_slice() {
        let rules = validation_rules(desc, test);
        lowest(rules, here(part))?;
    }
    Ok(())
}

#[tactic(auto, using(crate::proofs::NameLaws::named_in))]
fn validation_rules(desc: &Desc, test: &Test) -> [bool; 8]
    ensures { result ≡ validation_rules (desc_of desc.now) (formula test.now) }
{
    let names = names_well(test, all_fields(desc), None);
    [true, true, true, names, true, true, is_small(test), true]
}
