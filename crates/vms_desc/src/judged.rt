// Sets from any parts.
ghost use Rattle.std.specs.Prelude.{◌≡◌, IfOk};
ghost use Rattle.vms_spec.specs.WellFormed.{first_fault};
ghost use Rattle.vms_parts.specs.Views.{set_of};
ghost use Rattle.vms_rules.specs.Judged.{Judges};
ghost use Rattle.vms_desc.specs.Described.{described};

use crate::{DescFault, DescSet, Parts};
use std::alloc::Global;
use vms_rules::check;

impl DescSet {
    /// Returns the set of `parts`, if they are well formed.
    ///
    /// # Errors
    ///
    /// - [`DescFault::IllFormed`]: the first place at which a rule of well-formed sets fails, with the
    ///   lowest rule that fails there.
    /// - [`DescFault::NoMemory`]: out of memory.
    pub fn new(alloc: Global, parts: Parts) -> Result<DescSet, DescFault>
        ensures made { IfOk result (λ set. described set ≡ set_of parts) }
        ensures judged { Judges (first_fault (set_of parts)) result }
    {
        check(alloc, &parts)?;
        Ok(Self::assemble(alloc, parts)?)
    }
}
