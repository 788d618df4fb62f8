// The machine that a candidate's stream names.
ghost use Rattle.std.specs.Prelude.{◌<◌, ◌^◌, length};
ghost use Rattle.vms_counter.specs.Calls.{IsLacking, NamesMachine};

use vms_check::Mismatch;
use vms_desc::{DescSet, Text, is_one_of};

// Returns the number of the first machine that isn't among `names`.
fn lacking(names: &[Text], machines: &[Text]) -> Option<u32>
    requires { length machines.now < 2 ^ 32 }
    ensures { IsLacking names.now machines.now result }
{
    for (i, machine) in machines.iter().enumerate() {
        if !is_one_of(names, machine.as_bytes()) {
            return Some(i as u32);
        }
    }
    None
}

/// Returns the machine that a candidate's stream names, by its number in `old`.
pub(crate) fn machine_for(old: &DescSet, new: &DescSet, mismatch: &Mismatch) -> Option<u32>
    ensures { NamesMachine old.now new.now mismatch.now result }
{
    if mismatch.rule != 1 {
        return None;
    }
    let machines = old.parts().machines.as_slice();
    lacking(new.parts().machines.as_slice(), machines)
}
