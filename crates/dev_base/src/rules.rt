// The rules that restored cells must meet.
ghost use Rattle.std.specs.Prelude.{◌≡◌, ◌<◌, ◌≤◌, length, IfSome};
ghost use Rattle.dev_base.specs.Rules.{first_failing as first_failing_of, FirstFailingIsFirst};
ghost use Rattle.dev_base.specs.Hooks.{hook_result as hook_result_of};

use vms_hooks::HookFault;

/// Returns the number of the first rule of `rules` that fails, if one fails. The first rule is
/// number 1.
///
/// # Requires
///
/// There are fewer than 255 rules.
pub fn first_failing(rules: &[bool]) -> Option<u8>
    requires { length rules.now < 255 }
    ensures rule { result ≡ first_failing_of rules.now }
    ensures within { IfSome result (λ rule. rule ≤ length rules.now) }
{
    let mut number = 1;
    for holds in rules {
        if !*holds {
            return Some(number);
        }
        number += 1;
    }
    None
}

/// States that `first_failing` finds the rule that fails while all before it hold, and none exactly
/// if all hold.
#[tactic(auto, using(crate::proofs::RuleLaws::first_failing_is_first))]
pub fn first_failing_law()
    ensures { FirstFailingIsFirst }
{}

/// Converts the outcome of a restore to the form that a device's hooks return.
///
/// # Errors
///
/// - [`HookFault`]: `outcome` is an error, the number of a rule. The fault has the same number.
#[tactic(auto, unfolding(crate::specs::Hooks::hook_result))]
pub fn hook_result<D>(outcome: Result<D, u8>) -> Result<D, HookFault>
    ensures { result ≡ hook_result_of outcome }
{
    match outcome {
        Ok(device) => Ok(device),
        Err(rule) => Err(HookFault { rule }),
    }
}
