// Laws of scripts. Each is the contract of a function with an empty body.
ghost use Rattle.vms_script.specs.Grammar.{ReadsExactly};
ghost use Rattle.vms_script.specs.Refusal.{RefusesFirst};

/// States that exactly the texts of valid lines are read, and as these lines.
///
/// Each line is spelled in its one way and ends with a line feed.
#[tactic(auto, using(crate::proofs::GrammarLaws::reads_exactly))]
pub fn grammar_law()
    ensures { ReadsExactly }
{}

/// States that a refused text begins with good lines, which are followed by the line that is
/// refused, counted from 1.
///
/// Either that line is invalid for the returned reason, or it has no line feed. In the second case
/// the reason is what else is wrong with it, if anything, and else the missing line feed.
#[tactic(auto, using(crate::proofs::GrammarLaws::refuses_first))]
pub fn refusal_law()
    ensures { RefusesFirst }
{}
