//! Laws of numbers in texts. A law is the contract of a function without a body; `specs/Texts.antt`
//! has the statements.
ghost use Rattle.vms_words.specs.Texts.{NumberLaw, SpelledLaw};

/// States that the decimal text of a number spells that number.
#[tactic(auto, using(crate::proofs::Spells::number_holds))]
pub fn number_law()
    ensures { NumberLaw }
{}

/// States that a text that spells a number is its decimal text.
#[tactic(auto, using(crate::proofs::Spells::spelled_holds))]
pub fn spelled_law()
    ensures { SpelledLaw }
{}
