// An 8-bit register as a set of inputs: bit i is input i.
ghost use Rattle.std.specs.Prelude.{◌≡◌, ◌<◌};
ghost use Rattle.dev_pic.specs.Bits.{with_input as with_input_of, but_not as but_not_of, without_input as without_input_of};

/// Returns `register` with the input `input`, 0 to 7, in it.
#[tactic(auto, unfolding(crate::specs::Bits::with_input))]
pub(crate) fn with_input(register: u8, input: u8) -> u8
    requires { input < 8 }
    ensures { result ≡ with_input_of register input }
{
    register | (1 << input)
}

/// Returns the inputs of `register` that aren't in `other`.
#[tactic(auto, unfolding(crate::specs::Bits::but_not))]
pub(crate) fn but_not(register: u8, other: u8) -> u8
    ensures { result ≡ but_not_of register other }
{
    register & !other
}

/// Returns `register` without the input `input`, 0 to 7.
#[tactic(auto, unfolding(crate::specs::Bits::without_input, crate::specs::Bits::but_not))]
pub(crate) fn without_input(register: u8, input: u8) -> u8
    requires { input < 8 }
    ensures { result ≡ without_input_of register input }
{
    register & !(1 << input)
}
