// The bits of a register.
ghost use Rattle.std.specs.Prelude.{◌≡◌, ◌<◌};
ghost use Rattle.dev_base.specs.Bits.{bits_where as bits_where_of, has as has_of};

/// Tells whether bit `bit` of `register` is set, where bit 0 is the least.
///
/// # Requires
///
/// `bit` is below 8.
pub fn has(register: u8, bit: u8) -> bool
    requires { bit < 8 }
    ensures { result ≡ has_of register bit }
{
    (register >> bit) & 1 == 1
}

/// Returns `bits` if `condition` is true, else 0.
pub fn bits_where(condition: bool, bits: u8) -> u8
    ensures { result ≡ bits_where_of condition bits }
{
    if condition { bits } else { 0 }
}
