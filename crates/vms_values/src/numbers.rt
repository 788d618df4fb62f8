// Numbers as they are spelled.
ghost use Rattle.std.specs.Prelude.{◌≡◌, ◌<◌, ◌≤◌, ◌+◌, ◌*◌, ◌^◌, ◌&&◌, ◌||◌, ◌==◌, nat_le, not, Some, length, get_or};
ghost use Rattle.vms_spec.specs.Spelling.{number_spelled};
ghost use Rattle.vms_values.specs.Spelled.{natural_spelled, read_from, with_digit, held};

use vms_kinds::Kind;

/// Returns the number that `text` spells. Returns none exactly if it spells none, or one that
/// `kind` doesn't hold.
#[inline(always)]
pub(crate) fn read_number(kind: Kind, text: &[u8]) -> Option<i128>
    ensures { result ≡ held kind (number_spelled text.now) }
{
    match text.strip_prefix(b"-") {
        Some(digits) => match read_natural(digits) {
            Some(0) | None => None,
            Some(value) => if_held(kind, -(value as i128)),
        },
        None => match read_natural(text) {
            Some(value) => if_held(kind, value as i128),
            None => None,
        },
    }
}

/// Returns `number`, if `kind` holds it.
fn if_held(kind: Kind, number: i128) -> Option<i128>
    ensures { result ≡ held kind (Some number) }
{
    if kind.in_range(number) {
        Some(number)
    } else {
        None
    }
}

/// This many digits spell a number below 2^64, whatever they are.
const FEW: usize = 19;

/// Returns the number that `digits` spell. Returns none exactly if they aren't digits, have a
/// leading zero, or spell 2^64 or more.
fn read_natural(digits: &[u8]) -> Option<u64>
    ensures { result ≡ natural_spelled digits.now }
{
    if !is_unpadded(digits) {
        return None;
    }
    let few = digits.len().min(FEW);
    let mut value = read_few(&digits[..few])?;
    let rest = &digits[few..];
    for digit in rest {
        value = next_value(value, *digit)?;
    }
    Some(value)
}

/// Returns the number of a few digits. Returns none exactly if one isn't a digit.
fn read_few(digits: &[u8]) -> Option<u64>
    requires { length digits.now ≤ 19 }
    ensures { result ≡ read_from 0 digits.now }
{
    let mut value: u64 = 0;
    for digit in digits {
        value = next_of_few(value, *digit)?;
    }
    Some(value)
}

/// Returns `value` with one more digit, for which there is room. Returns none exactly if `digit`
/// isn't one.
fn next_of_few(value: u64, digit: u8) -> Option<u64>
    requires { value * 10 + 9 < 2 ^ 64 }
    ensures { result ≡ with_digit value digit }
{
    if digit.is_ascii_digit() {
        Some(value * 10 + u64::from(digit - b'0'))
    } else {
        None
    }
}

/// Returns whether there is a digit, and no zero before others.
fn is_unpadded(digits: &[u8]) -> bool
    ensures { result ≡ (length digits.now == 1
        || (nat_le 2 (length digits.now) && not (get_or digits.now 0 48 == 48))) }
{
    digits.len() == 1 || digits.len() >= 2 && digits[0] != b'0'
}

/// Returns `value` with one more digit. Returns none exactly if `digit` isn't one, or the number is
/// 2^64 or more.
fn next_value(value: u64, digit: u8) -> Option<u64>
    ensures { result ≡ with_digit value digit }
{
    if !digit.is_ascii_digit() {
        return None;
    }
    value.checked_mul(10)?.checked_add(u64::from(digit - b'0'))
}
