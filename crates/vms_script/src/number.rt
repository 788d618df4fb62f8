// Numbers in lines.
ghost use Rattle.std.specs.List.{list_all};
ghost use Rattle.std.specs.Prelude.{◌≡◌, ◌+◌, ◌-◌, ◌*◌, ◌&&◌, ◌||◌, ◌==◌, nat_le, not, length, get_or};
ghost use Rattle.vms_spec.specs.Spelling.{number_spelled, is_digit, are_digits, natural_from};
ghost use Rattle.vms_script.specs.Views.{number_read, below_2_64};

use crate::line::ScriptReason;

/// The longest time that one `wait` line lets pass, in nanoseconds.
pub const LONGEST_WAIT: u64 = 1_000_000_000_000_000;

/// Returns the number that `text` spells, in decimal without leading zeros.
///
/// # Errors
///
/// - [`ScriptReason::Form`]: `text` isn't a number.
/// - [`ScriptReason::Range`]: the number is negative, or 2^64 or more.
#[inline(always)]
pub fn number_of(text: &[u8]) -> Result<u64, ScriptReason>
    ensures { result ≡ number_read (number_spelled text.now) }
{
    match text.strip_prefix(b"-") {
        Some(digits) => {
            if are_digits(digits) && natural_of(digits) != Some(0) {
                Err(ScriptReason::Range)
            } else {
                Err(ScriptReason::Form)
            }
        }
        None => {
            if !are_digits(text) {
                return Err(ScriptReason::Form);
            }
            match natural_of(text) {
                Some(value) => Ok(value),
                None => Err(ScriptReason::Range),
            }
        }
    }
}

// Checks whether there is a digit, nothing but digits, and no leading zero.
fn are_digits(text: &[u8]) -> bool
    ensures { result ≡ are_digits text.now }
{
    are_all_digits(text) && is_unpadded(text)
}

fn are_all_digits(text: &[u8]) -> bool
    ensures { result ≡ list_all is_digit text.now }
{
    for b in text {
        if !b.is_ascii_digit() {
            return false;
        }
    }
    true
}

fn is_unpadded(text: &[u8]) -> bool
    ensures { result ≡ (length text.now == 1
        || (nat_le 2 (length text.now) && not (get_or text.now 0 48 == 48))) }
{
    text.len() == 1 || text.len() >= 2 && text[0] != b'0'
}

// Returns the number with these digits, or `None` if it is 2^64 or more.
fn natural_of(digits: &[u8]) -> Option<u64>
    ensures { result ≡ below_2_64 (natural_from 0 digits.now) }
{
    let mut value: u64 = 0;
    for digit in digits {
        value = next_value(value, *digit)?;
    }
    Some(value)
}

// Returns a number with one more digit, or `None` if it is 2^64 or more.
fn next_value(value: u64, digit: u8) -> Option<u64>
    ensures { result ≡ below_2_64 (value * 10 + (digit - 48)) }
{
    value
        .checked_mul(10)?
        .checked_add(u64::from(digit.saturating_sub(b'0')))
}
