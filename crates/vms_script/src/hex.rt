// Lower-case hexadecimal digits.
ghost use Rattle.std.specs.Prelude.{◌≡◌, ◌<◌, IfSome};
ghost use Rattle.std.specs.Char.{digit_char};
ghost use Rattle.vms_script.specs.Words.{joined, digit_spelled, byte_spelled, port_spelled, byte_text};

/// Returns the byte with the two digits `text`, or `None` if `text` isn't two digits.
pub(crate) fn byte_of(text: &[u8]) -> Option<u8>
    ensures { result ≡ byte_spelled text.now }
{
    match text {
        [high, low] => byte_by(*high, *low),
        _ => None,
    }
}

/// Returns the port with the four digits `text`, or `None` if `text` isn't four digits.
pub(crate) fn port_of(text: &[u8]) -> Option<u16>
    ensures { result ≡ port_spelled text.now }
{
    match text {
        [a, b, c, d] => {
            let high = byte_by(*a, *b)?;
            let low = byte_by(*c, *d)?;
            Some(u16::from(high) * 256 + u16::from(low))
        }
        _ => None,
    }
}

// Returns the byte with these two digits, or `None` if one isn't a digit.
fn byte_by(high: u8, low: u8) -> Option<u8>
    ensures { result ≡ joined 16 (digit_spelled high) (digit_spelled low) }
{
    Some(digit_of(high)? * 16 + digit_of(low)?)
}

// Returns the value of a digit.
fn digit_of(digit: u8) -> Option<u8>
    ensures value { result ≡ digit_spelled digit }
    ensures small { IfSome result (λ value. value < 16) }
{
    match digit {
        b'0'..=b'9' => Some(digit - b'0'),
        b'a'..=b'f' => Some(digit - b'a' + 10),
        _ => None,
    }
}

/// Returns the two digits of `value`.
pub(crate) fn digits_of(value: u8) -> [u8; 2]
    ensures { result ≡ byte_text value }
{
    [digit(value / 16), digit(value % 16)]
}

// Returns the digit of a value.
fn digit(value: u8) -> u8
    requires { value < 16 }
    ensures { result ≡ digit_char value }
{
    if value < 10 {
        b'0' + value
    } else {
        b'a' + (value - 10)
    }
}
