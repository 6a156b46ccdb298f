//! Decimal numbers.
ghost use Rattle.std.specs.Prelude.{◌≡◌, ◌≤◌, IfSome, Some, None, true, nat_le, if◌then◌else◌};
ghost use Rattle.std.specs.Char.{is_ascii_digit};
ghost use Rattle.web_texts.specs.Digits.{append_digit, digits_up_to};

/// Reads a number in decimal digits. Returns `None` where the text is empty, where it has another
/// character than a digit, as a sign or a blank, or where the number is greater than `max`. Leading
/// zeros are allowed.
pub fn read_digits(text: &str, max: u64) -> Option<u64>
    ensures { result ≡ digits_up_to max text.now }
{
    number_of(text.as_bytes(), max)
}

/// As `read_digits`, for a byte string.
pub fn number_of(text: &[u8], max: u64) -> Option<u64>
    ensures value { result ≡ digits_up_to max text.now }
    ensures most { IfSome result (λ n. n ≤ max) }
{
    if text.is_empty() {
        return None;
    }
    let mut value = 0u64;
    for byte in text {
        if !byte.is_ascii_digit() {
            return None;
        }
        match next_digit(value, *byte, max) {
            Some(next) => value = next,
            None => return None,
        }
    }
    Some(value)
}

/// The number with one more digit after it, which must be an ASCII digit. Returns `None` where
/// that is greater than `max`.
pub fn next_digit(value: u64, digit: u8, max: u64) -> Option<u64>
    requires { is_ascii_digit digit ≡ true }
    ensures { result ≡
        if nat_le (append_digit value digit) max then Some (append_digit value digit) else None }
{
    let next = value.checked_mul(10)?.checked_add(u64::from(digit - b'0'))?;
    if next > max {
        return None;
    }
    Some(next)
}
