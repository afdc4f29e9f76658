//! The number that the fields of a body's length give.

ghost use Rattle.std.specs.Prelude.{◌≡◌, ◌==◌, nat_le, Some, None, if◌then◌else◌, option_map, All, IsTrue};
ghost use Rattle.std.specs.List.{list_all, prefix_len};
ghost use Rattle.std.specs.Char.{is_ascii_digit};
ghost use Rattle.std.specs.Str.Parse.{digits_value};
ghost use Rattle.ob_base.specs.Limits.{max_line_bytes};
ghost use Rattle.ob_http.specs.Message.{is_decimal, without_zeros};

use ob_base::limits::MAX_BODY_BYTES;

/// How many digits the longest body's length has.
const MOST_DIGITS: usize = 7;

/// The digits of a decimal number without the zeros before it: two numbers are the same
/// exactly where these are. None where the text is no decimal number.
pub(crate) fn number_digits(text: &[u8]) -> Option<&[u8]>
    ensures { option_map (λ digits. digits.now) result
        ≡ (if is_decimal text.now then Some (without_zeros text.now) else None) }
{
    if text.is_empty() || !are_digits(text) {
        return None;
    }
    Some(&text[leading_zeros(text)..])
}

/// Whether the text is digits alone.
fn are_digits(text: &[u8]) -> bool
    ensures { result ≡ list_all is_ascii_digit text.now }
{
    text.iter().all(|byte| byte.is_ascii_digit())
}

/// How many zeros the text begins with.
fn leading_zeros(text: &[u8]) -> usize
    ensures { result ≡ prefix_len (λ byte. byte == 48) text.now }
{
    text.iter().take_while(|byte| **byte == b'0').count()
}

/// The number that these digits write, without a zero before them: none where it is more
/// than a body may have.
pub(crate) fn body_length(digits: &[u8]) -> Option<usize>
    requires digits { All (λ byte. IsTrue (is_ascii_digit byte)) digits.now }
    requires no_zero { without_zeros digits.now ≡ digits.now }
    ensures { let number = digits_value 10 digits.now in
        result ≡ (if nat_le number max_line_bytes then Some number else None) }
{
    if digits.len() > MOST_DIGITS {
        return None;
    }
    let mut number = 0;
    for digit in digits {
        number = number * 10 + usize::from(*digit - b'0');
    }
    if number > MAX_BODY_BYTES {
        None
    } else {
        Some(number)
    }
}
