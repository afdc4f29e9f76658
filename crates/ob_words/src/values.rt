//! The forms of values in words. Which values an argument may have is settled in specs/Values.

ghost use Rattle.std.specs.Prelude.{◌≡◌, option_map};
ghost use Rattle.std.specs.Char.{is_ascii_digit};
ghost use Rattle.std.specs.List.{list_all};
ghost use Rattle.ob_words.specs.Values.{action_of, are_modules, cache_of, is_number, limit_of, name_of, number_of, port_of};
ghost use Rattle.ob_words.specs.Views.{action_view, texts};

use crate::command::Action;
use ob_definition::is_field_name;

/// How many digits a number may have.
const DIGITS: usize = 10;

/// How many digits a port may have.
const PORT_DIGITS: usize = 5;

/// The greatest port.
const MAX_PORT: u32 = 65_535;

/// How few rows the engine may hold.
const LEAST_CACHE: u32 = 16;

/// How many rows the engine may hold at most.
const MAX_CACHE: u32 = 1_000_000;

/// The action of a name.
pub(crate) fn action_of(name: &str) -> Option<Action>
    ensures { option_map action_view result ≡ action_of name.now }
{
    match name {
        "call" => Some(Action::Call),
        "serve" => Some(Action::Serve),
        "audit" => Some(Action::Audit),
        _ => None,
    }
}

/// A text that names a folder, a file or a database: of a byte at least, the first no hyphen.
pub(crate) fn name_of<'a>(text: &'a str) -> Option<&'a str>
    ensures { option_map (λ name. name.now) result ≡ name_of text.now }
{
    match text.as_bytes() {
        [] => None,
        [first, ..] if *first == b'-' => None,
        _ => Some(text),
    }
}

/// Whether each text may name a module, which is named as a field is.
pub(crate) fn are_modules(names: &[&str]) -> bool
    ensures { result ≡ are_modules (texts names.now) }
{
    names.iter().all(|name| is_field_name(name))
}

/// How many rows the engine may hold in memory.
pub(crate) fn cache_of(text: &str) -> Option<u32>
    ensures { result ≡ cache_of text.now }
{
    number_of(text, DIGITS, LEAST_CACHE, MAX_CACHE)
}

/// How many connections are served at most.
pub(crate) fn limit_of(text: &str) -> Option<u32>
    ensures { result ≡ limit_of text.now }
{
    number_of(text, DIGITS, 1, u32::MAX)
}

/// The port of an address of loopback.
pub(crate) fn port_of(text: &str) -> Option<u16>
    ensures { result ≡ port_of text.now }
{
    match text.split_once(':') {
        Some(("127.0.0.1", digits)) => port_number(digits),
        _ => None,
    }
}

/// The number of a port.
fn port_number(digits: &str) -> Option<u16>
    ensures { result ≡ number_of 5 0 65535 digits.now }
{
    let number = number_of(digits, PORT_DIGITS, 0, MAX_PORT)?;
    u16::try_from(number).ok()
}

/// The number that a text writes, where it lies within these bounds.
fn number_of(text: &str, digits: usize, least: u32, most: u32) -> Option<u32>
    ensures { result ≡ number_of digits least most text.now }
{
    let number = value_of(text, digits)?;
    if least <= number && number <= most {
        Some(number)
    } else {
        None
    }
}

/// The value of so many digits at most, where it isn't too large.
fn value_of(text: &str, digits: usize) -> Option<u32>
    ensures { result ≡ number_of digits 0 4294967295 text.now }
{
    if !is_number(text, digits) {
        return None;
    }
    text.parse().ok()
}

/// Whether a text is decimal digits, so many at most and one at least.
fn is_number(text: &str, most: usize) -> bool
    ensures { result ≡ is_number most text.now }
{
    let digits = text.as_bytes();
    !digits.is_empty() && digits.len() <= most && are_digits(digits)
}

/// Whether bytes are decimal digits alone.
fn are_digits(bytes: &[u8]) -> bool
    ensures { result ≡ list_all is_ascii_digit bytes.now }
{
    bytes.iter().all(|byte| byte.is_ascii_digit())
}
