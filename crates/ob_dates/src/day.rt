//! Days as texts. The form is what callers send and get: a change of it breaks them.

ghost use Rattle.std.specs.Prelude.{◌≡◌, ◌<◌, ◌≤ℤ◌, ℤ, pos, List, ℕ, Some, IfOk, IfSome};
ghost use Rattle.jiff_core.specs.Date.{epoch_day};
ghost use Rattle.ob_base.specs.Times.{IsDay};
ghost use Rattle.ob_dates.specs.Digits.{HasDate};
ghost use Rattle.ob_dates.specs.Texts.{day_from, date_in, day_of_date};

use crate::text::{has_shape, number_at};
use jiff_core::civil::Date;
use ob_base::{NoMemory, Word};
use std::alloc::Global;

/// The day that a text `YYYY-MM-DD` names, in days from 1970-01-01. None where the text
/// is of another form, or the calendar has no such day in the years 0001 to 9999.
pub fn day_of(text: &str) -> Option<i32>
    ensures value { result ≡ day_from text.now }
    ensures within { IfSome result IsDay }
{
    let text = text.as_bytes();
    if !has_shape(text, b"0000-00-00") {
        return None;
    }
    date_at_start(text)
}

/// The text `YYYY-MM-DD` of a day in the years 0001 to 9999. The only error is a want of
/// memory.
pub fn day_text(alloc: Global, day: i32) -> Result<Word, NoMemory>
    requires { IsDay day }
    ensures { IfOk result (λ text. day_from text ≡ Some day) }
{
    let date = date_of(day);
    let text = format!(in alloc; "{:04}-{:02}-{:02}", date.year as u16, date.month, date.day)?;
    Ok(Word::new(text))
}

/// No day has two texts.
pub fn one_day_text()
    ensures { (day : ℤ) (a b : List ℕ) → day_from a ≡ Some day → day_from b ≡ Some day → a ≡ b }
{}

/// The day that begins the text, none where the calendar doesn't have it.
pub(crate) fn date_at_start(text: &[u8]) -> Option<i32>
    requires { HasDate text.now }
    ensures value { result ≡ date_in text.now }
    ensures within { IfSome result IsDay }
{
    let year = number_at(text, 0, 4);
    let month = number_at(text, 5, 2);
    let day = number_at(text, 8, 2);
    day_number(year, month, day)
}

/// The day of a year, a month and a day of the month, none where the calendar doesn't
/// have it.
fn day_number(year: u16, month: u16, day: u16) -> Option<i32>
    requires year { year < 10000 }
    requires month { month < 100 }
    requires day { day < 100 }
    ensures value { result ≡ day_of_date year month day }
    ensures within { IfSome result IsDay }
{
    if year == 0 {
        return None;
    }
    let Ok(date) = Date::new(year as i16, month as i8, day as i8) else {
        return None;
    };
    Some(date.to_unix_epoch_day())
}

/// The date of a day.
fn date_of(day: i32) -> Date
    requires { IsDay day }
    ensures same { epoch_day result ≡ day }
    ensures year { pos 1 ≤ℤ result.year }
{
    Date::from_unix_epoch_day(day as i64).unwrap()
}
