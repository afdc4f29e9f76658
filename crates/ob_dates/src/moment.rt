//! Moments as texts, in UTC. The form is what callers send and get: a change of it
//! breaks them.

ghost use Rattle.std.specs.Prelude.{◌≡◌, ◌<◌, ℤ, pos, ◌+ℤ◌, ◌*ℤ◌, List, ℕ, Some, IfOk, IfSome};
ghost use Rattle.ob_base.specs.Times.{IsMoment};
ghost use Rattle.ob_dates.specs.Digits.{HasTime};
ghost use Rattle.ob_dates.specs.Texts.{day_from, moment_from, time_in};

use crate::day::{date_at_start, day_text};
use crate::text::{has_shape, number_at};
use ob_base::{NoMemory, Word};
use std::alloc::Global;

/// No day of UTC has a leap second here.
const SECONDS_OF_A_DAY: i64 = 86_400;

/// The moment that a text `YYYY-MM-DD HH:MM:SS` names, in seconds from 1970-01-01
/// 00:00:00 UTC. None where the text is of another form, or there is no such second in
/// the years 0001 to 9999.
pub fn moment_of(text: &str) -> Option<i64>
    ensures value { result ≡ moment_from text.now }
    ensures within { IfSome result IsMoment }
{
    let text = text.as_bytes();
    if !has_shape(text, b"0000-00-00 00:00:00") {
        return None;
    }
    let day = date_at_start(text)?;
    let seconds = time_after_date(text)?;
    Some(day as i64 * SECONDS_OF_A_DAY + seconds as i64)
}

/// The text `YYYY-MM-DD HH:MM:SS` of a moment in the years 0001 to 9999. The only error
/// is a want of memory.
pub fn moment_text(alloc: Global, moment: i64) -> Result<Word, NoMemory>
    requires { IsMoment moment }
    ensures { IfOk result (λ text. moment_from text ≡ Some moment) }
{
    let day = day_text(alloc, moment.div_euclid(SECONDS_OF_A_DAY) as i32)?;
    let seconds = moment.rem_euclid(SECONDS_OF_A_DAY) as u32;
    with_time(alloc, day.as_str(), seconds)
}

/// No moment has two texts.
pub fn one_moment_text()
    ensures { (moment : ℤ) (a b : List ℕ)
        → moment_from a ≡ Some moment → moment_from b ≡ Some moment → a ≡ b }
{}

/// The seconds since the day began that the text's time gives, none where it's no time.
fn time_after_date(text: &[u8]) -> Option<u32>
    requires { HasTime text.now }
    ensures value { result ≡ time_in text.now }
    ensures within { IfSome result (λ seconds. seconds < 86400) }
{
    let hour = number_at(text, 11, 2);
    let minute = number_at(text, 14, 2);
    let second = number_at(text, 17, 2);
    if hour > 23 || minute > 59 || second > 59 {
        return None;
    }
    Some(hour as u32 * 3600 + minute as u32 * 60 + second as u32)
}

/// The text of a moment, from its day's and the seconds since that day began.
fn with_time(alloc: Global, date: &str, seconds: u32) -> Result<Word, NoMemory>
    requires { seconds < 86400 }
    ensures { IfOk result (λ text. (day : ℤ) → day_from date.now ≡ Some day
        → moment_from text ≡ Some (day *ℤ pos 86400 +ℤ pos seconds)) }
{
    let (hour, minute, second) = (seconds / 3600, seconds / 60 % 60, seconds % 60);
    let text = format!(in alloc; "{date} {hour:02}:{minute:02}:{second:02}")?;
    Ok(Word::new(text))
}
