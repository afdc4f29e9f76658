//! The periods by which days and moments are grouped. A group is told by the first day of its
//! period, and weeks begin on Monday. A period that is added has its name and its first day in
//! `specs/GroupPeriods`, and both here.

ghost use Rattle.std.specs.Prelude.{◌≡◌, pos};
ghost use Rattle.std.specs.Int.{IsInRange};
ghost use Rattle.jiff_core.specs.Calendar.{days_from_civil, weekday_number, IsBetween};
ghost use Rattle.jiff_core.specs.Date.{epoch_day};
ghost use Rattle.ob_base.specs.Times.{IsDay, IsMoment};
ghost use Rattle.ob_codec.specs.Held.{HasText};
ghost use Rattle.ob_group.specs.GroupPeriods.{day_of_moment, first_day, group_value, month_of, period_named, quarter_month, year_of};

use jiff_core::civil::Date;
use ob_base::Value;

/// No day of UTC has a leap second here.
const SECONDS_OF_A_DAY: i64 = 86_400;

/// How far the days of a group reach.
#[derive(Clone, Copy)]
pub(crate) enum Period {
    Day,
    Week,
    Month,
    Quarter,
    Year,
}

/// The period of a name.
#[tactic(auto, unfolding(crate::specs::GroupPeriods::period_named))]
pub(crate) fn period_named(name: &str) -> Option<Period>
    ensures { result ≡ period_named name.now }
{
    match name {
        "day" => Some(Period::Day),
        "week" => Some(Period::Week),
        "month" => Some(Period::Month),
        "quarter" => Some(Period::Quarter),
        "year" => Some(Period::Year),
        _ => None,
    }
}

/// What a grouping makes of a value: of a day and of a moment the first day of its period.
pub(crate) fn group_value(period: Option<Period>, value: Value) -> Value
    requires { HasText value }
    ensures value { result ≡ group_value period value }
    ensures text { HasText result }
{
    let Some(period) = period else {
        return value;
    };
    match value {
        Value::Day(day) => Value::Day(first_day(period, day)),
        Value::Moment(moment) => Value::Day(first_day(period, day_of_moment(moment))),
        other => other,
    }
}

/// The day of a moment, in UTC.
fn day_of_moment(moment: i64) -> i32
    requires { IsMoment moment }
    ensures day { result ≡ day_of_moment moment }
    ensures within { IsDay result }
{
    moment.div_euclid(SECONDS_OF_A_DAY) as i32
}

/// The first day of the period in which a day lies. None lies before the years of dates, whose
/// first day was a Monday.
fn first_day(period: Period, day: i32) -> i32
    requires { IsDay day }
    ensures first { result ≡ first_day period day }
    ensures within { IsDay result }
{
    let date = date_of(day);
    match period {
        Period::Day => day,
        Period::Week => day - days_since_monday(date),
        Period::Month => first_of_month(date.year, date.month),
        Period::Quarter => first_of_month(date.year, quarter_month(date.month)),
        Period::Year => first_of_month(date.year, 1),
    }
}

/// How many days lie between a date and the Monday before it.
fn days_since_monday(date: Date) -> i32
    ensures days { pos (weekday_number (epoch_day date)) ≡ result }
    ensures within { IsBetween (pos 0) (pos 6) result }
{
    i32::from(date.weekday().to_monday_zero_offset())
}

/// The month with which the quarter of a month begins.
fn quarter_month(month: u8) -> u8
    requires { IsInRange 1 12 month }
    ensures month { result ≡ quarter_month month }
    ensures within { IsInRange 1 12 result }
{
    month - (month - 1) % 3
}

/// The first day of a month of the years of dates.
fn first_of_month(year: i16, month: u8) -> i32
    requires year { IsBetween (pos 1) (pos 9999) year }
    requires month { IsInRange 1 12 month }
    ensures first { result ≡ days_from_civil year month 1 }
    ensures within { IsDay result }
{
    let Ok(date) = Date::new(year, month as i8, 1) else {
        unreachable!();
    };
    date.to_unix_epoch_day()
}

/// The date of a day.
fn date_of(day: i32) -> Date
    requires { IsDay day }
    ensures day { epoch_day result ≡ day }
    ensures year { IsBetween (pos 1) (pos 9999) result.year }
    ensures year_of { result.year ≡ pos (year_of day) }
    ensures month_of { result.month ≡ month_of day }
    ensures month { IsInRange 1 12 result.month }
{
    Date::from_unix_epoch_day(day as i64).unwrap()
}
