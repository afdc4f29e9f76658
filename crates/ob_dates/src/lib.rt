//! Days and moments as texts: `YYYY-MM-DD` and `YYYY-MM-DD HH:MM:SS` in UTC, in the
//! years 0001 to 9999, as the Odoo 17 external API writes dates and datetimes. The
//! calendar is `jiff`'s, from `jiff_core`. Each day and each moment has exactly one text.
//!
//! Rooms: `text` (digits and shapes of texts), `day` and `moment` (texts to numbers and
//! back). What a text means stands in specs/Texts.
#![tactic(auto)]

mod day;
mod moment;
mod text;

pub use day::{day_of, day_text, one_day_text};
pub use moment::{moment_of, moment_text, one_moment_text};
