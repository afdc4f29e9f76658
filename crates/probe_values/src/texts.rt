//! The texts of days and moments.

use ob_dates::{day_of, day_text, moment_of, moment_text};
use probe_parts::told::Told;
use std::alloc::Global;

/// Adds the day that a text names, and its text again.
pub(crate) fn put_day(alloc: Global, told: &mut Told, text: &str) {
    let Some(day) = day_of(text) else {
        return told.put("none");
    };
    told.put_shown(&day);
    told.put(" ");
    match day_text(alloc, day) {
        Ok(again) => told.put_shown(&again),
        Err(_) => told.lack(),
    }
}

/// Adds the moment that a text names, and its text again.
pub(crate) fn put_moment(alloc: Global, told: &mut Told, text: &str) {
    let Some(moment) = moment_of(text) else {
        return told.put("none");
    };
    told.put_shown(&moment);
    told.put(" ");
    match moment_text(alloc, moment) {
        Ok(again) => told.put_shown(&again),
        Err(_) => told.lack(),
    }
}
