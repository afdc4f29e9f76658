//! The state of a move, and what is left of its demand.

use probe_parts::items::{flag_of, number_of};
use probe_parts::told::Told;
use wh_move::{MoveState, next_state, split};

/// Adds the state of a move by its reserved quantity, its demand and whether it waits.
pub(crate) fn put_state(told: &mut Told, asked: &str) {
    let (numbers, waits) = match asked.rsplit_once(' ') {
        Some(both) => both,
        None => (asked, ""),
    };
    let (reserved, demand) = two_numbers(told, numbers);
    let waits = told.found(flag_of(waits), false);
    if told.is_malformed() {
        told.put("no move");
    } else if reserved < 0 || reserved > demand || demand < 1 {
        told.put("not asked");
    } else {
        told.put(state_name(next_state(reserved, demand, waits)));
    }
}

/// The name of a state.
fn state_name(state: MoveState) -> &'static str {
    match state {
        MoveState::Draft => "draft",
        MoveState::Waiting => "waiting",
        MoveState::Confirmed => "confirmed",
        MoveState::PartiallyAvailable => "partially_available",
        MoveState::Assigned => "assigned",
        MoveState::Done => "done",
        MoveState::Cancel => "cancel",
    }
}

/// Adds the done part of a demand and the rest.
pub(crate) fn put_parts(told: &mut Told, asked: &str) {
    let (demand, done) = two_numbers(told, asked);
    if told.is_malformed() {
        told.put("no demand");
    } else if done < 0 || done > demand {
        told.put("not asked");
    } else {
        let (done, left) = split(demand, done);
        told.put_number(done);
        told.put(" ");
        told.put_number(left);
    }
}

/// Two numbers with a space between them.
fn two_numbers(told: &mut Told, text: &str) -> (i64, i64) {
    match text.split_once(' ') {
        Some((first, second)) => (
            told.found(number_of(first), 0),
            told.found(number_of(second), 0),
        ),
        None => {
            told.refuse();
            (0, 0)
        }
    }
}
