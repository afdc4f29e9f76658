//! The chain of pull rules of a place, and its push rule.

use crate::items::{Item, items_of};
use ob_base::{RecId, Sequence};
use probe_parts::items::{Parts, id_of};
use probe_parts::told::Told;
use probe_parts::words::first_word;
use std::alloc::Global;
use wh_route::{RouteFault, RouteRule, pull_chain, push_next};

impl Item for RouteRule {
    /// A rule is `id:pull:src:dest` or `id:push:src:dest`.
    fn of_parts(_alloc: Global, _told: &mut Told, parts: &mut Parts<'_>) -> RouteRule {
        let id = parts.id();
        let action = parts.text();
        RouteRule {
            id,
            pull: parts.found(is_pull(action), false),
            src: parts.id(),
            dest: parts.id(),
        }
    }
}

/// Whether a rule pulls, where it pulls or pushes.
fn is_pull(action: &str) -> Option<bool> {
    match action {
        "pull" => Some(true),
        "push" => Some(false),
        _ => None,
    }
}

/// The place and the rules of a line.
fn place_and_rules(alloc: Global, told: &mut Told, asked: &str) -> (RecId, Sequence<RouteRule>) {
    let (place, rest) = first_word(asked);
    let place = told.found(id_of(place), RecId(0));
    (place, items_of::<RouteRule>(alloc, told, rest))
}

/// Adds the ids of the chain of pull rules of a place.
pub(crate) fn put_chain(alloc: Global, told: &mut Told, times: u32, asked: &str) {
    let (place, rules) = place_and_rules(alloc, told, asked);
    if told.is_malformed() {
        told.put("no rules");
    } else {
        put_ids(alloc, told, times, rules.as_slice(), place);
    }
}

/// Adds the ids of a chain, asked for so many times.
fn put_ids(alloc: Global, told: &mut Told, times: u32, rules: &[RouteRule], place: RecId) {
    for _ in 1..times {
        let _ = pull_chain(alloc, rules, place);
    }
    match pull_chain(alloc, rules, place) {
        Ok(ids) => put_each(told, ids.as_slice()),
        Err(RouteFault::NoMemory) => told.lack(),
        Err(RouteFault::Depth) => told.put("too deep"),
    }
}

/// Adds ids with spaces between them.
fn put_each(told: &mut Told, ids: &[RecId]) {
    let mut between = "";
    for RecId(id) in ids {
        told.put(between);
        told.put_count(*id);
        between = " ";
    }
    if ids.is_empty() {
        told.put("none");
    }
}

/// Adds the id of the push rule of a place.
pub(crate) fn put_push(alloc: Global, told: &mut Told, asked: &str) {
    let (place, rules) = place_and_rules(alloc, told, asked);
    if told.is_malformed() {
        return told.put("no rules");
    }
    match push_next(rules.as_slice(), place) {
        Some(RecId(id)) => told.put_count(id),
        None => told.put("none"),
    }
}
