//! What stocks give of a wanted quantity.

use crate::items::{Item, items_of};
use probe_parts::items::{Parts, number_of};
use probe_parts::told::Told;
use probe_parts::words::{first_word, plain_word};
use std::alloc::Global;
use wh_quant::{Removal, Stock, Take, takes};

impl Item for Stock {
    /// A stock is `quant:free:in_date:removal:place`.
    fn of_parts(alloc: Global, told: &mut Told, parts: &mut Parts<'_>) -> Stock {
        Stock {
            quant: parts.id(),
            free: parts.number(),
            in_date: parts.number(),
            removal: parts.some_number(),
            place: plain_word(alloc, told, parts.text()),
        }
    }
}

/// Adds the takes of the wanted quantity from the stocks that a line names.
pub(crate) fn put_taken(alloc: Global, told: &mut Told, times: u32, asked: &str) {
    let (order, rest) = first_word(asked);
    let (want, rest) = first_word(rest);
    let order = told.found(order_of(order), Removal::Fifo);
    let want = told.found(number_of(want), 0);
    if told.is_malformed() {
        return told.put("no order");
    }
    put_stocks(alloc, told, times, rest, want, order);
}

/// The order of removal of a name.
fn order_of(name: &str) -> Option<Removal> {
    match name {
        "fifo" => Some(Removal::Fifo),
        "lifo" => Some(Removal::Lifo),
        "fefo" => Some(Removal::Fefo),
        "closest" => Some(Removal::Closest),
        _ => None,
    }
}

/// Adds the takes from the stocks of words.
fn put_stocks(alloc: Global, told: &mut Told, times: u32, words: &str, want: i64, order: Removal) {
    let stocks = items_of::<Stock>(alloc, told, words);
    if told.is_malformed() {
        told.put("no stocks");
    } else {
        put_takes(alloc, told, times, stocks.as_slice(), want, order);
    }
}

/// Adds the takes from stocks, asked for so many times.
fn put_takes(
    alloc: Global,
    told: &mut Told,
    times: u32,
    stocks: &[Stock],
    want: i64,
    order: Removal,
) {
    for _ in 1..times {
        let _ = takes(alloc, stocks, want, order);
    }
    match takes(alloc, stocks, want, order) {
        Ok(takes) => put_each(told, takes.as_slice()),
        Err(_) => told.lack(),
    }
}

/// Adds takes as `quant:amount`, with spaces between them.
fn put_each(told: &mut Told, takes: &[Take]) {
    let mut between = "";
    for take in takes {
        told.put(between);
        told.put_count(take.quant.0);
        told.put(":");
        told.put_number(take.amount);
        between = " ";
    }
    if takes.is_empty() {
        told.put("none");
    }
}
