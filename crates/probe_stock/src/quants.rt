//! What lines of goods that move make of quants.

use crate::askable::may_be_asked;
use crate::items::{Item, items_of};
use ob_base::RecId;
use probe_parts::items::{Parts, id_of, number_of};
use probe_parts::told::Told;
use probe_parts::words::first_word;
use std::alloc::Global;
use wh_quant::{Line, LineFault, Quant, move_lines};

impl Item for Quant {
    /// A quant is `id:product:place:lot:quantity:reserved:in_date:guarded`.
    fn of_parts(_alloc: Global, _told: &mut Told, parts: &mut Parts<'_>) -> Quant {
        Quant {
            id: parts.id(),
            product: parts.id(),
            place: parts.id(),
            lot: parts.some_id(),
            quantity: parts.number(),
            reserved: parts.number(),
            in_date: parts.number(),
            guarded: parts.flag(),
        }
    }
}

impl Item for Line {
    /// A line is `product:from:to:lot:amount:guarded_from:guarded_to`.
    fn of_parts(_alloc: Global, _told: &mut Told, parts: &mut Parts<'_>) -> Line {
        Line {
            product: parts.id(),
            from: parts.id(),
            to: parts.id(),
            lot: parts.some_id(),
            amount: parts.number(),
            guarded_from: parts.flag(),
            guarded_to: parts.flag(),
        }
    }
}

/// Adds the quants after the lines that a line of input names behind a `|`.
pub(crate) fn put_moved(alloc: Global, told: &mut Told, times: u32, asked: &str) {
    let (now, rest) = first_word(asked);
    let (next, rest) = first_word(rest);
    let now = told.found(number_of(now), 0);
    let next = told.found(id_of(next), RecId(0));
    if told.is_malformed() {
        return told.put("no moment and id");
    }
    let (quants, lines) = match rest.split_once('|') {
        Some(both) => both,
        None => (rest, ""),
    };
    let quants = items_of::<Quant>(alloc, told, quants);
    let lines = items_of::<Line>(alloc, told, lines);
    put_tested(
        alloc,
        told,
        times,
        quants.as_slice(),
        lines.as_slice(),
        now,
        next.0,
    );
}

/// Adds the quants after the lines, where they may be asked for.
fn put_tested(
    alloc: Global,
    told: &mut Told,
    times: u32,
    quants: &[Quant],
    lines: &[Line],
    now: i64,
    next: u64,
) {
    if told.is_malformed() {
        return told.put("no quants and lines");
    }
    match may_be_asked(alloc, quants, lines, next) {
        Ok(true) => {}
        Ok(false) => return told.put("not asked"),
        Err(_) => return told.lack(),
    }
    for _ in 1..times {
        let _ = move_lines(alloc, quants, lines, now, next);
    }
    match move_lines(alloc, quants, lines, now, next) {
        Ok(quants) => put_all(told, quants.as_slice()),
        Err(LineFault::NoMemory) => told.lack(),
        Err(LineFault::Short(number, quant)) => put_fault(told, "short", number, quant),
        Err(LineFault::Overflow(number, quant)) => put_fault(told, "overflow", number, quant),
    }
}

/// Adds why a line of this number can't move its goods, and at which quant.
fn put_fault(told: &mut Told, why: &str, number: u64, quant: RecId) {
    told.put(why);
    told.put(" at ");
    told.put_count(number);
    told.put(" of ");
    told.put_count(quant.0);
}

/// Adds quants with spaces between them, as they are asked.
fn put_all(told: &mut Told, quants: &[Quant]) {
    let mut between = "";
    for quant in quants {
        told.put(between);
        put_quant(told, quant);
        between = " ";
    }
    if quants.is_empty() {
        told.put("none");
    }
}

/// Adds a quant.
fn put_quant(told: &mut Told, quant: &Quant) {
    told.put_count(quant.id.0);
    put_id(told, quant.product);
    put_id(told, quant.place);
    match quant.lot {
        Some(lot) => put_id(told, lot),
        None => told.put(":-"),
    }
    put_number(told, quant.quantity);
    put_number(told, quant.reserved);
    put_number(told, quant.in_date);
    told.put(if quant.guarded { ":yes" } else { ":no" });
}

/// Adds a part that is an id.
fn put_id(told: &mut Told, id: RecId) {
    told.put(":");
    told.put_count(id.0);
}

/// Adds a part that is a number.
fn put_number(told: &mut Told, number: i64) {
    told.put(":");
    told.put_number(number);
}
