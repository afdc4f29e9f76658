//! The orders of values, of cells, and of how cells are broken.

use crate::cells::value_of;
use ob_base::{
    Broken, BrokenKind, Cell, FieldNo, ModelNo, Value, broken_cmp, cell_cmp, value_cmp, value_eq,
};
use ob_expr::Kind;
use probe_parts::items::Parts;
use probe_parts::told::{Told, put_value};
use std::alloc::Global;
use std::cmp::Ordering;

/// The kinds of being broken, by their numbers from 0.
const KINDS: [BrokenKind; 20] = [
    BrokenKind::Required,
    BrokenKind::MissingRef,
    BrokenKind::Unique,
    BrokenKind::Tree,
    BrokenKind::Depth,
    BrokenKind::Restrict,
    BrokenKind::Check,
    BrokenKind::Overflow,
    BrokenKind::TooLong,
    BrokenKind::ZeroDivisor,
    BrokenKind::Locked,
    BrokenKind::Fixed,
    BrokenKind::Managed,
    BrokenKind::Limit,
    BrokenKind::Short,
    BrokenKind::WrongState,
    BrokenKind::BackorderChoice,
    BrokenKind::RouteDepth,
    BrokenKind::LotNeeded,
    BrokenKind::Outside,
];

/// The broken cell of a word: the numbers of its model, its row, its field and its kind.
fn broken_of(told: &mut Told, word: &str) -> Broken {
    let mut parts = Parts::of(word);
    let model = ModelNo(told.found(parts.text().parse().ok(), 0));
    let id = parts.id();
    let field = FieldNo(told.found(parts.text().parse().ok(), 0));
    let number = told.found(parts.text().parse().ok(), 0);
    let kind = told.found(kind_at(number), BrokenKind::Required);
    if !parts.are_read() {
        told.refuse();
    }
    Broken {
        kind,
        cell: Cell { model, id, field },
    }
}

/// The kind of being broken of a number.
fn kind_at(number: usize) -> Option<BrokenKind> {
    match KINDS.get(number) {
        Some(kind) => Some(*kind),
        None => None,
    }
}

/// Adds the kinds of broken cells, and between two of them how the cells stand to each other and
/// then how the broken cells do.
pub(crate) fn put_broken(alloc: Global, told: &mut Told, text: &str) {
    let mut before: Option<Broken> = None;
    for word in text.split(' ') {
        let broken = broken_of(told, word);
        put_standing(told, before, &broken);
        before = Some(broken);
    }
    if told.is_malformed() {
        told.tell_instead(alloc, "not asked");
    }
}

/// Adds a broken cell's kind, behind how the one before stands to it.
fn put_standing(told: &mut Told, before: Option<Broken>, broken: &Broken) {
    if let Some(before) = before {
        told.put(" ");
        told.put(sign(cell_cmp(&before.cell, &broken.cell)));
        told.put(sign(broken_cmp(&before, broken)));
        told.put(" ");
    }
    told.put(broken.kind.name());
}

/// Adds values, and between two of them how a copy of the one stands to the other.
pub(crate) fn put_values(alloc: Global, told: &mut Told, text: &str) {
    let mut before: Option<Value> = None;
    for word in text.split(' ') {
        let value = value_in(alloc, told, word);
        if let Some(before) = &before {
            told.put(" ");
            told.put(sign_of(before, &value));
            told.put(" ");
        }
        put_value(alloc, told, &value);
        before = copy_of(alloc, told, &value);
    }
    if told.is_malformed() {
        told.tell_instead(alloc, "not asked");
    }
}

/// The value of a word.
fn value_in(alloc: Global, told: &mut Told, word: &str) -> Value {
    match word.split_once(':') {
        Some((kind, part)) => value_of(alloc, told, kind_of(kind), part),
        None => value_of(alloc, told, kind_of(""), word),
    }
}

/// A copy of a value.
fn copy_of(alloc: Global, told: &mut Told, value: &Value) -> Option<Value> {
    match value.try_clone(alloc) {
        Ok(copy) => Some(copy),
        Err(_) => {
            told.lack();
            None
        }
    }
}

/// The kind whose values a word names.
fn kind_of(word: &str) -> Kind {
    match word {
        "bool" => Kind::Bool,
        "int" => Kind::Int,
        "day" => Kind::Day,
        "moment" => Kind::Moment,
        "id" => Kind::Ref(ModelNo(0)),
        "ids" => Kind::Refs(ModelNo(0)),
        _ => Kind::Word,
    }
}

/// How a value stands to another, by its order and its equality.
fn sign_of(a: &Value, b: &Value) -> &'static str {
    let order = value_cmp(a, b);
    if value_eq(a, b) == order.is_eq() {
        sign(order)
    } else {
        "?"
    }
}

fn sign(order: Ordering) -> &'static str {
    match order {
        Ordering::Less => "<",
        Ordering::Equal => "=",
        Ordering::Greater => ">",
    }
}
