//! Words, sequences, ids, places, steps and limits of ob_base.

use ob_base::limits::{
    MAX_BODY_BYTES, MAX_CHAIN_RULES, MAX_CHAR_BYTES, MAX_CHECKS, MAX_DAY, MAX_DOMAIN_TERMS,
    MAX_DOTTED_STEPS, MAX_EXPRESSION_BYTES, MAX_EXPRESSION_DEPTH, MAX_FIELDS, MAX_HEAD_BYTES,
    MAX_HEAD_FIELDS, MAX_ID, MAX_INPUT_BYTES, MAX_JSON_DEPTH, MAX_MODELS, MAX_MODULE_BYTES,
    MAX_MODULES, MAX_MOMENT, MAX_MOVE_QUANTITY, MAX_PATH_STEPS, MAX_STRATUM, MAX_TARGETS,
    MAX_TEXT_BYTES, MAX_TREE_DEPTH, MIN_DAY, MIN_MOMENT,
};
use ob_base::{Counted, Op, PathStep, Place, Sequence, Silent, Steps, Word, call_order};
use ob_codec::{command_forms, one_body, one_json, one_row, reads_back};
use ob_dates::{one_day_text, one_moment_text};
use ob_expr::{values_from_cells, values_of_kinds};
use ob_syntax::one_tree;
use probe_parts::parts::{ids_of, json_of};
use probe_parts::told::{Told, put_ids};
use probe_parts::words::{first_word, plain_word};
use std::alloc::Global;
use std::fmt::Display;

/// Adds a word's length, whether it is empty, its text and that of a copy.
pub(crate) fn put_word(alloc: Global, told: &mut Told, text: &str) {
    let word = plain_word(alloc, told, text);
    put_length(told, word.len(), word.is_empty());
    told.put(word.as_str());
    match word.try_clone(alloc) {
        Ok(copy) => put_copy(told, copy),
        Err(_) => told.lack(),
    }
}

/// Adds a word that is made of a copy's text.
fn put_copy(told: &mut Told, copy: Word) {
    told.put(" <");
    told.put_shown(&Word::new(copy.into_string()));
    told.put(">");
}

/// Adds a length, and whether there is nothing.
fn put_length(told: &mut Told, length: usize, is_empty: bool) {
    told.put_shown(&length);
    told.put(" ");
    told.put_bool(is_empty);
    told.put(" ");
}

/// Adds the length of a sequence of texts, whether it is empty, and its items.
pub(crate) fn put_sequence(alloc: Global, told: &mut Told, text: &str) {
    let mut items = Sequence::new(alloc);
    for item in text.split_whitespace() {
        told.add(&mut items, item);
    }
    put_items(told, items);
}

/// Adds the length of a sequence, whether it is empty, and the items of one that is made of it.
fn put_items(told: &mut Told, items: Sequence<&str>) {
    told.put_shown(&items.len());
    told.put(" ");
    told.put_bool(items.is_empty());
    let again = Sequence::from_vec(items.into_vec());
    for item in again.as_slice() {
        told.put(" ");
        told.put(item);
    }
}

/// Adds the length of a list of ids, whether it is empty, and the ids of its copy.
pub(crate) fn put_ids_of(alloc: Global, told: &mut Told, text: &str) {
    let json = json_of(alloc, told, text);
    if told.is_malformed() {
        return told.put("no JSON");
    }
    let ids = ids_of(alloc, told, &json);
    if told.is_malformed() {
        return told.put("no ids");
    }
    match ids.try_clone(alloc) {
        Ok(again) => {
            put_length(told, again.len(), ids.is_empty());
            put_ids(told, "", again.as_slice());
        }
        Err(_) => told.lack(),
    }
}

/// Adds what a ledger tells that begins with a total, after so many ticks; and a silent one.
pub(crate) fn put_ticks(told: &mut Told, text: &str) {
    let (total, count) = first_word(text);
    let total: u64 = told.found(total.parse().ok(), 0);
    let count: u32 = told.found(count.parse().ok(), 0);
    if told.is_malformed() {
        return told.put("not asked");
    }
    let mut steps = Steps::new(Counted { total });
    let mut silent = Steps::new(Silent);
    for _ in 0..count {
        steps.tick();
        silent.tick();
    }
    told.put_count(steps.ledger().total);
    told.put(" ");
    told.put_debug(silent.ledger());
}

/// Adds the number of a place's steps and its text. ` | ` stands before the steps by which it is
/// extended.
pub(crate) fn put_place(alloc: Global, told: &mut Told, text: &str) {
    let (first, further) = match text.split_once(" | ") {
        Some(both) => both,
        None => (text, ""),
    };
    let mut place = place_of(alloc, told, first);
    let further = place_of(alloc, told, further);
    if place.extend(alloc, &further).is_err() {
        told.lack();
    }
    put_whole_place(alloc, told, &place);
}

/// Adds the number of a place's steps, its text as a word, and as it is shown.
fn put_whole_place(alloc: Global, told: &mut Told, place: &Place) {
    told.put_shown(&place.steps().len());
    told.put(" <");
    match place.to_word(alloc) {
        Ok(word) => told.put(word.as_str()),
        Err(_) => told.lack(),
    }
    told.put("> <");
    told.put_shown(place);
    told.put(">");
}

/// The place whose steps these words are: a number is an item, any other a key.
pub(crate) fn place_of(alloc: Global, told: &mut Told, text: &str) -> Place {
    let mut place = Place::whole(alloc);
    for word in text.split_whitespace() {
        add_step(alloc, told, &mut place, word);
    }
    place
}

/// Adds the step that a word is.
fn add_step(alloc: Global, told: &mut Told, place: &mut Place, word: &str) {
    let added = match word.parse() {
        Ok(number) => place.push(PathStep::Item(number)),
        Err(_) => place.push_key(alloc, word),
    };
    if added.is_err() {
        told.lack();
    }
}

/// Adds the names of the operations.
pub(crate) fn put_operations(told: &mut Told) {
    for op in [Op::Read, Op::Create, Op::Write, Op::Unlink] {
        told.put_shown(&op);
        told.put(":");
        told.put(op.name());
        told.put(" ");
    }
}

/// Adds the limits: of counts and lengths, then of the others.
pub(crate) fn put_limits(told: &mut Told) {
    let counts = [
        MAX_TARGETS,
        MAX_CHAR_BYTES,
        MAX_TEXT_BYTES,
        MAX_TREE_DEPTH,
        MAX_MODULES,
        MAX_MODELS,
        MAX_FIELDS,
        MAX_CHECKS,
        MAX_MODULE_BYTES,
        MAX_EXPRESSION_BYTES,
        MAX_EXPRESSION_DEPTH,
        MAX_PATH_STEPS,
        MAX_CHAIN_RULES,
        MAX_DOMAIN_TERMS,
        MAX_DOTTED_STEPS,
        MAX_BODY_BYTES,
        MAX_HEAD_BYTES,
        MAX_HEAD_FIELDS,
        MAX_JSON_DEPTH,
    ];
    for count in counts {
        put_limit(told, &count);
    }
    put_limit(told, &MAX_ID);
    put_limit(told, &MAX_INPUT_BYTES);
    put_limit(told, &MAX_STRATUM);
    put_limit(told, &MAX_MOVE_QUANTITY);
    put_limit(told, &MIN_DAY);
    put_limit(told, &MAX_DAY);
    put_limit(told, &MIN_MOMENT);
    told.put_shown(&MAX_MOMENT);
}

/// Adds a limit, with a space behind it.
fn put_limit<T: Display>(told: &mut Told, limit: &T) {
    told.put_shown(limit);
    told.put(" ");
}

/// Calls each law of the libraries that no other line needs. Laws do nothing: what they say
/// stands in their contracts.
pub(crate) fn call_laws(told: &mut Told) {
    Counted::counts_each_tick();
    one_day_text();
    one_moment_text();
    one_tree();
    call_order();
    values_from_cells();
    values_of_kinds();
    one_json();
    reads_back();
    command_forms();
    one_row();
    one_body();
    told.put("called");
}
