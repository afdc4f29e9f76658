//! The arguments of calls: which are given and where, and the places of those that are wrong.

ghost use Rattle.std.specs.Prelude.{◌≡◌, ◌∷◌, codes, true};
ghost use Rattle.ob_call.specs.Arguments.{are_apart};
ghost use Rattle.ob_call.specs.ArgumentsSteps.{names_of};
ghost use Rattle.ob_schema.specs.Models.{HasModel};

use crate::base::place_of;
use ob_base::{ModelNo, Refusal};
use ob_call::{
    Below, FieldNames, Form, Given, Ids, Parameter, Spot, Unread, arguments_of, id_of, malformed,
    malformed_below,
};
use ob_schema::Schema;
use probe_parts::parts::{Json, json_of};
use probe_parts::told::Told;
use probe_parts::words::first_word;
use std::alloc::Global;

/// Adds what is told of arguments of a form: `ids` must be given and `more` may be, or `fields`
/// may be, or `load` may be, which is any value.
pub(crate) fn put_arguments_of(
    alloc: Global,
    told: &mut Told,
    schema: &Schema,
    model: ModelNo,
    asked: &str,
)
    requires { HasModel schema.now model }
{
    let (form, text) = first_word(asked);
    let json = json_of(alloc, told, text);
    if told.is_malformed() {
        return told.put("no JSON");
    }
    match form {
        "ids" => put_of_ids(alloc, told, &json),
        "fields" => put_of_fields(alloc, told, schema, model, &json),
        _ => put_of_any(alloc, told, &json),
    }
}

fn put_of_ids(alloc: Global, told: &mut Told, json: &Json) {
    let expected = [
        Parameter {
            name: "ids",
            required: true,
            form: Ids,
        },
        Parameter {
            name: "more",
            required: false,
            form: Ids,
        },
    ];
    put_arguments(alloc, told, &expected, json);
}

fn put_of_fields(alloc: Global, told: &mut Told, schema: &Schema, model: ModelNo, json: &Json)
    requires { HasModel schema.now model }
{
    let expected = [Parameter {
        name: "fields",
        required: false,
        form: FieldNames { schema, model },
    }];
    put_arguments(alloc, told, &expected, json);
}

fn put_of_any(alloc: Global, told: &mut Told, json: &Json) {
    let expected = [Parameter {
        name: "load",
        required: false,
        form: Unread,
    }];
    put_arguments(alloc, told, &expected, json);
}

/// Adds where each argument is given, or the place of the first that is wrong.
fn put_arguments<F: Form>(alloc: Global, told: &mut Told, expected: &[Parameter<F>], json: &Json)
    requires { are_apart (codes "context" ∷ names_of expected.now) ≡ true }
{
    let Json::Array(parts) = json else {
        return told.put("no list");
    };
    let [args, kw] = parts.as_slice() else {
        return told.put("no pair");
    };
    match arguments_of(alloc, expected, args, kw) {
        Ok(given) => put_spots(told, given.as_slice()),
        Err(refusal) => put_refusal(told, &refusal),
    }
}

/// Adds where each argument is given, a word for each.
fn put_spots(told: &mut Told, given: &[Option<Given<'_>>]) {
    let mut between = "";
    for argument in given {
        told.put(between);
        match argument {
            Some(given) => put_spot(told, given),
            None => told.put("-"),
        }
        between = " ";
    }
}

/// Adds where an argument is given.
fn put_spot(told: &mut Told, given: &Given<'_>) {
    match given.spot {
        Spot::Position(number) => told.put_shown(&number),
        Spot::Name(name) => told.put(name),
    }
}

/// Adds the place of a refusal.
fn put_refusal(told: &mut Told, refusal: &Refusal) {
    match refusal {
        Refusal::Request(place) => told.put_shown(place),
        _ => told.lack(),
    }
}

/// Adds the places of a part of an argument, and of a place below it: the line has the
/// argument's number or its name, then an item's number, a key or `-`, then the steps below that.
pub(crate) fn put_below(alloc: Global, told: &mut Told, asked: &str) {
    let (spot, rest) = match asked.split_once(' ') {
        Some(both) => both,
        None => (asked, "-"),
    };
    let (part, steps) = first_word(rest);
    let spot = spot_of(spot);
    let steps = place_of(alloc, told, steps);
    put_refusal(told, &malformed(alloc, spot, below_of(part)));
    told.put(" ");
    put_refusal(told, &malformed_below(alloc, spot, below_of(part), &steps));
}

/// The spot that a word names.
fn spot_of(word: &str) -> Spot<'_> {
    match word.parse() {
        Ok(number) => Spot::Position(number),
        Err(_) => Spot::Name(word),
    }
}

/// The part of an argument that a word names.
fn below_of(word: &str) -> Below<'_> {
    match word.parse() {
        Ok(number) => Below::Item(number),
        Err(_) if word == "-" => Below::Whole,
        Err(_) => Below::Key(word),
    }
}

/// Adds the id that a value is.
pub(crate) fn put_id_of(alloc: Global, told: &mut Told, text: &str) {
    let json = json_of(alloc, told, text);
    if told.is_malformed() {
        return told.put("no JSON");
    }
    match id_of(&json) {
        Some(id) => told.put_shown(&id),
        None => told.put("none"),
    }
}
