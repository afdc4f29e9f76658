//! Edits of tables from JSON: a list of `["make", MODEL, ID, VALUES]`, of
//! `["makes", MODEL, FIRST, LAST, VALUES]`, which makes each row of those ids, of
//! `["set", MODEL, ID, FIELD, VALUE]` and of `["gone", MODEL, ID]`. VALUES is a list of
//! `[FIELD, VALUE]`; a model or a field is its name or its number. They need not fit.
//!
//! A VALUE is null where it is unset, true or false, a number, a text, `{"word":[COUNT,TEXT]}`
//! for a text so many times, `{"day":N}`, `{"moment":N}`, `{"id":N}`, `{"ids":[N, ..]}` or
//! `{"range":[FIRST,LAST]}` for all ids from the one to the other.

ghost use Rattle.std.specs.Prelude.{All, IsTrue};
ghost use Rattle.ob_tables.specs.Fitting.{IsFitEdit};

use ob_base::{Cell, FieldNo, ModelNo, RecId, Sequence, Value, Word};
use ob_schema::Schema;
use ob_tables::{Edit, fits};
use probe_parts::parts::{Json, id_of, ids_of, items_of, range_of};
use probe_parts::told::Told;
use probe_parts::words::plain_word;
use std::alloc::Global;

/// The edits of a list.
pub(crate) fn edits(
    alloc: Global,
    told: &mut Told,
    schema: &Schema,
    list: &[Json],
) -> Sequence<Edit> {
    let mut edits = Sequence::new(alloc);
    for json in list {
        add_edit(alloc, told, schema, &mut edits, json);
    }
    edits
}

/// Whether edits fit.
pub(crate) fn do_fit(schema: &Schema, edits: &[Edit]) -> bool
    ensures { IsTrue result → All (IsFitEdit schema.now) edits.now }
{
    for edit in edits {
        if !fits(schema, edit) {
            return false;
        }
    }
    true
}

/// Adds what one of them does.
fn add_edit(
    alloc: Global,
    told: &mut Told,
    schema: &Schema,
    edits: &mut Sequence<Edit>,
    json: &Json,
) {
    let [Json::String(word), model, id, parts @ ..] = items_of(told, json) else {
        return told.refuse();
    };
    let model = model_of(told, schema, model);
    let id = id_of(told, id);
    match (word.as_str(), parts) {
        ("make", [values]) => add_makes(alloc, told, schema, edits, model, id, id, values),
        ("makes", [last, values]) => {
            let last = id_of(told, last);
            add_makes(alloc, told, schema, edits, model, id, last, values);
        }
        ("set", [field, value]) => {
            let field = field_of(told, schema, model, field);
            let value = value_of(alloc, told, value);
            let cell = Cell { model, id, field };
            told.add(edits, Edit::Set { cell, value });
        }
        ("gone", []) => told.add(edits, Edit::Gone { model, id }),
        _ => told.refuse(),
    }
}

/// Adds that each row of these ids is made, with the same values.
fn add_makes(
    alloc: Global,
    told: &mut Told,
    schema: &Schema,
    edits: &mut Sequence<Edit>,
    model: ModelNo,
    first: RecId,
    last: RecId,
    given: &Json,
) {
    for id in first.0..=last.0 {
        if told.lacks_memory() || told.is_malformed() {
            return;
        }
        let id = RecId(id);
        let values = values_of(alloc, told, schema, model, given);
        told.add(edits, Edit::Make { model, id, values });
    }
}

/// The values of a row that is made.
fn values_of(
    alloc: Global,
    told: &mut Told,
    schema: &Schema,
    model: ModelNo,
    given: &Json,
) -> Sequence<(FieldNo, Value)> {
    let mut values = Sequence::new(alloc);
    for pair in items_of(told, given) {
        add_value(alloc, told, schema, model, &mut values, pair);
    }
    values
}

/// Adds the value of a field.
fn add_value(
    alloc: Global,
    told: &mut Told,
    schema: &Schema,
    model: ModelNo,
    values: &mut Sequence<(FieldNo, Value)>,
    pair: &Json,
) {
    let [field, value] = items_of(told, pair) else {
        return told.refuse();
    };
    let field = field_of(told, schema, model, field);
    let value = value_of(alloc, told, value);
    told.add(values, (field, value));
}

/// The model of a name or a number.
pub(crate) fn model_of(told: &mut Told, schema: &Schema, json: &Json) -> ModelNo {
    match json {
        Json::String(name) => told.found(schema.model(name.as_str()), ModelNo(0)),
        _ => ModelNo(number_of(told, json)),
    }
}

/// The field of a row, by its name or its number.
pub(crate) fn cell_of(
    told: &mut Told,
    schema: &Schema,
    model: ModelNo,
    id: &Json,
    field: &Json,
) -> Cell {
    let id = id_of(told, id);
    let field = field_of(told, schema, model, field);
    Cell { model, id, field }
}

/// The field of a name, a condition's too, or of a number.
pub(crate) fn field_of(told: &mut Told, schema: &Schema, model: ModelNo, json: &Json) -> FieldNo {
    match json {
        Json::String(name) => told.found(named(schema, model, name.as_str()), FieldNo(0)),
        _ => FieldNo(number_of(told, json)),
    }
}

/// The field of a name.
fn named(schema: &Schema, model: ModelNo, name: &str) -> Option<FieldNo> {
    for number in 1..u16::MAX {
        let field = FieldNo(number);
        match schema.find_field(model, field) {
            Some(info) if info.name.as_str() == name => return Some(field),
            Some(_) => {}
            None => return None,
        }
    }
    None
}

/// The number of a model or a field.
fn number_of(told: &mut Told, json: &Json) -> u16 {
    let number = id_of(told, json).0;
    told.found(u16::try_from(number).ok(), 0)
}

/// A value.
fn value_of(alloc: Global, told: &mut Told, json: &Json) -> Value {
    match json {
        Json::Null => Value::Nil,
        Json::Bool(flag) => Value::Bool(*flag),
        Json::Number(_) => Value::Int(integer_of(told, json)),
        Json::String(text) => Value::Word(plain_word(alloc, told, text.as_str())),
        _ => named_value(alloc, told, json),
    }
}

/// An integer.
fn integer_of(told: &mut Told, json: &Json) -> i64 {
    told.found(json.as_i64(), 0)
}

/// A value whose sort is named.
fn named_value(alloc: Global, told: &mut Told, json: &Json) -> Value {
    if let Some(id) = json.get("id") {
        Value::Ref(id_of(told, id))
    } else if let Some(ids) = json.get("ids") {
        Value::Refs(ids_of(alloc, told, ids))
    } else if let Some(ends) = json.get("range") {
        Value::Refs(range_of(alloc, told, ends))
    } else if let Some(parts) = json.get("word") {
        Value::Word(repeated(alloc, told, parts))
    } else {
        time_value(told, json)
    }
}

/// A day or a moment.
fn time_value(told: &mut Told, json: &Json) -> Value {
    if let Some(day) = json.get("day") {
        let day = integer_of(told, day);
        Value::Day(told.found(i32::try_from(day).ok(), 0))
    } else if let Some(moment) = json.get("moment") {
        Value::Moment(integer_of(told, moment))
    } else {
        told.refuse();
        Value::Nil
    }
}

/// The text of a count and a text, so many times.
fn repeated(alloc: Global, told: &mut Told, parts: &Json) -> Word {
    let mut whole = String::new(alloc);
    if let [count, Json::String(text)] = items_of(told, parts) {
        let count = id_of(told, count);
        add_repeated(told, &mut whole, count.0, text.as_str());
    } else {
        told.refuse();
    }
    Word::new(whole)
}

/// Adds a text so many times.
fn add_repeated(told: &mut Told, whole: &mut String, count: u64, text: &str) {
    for _ in 0..count {
        if whole.push_str(text).is_err() {
            return told.lack();
        }
    }
}
