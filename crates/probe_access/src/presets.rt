//! The rows that modules bring, from a line: one JSON object as `modules` reads it. What is told
//! is a list with `[MODULE, PLACE, MODEL, {FIELD: VALUE, ..}]` for each; a value that is a row is
//! told as `row:N`, one that is several as `rows:N,..`.

use crate::modules::loaded;
use ob_domain::Json;
use ob_schema::{PresetRow, PresetValue, Schema};
use probe_parts::told::{Told, put_text, put_value};
use std::alloc::Global;

/// Adds the rows that the modules of an object bring, or what stands against these.
pub(crate) fn put_preset(alloc: Global, told: &mut Told, json: &Json) {
    let Some(loaded) = loaded(alloc, told, json) else {
        return;
    };
    told.put("[");
    let mut between = "";
    for row in loaded.preset.rows.as_slice() {
        told.put(between);
        put_row(alloc, told, &loaded.schema, row);
        between = ",";
    }
    told.put("]");
}

/// Adds a row.
fn put_row(alloc: Global, told: &mut Told, schema: &Schema, row: &PresetRow) {
    let Some(model) = schema.find_model(row.model) else {
        return told.refuse();
    };
    told.put("[");
    put_text(alloc, told, row.module.as_str());
    told.put(",");
    put_text(alloc, told, row.place.as_str());
    told.put(",");
    put_text(alloc, told, model.name.as_str());
    told.put(",{");
    put_values(alloc, told, schema, row);
    told.put("}]");
}

/// Adds the values of a row under the names of their fields.
fn put_values(alloc: Global, told: &mut Told, schema: &Schema, row: &PresetRow) {
    let mut between = "";
    for (field, value) in row.values.as_slice() {
        told.put(between);
        match schema.find_field(row.model, *field) {
            Some(field) => put_text(alloc, told, field.name.as_str()),
            None => told.refuse(),
        }
        told.put(":");
        put_given(alloc, told, value);
        between = ",";
    }
}

/// Adds a value.
fn put_given(alloc: Global, told: &mut Told, value: &PresetValue) {
    match value {
        PresetValue::Plain(value) => put_value(alloc, told, value),
        PresetValue::Row(row) => {
            told.put("row:");
            told.put_count(u64::from(*row));
        }
        PresetValue::Rows(rows) => put_rows(told, rows.as_slice()),
    }
}

/// Adds the numbers of rows.
fn put_rows(told: &mut Told, rows: &[u32]) {
    told.put("rows:");
    let mut between = "";
    for row in rows {
        told.put(between);
        told.put_count(u64::from(*row));
        between = ",";
    }
}
