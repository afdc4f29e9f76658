//! How a registry is told. ` || ` stands between models and ` | ` before each field. A field's
//! number is its place in its model from 1, a model's its place in the registry; keys that
//! aren't set are left out.

use crate::told_fields::put_field;
use ob_base::{FieldNo, ModelNo};
use ob_schema::{ModelInfo, Schema};
use probe_parts::told::Told;
use std::alloc::Global;

/// Adds a whole registry.
pub(crate) fn put_schema(alloc: Global, told: &mut Told, schema: &Schema) {
    for number in 1..u16::MAX {
        let Some(model) = schema.find_model(ModelNo(number)) else {
            break;
        };
        if number > 1 {
            told.put(" || ");
        }
        put_model(alloc, told, model);
    }
    if told.is_empty() {
        told.put("none");
    }
}

/// Adds a model with its fields.
fn put_model(alloc: Global, told: &mut Told, model: &ModelInfo) {
    told.put(model.name.as_str());
    put_model_keys(told, model);
    put_orders(told, model);
    for field in model.fields.as_slice() {
        told.put(" | ");
        put_field(alloc, told, field);
    }
    for field in model.hidden.as_slice() {
        told.put(" | hidden ");
        put_field(alloc, told, field);
    }
}

/// Adds what a model has beside its fields and its order.
fn put_model_keys(told: &mut Told, model: &ModelInfo) {
    put_flag(told, " managed", model.managed);
    put_place(told, " parent=", model.parent);
    for parent in model.inherits.as_slice() {
        put_number(told, " inherits=", u64::from(parent.link.0));
        put_number(told, ":", u64::from(parent.model.0));
    }
    for fields in model.unique.as_slice() {
        put_places(told, " unique=", fields.as_slice());
    }
}

/// Adds the terms of a model's order.
fn put_orders(told: &mut Told, model: &ModelInfo) {
    for term in model.order.as_slice() {
        put_number(told, " order=", u64::from(term.field.0));
        told.put(if term.descending { ":desc" } else { ":asc" });
    }
}

/// Adds numbers of fields after what stands before them.
fn put_places(told: &mut Told, before: &str, fields: &[FieldNo]) {
    let mut between = before;
    for field in fields {
        put_number(told, between, u64::from(field.0));
        between = ",";
    }
}

/// Adds the number of a field after its key, where there is one.
pub(crate) fn put_place(told: &mut Told, key: &str, field: Option<FieldNo>) {
    if let Some(field) = field {
        put_number(told, key, u64::from(field.0));
    }
}

/// Adds a flag's name, where it is set.
pub(crate) fn put_flag(told: &mut Told, name: &str, is_set: bool) {
    if is_set {
        told.put(name);
    }
}

/// Adds a number after what stands before it.
pub(crate) fn put_number(told: &mut Told, before: &str, number: u64) {
    told.put(before);
    told.put_count(number);
}
