//! The form of a list of names of a model's fields.

ghost use Rattle.std.specs.Prelude.{◌≡◌, is_some, map, option_map};
ghost use Rattle.serde_json.specs.View.{view};
ghost use Rattle.ob_schema.specs.Models.{HasModel};
ghost use Rattle.ob_call.specs.Forms.{fields_at, first_item, names_fault, number_from};
ghost use Rattle.ob_call.specs.Places.{below_steps};

use crate::call::Json;
use crate::form::Form;
use crate::places::Below;
use ob_base::{ModelNo, NoMemory};
use ob_schema::Schema;
use std::alloc::Global;

/// A list of texts, each the name of a field of the model.
#[derive(Clone, Copy)]
pub struct FieldNames<'s> {
    pub schema: &'s Schema,
    pub model: ModelNo,
    pub ghost known: { HasModel schema.now model },
}

impl Form for FieldNames<'_> {
    ghost use Rattle.ob_call.specs.Forms.{fields_at, names_fault};

    ghost fault = { λ names json. names_fault (fields_at names.schema.now names.model) json };

    fn fault<'j>(&self, _alloc: Global, json: &'j Json) -> Result<Option<Below<'j>>, NoMemory> {
        match json {
            Json::Array(items) => Ok(first_unknown(self.schema, self.model, items.as_slice())),
            _ => Ok(Some(Below::Whole)),
        }
    }
}

/// The first item that names no field.
fn first_unknown<'j>(schema: &Schema, model: ModelNo, items: &'j [Json]) -> Option<Below<'j>>
    requires { HasModel schema.now model }
    ensures { option_map below_steps result
        ≡ first_item (λ json. is_some (number_from (fields_at schema.now model) json)) 0 (map view items.now) }
{
    for (number, item) in items.iter().enumerate() {
        if !names_field(schema, model, item) {
            return Some(Below::Item(number));
        }
    }
    None
}

/// Whether a value is the name of a field.
fn names_field(schema: &Schema, model: ModelNo, json: &Json) -> bool
    requires { HasModel schema.now model }
    ensures { result ≡ is_some (number_from (fields_at schema.now model) (view json.now)) }
{
    match json.as_str() {
        Some(name) => schema.field(model, name).is_some(),
        None => false,
    }
}
