//! The fields that an argument names.

ghost use Rattle.std.specs.Prelude.{◌≡◌, ◌≤◌, All, IfOk, IfSome, length, map, option_map};
ghost use Rattle.serde_json.specs.View.{view};
ghost use Rattle.ob_schema.specs.Fields.{columns};
ghost use Rattle.ob_schema.specs.Models.{HasField, HasModel, model_at};
ghost use Rattle.ob_call.specs.ArgumentsSteps.{given_of};
ghost use Rattle.ob_call.specs.Forms.{number_from};
ghost use Rattle.ob_call.specs.Columns.{asked_columns, columns_at, columns_named, flagged, is_named};

use crate::arguments::Given;
use crate::call::Json;
use ob_base::{FieldNo, ModelNo, NoMemory};
use ob_schema::Schema;
use std::alloc::Global;

/// The fields that an argument names, by number, or all where it names none or nothing is given:
/// each once, in the order of their numbers.
pub fn named_fields(
    alloc: Global,
    schema: &Schema,
    model: ModelNo,
    given: &Option<Given<'_>>,
) -> Result<Vec<FieldNo>, NoMemory>
    requires { HasModel schema.now model }
    ensures fields { IfOk result (λ numbers. IfSome (model_at schema.now model)
        (λ info. columns_at info numbers.items ≡ asked_columns info (option_map given_of given.now))) }
    ensures there { IfOk result (λ numbers. All (HasField schema.now model) numbers.items) }
{
    numbers_given(alloc, schema, model, given)
}

/// Their numbers.
fn numbers_given(
    alloc: Global,
    schema: &Schema,
    model: ModelNo,
    given: &Option<Given<'_>>,
) -> Result<Vec<FieldNo>, NoMemory>
    requires { HasModel schema.now model }
    ensures { IfOk result (λ numbers. IfSome (model_at schema.now model)
        (λ info. map (λ n. n.0) numbers.items
        ≡ map (λ c. c.0) (asked_columns info (option_map given_of given.now)))) }
{
    match given {
        Some(given) => match given.json {
            Json::Array(items) => fields_of_items(alloc, schema, model, items.as_slice()),
            _ => Ok(Vec::new(alloc)),
        },
        None => fields_of_items(alloc, schema, model, &[]),
    }
}

/// The fields that a list names, each once, however often it is named.
fn fields_of_items(
    alloc: Global,
    schema: &Schema,
    model: ModelNo,
    items: &[Json],
) -> Result<Vec<FieldNo>, NoMemory>
    requires { HasModel schema.now model }
    ensures { IfOk result (λ numbers. IfSome (model_at schema.now model)
        (λ info. map (λ n. n.0) numbers.items
        ≡ map (λ c. c.0) (columns_named info (map view items.now)))) }
{
    let flags = named_flags(alloc, schema, model, items)?;
    numbers_of(alloc, flags.as_slice(), items.is_empty())
}

/// The numbers of the flags that are set, or of all.
fn numbers_of(alloc: Global, flags: &[bool], all: bool) -> Result<Vec<FieldNo>, NoMemory>
    requires { length flags.now ≤ 256 }
    ensures { IfOk result (λ numbers. map (λ n. n.0) numbers.items ≡ flagged all 1 flags.now) }
{
    let mut numbers = Vec::new(alloc);
    for (index, flag) in flags.iter().enumerate() {
        if *flag || all {
            numbers.push(FieldNo(index as u16 + 1))?;
        }
    }
    Ok(numbers)
}

/// Whether a list names the field, for each field of the model.
fn named_flags(
    alloc: Global,
    schema: &Schema,
    model: ModelNo,
    items: &[Json],
) -> Result<Vec<bool>, NoMemory>
    requires { HasModel schema.now model }
    ensures few { IfOk result (λ flags. length flags.items ≤ 256) }
    ensures named { IfOk result (λ flags. IfSome (model_at schema.now model)
        (λ info. flags.items
        ≡ map (λ c. is_named info (map view items.now) c.0) (columns info))) }
{
    let mut flags = vec![in alloc; false; schema.fields(model).len()]?;
    for item in items {
        if let Some(number) = field_named(schema, model, item) {
            flags[number.0 as usize - 1] = true;
        }
    }
    Ok(flags)
}

/// The field that a text names.
fn field_named(schema: &Schema, model: ModelNo, json: &Json) -> Option<FieldNo>
    requires { HasModel schema.now model }
    ensures named { IfSome (model_at schema.now model)
        (λ info. result ≡ number_from info.fields (view json.now)) }
    ensures there { IfSome result (HasField schema.now model) }
{
    schema.field(model, json.as_str()?)
}
