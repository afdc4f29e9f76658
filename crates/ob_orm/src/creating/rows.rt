//! What a create asks for: a row of one object of values, or one of each object of a list.

ghost use Rattle.std.specs.Prelude.{◌≡◌, ◌∷◌, ◌++◌, [], All, Bool, IfOk, IfSome, List, None, OnOk, map, true};
ghost use Rattle.serde_json.specs.View.{view};
ghost use Rattle.ob_call.specs.Called.{called_by};
ghost use Rattle.ob_call.specs.Forms.{fields_at};
ghost use Rattle.ob_call.specs.Places.{spot_place};
ghost use Rattle.ob_call.specs.Results.{IsResultOf};
ghost use Rattle.ob_orm.specs.Create.{asked_by, asked_in, asked_of};
ghost use Rattle.ob_orm.specs.CreateSteps.{rows_view};
ghost use Rattle.ob_orm.specs.GivenValues as spec;
ghost use Rattle.ob_orm.specs.GivenValues.{object_from};
ghost use Rattle.ob_orm.specs.Objects.{items_at, objects_fault};
ghost use Rattle.ob_orm.specs.ObjectSteps.{object_place, object_view};
ghost use Rattle.ob_orm.specs.NewRowSteps.{IsTyped};
ghost use Rattle.ob_rows.specs.Values.{new_values_fault};
ghost use Rattle.ob_schema.specs.Models.{HasModel, model_at};

use crate::creating::given::{GivenObject, NewValues, given_object};
use crate::objects::{ObjectSpot, Objects};
use ob_base::{FieldNo, ModelNo, NoMemory, Place, Refusal, Sequence, Value};
use ob_call::{Call, Given, Json, Parameter, Spot, arguments_of};
use ob_schema::Schema;
use std::alloc::Global;

/// What objects ask for: the values that they give, those that haven't their form aside, of each
/// object in turn; the fields that their keys name; the first place that is wrong; and whether the
/// objects stand in a list, so that an answer is a list of ids.
#[derive(Drop)]
pub(crate) struct Rows {
    pub(crate) values: Vec<Sequence<(FieldNo, Value)>>,
    pub(crate) fields: Vec<FieldNo>,
    pub(crate) wrong: Option<Place>,
    pub(crate) is_list: bool,
}

/// What a create of a call asks for, or the first place of its arguments that is wrong.
pub(crate) fn asked_rows(alloc: Global, schema: &Schema, call: &Call<'_>) -> Result<Rows, Refusal>
    requires model { HasModel schema.now call.now.model }
    ensures value { IfSome (model_at schema.now call.entry.now.model) (λ info. IsResultOf rows_view result (asked_of schema.now (called_by call.entry.now info))) }
    ensures typed { IfOk result (λ rows. All (All (IsTyped schema.now call.entry.now.model)) rows.values.items) }
{
    let expected = [Parameter {
        name: "vals",
        required: true,
        form: Objects {
            values: NewValues {
                schema,
                model: call.model,
            },
        },
    }];
    let given = arguments_of(alloc, &expected, call.args, call.kw)?;
    let Some(vals) = &given[0] else {
        unreachable!();
    };
    Ok(rows_in(alloc, schema, call.model, vals)?)
}

/// What an argument asks for.
fn rows_in(
    alloc: Global,
    schema: &Schema,
    model: ModelNo,
    vals: &Given<'_>,
) -> Result<Rows, NoMemory>
    requires model { HasModel schema.now model }
    requires form { objects_fault schema.now (fields_at schema.now model) (view vals.now.json.now) ≡ None }
    ensures value { IfOk result (λ rows. IfSome (model_at schema.now model) (λ info. rows_view rows ≡ asked_in schema.now info (spot_place vals.now.spot) (view vals.now.json.now))) }
    ensures typed { IfOk result (λ rows. All (All (IsTyped schema.now model)) rows.values.items) }
{
    match vals.json.as_array() {
        Some(items) => rows_of_list(alloc, schema, model, vals.spot, items.as_slice()),
        None => {
            let object = given_object(
                alloc,
                schema,
                model,
                ObjectSpot::Argument(vals.spot),
                vals.json,
            )?;
            let mut rows = no_rows(alloc, false);
            add_object(&mut rows, object)?;
            Ok(rows)
        }
    }
}

/// What a list asks for, which is the argument at a spot.
fn rows_of_list(
    alloc: Global,
    schema: &Schema,
    model: ModelNo,
    spot: Spot<'_>,
    items: &[Json],
) -> Result<Rows, NoMemory>
    requires model { HasModel schema.now model }
    requires form { All (λ json. new_values_fault schema.now (fields_at schema.now model) (view json) ≡ None) items.now }
    ensures value { IfOk result (λ rows. IfSome (model_at schema.now model)
        (λ info. rows_view rows ≡ asked_by true (map (object_from schema.now info) (items_at (spot_place spot.entry) 0 (map view items.now))))) }
    ensures typed { IfOk result (λ rows. All (All (IsTyped schema.now model)) rows.values.items) }
{
    let mut rows = no_rows(alloc, true);
    for (number, json) in items.iter().enumerate() {
        let spot = ObjectSpot::Item(spot, number);
        let object = given_object(alloc, schema, model, spot, json)?;
        add_object(&mut rows, object)?;
    }
    Ok(rows)
}

/// What no object asks for.
fn no_rows(alloc: Global, is_list: bool) -> Rows
    ensures { rows_view result ≡ asked_by is_list [] }
{
    Rows {
        values: Vec::new(alloc),
        fields: Vec::new(alloc),
        wrong: None,
        is_list,
    }
}

/// Adds what one more object asks for.
fn add_object(rows: &mut Rows, object: GivenObject) -> Result<(), NoMemory>
    ensures given { OnOk result ((is_list : Bool) (before : List spec.GivenObject) → rows_view rows.old ≡ asked_by is_list before
        → rows_view rows.new ≡ asked_by is_list (before ++ object_view object ∷ [])) }
    ensures values { OnOk result (rows.new.values.items ≡ rows.old.values.items ++ object.values ∷ []) }
{
    let GivenObject {
        mut fields,
        values,
        wrong,
    } = object;
    rows.values.push(values)?;
    rows.fields.append(&mut fields)?;
    if rows.wrong.is_none() {
        rows.wrong = wrong;
    }
    Ok(())
}
