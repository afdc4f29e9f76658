//! `fields_get`: what the fields of a model are, of those that the caller may read.
//!
//! Rooms: `attributes` (what is told of one field) and `fields_form` (the forms of its arguments).
//! What it means is `GetsFields`: a change begins with it.

ghost use Rattle.std.specs.Prelude.{◌≡◌, List, false, All, IfOk, IfSome, filter, option_map};
ghost use Rattle.ob_access.specs.Policies.{IsPolicyOver};
ghost use Rattle.serde_json.specs.Data.{Data};
ghost use Rattle.serde_json.specs.View.{view};
ghost use Rattle.serde_json.specs.Written.{has_float};
ghost use Rattle.ob_cache.specs.Calls.{IsAsked, IsResting, models_at, standpoint};
ghost use Rattle.ob_call.specs.ArgumentsSteps.{given_of};
ghost use Rattle.ob_call.specs.Called.{called_by, result_view};
ghost use Rattle.ob_call.specs.Columns.{asked_columns, columns_at};
ghost use Rattle.ob_fields.specs.FieldsGet.{GetsFields, GetsFieldsCause, fields_data, texts_in};
ghost use Rattle.ob_fields.specs.FieldsGetSteps.{AreAsked, IsTold, may_read, readable_by};
ghost use Rattle.ob_schema.specs.Models.{HasField, HasModel, model_at};

mod attributes;
mod fields_form;

use crate::fields::attributes::{Attributes, attributes_in, described};
use crate::fields::fields_form::fields_parameters;
use ob_access::Policy;
use ob_base::{FieldNo, Ledger, ModelNo, NoMemory, Refusal, Steps};
use ob_cache::Engine;
use ob_call::{Call, Given, Json, arguments_of, named_fields, put_member};
use ob_io::Keeper;
use ob_rows::{Caller, groups_of};
use ob_schema::Schema;
use serde_json::Map;
use std::alloc::Global;

/// Answers an object with a member for each field that `allfields` names, or for all where it
/// names none, of those that the caller may read: what the words of `attributes` ask of it, or all
/// that is told of a field (`name`, `type`, `string`, `required`, `readonly`, `store`, `relation` of
/// one that names rows, and `selection`), as the Odoo 17 external API has it. Another word asks for
/// nothing. No right is asked: a field that the caller may not read is left out. Refused are
/// arguments of another form, at their place, a name that no field has among them. The caller sees
/// to it that the engine rests.
pub fn fields_get<K: Keeper, L: Ledger>(
    alloc: Global,
    engine: &mut Engine<'_, K>,
    policy: &Policy,
    call: &Call<'_>,
    _steps: &mut Steps<L>,
) -> Result<Json, Refusal>
    requires model { HasModel (models_at (standpoint K.Keeper engine.old)) call.now.model }
    requires rest { IsResting (standpoint K.Keeper engine.old) }
    requires policy { IsPolicyOver (models_at (standpoint K.Keeper engine.old)) policy.now }

    // It is the machine's of the model.
    ensures call { let before = standpoint K.Keeper engine.old in let models = models_at before in
        IfSome (model_at models call.entry.now.model) (λ info. let c = called_by call.entry.now info in
        IsAsked (GetsFields models policy.now c) before (standpoint K.Keeper engine.new) (GetsFieldsCause c) (result_view result)) }
    ensures plain { IfOk result (λ json. has_float (view json) ≡ false) }

    // It counts no evaluation.
    ensures ticks { _steps.new ≡ _steps.old }
    ensures lender { engine.new.keeper.ghost_name ≡ engine.old.keeper.ghost_name }
{
    let groups = groups_of(alloc, engine, policy, call.caller)?;
    let by = Caller {
        policy,
        groups: &groups,
        user: call.caller,
    };
    told_fields(alloc, engine.schema(), &by, call)
}

/// The object of the fields for which a call asks, of those that its caller may read.
fn told_fields(
    alloc: Global,
    schema: &Schema,
    by: &Caller<'_>,
    call: &Call<'_>,
) -> Result<Json, Refusal>
    requires model { HasModel schema.now call.now.model }
    requires user { by.now.user ≡ call.now.caller }
    ensures told { IfSome (model_at schema.entry.now call.entry.now.model)
        (λ info. IsTold schema.entry.now by.now.policy.now by.now.groups.now (called_by call.entry.now info) (result_view result)) }
    ensures plain { IfOk result (λ json. has_float (view json) ≡ false) }
{
    let expected = fields_parameters(schema, call.model);
    let given = arguments_of(alloc, &expected, call.args, call.kw)?;
    let json = fields_asked(alloc, schema, by, call.model, &given[0], &given[1])?;
    Ok(json)
}

/// The object of the fields that the arguments ask for.
fn fields_asked(
    alloc: Global,
    schema: &Schema,
    by: &Caller<'_>,
    model: ModelNo,
    names: &Option<Given<'_>>,
    words: &Option<Given<'_>>,
) -> Result<Json, NoMemory>
    requires { HasModel schema.now model }
    ensures told { IfOk result (λ json. IfSome (model_at schema.now model) (λ info.
        view json ≡ fields_data schema.now (texts_in (option_map given_of words.now)) (readable_by by.now model (asked_columns info (option_map given_of names.now))))) }
    ensures plain { IfOk result (λ json. has_float (view json) ≡ false) }
{
    let numbers = named_fields(alloc, schema, model, names)?;
    let numbers = readable(alloc, by, model, numbers.as_slice())?;
    let attributes = attributes_in(words);
    fields_object(alloc, schema, model, numbers.as_slice(), &attributes)
}

/// Of some fields of a model those that the caller may read.
fn readable(
    alloc: Global,
    by: &Caller<'_>,
    model: ModelNo,
    fields: &[FieldNo],
) -> Result<Vec<FieldNo>, NoMemory>
    ensures { IfOk result (λ told. told.items ≡ filter (λ field. may_read by.now model field) fields.now) }
{
    let mut told = Vec::new(alloc);
    for field in fields {
        if may_read(by, model, *field) {
            told.push(*field)?;
        }
    }
    Ok(told)
}

/// Whether the caller may read a field.
fn may_read(by: &Caller<'_>, model: ModelNo, field: FieldNo) -> bool
    ensures { result ≡ may_read by.now model field }
{
    by.policy
        .field_right(by.groups, by.user, model, field, false)
}

/// The object of the fields of these numbers, each by its name.
fn fields_object(
    alloc: Global,
    schema: &Schema,
    model: ModelNo,
    numbers: &[FieldNo],
    attributes: &Attributes,
) -> Result<Json, NoMemory>
    requires model { HasModel schema.now model }
    requires fields { All (HasField schema.now model) numbers.now }
    ensures told { IfOk result (λ json. IfSome (model_at schema.now model) (λ info. (texts : List Data) → AreAsked texts attributes.now
        → view json ≡ fields_data schema.now texts (columns_at info numbers.now))) }
    ensures plain { IfOk result (λ json. has_float (view json) ≡ false) }
{
    let mut members = Map::new(alloc);
    for number in numbers {
        let field = schema.info(model, *number);
        let told = described(alloc, schema, field, attributes)?;
        put_member(alloc, &mut members, field.name.as_str(), told)?;
    }
    Ok(Json::Object(members))
}
