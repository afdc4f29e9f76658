//! What a create and a write are handed: objects of values, and ids. An object of values may name
//! each field of its model; what it gives is read where it is carried out (`object`), and where it
//! is wrong is told in `findings`.

ghost use Rattle.std.specs.Prelude.{◌≡◌, ◌≤◌, ◌∷◌, All, IfOk, IfSome, None, codes, map, true};
ghost use Rattle.serde_json.specs.View.{view};
ghost use Rattle.ob_base.specs.Limits.{max_id};
ghost use Rattle.ob_call.specs.Arguments.{are_apart};
ghost use Rattle.ob_call.specs.ArgumentsSteps.{expected_of, names_of};
ghost use Rattle.ob_call.specs.Called.{called_by};
ghost use Rattle.ob_call.specs.Forms.{fields_at};
ghost use Rattle.ob_commands.specs.Asked.{create_expects, object_fault, objects_fault, write_expects};
ghost use Rattle.ob_commands.specs.AskedSteps.{IsAskedWrite, IsGivenCreate, expected_fault};
ghost use Rattle.ob_schema.specs.Models.{HasModel, model_at};

pub(crate) mod forms;

use crate::asked::forms::{Values, object_fault, objects_fault};
use ob_base::{ModelNo, NoMemory, Refusal};
use ob_call::{Below, Call, Form, Given, Ids, Json, Parameter, arguments_of, named_ids};
use ob_schema::Schema;
use std::alloc::Global;

/// The form of an argument: ids, an object of values, or one or a list of such objects.
#[derive(Clone, Copy)]
pub(crate) enum Expected<'s> {
    Ids,
    Object(Values<'s>),
    Objects(Values<'s>),
}

impl Form for Expected<'_> {
    ghost use Rattle.ob_commands.specs.AskedSteps.{expected_fault};

    ghost fault = { λ expected json. expected_fault expected json };

    fn fault<'j>(&self, alloc: Global, json: &'j Json) -> Result<Option<Below<'j>>, NoMemory> {
        match self {
            Expected::Ids => Ids.fault(alloc, json),
            Expected::Object(values) => Ok(object_fault(values, json)),
            Expected::Objects(values) => objects_fault(alloc, values, json),
        }
    }
}

/// What a create is handed: an object of values or a list of such; or the first place that is wrong.
pub(crate) fn asked_objects<'a>(
    alloc: Global,
    schema: &Schema,
    call: &Call<'a>,
) -> Result<Given<'a>, Refusal>
    requires model { HasModel schema.now call.now.model }
    ensures given { IfSome (model_at schema.now call.entry.now.model) (λ info. IsGivenCreate (called_by call.entry.now info) result) }
    ensures form { IfOk result (λ vals. objects_fault (fields_at schema.now call.entry.now.model) (view vals.json.now) ≡ None) }
{
    let expected = create_parameters(schema, call.model);
    let given = arguments_of(alloc, &expected, call.args, call.kw)?;
    match given[0] {
        Some(vals) => Ok(vals),
        None => unreachable!(),
    }
}

/// What a create is called with.
fn create_parameters(schema: &Schema, model: ModelNo) -> [Parameter<Expected<'_>>; 1]
    requires { HasModel schema.now model }
    ensures expects { map (expected_of expected_fault) result ≡ create_expects (fields_at schema.now model) }
    ensures apart { are_apart (codes "context" ∷ names_of result) ≡ true }
{
    [Parameter {
        name: "vals",
        required: true,
        form: Expected::Objects(Values { schema, model }),
    }]
}

/// A change that a write asks for: ids, each once, and an object of values.
#[derive(Drop)]
pub(crate) struct Change<'a> {
    pub(crate) ids: Vec<u64>,
    pub(crate) vals: Given<'a>,
}

/// What a write is handed; or the first place that is wrong.
pub(crate) fn asked_change<'a>(
    alloc: Global,
    schema: &Schema,
    call: &Call<'a>,
) -> Result<Change<'a>, Refusal>
    requires model { HasModel schema.now call.now.model }
    ensures given { IfSome (model_at schema.now call.entry.now.model) (λ info. IsAskedWrite (called_by call.entry.now info) result) }
    ensures form { IfOk result (λ change. object_fault (fields_at schema.now call.entry.now.model) (view change.vals.json.now) ≡ None) }
    ensures low { IfOk result (λ change. All (λ id. id ≤ max_id) change.ids.items) }
{
    let expected = write_parameters(schema, call.model);
    let given = arguments_of(alloc, &expected, call.args, call.kw)?;
    let Some(ids) = given[0] else {
        unreachable!();
    };
    let Some(vals) = given[1] else {
        unreachable!();
    };
    let ids = named_ids(alloc, ids.json)?;
    Ok(Change { ids, vals })
}

/// What a write is called with: ids, and an object of values.
fn write_parameters(schema: &Schema, model: ModelNo) -> [Parameter<Expected<'_>>; 2]
    requires { HasModel schema.now model }
    ensures expects { map (expected_of expected_fault) result ≡ write_expects (fields_at schema.now model) }
    ensures apart { are_apart (codes "context" ∷ names_of result) ≡ true }
{
    [
        Parameter {
            name: "ids",
            required: true,
            form: Expected::Ids,
        },
        Parameter {
            name: "vals",
            required: true,
            form: Expected::Object(Values { schema, model }),
        },
    ]
}
