//! What a write asks for: which rows, and the object of values that each of them is given.

ghost use Rattle.std.specs.Prelude.{◌≡◌, ◌≤◌, ◌∷◌, codes, map, true, All, IfOk, IfSome};
ghost use Rattle.ob_base.specs.Limits.{max_id};
ghost use Rattle.ob_call.specs.Arguments.{are_apart};
ghost use Rattle.ob_call.specs.ArgumentsSteps.{expected_of, names_of};
ghost use Rattle.ob_call.specs.Called.{called_by};
ghost use Rattle.ob_call.specs.Forms.{fields_at};
ghost use Rattle.ob_call.specs.Results.{IsResultOf};
ghost use Rattle.ob_orm.specs.NewRowSteps.{IsTyped};
ghost use Rattle.ob_orm.specs.Write.{change_of, write_expects};
ghost use Rattle.ob_orm.specs.WriteSteps.{asked_change, write_fault};
ghost use Rattle.ob_schema.specs.Models.{HasModel, model_at};

use crate::creating::given::{GivenObject, NewValues, given_object};
use crate::objects::ObjectSpot;
use ob_base::{ModelNo, NoMemory, Refusal};
use ob_call::{Below, Call, Form, Ids, Json, Parameter, arguments_of, named_ids};
use ob_schema::Schema;
use std::alloc::Global;

/// Rows, each once, and what each of them is given, for its own fields and those of its parents.
#[derive(Drop)]
pub(crate) struct Change {
    pub(crate) ids: Vec<u64>,
    pub(crate) object: GivenObject,
}

/// The form of an argument of a write.
#[derive(Clone, Copy)]
pub(crate) enum WriteForm<'s> {
    Ids,
    Values(NewValues<'s>),
}

impl Form for WriteForm<'_> {
    ghost use Rattle.ob_orm.specs.WriteSteps.{write_fault};

    ghost fault = { λ form json. write_fault form json };

    fn fault<'j>(&self, alloc: Global, json: &'j Json) -> Result<Option<Below<'j>>, NoMemory> {
        match self {
            WriteForm::Ids => Ids.fault(alloc, json),
            WriteForm::Values(values) => values.fault(alloc, json),
        }
    }
}

/// What a write of a call asks for, or the first place of its arguments that is wrong.
pub(crate) fn asked_change(
    alloc: Global,
    schema: &Schema,
    call: &Call<'_>,
) -> Result<Change, Refusal>
    requires model { HasModel schema.now call.now.model }
    ensures value { IfSome (model_at schema.now call.entry.now.model)
        (λ info. IsResultOf asked_change result (change_of schema.now (called_by call.entry.now info))) }
    ensures typed { IfOk result (λ change. All (IsTyped schema.now call.entry.now.model) change.object.values) }
    ensures low { IfOk result (λ change. All (λ id. id ≤ max_id) change.ids.items) }
{
    let expected = write_parameters(schema, call.model);
    let given = arguments_of(alloc, &expected, call.args, call.kw)?;
    let Some(ids) = &given[0] else {
        unreachable!();
    };
    let Some(vals) = &given[1] else {
        unreachable!();
    };
    let ids = named_ids(alloc, ids.json)?;
    let spot = ObjectSpot::Argument(vals.spot);
    let object = given_object(alloc, schema, call.model, spot, vals.json)?;
    Ok(Change { ids, object })
}

/// What a write is called with: ids, and an object of values.
fn write_parameters(schema: &Schema, model: ModelNo) -> [Parameter<WriteForm<'_>>; 2]
    requires { HasModel schema.now model }
    ensures expects { map (expected_of write_fault) result ≡ write_expects schema.now (fields_at schema.now model) }
    ensures apart { are_apart (codes "context" ∷ names_of result) ≡ true }
{
    [
        Parameter {
            name: "ids",
            required: true,
            form: WriteForm::Ids,
        },
        Parameter {
            name: "vals",
            required: true,
            form: WriteForm::Values(NewValues { schema, model }),
        },
    ]
}
