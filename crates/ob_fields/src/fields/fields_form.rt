//! The forms of a fields_get's arguments.

ghost use Rattle.std.specs.Prelude.{◌≡◌, ◌∷◌, codes, map, true};
ghost use Rattle.ob_schema.specs.Models.{HasModel};
ghost use Rattle.ob_call.specs.Arguments.{are_apart};
ghost use Rattle.ob_call.specs.ArgumentsSteps.{expected_of, names_of};
ghost use Rattle.ob_call.specs.Forms.{fields_at};
ghost use Rattle.ob_fields.specs.FieldsGet.{fields_get_expects};
ghost use Rattle.ob_fields.specs.FieldsGetSteps.{fields_form_fault};

use ob_base::{ModelNo, NoMemory};
use ob_call::{Below, FieldNames, Form, Json, Parameter, Texts};
use ob_schema::Schema;
use std::alloc::Global;

/// The form of an argument of a fields_get.
#[derive(Clone, Copy)]
pub(crate) enum FieldsForm<'s> {
    Names(FieldNames<'s>),
    Texts,
}

impl Form for FieldsForm<'_> {
    ghost use Rattle.ob_fields.specs.FieldsGetSteps.{fields_form_fault};

    ghost fault = { λ form json. fields_form_fault form json };

    fn fault<'j>(&self, alloc: Global, json: &'j Json) -> Result<Option<Below<'j>>, NoMemory> {
        match self {
            FieldsForm::Names(names) => names.fault(alloc, json),
            FieldsForm::Texts => Texts.fault(alloc, json),
        }
    }
}

/// What a fields_get is called with: names of fields, and words for what is to be told of them.
pub(crate) fn fields_parameters(schema: &Schema, model: ModelNo) -> [Parameter<FieldsForm<'_>>; 2]
    requires { HasModel schema.now model }
    ensures expects { map (expected_of fields_form_fault) result ≡ fields_get_expects (fields_at schema.now model) }
    ensures apart { are_apart (codes "context" ∷ names_of result) ≡ true }
{
    [
        Parameter {
            name: "allfields",
            required: false,
            form: FieldsForm::Names(FieldNames { schema, model }),
        },
        Parameter {
            name: "attributes",
            required: false,
            form: FieldsForm::Texts,
        },
    ]
}
