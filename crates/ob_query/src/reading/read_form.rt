//! The forms of a read's arguments.

ghost use Rattle.std.specs.Prelude.{◌≡◌, ◌∷◌, codes, map, true};
ghost use Rattle.ob_schema.specs.Models.{HasModel};
ghost use Rattle.ob_call.specs.Arguments.{are_apart};
ghost use Rattle.ob_call.specs.ArgumentsSteps.{expected_of, names_of};
ghost use Rattle.ob_call.specs.Forms.{fields_at};
ghost use Rattle.ob_query.specs.ReadArguments.{read_expects};
ghost use Rattle.ob_query.specs.ReadForm.{read_fault};

use ob_base::{ModelNo, NoMemory};
use ob_call::{Below, FieldNames, Form, Ids, Json, Parameter, Unread};
use ob_schema::Schema;
use std::alloc::Global;

/// The form of an argument of a read.
#[derive(Clone, Copy)]
pub(crate) enum ReadForm<'s> {
    Ids,
    Fields(FieldNames<'s>),
    Unread,
}

impl Form for ReadForm<'_> {
    ghost use Rattle.ob_query.specs.ReadForm.{read_fault};

    ghost fault = { λ form json. read_fault form json };

    fn fault<'j>(&self, alloc: Global, json: &'j Json) -> Result<Option<Below<'j>>, NoMemory> {
        match self {
            ReadForm::Ids => Ids.fault(alloc, json),
            ReadForm::Fields(names) => names.fault(alloc, json),
            ReadForm::Unread => Unread.fault(alloc, json),
        }
    }
}

/// What a read is called with: ids, fields, and a way of loading that is not read.
pub(crate) fn read_parameters(schema: &Schema, model: ModelNo) -> [Parameter<ReadForm<'_>>; 3]
    requires { HasModel schema.now model }
    ensures expects { map (expected_of read_fault) result ≡ read_expects (fields_at schema.now model) }
    ensures apart { are_apart (codes "context" ∷ names_of result) ≡ true }
{
    [
        Parameter {
            name: "ids",
            required: true,
            form: ReadForm::Ids,
        },
        Parameter {
            name: "fields",
            required: false,
            form: ReadForm::Fields(FieldNames { schema, model }),
        },
        Parameter {
            name: "load",
            required: false,
            form: ReadForm::Unread,
        },
    ]
}
