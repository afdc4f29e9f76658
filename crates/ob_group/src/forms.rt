//! The forms of the arguments of `read_group`.

ghost use Rattle.std.specs.Prelude.{◌≡◌, ◌∷◌, codes, map, option_map, true, IfOk};
ghost use Rattle.serde_json.specs.View.{view};
ghost use Rattle.ob_call.specs.Arguments.{are_apart};
ghost use Rattle.ob_call.specs.ArgumentsSteps.{expected_of, names_of};
ghost use Rattle.ob_call.specs.Forms.{fields_at};
ghost use Rattle.ob_call.specs.Places.{below_steps};
ghost use Rattle.ob_group.specs.GroupForms.{aggregates_fault, group_order_fault, groups_expects, truth_fault, used, written_of};
ghost use Rattle.ob_group.specs.GroupParts.{groups_fault, handed_written};
ghost use Rattle.ob_schema.specs.Models.{HasModel};

use crate::aggregates::aggregates_fault;
use crate::groupings::groupings_fault;
use crate::handed::Handed;
use crate::terms::group_order_fault;
use crate::written::{used, written_of};
use ob_base::{ModelNo, NoMemory};
use ob_call::{Below, Form, Json, Parameter};
use ob_query::{SearchForm, Searched};
use ob_schema::Schema;
use std::alloc::Global;

/// The form of an argument of a call that groups rows.
#[derive(Clone, Copy)]
pub(crate) enum GroupsForm<'c> {
    /// A form of searches: the domain, or a number of groups.
    Search(SearchForm<'c>),
    Aggregates(Handed<'c>),
    Groupings(Searched<'c>),
    Order(Handed<'c>),
    Truth,
}

impl Form for GroupsForm<'_> {
    ghost use Rattle.ob_group.specs.GroupParts.{groups_fault, handed_written};

    ghost fault = { λ form json. groups_fault form json };

    fn fault<'j>(&self, alloc: Global, json: &'j Json) -> Result<Option<Below<'j>>, NoMemory> {
        match self {
            GroupsForm::Search(form) => form.fault(alloc, json),
            GroupsForm::Aggregates(of) => free_fault(alloc, *of, json),
            GroupsForm::Groupings(of) => groupings_fault(alloc, of.schema, of.model, json),
            GroupsForm::Order(of) => used_fault(alloc, *of, json),
            GroupsForm::Truth => Ok(truth_fault(json)),
        }
    }
}

/// Where aggregates are wrong first, beside the groupings that are written.
fn free_fault<'j>(
    alloc: Global,
    of: Handed<'_>,
    json: &'j Json,
) -> Result<Option<Below<'j>>, NoMemory>
    ensures { IfOk result (λ told. option_map below_steps told
        ≡ aggregates_fault (fields_at of.entry.schema.now of.entry.model) (handed_written of.entry) (view json.now)) }
{
    let written = written_of(alloc, of.schema, of.model, of.args, of.kw)?;
    aggregates_fault(alloc, of.schema, of.model, &written, json)
}

/// Whether a value is no order by groupings that are used.
fn used_fault<'j>(
    alloc: Global,
    of: Handed<'_>,
    json: &'j Json,
) -> Result<Option<Below<'j>>, NoMemory>
    ensures { IfOk result (λ told. option_map below_steps told
        ≡ group_order_fault (used (handed_written of.entry)) (view json.now)) }
{
    let written = written_of(alloc, of.schema, of.model, of.args, of.kw)?;
    group_order_fault(alloc, used(&written), json)
}

/// Whether a value is no truth.
fn truth_fault(json: &Json) -> Option<Below<'_>>
    ensures { option_map below_steps result ≡ truth_fault (view json.now) }
{
    match json {
        Json::Bool(_) => None,
        _ => Some(Below::Whole),
    }
}

/// What a call that groups rows is called with.
pub(crate) fn groups_parameters<'c>(
    schema: &'c Schema,
    model: ModelNo,
    args: &'c Json,
    kw: &'c Json,
) -> [Parameter<GroupsForm<'c>>; 7]
    requires { HasModel schema.now model }
    ensures expects { map (expected_of groups_fault) result ≡ groups_expects schema.now model (fields_at schema.now model)
        (written_of (fields_at schema.now model) (view args.now) (view kw.now)) }
    ensures apart { are_apart (codes "context" ∷ names_of result) ≡ true }
{
    let of = Searched { schema, model };
    let handed = Handed {
        schema,
        model,
        args,
        kw,
    };
    let count = GroupsForm::Search(SearchForm::Count);
    [
        Parameter {
            name: "domain",
            required: true,
            form: GroupsForm::Search(SearchForm::Domain(of)),
        },
        Parameter {
            name: "fields",
            required: true,
            form: GroupsForm::Aggregates(handed),
        },
        Parameter {
            name: "groupby",
            required: true,
            form: GroupsForm::Groupings(of),
        },
        Parameter {
            name: "offset",
            required: false,
            form: count,
        },
        Parameter {
            name: "limit",
            required: false,
            form: count,
        },
        Parameter {
            name: "orderby",
            required: false,
            form: GroupsForm::Order(handed),
        },
        Parameter {
            name: "lazy",
            required: false,
            form: GroupsForm::Truth,
        },
    ]
}
