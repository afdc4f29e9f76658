//! Changes of what a keeper keeps, as nobody but a test makes them: `["gone", MODEL, ID]` takes a
//! row away, `["next", MODEL, ID]` gives a model's next id, and `["put", MODEL, ID, BODY, LINKS]`
//! puts a row, whose body is hexadecimal digits and whose links are a list of `[FIELD, ID]`.
//! It tells `"done"`, or why it isn't done in words; `["not asked"]` of what no keeper takes.

ghost use Rattle.std.specs.Prelude.{◌≢◌, All, AllPairs, IsTrue};
ghost use Rattle.ob_io.specs.Store.{Fits63, IsChangeFit, IsRowFit};

use crate::edits::{field_of, model_of};
use crate::steps::DONE;
use crate::told_tables::{NOT_ASKED, put_fault};
use ob_base::{FieldNo, ModelNo, RecId, Sequence};
use ob_io::{Change, Keeper, KeptRow, Link, MemKeeper};
use ob_schema::Schema;
use probe_parts::parts::{Json, id_of, items_of};
use probe_parts::told::Told;
use probe_parts::words::bytes_of;
use std::alloc::Global;
use std::slice;

/// The numbers below this one fit a keeper.
const END: u64 = 1 << 63;

/// Adds what a change comes to.
pub(crate) fn put_change(
    alloc: Global,
    told: &mut Told,
    schema: &Schema,
    keeper: &mut MemKeeper,
    part: &[Json],
) {
    let change = change_of(alloc, told, schema, part);
    if told.is_malformed() {
        return;
    }
    if is_fit(&change) {
        put_commit(told, keeper, change);
    } else {
        told.put(NOT_ASKED);
    }
}

/// Adds what keeping a change comes to.
fn put_commit(told: &mut Told, keeper: &mut MemKeeper, change: Change)
    requires { IsChangeFit change }
{
    match keeper.commit(slice::from_ref(&change)) {
        Ok(()) => told.put(DONE),
        Err(fault) => put_fault(told, &fault),
    }
}

/// The change of a part.
fn change_of(alloc: Global, told: &mut Told, schema: &Schema, part: &[Json]) -> Change {
    let (word, model, id, parts) = match part {
        [Json::String(word), model, id, parts @ ..] => (
            word.as_str(),
            model_of(told, schema, model),
            id_of(told, id),
            parts,
        ),
        _ => ("", ModelNo(0), RecId(0), part),
    };
    match (word, parts) {
        ("gone", []) => Change::Gone { model, id },
        ("next", []) => Change::Next { model, next: id.0 },
        ("put", [Json::String(digits), list]) => {
            let body = Sequence::from_vec(bytes_of(alloc, told, digits.as_str()));
            let links = links_of(alloc, told, schema, model, list);
            let row = KeptRow { id, body, links };
            Change::Put { model, row }
        }
        _ => {
            told.refuse();
            Change::Gone { model, id }
        }
    }
}

/// The links of a list.
fn links_of(
    alloc: Global,
    told: &mut Told,
    schema: &Schema,
    model: ModelNo,
    list: &Json,
) -> Sequence<Link> {
    let mut links = Sequence::new(alloc);
    for json in items_of(told, list) {
        let link = link_of(told, schema, model, json);
        told.add(&mut links, link);
    }
    links
}

/// A link.
fn link_of(told: &mut Told, schema: &Schema, model: ModelNo, json: &Json) -> Link {
    match items_of(told, json) {
        [field, target] => Link {
            field: field_of(told, schema, model, field),
            target: id_of(told, target),
        },
        _ => {
            told.refuse();
            Link {
                field: FieldNo(0),
                target: RecId(0),
            }
        }
    }
}

/// Whether a keeper takes a change.
fn is_fit(change: &Change) -> bool
    ensures { IsTrue result → IsChangeFit change.now }
{
    match change {
        Change::Put { row, .. } => is_row_fit(row),
        Change::Gone { id, .. } => id.0 < END,
        Change::Next { next, .. } => *next < END,
    }
}

/// Whether a keeper takes a row.
fn is_row_fit(row: &KeptRow) -> bool
    ensures { IsTrue result → IsRowFit row.now }
{
    row.id.0 < END && are_fit(row.links.as_slice())
}

/// Whether a keeper takes links: none twice, and none to an id past its greatest one.
fn are_fit(links: &[Link]) -> bool
    ensures targets { IsTrue result → All (λ link. Fits63 link.target.0) links.now }
    ensures apart { IsTrue result → AllPairs (λ a b. a ≢ b) links.now }
{
    match links {
        [] => true,
        [first, rest @ ..] => first.target.0 < END && !rest.contains(first) && are_fit(rest),
    }
}
