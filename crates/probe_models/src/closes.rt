//! What changes of tables reach, over the registry of an object. A case has the edits `before`
//! that make tables of the empty ones, and the `edits` that make of these the tables behind the
//! change, both untested. Told are the cells that the change edits, and the computed ones that the
//! closure gives of them, each as `[MODEL, ID, FIELD]`, by model, id and field.

ghost use Rattle.std.specs.Prelude.{◌≡◌, IsSomeAnd, true};
ghost use Rattle.ob_schema.specs.Models.{field_at, is_given_from};

use crate::edits::{do_fit, edits};
use crate::sides::{Ends, Sides, ends_of};
use crate::told_tables::{NOT_ASKED, is_given, put_cell};
use ob_base::limits::MAX_MODELS;
use ob_base::{Cell, FieldNo, ModelNo, NoMemory, RecId, RefList, value_eq};
use ob_schema::Schema;
use ob_tables::Tables;
use ob_trigger::{CellSet, CloseFault, Triggers};
use probe_parts::definitions::schema_of;
use probe_parts::parts::{Json, list_part, text_part};
use probe_parts::told::Told;
use std::alloc::Global;
use std::collections::BTreeSet;

/// Adds what the changes of an object reach.
pub(crate) fn put_closes(alloc: Global, told: &mut Told, times: u32, json: &Json) {
    let definitions = text_part(told, json, "definitions");
    let cases = list_part(told, json, "cases");
    let Some(schema) = schema_of(alloc, told, definitions) else {
        return;
    };
    told.put("[");
    let mut between = "";
    for case in cases {
        told.put(between);
        put_case(alloc, told, times, &schema, case);
        between = ",";
    }
    told.put("]");
}

/// Adds what the change of a case reaches.
fn put_case(alloc: Global, told: &mut Told, times: u32, schema: &Schema, case: &Json) {
    let given = list_part(told, case, "before");
    let given = edits(alloc, told, schema, given);
    let then = list_part(told, case, "edits");
    let then = edits(alloc, told, schema, then);
    if told.is_malformed() {
        return;
    }
    if !do_fit(schema, given.as_slice()) || !do_fit(schema, then.as_slice()) {
        return told.put(NOT_ASKED);
    }
    match Tables::empty(alloc, schema).after(given.as_slice()) {
        Ok(before) => match before.after(then.as_slice()) {
            Ok(behind) => put_change(alloc, told, times, schema, &before, &behind),
            Err(_) => told.lack(),
        },
        Err(_) => told.lack(),
    }
}

/// Adds what a change edits and reaches.
fn put_change(
    alloc: Global,
    told: &mut Told,
    times: u32,
    schema: &Schema,
    before: &Tables<'_>,
    behind: &Tables<'_>,
)
    requires before { before.now.models ≡ schema.now }
    requires behind { behind.now.models ≡ schema.now }
{
    let edited = edited_cells(alloc, told, schema, before, behind);
    let Ok(edited) = edited.iter().copied().collect::<Vec<Cell>>(alloc) else {
        return told.lack();
    };
    told.put("{\"edited\":");
    put_cells(alloc, told, schema, edited.as_slice());
    told.put(",\"closed\":");
    let (before, behind) = (
        ends_of(alloc, told, schema, before),
        ends_of(alloc, told, schema, behind),
    );
    put_closed(
        alloc,
        told,
        times,
        schema,
        edited.as_slice(),
        &before,
        &behind,
    );
    told.put("}");
}

/// Adds what edited cells reach.
fn put_closed(
    alloc: Global,
    told: &mut Told,
    times: u32,
    schema: &Schema,
    edited: &[Cell],
    before: &Ends,
    behind: &Ends,
) {
    let Ok(triggers) = Triggers::build(alloc, schema) else {
        return told.lack();
    };
    for _ in 1..times {
        let _ = closed(alloc, &triggers, schema, edited, before, behind);
    }
    match closed(alloc, &triggers, schema, edited, before, behind) {
        Ok(cells) => put_cells(alloc, told, schema, cells.as_slice()),
        Err(_) => told.lack(),
    }
}

/// The cells that edited ones reach.
fn closed(
    alloc: Global,
    triggers: &Triggers<'_>,
    schema: &Schema,
    edited: &[Cell],
    before: &Ends,
    behind: &Ends,
) -> Result<CellSet, CloseFault<NoMemory>>
    requires { triggers.now ≡ schema.now }
{
    let mut sides = Sides {
        alloc,
        schema,
        before,
        behind,
    };
    triggers.close(alloc, edited, &mut sides)
}

/// The cells that a change edits.
fn edited_cells(
    alloc: Global,
    told: &mut Told,
    schema: &Schema,
    before: &Tables<'_>,
    behind: &Tables<'_>,
) -> BTreeSet<Cell>
    requires before { before.now.models ≡ schema.now }
    requires behind { behind.now.models ≡ schema.now }
{
    let mut edited = BTreeSet::new(alloc);
    for place in 0..MAX_MODELS as u16 {
        let model = ModelNo(place + 1);
        if schema.find_model(model).is_some() {
            let (old, new) = (before.ids(model), behind.ids(model));
            add_edited_rows(told, schema, before, behind, model, old, &mut edited);
            add_edited_rows(told, schema, before, behind, model, new, &mut edited);
        }
    }
    edited
}

/// Adds the edited cells of rows.
fn add_edited_rows(
    told: &mut Told,
    schema: &Schema,
    before: &Tables<'_>,
    behind: &Tables<'_>,
    model: ModelNo,
    ids: Result<RefList, NoMemory>,
    edited: &mut BTreeSet<Cell>,
)
    requires before { before.now.models ≡ schema.now }
    requires behind { behind.now.models ≡ schema.now }
{
    match ids {
        Ok(ids) => {
            for id in ids.as_slice() {
                add_edited(told, schema, before, behind, model, *id, edited);
            }
        }
        Err(_) => told.lack(),
    }
}

/// Adds the edited cells of a row.
fn add_edited(
    told: &mut Told,
    schema: &Schema,
    before: &Tables<'_>,
    behind: &Tables<'_>,
    model: ModelNo,
    id: RecId,
    edited: &mut BTreeSet<Cell>,
)
    requires before { before.now.models ≡ schema.now }
    requires behind { behind.now.models ≡ schema.now }
{
    for number in 1..u16::MAX {
        let cell = Cell {
            model,
            id,
            field: FieldNo(number),
        };
        if schema.find_field(model, cell.field).is_none() {
            return;
        }
        if is_given(schema, cell)
            && differs(told, before, behind, cell)
            && edited.insert(cell).is_err()
        {
            told.lack();
        }
    }
}

/// Whether a cell has another value behind a change than before it, or its row is there on one
/// side alone.
fn differs(told: &mut Told, before: &Tables<'_>, behind: &Tables<'_>, cell: Cell) -> bool
    requires before { IsSomeAnd (field_at before.now.models cell.model cell.field) (λ info. is_given_from info.origin ≡ true) }
    requires behind { IsSomeAnd (field_at behind.now.models cell.model cell.field) (λ info. is_given_from info.origin ≡ true) }
{
    match (before.plain(cell), behind.plain(cell)) {
        (Ok(Some(old)), Ok(Some(new))) => !value_eq(&old, &new),
        (Ok(None), Ok(None)) => false,
        (Ok(_), Ok(_)) => true,
        _ => {
            told.lack();
            false
        }
    }
}

/// Adds cells, as a list.
fn put_cells(alloc: Global, told: &mut Told, schema: &Schema, cells: &[Cell]) {
    told.put("[");
    let mut between = "[";
    for cell in cells {
        told.put(between);
        put_cell(alloc, told, schema, *cell);
        told.put("]");
        between = ",[";
    }
    told.put("]");
}
