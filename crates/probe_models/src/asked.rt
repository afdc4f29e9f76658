//! What an engine is asked between its steps: `["read", MODEL, ID, FIELD]` for a cell's value,
//! `["settled", MODEL, ID, FIELD]` for the one that it had when edits were settled last, `["has",
//! MODEL, ID]` for whether a row is there, `["next", MODEL]` for a model's next id, `["page",
//! MODEL, AFTER, MOST]` for ids of its rows, `["holders", MODEL, FIELD, TARGET, AFTER, MOST]` for
//! those that name a row by a plain kept relation; `["known", MODEL, ID, FIELD]` for a cell of a
//! row where it is known, `["targets", SIDE, MODEL, ID, FIELD]` for
//! the rows to which a cell leads and `["sources", SIDE, MODEL, FIELD, ID]` for those that lead
//! to a row, where SIDE is `old` or `new`. A value is told as `told_tables` tells it, `["missing"]`
//! where the row isn't there; a fault in its words.

ghost use Rattle.std.specs.Prelude.{◌⊎◌, IfSome, IsTrue};
ghost use Rattle.ob_cache.specs.Stages.{IsKeptRelation, IsPlainCell, IsStoredCell, IsUsable};
ghost use Rattle.ob_schema.specs.Links.{Leads};
ghost use Rattle.ob_schema.specs.Models.{FieldHas, HasField, HasModel};
ghost use Rattle.probe_models.specs.Steps.{IsReady, IsSame};

use crate::edits::cell_of;
use crate::told_tables::{NOT_ASKED, put_fault, put_value};
use ob_base::{Cell, ModelNo, RefList, Value};
use ob_cache::{Engine, ReadFault};
use ob_io::{KeepFault, MemKeeper};
use ob_schema::{Facts, Links, Origin, Schema, Side};
use probe_parts::parts::{Json, id_of};
use probe_parts::told::{Told, put_list};
use std::alloc::Global;

/// Adds what a question tells.
pub(crate) fn put_asked(
    alloc: Global,
    told: &mut Told,
    engine: &mut Engine<'_, MemKeeper>,
    is_settled: bool,
    word: &str,
    parts: &[Json],
)
    requires { IsReady is_settled engine.old.held }
    ensures { IsSame engine.old.held engine.new.held }
{
    match word {
        "next" => put_next(told, engine, is_settled, parts),
        "read" => {
            let value = value_asked(told, engine, is_settled, parts);
            put_cell_value(alloc, told, value);
        }
        "known" => {
            let value = known_asked(told, engine, is_settled, parts);
            put_cell_value(alloc, told, value);
        }
        "settled" => {
            let value = settled_asked(told, engine, parts);
            put_cell_value(alloc, told, value);
        }
        "has" => put_row(told, engine, parts),
        _ => match ids_asked(told, engine, is_settled, word, parts) {
            Some(ids) => put_ids(told, ids),
            None => told.refuse(),
        },
    }
}

/// Adds a model's next id.
fn put_next(told: &mut Told, engine: &mut Engine<'_, MemKeeper>, is_settled: bool, parts: &[Json])
    requires { IsReady is_settled engine.old.held }
    ensures { IsSame engine.old.held engine.new.held }
{
    let model = match parts {
        [model] => model_in(engine.schema(), model),
        _ => None,
    };
    let Some(model) = model else {
        return told.refuse();
    };
    match engine.next_id(model) {
        Ok(next) => told.put_count(next),
        Err(fault) => put_fault(told, &fault),
    }
}

/// The value of a cell, where it may be read.
fn value_asked(
    told: &mut Told,
    engine: &mut Engine<'_, MemKeeper>,
    is_settled: bool,
    parts: &[Json],
) -> Option<Result<Value, ReadFault>>
    requires { IsReady is_settled engine.old.held }
    ensures { IsSame engine.old.held engine.new.held }
{
    let schema = engine.schema();
    let cell = cell_of_parts(told, schema, parts)?;
    if !is_settled && !is_readable(schema, cell) {
        return None;
    }
    Some(engine.read(cell))
}

/// The value of a cell whose row is known.
fn known_asked(
    told: &mut Told,
    engine: &mut Engine<'_, MemKeeper>,
    is_settled: bool,
    parts: &[Json],
) -> Option<Result<Value, ReadFault>>
    requires { IsReady is_settled engine.old.held }
    ensures { IsSame engine.old.held engine.new.held }
{
    let schema = engine.schema();
    let cell = cell_of_parts(told, schema, parts)?;
    match engine.known(cell.model, cell.id) {
        Ok(true) => Some(engine.value(cell)),
        Ok(false) => Some(Err(ReadFault::Missing)),
        Err(fault) => Some(Err(fault)),
    }
}

/// The value of a cell as it was settled last.
fn settled_asked(
    told: &mut Told,
    engine: &mut Engine<'_, MemKeeper>,
    parts: &[Json],
) -> Option<Result<Value, ReadFault>>
    requires { IsUsable engine.old.held.phase }
    ensures { IsSame engine.old.held engine.new.held }
{
    let schema = engine.schema();
    let cell = cell_of_parts(told, schema, parts)?;
    Some(engine.read_settled(cell))
}

/// Adds whether a row is there.
fn put_row(told: &mut Told, engine: &mut Engine<'_, MemKeeper>, parts: &[Json])
    requires { IsUsable engine.old.held.phase }
    ensures { IsSame engine.old.held engine.new.held }
{
    let [model, id] = parts else {
        return told.refuse();
    };
    let Some(model) = model_in(engine.schema(), model) else {
        return told.refuse();
    };
    let id = id_of(told, id);
    match engine.has_row(model, id) {
        Ok(is_there) => told.put_bool(is_there),
        Err(fault) => put_fault(told, &fault),
    }
}

/// Ids of rows; none where the parts are of another form.
fn ids_asked(
    told: &mut Told,
    engine: &mut Engine<'_, MemKeeper>,
    is_settled: bool,
    word: &str,
    parts: &[Json],
) -> Option<Result<RefList, KeepFault>>
    requires { IsReady is_settled engine.old.held }
    ensures { IsSame engine.old.held engine.new.held }
{
    let schema = engine.schema();
    match (word, parts) {
        ("page", [model, after, most]) => {
            let model = model_in(schema, model)?;
            let (after, most) = (id_of(told, after), count_of(told, most));
            Some(engine.page(model, after, most))
        }
        ("holders", [model, field, target, after, most]) => {
            let at = naming_cell(told, schema, model, target, field)?;
            let (after, most) = (id_of(told, after), count_of(told, most));
            Some(engine.holders(at.model, at.field, at.id, after, most))
        }
        ("targets", [side, model, id, field]) => {
            let at = leading_cell(told, schema, model, id, field)?;
            Some(engine.targets(side_of(side)?, at))
        }
        ("sources", [side, model, field, id]) => {
            let at = leading_cell(told, schema, model, id, field)?;
            Some(engine.sources(side_of(side)?, at.model, at.field, at.id))
        }
        _ => None,
    }
}

/// Adds ids, or why none are told.
fn put_ids(told: &mut Told, ids: Result<RefList, KeepFault>) {
    match ids {
        Ok(ids) => put_list(told, ids.as_slice()),
        Err(fault) => put_fault(told, &fault),
    }
}

/// Adds a cell's value, or why none is told.
fn put_cell_value(alloc: Global, told: &mut Told, value: Option<Result<Value, ReadFault>>) {
    match value {
        None => told.put(NOT_ASKED),
        Some(Ok(value)) => put_value(alloc, told, &value),
        Some(Err(ReadFault::Missing)) => told.put("[\"missing\"]"),
        Some(Err(fault)) => put_fault(told, &fault),
    }
}

/// A model of the registry by its name.
fn model_in(schema: &Schema, json: &Json) -> Option<ModelNo>
    ensures { IfSome result (HasModel schema.now) }
{
    match json {
        Json::String(name) => schema.model(name.as_str()),
        _ => None,
    }
}

/// The cell of the registry that a question is about; else it is of another form.
fn cell_of_parts(told: &mut Told, schema: &Schema, parts: &[Json]) -> Option<Cell>
    ensures { IfSome result (λ cell. HasField schema.now cell.model cell.field) }
{
    let cell = match parts {
        [model, id, field] => cell_in(told, schema, model, id, field),
        _ => None,
    };
    if cell.is_none() {
        told.refuse();
    }
    cell
}

/// A cell of the registry.
fn cell_in(told: &mut Told, schema: &Schema, model: &Json, id: &Json, field: &Json) -> Option<Cell>
    ensures { IfSome result (λ cell. HasField schema.now cell.model cell.field) }
{
    let model = model_in(schema, model)?;
    let cell = cell_of(told, schema, model, id, field);
    match schema.find_field(cell.model, cell.field) {
        Some(_) => Some(cell),
        None => None,
    }
}

/// A cell of the registry that leads to rows.
fn leading_cell(
    told: &mut Told,
    schema: &Schema,
    model: &Json,
    id: &Json,
    field: &Json,
) -> Option<Cell>
    ensures { IfSome result (λ cell. FieldHas schema.now Leads cell.model cell.field) }
{
    let model = model_in(schema, model)?;
    let cell = cell_of(told, schema, model, id, field);
    let info = schema.find_field(cell.model, cell.field)?;
    match info.origin {
        Origin::Id => Some(cell),
        Origin::Plain if info.field_type.is_relation() => Some(cell),
        _ => None,
    }
}

/// A cell of the registry by whose field rows name others.
fn naming_cell(
    told: &mut Told,
    schema: &Schema,
    model: &Json,
    id: &Json,
    field: &Json,
) -> Option<Cell>
    ensures { IfSome result (λ cell. FieldHas schema.now IsKeptRelation cell.model cell.field) }
{
    let model = model_in(schema, model)?;
    let cell = cell_of(told, schema, model, id, field);
    match schema.find_field(cell.model, cell.field) {
        Some(info) if info.is_plain_kept() && info.field_type.is_relation() => Some(cell),
        _ => None,
    }
}

/// A side of what is staged.
fn side_of(json: &Json) -> Option<Side> {
    match json.as_str() {
        Some("old") => Some(Side::Old),
        Some("new") => Some(Side::New),
        _ => None,
    }
}

/// How many ids are told at most.
fn count_of(told: &mut Told, json: &Json) -> u32 {
    let count = id_of(told, json).0;
    told.found(u32::try_from(count).ok(), 0)
}

/// Whether a cell may be read while edits are staged.
fn is_readable(schema: &Schema, cell: Cell) -> bool
    requires { HasField schema.now cell.model cell.field }
    ensures { IsTrue result → IsPlainCell schema.now cell ⊎ IsStoredCell schema.now cell }
{
    let info = schema.info(cell.model, cell.field);
    match info.origin {
        Origin::Id | Origin::Plain => true,
        Origin::Computed(_) => info.is_kept(),
        Origin::Delegated(_) => false,
    }
}
