//! A row by its kept form: its values, those of plain fields and of computed ones, and its links.

ghost use Rattle.std.specs.Prelude.{◌≡◌, ◌≤◌, ◌++◌, ◌∷◌, [], IfErr, IfOk, IfSome, IsSomeAnd, OnOk, filter, length, map, true};
ghost use Rattle.std.specs.List.{filter_map, flat_map};
ghost use Rattle.ob_base.specs.Limits.{max_fields};
ghost use Rattle.ob_audit.specs.Reading.{IsTold, IsUnreadAt, ReadsRows, entries, given_of, links_for, stored_of};
ghost use Rattle.ob_codec.specs.RowForm.{HoldAll};
ghost use Rattle.ob_schema.specs.Fields.{is_kept};
ghost use Rattle.ob_schema.specs.Models.{HasModel, field_at, is_id_from, model_at};
ghost use Rattle.ob_schema.specs.Plain.{targets_of};

use crate::fault::ReadingFault;
use ob_base::{Cell, FieldNo, ModelNo, NoMemory, RecId, Sequence, Value};
use ob_codec::{RowFault, row_of};
use ob_io::{KeptRow, Link};
use ob_schema::{FieldInfo, Schema};
use ob_tables::{Edit, targets_of};
use std::alloc::Global;

/// Rows that were read.
#[derive(Drop)]
pub(crate) struct ReadRows {
    /// The edits that make them.
    pub(crate) edits: Sequence<Edit>,
    /// What they keep for computed fields.
    pub(crate) stored: Sequence<(Cell, Value)>,
}

/// Reads a row of a model that has this next id.
pub(crate) fn read_row(
    alloc: Global,
    schema: &Schema,
    model: ModelNo,
    next: u64,
    row: &KeptRow,
    rows: &mut ReadRows,
) -> Result<(), ReadingFault>
    requires { HasModel schema.now model }
    ensures read { OnOk result (ReadsRows schema.now model next (λ read. read ≡ row.now ∷ []) rows.old rows.new) }
    ensures fault { IfErr result (λ fault. IfSome (model_at schema.now model) (λ info. IsUnreadAt schema.now next info row.now model fault)) }
{
    let Some(values) = values_of(alloc, schema, model, next, row)? else {
        return Err(ReadingFault::Unreadable(id_cell(schema, model, row.id)));
    };
    let fields = schema.fields(model);
    let plain = plain_values(alloc, fields, values.as_slice())?;
    rows.edits.push(Edit::Make {
        model,
        id: row.id,
        values: plain,
    })?;
    add_stored(alloc, fields, model, row.id, values.as_slice(), rows)?;
    Ok(())
}

/// The values of the kept fields of a row; none where it can't be read.
fn values_of(
    alloc: Global,
    schema: &Schema,
    model: ModelNo,
    next: u64,
    row: &KeptRow,
) -> Result<Option<Sequence<Value>>, NoMemory>
    requires { HasModel schema.now model }
    ensures { IfOk result (λ told. IfSome (model_at schema.now model) (λ info. IsTold next info row.now told)) }
{
    if row.id.0 >= next {
        return Ok(None);
    }
    let values = match row_of(alloc, schema, model, row.body.as_slice()) {
        Ok(values) => values,
        Err(RowFault::Bad) => return Ok(None),
        Err(RowFault::NoMemory) => return Err(NoMemory),
    };
    let links = links_of(alloc, schema.fields(model), values.as_slice())?;
    if links.as_slice() == row.links.as_slice() {
        Ok(Some(values))
    } else {
        Ok(None)
    }
}

/// The cell of the field `id` of a row.
pub(crate) fn id_cell(schema: &Schema, model: ModelNo, id: RecId) -> Cell
    requires { HasModel schema.now model }
    ensures row { (result.model ≡ model) × (result.id ≡ id) }
    ensures field { IsSomeAnd (field_at schema.now model result.field) (λ info. is_id_from info.origin ≡ true) }
{
    schema.parts_fit_together();
    match schema.field(model, "id") {
        Some(field) => Cell { model, id, field },
        None => unreachable!(),
    }
}

/// The plain ones of the values of a row's kept fields.
fn plain_values(
    alloc: Global,
    fields: &[FieldInfo],
    values: &[Value],
) -> Result<Sequence<(FieldNo, Value)>, NoMemory>
    requires few { length fields.now ≤ max_fields }
    requires hold { HoldAll (filter is_kept fields.now) values.now }
    ensures { IfOk result (λ plain. plain ≡ filter_map given_of (entries fields.now values.now)) }
{
    let mut plain = Sequence::new(alloc);
    let mut left = values;
    for (place, field) in fields.iter().enumerate() {
        if field.is_kept() {
            let [value, rest @ ..] = left else {
                unreachable!();
            };
            if field.is_plain_kept() {
                plain.push((FieldNo(place as u16 + 1), value.try_clone(alloc)?))?;
            }
            left = rest;
        }
    }
    Ok(plain)
}

/// Adds the other ones.
fn add_stored(
    alloc: Global,
    fields: &[FieldInfo],
    model: ModelNo,
    id: RecId,
    values: &[Value],
    rows: &mut ReadRows,
) -> Result<(), NoMemory>
    requires few { length fields.now ≤ max_fields }
    requires hold { HoldAll (filter is_kept fields.now) values.now }
    ensures edits { rows.new.edits ≡ rows.old.edits }
    ensures stored { OnOk result (rows.new.stored ≡ rows.old.stored ++ filter_map (stored_of model id) (entries fields.now values.now)) }
{
    let mut left = values;
    for (place, field) in fields.iter().enumerate() {
        if field.is_kept() {
            let [value, rest @ ..] = left else {
                unreachable!();
            };
            if !field.is_plain_kept() {
                let field = FieldNo(place as u16 + 1);
                let cell = Cell { model, id, field };
                rows.stored.push((cell, value.try_clone(alloc)?))?;
            }
            left = rest;
        }
    }
    Ok(())
}

/// The links of a row with these values of its kept fields.
fn links_of(
    alloc: Global,
    fields: &[FieldInfo],
    values: &[Value],
) -> Result<Sequence<Link>, NoMemory>
    requires few { length fields.now ≤ max_fields }
    requires hold { HoldAll (filter is_kept fields.now) values.now }
    ensures { IfOk result (λ links. links ≡ flat_map links_for (entries fields.now values.now)) }
{
    let mut links = Sequence::new(alloc);
    let mut left = values;
    for (place, field) in fields.iter().enumerate() {
        if field.is_kept() {
            let [value, rest @ ..] = left else {
                unreachable!();
            };
            if field.is_plain_kept() {
                add_links(&mut links, FieldNo(place as u16 + 1), value)?;
            }
            left = rest;
        }
    }
    Ok(links)
}

/// Adds the links by a field.
fn add_links(links: &mut Sequence<Link>, field: FieldNo, value: &Value) -> Result<(), NoMemory>
    ensures { OnOk result (links.new ≡ links.old ++ map (λ id. record { field = field; target = id }) (targets_of value.now)) }
{
    for target in targets_of(value) {
        links.push(Link {
            field,
            target: *target,
        })?;
    }
    Ok(())
}
