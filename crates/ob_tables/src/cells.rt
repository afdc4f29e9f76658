//! What single cells break by what rows keep: a missing value, a reference to a row that
//! isn't there, an id or a list past its limit. A further limit of a cell is looked for
//! here.

ghost use Rattle.std.specs.Prelude.{◌≡◌, ◌<◌, ◌+◌, ◌⊎◌, ◌↔◌, ℕ, IsSome, IsSomeAnd, IfOk, OnOk, IsTrue, Some, None, true, count_by, length, nat_eq, unwrap_or};
ghost use Rattle.std.specs.BTreeMap as tree;
ghost use Rattle.std.specs.Ordering.{nat_cmp};
ghost use Rattle.ob_base.specs.Limits.{max_id, max_targets};
ghost use Rattle.ob_base.specs.declared.id.RecId.{RecId};
ghost use Rattle.ob_base.specs.declared.value.Value.TheVariants as values;
ghost use Rattle.ob_definition.specs.declared.field_type.FieldType.TheVariants as types;
ghost use Rattle.ob_schema.specs.Fields.{is_plain_kept};
ghost use Rattle.ob_schema.specs.Models.{HasModel, field_at};
ghost use Rattle.ob_tables.specs.Finding.{BreaksIn, Counts, Is, IsIn, IsOf, is_mirror, is_of_plain};
ghost use Rattle.ob_schema.specs.Plain.{names, naming, plain_at};
ghost use Rattle.ob_tables.specs.Finding.{Finds};
ghost use Rattle.ob_schema.specs.Tables.{ids_in, row_at};

use crate::findings::{Findings, add_if};
use crate::row::targets_of;
use crate::tables::Tables;
use ob_base::limits::{MAX_ID, MAX_TARGETS};
use ob_base::{BrokenKind, Cell, FieldNo, ModelNo, NoMemory, RecId, Value};
use ob_schema::{FieldInfo, FieldType, Origin};
use std::alloc::Global;
use std::collections::BTreeMap;

/// How many rows name a row, by its id.
type Counts = BTreeMap<u64, u64>;

/// Finds what is broken in the cells of a model's rows.
pub(crate) fn find_in_cells(
    tables: &Tables<'_>,
    model: ModelNo,
    ids: &[RecId],
    findings: &mut Findings,
) -> Result<(), NoMemory>
    requires model { HasModel tables.now.models model }
    requires ids { ids.now ≡ ids_in tables.now.tables model }
    ensures { OnOk result (Finds (BreaksIn tables.now.models tables.now.tables is_of_plain (IsOf model)) findings.old findings.new) }
{
    let info = tables.schema.model_info(model);
    for (place, field) in info.fields.as_slice().iter().enumerate() {
        let number = FieldNo(place as u16 + 1);
        find_in_column(tables, model, number, field, ids, findings)?;
    }
    Ok(())
}

/// Finds what is broken in the cells of a field.
fn find_in_column(
    tables: &Tables<'_>,
    model: ModelNo,
    number: FieldNo,
    field: &FieldInfo,
    ids: &[RecId],
    findings: &mut Findings,
) -> Result<(), NoMemory>
    requires field { field_at tables.now.models model number ≡ Some field.now }
    requires ids { ids.now ≡ ids_in tables.now.tables model }
    ensures { OnOk result (Finds (BreaksIn tables.now.models tables.now.tables is_of_plain (IsIn model number)) findings.old findings.new) }
{
    let counts = holder_counts(tables, model, number, field)?;
    for id in ids {
        let cell = Cell {
            model,
            id: *id,
            field: number,
        };
        let holders = counts.get(&id.0).copied().unwrap_or(0);
        find_in_cell(tables, cell, field, holders, findings);
    }
    Ok(())
}

/// Finds what is broken in a cell. Of a mirrored field it takes how many rows name the row.
fn find_in_cell(
    tables: &Tables<'_>,
    cell: Cell,
    field: &FieldInfo,
    holders: u64,
    findings: &mut Findings,
)
    requires field { field_at tables.now.models cell.model cell.field ≡ Some field.now }
    requires row { IsSome (row_at tables.now.tables cell.model cell.id) }
    requires holders { is_mirror field.now ≡ true → Counts tables.now.models tables.now.tables holders cell }
    ensures { Finds (BreaksIn tables.now.models tables.now.tables is_of_plain (Is cell)) findings.old findings.new }
{
    tables.fit_together();
    match &field.origin {
        Origin::Id => add_if(findings, is_past_ids(cell.id), BrokenKind::Limit, cell),
        Origin::Plain => match field.inverse.or(field.mirror) {
            None => find_in_kept(tables, cell, field, findings),
            Some(_) => {
                let is_full = is_too_full(field, holders);
                add_if(findings, is_full, BrokenKind::Limit, cell);
            }
        },
        _ => {}
    }
}

/// Finds what is broken in a value that a row keeps.
fn find_in_kept(tables: &Tables<'_>, cell: Cell, field: &FieldInfo, findings: &mut Findings)
    requires field { field_at tables.now.models cell.model cell.field ≡ Some field.now }
    requires row { IsSome (row_at tables.now.tables cell.model cell.id) }
    requires kept { is_plain_kept field.now ≡ true }
    ensures { Finds (BreaksIn tables.now.models tables.now.tables is_of_plain (Is cell)) findings.old findings.new }
{
    tables.fit_together();
    match tables.kept(cell) {
        Some(value) => find_in_value(tables, cell, field, value, findings),
        None => unreachable!(),
    }
}

fn find_in_value(
    tables: &Tables<'_>,
    cell: Cell,
    field: &FieldInfo,
    value: &Value,
    findings: &mut Findings,
)
    requires field { field_at tables.now.models cell.model cell.field ≡ Some field.now }
    requires row { IsSome (row_at tables.now.tables cell.model cell.id) }
    requires kept { is_plain_kept field.now ≡ true }
    requires value { plain_at tables.now.tables tables.now.models cell ≡ Some value.now }
    ensures { Finds (BreaksIn tables.now.models tables.now.tables is_of_plain (Is cell)) findings.old findings.new }
{
    let is_wanting = is_wanting(field, value);
    let dangles = dangles(tables, field, value);
    let is_full = is_too_full(field, targets_of(value).len() as u64);
    add_if(findings, is_wanting, BrokenKind::Required, cell);
    add_if(findings, dangles, BrokenKind::MissingRef, cell);
    add_if(findings, is_full, BrokenKind::Limit, cell);
}

/// Whether an id is none that a row may have.
fn is_past_ids(id: RecId) -> bool
    ensures { IsTrue result ↔ ((id.0 ≡ 0) ⊎ (max_id < id.0)) }
{
    id.0 == 0 || id.0 > MAX_ID
}

/// Whether a field must have a value, and this is none.
fn is_wanting(field: &FieldInfo, value: &Value) -> bool
    ensures { IsTrue result ↔ ((field.now.required ≡ true) × (value.now ≡ values.Nil)) }
{
    field.required && matches!(value, Value::Nil)
}

/// Whether a value of a field names a row that isn't there.
fn dangles(tables: &Tables<'_>, field: &FieldInfo, value: &Value) -> bool
    ensures { IsTrue result ↔ ((id : RecId) × (names id value.now ≡ true)
        × IsSomeAnd field.now.relation (λ target. row_at tables.now.tables target id ≡ None)) }
{
    let Some(target) = field.relation else {
        return false;
    };
    for id in targets_of(value) {
        if !tables.has_row(target, *id) {
            return true;
        }
    }
    false
}

/// Whether so many targets are too many for a field.
fn is_too_full(field: &FieldInfo, count: u64) -> bool
    ensures { IsTrue result ↔ ((field.now.field_type ≡ types.Many2many) × (max_targets < count)) }
{
    matches!(field.field_type, FieldType::Many2many) && count > MAX_TARGETS as u64
}

/// How many rows name each row by the field that a field mirrors; of no mirror nothing.
fn holder_counts(
    tables: &Tables<'_>,
    model: ModelNo,
    number: FieldNo,
    field: &FieldInfo,
) -> Result<Counts, NoMemory>
    requires { field_at tables.now.models model number ≡ Some field.now }
    ensures { IfOk result (λ counts. is_mirror field.now ≡ true → (id : RecId) → IsSome (row_at tables.now.tables model id)
        → Counts tables.now.models tables.now.tables (unwrap_or (tree.get nat_cmp counts id.0) 0) (record { model = model; id = id; field = number })) }
{
    tables.fit_together();
    match (&field.origin, field.mirror, field.relation) {
        (Origin::Plain, Some(mirror), Some(target)) => count_holders(tables, target, mirror),
        _ => Ok(BTreeMap::new(tables.alloc)),
    }
}

/// How many rows of a model name each row by a list.
fn count_holders(tables: &Tables<'_>, model: ModelNo, field: FieldNo) -> Result<Counts, NoMemory>
    requires { HasModel tables.now.models model }
    ensures { IfOk result (λ counts. (id : RecId) → unwrap_or (tree.get nat_cmp counts id.0) 0 ≡ length (naming tables.now.tables model field id)) }
{
    tables.fit_together();
    let mut counts = BTreeMap::new(tables.alloc);
    for (_, row) in tables.rows_of(model) {
        if let Some(value) = row.get(&field.0) {
            count_targets(&mut counts, targets_of(value))?;
        }
    }
    Ok(counts)
}

/// Counts one more for each of these rows, as often as it is there.
fn count_targets(counts: &mut Counts, targets: &[RecId]) -> Result<(), NoMemory>
    ensures { OnOk result ((id : RecId) → unwrap_or (tree.get nat_cmp counts.new id.0) 0
        ≡ unwrap_or (tree.get nat_cmp counts.old id.0) 0 + count_by (λ other. nat_eq other.0 id.0) targets.now) }
{
    for target in targets {
        let count = counts.get(&target.0).copied().unwrap_or(0);
        // No memory holds more rows than can be counted.
        let more = count.checked_add(1).ok_or(NoMemory)?;
        counts.insert(target.0, more)?;
    }
    Ok(())
}
