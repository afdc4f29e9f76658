//! In which way a cell is broken by itself behind a change: a value that is wanting, a reference
//! to a row that isn't there, an id or a list past its limit. A further limit of a cell is tested
//! here.

ghost use Rattle.std.specs.Prelude.{◌≡◌, ◌<◌, ◌⊎◌, ◌↔◌, IfOk, IsSome, IsSomeAnd, IsTrue, MatchOption, None, Some, length, true};
ghost use Rattle.ob_base.specs.Limits.{max_id, max_targets};
ghost use Rattle.ob_base.specs.declared.id.RecId.{RecId};
ghost use Rattle.ob_base.specs.declared.refusal.BrokenKind.TheVariants as kind;
ghost use Rattle.ob_base.specs.declared.value.Value.TheVariants as values;
ghost use Rattle.ob_change.specs.Changing.{models_of, sides_of};
ghost use Rattle.ob_change.specs.Testing.{TellsKind};
ghost use Rattle.ob_definition.specs.declared.field_type.FieldType.TheVariants as types;
ghost use Rattle.ob_schema.specs.Fields.{is_plain_kept};
ghost use Rattle.ob_schema.specs.Models.{field_at};
ghost use Rattle.ob_schema.specs.Plain.{names, targets_of};
ghost use Rattle.ob_schema.specs.Tables.{row_at};
ghost use Rattle.ob_schema.specs.declared.info.Origin.TheVariants as origin;

use crate::change::Change;
use ob_base::limits::{MAX_ID, MAX_TARGETS};
use ob_base::{BrokenKind, Cell, NoMemory, RecId, Value};
use ob_schema::{FieldInfo, FieldType, Origin};
use ob_tables::{Tables, targets_of};

/// In which way a cell is broken by itself behind a change, if it is.
pub(crate) fn broken_kind(
    change: Change<'_, '_>,
    cell: Cell,
) -> Result<Option<BrokenKind>, NoMemory>
    ensures { IfOk result (TellsKind (models_of change.entry) (sides_of change.entry).behind cell) }
{
    let Some(field) = change.schema.find_field(cell.model, cell.field) else {
        return Ok(None);
    };
    if !change.behind.has_row(cell.model, cell.id) {
        return Ok(None);
    }
    match &field.origin {
        Origin::Id => Ok(broken_id(cell.id)),
        Origin::Plain => broken_value(change.behind, cell, field),
        _ => Ok(None),
    }
}

/// In which way an id is broken: it is none that a row may have.
fn broken_id(id: RecId) -> Option<BrokenKind>
    ensures { MatchOption result ((id.0 ≡ 0) ⊎ (max_id < id.0) → ⊥)
        (λ told. (told ≡ kind.Limit) × ((id.0 ≡ 0) ⊎ (max_id < id.0))) }
{
    if id.0 == 0 || id.0 > MAX_ID {
        Some(BrokenKind::Limit)
    } else {
        None
    }
}

/// In which way the value of a plain cell is broken.
fn broken_value(
    tables: &Tables<'_>,
    cell: Cell,
    field: &FieldInfo,
) -> Result<Option<BrokenKind>, NoMemory>
    requires field { field_at tables.now.models cell.model cell.field ≡ Some field.now }
    requires row { IsSome (row_at tables.now.tables cell.model cell.id) }
    requires plain { field.now.origin ≡ origin.Plain }
    ensures { IfOk result (TellsKind tables.now.models tables.now.tables cell) }
{
    // The list of a one2many isn't read for it.
    if !is_tested(field) {
        return Ok(None);
    }
    let Some(value) = tables.plain(cell)? else {
        return Ok(None);
    };
    if is_too_full(field, &value) {
        return Ok(Some(BrokenKind::Limit));
    }
    if !field.is_plain_kept() {
        return Ok(None);
    }
    if is_wanting(field, &value) {
        return Ok(Some(BrokenKind::Required));
    }
    if dangles(tables, field, &value) {
        return Ok(Some(BrokenKind::MissingRef));
    }
    Ok(None)
}

/// Whether values of a plain field can break something: rows keep them, or they have a limit.
fn is_tested(field: &FieldInfo) -> bool
    ensures { IsTrue result
        ↔ ((is_plain_kept field.now ≡ true) ⊎ (field.now.field_type ≡ types.Many2many)) }
{
    field.is_plain_kept() || matches!(field.field_type, FieldType::Many2many)
}

/// Whether a field must have a value, and this is none.
fn is_wanting(field: &FieldInfo, value: &Value) -> bool
    ensures { IsTrue result ↔ ((field.now.required ≡ true) × (value.now ≡ values.Nil)) }
{
    field.required && matches!(value, Value::Nil)
}

/// Whether a value of a field names a row that isn't there.
fn dangles(tables: &Tables<'_>, field: &FieldInfo, value: &Value) -> bool
    ensures { IsTrue result ↔ ((id : RecId) × (names id value.now ≡ true)
        × IsSomeAnd field.now.relation (λ target. row_at tables.now.tables target id ≡ None)) }
{
    let Some(target) = field.relation else {
        return false;
    };
    for id in targets_of(value) {
        if !tables.has_row(target, *id) {
            return true;
        }
    }
    false
}

/// Whether a value names more rows than a field may.
fn is_too_full(field: &FieldInfo, value: &Value) -> bool
    ensures { IsTrue result
        ↔ ((field.now.field_type ≡ types.Many2many) × (max_targets < length (targets_of value.now))) }
{
    matches!(field.field_type, FieldType::Many2many) && targets_of(value).len() > MAX_TARGETS
}
