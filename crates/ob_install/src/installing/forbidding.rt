//! What calls may not do, and a row that a module brings does: it is one of a managed model, gives
//! a field that calls never give, or changes a fixed field of a row before it. A further such rule
//! begins in `IsForbidden`.

ghost use Rattle.std.specs.Prelude.{◌≡◌, ◌≢◌, ◌↔◌, ◌<◌, ◌≤◌, ◌⊎◌, ℕ, IfOk, IfSome, IsSome, IsSomeAnd, IsTrue, None, Some, false, length, position, slice_get, true, ⊤};
ghost use Rattle.ob_base.specs.declared.id.Cell.{Cell as CellData};
ghost use Rattle.ob_install.specs.Install as spec;
ghost use Rattle.ob_install.specs.Install.{ChangesAt, Gives, GivesFor};
ghost use Rattle.ob_install.specs.InstallSteps.{AreCounted, Finds, FindsBy, FindsManaged, HasOwnInfo, IsOwner, IsWhole, course_of, makes};
ghost use Rattle.ob_orm.specs.NewRowSteps.{MayFit};
ghost use Rattle.ob_schema.specs.Models.{HasField, field_at, is_given_from};

use crate::installing::owners::owner;
use crate::installing::placing::{Placed, tables_of};
use ob_base::{Broken, BrokenKind, Cell, FieldNo, ModelNo, NoMemory, Value, value_eq};
use ob_orm::Maker;
use ob_rows::{id_cell, is_readonly};
use ob_schema::{Delegation, FieldInfo, Origin, PresetRow, Schema};
use ob_tables::Edit;

/// Something that is forbidden, if anything is.
pub(crate) fn forbidden(maker: &Maker<'_>, placed: &Placed<'_>) -> Result<Option<Broken>, NoMemory>
    requires { IsWhole maker.now.schema.now placed.now }
    ensures { IfOk result (Finds maker.entry.now.schema.now (course_of maker.entry.now.schema.now placed.entry.now)) }
{
    if let Some(broken) = managed_row(maker.schema, placed) {
        return Ok(Some(broken));
    }
    for number in 0..placed.rows.len() {
        if let Some(broken) = forbidden_in(maker, placed, number)? {
            return Ok(Some(broken));
        }
    }
    Ok(None)
}

/// A row of a managed model that isn't made for a group.
fn managed_row(schema: &Schema, placed: &Placed<'_>) -> Option<Broken>
    requires { IsWhole schema.now placed.now }
    ensures { FindsManaged schema.entry.now (course_of schema.entry.now placed.entry.now) (λ _. ⊤) result }
{
    for edit in placed.making.edits.as_slice() {
        if let Some(broken) = managed_by(schema, placed, edit) {
            return Some(broken);
        }
    }
    None
}

/// The same of the row that one edit makes.
fn managed_by(schema: &Schema, placed: &Placed<'_>, edit: &Edit) -> Option<Broken>
    requires whole { IsWhole schema.now placed.now }
    requires fit { MayFit schema.now edit.now }
    ensures { FindsManaged schema.entry.now (course_of schema.entry.now placed.entry.now) (λ cell. makes cell edit.now ≡ true) result }
{
    match edit {
        Edit::Make { model, id, .. } if schema.model_info(*model).managed => {
            managed(placed, id_cell(schema, *model, *id))
        }
        _ => None,
    }
}

/// What is managed at a cell of a row that is made, unless that is made for a group.
fn managed(placed: &Placed<'_>, cell: Cell) -> Option<Broken>
    requires counted { AreCounted placed.now }
    requires all { length placed.now.ids.items ≡ length placed.now.rows.now }
    ensures is { IfSome result (λ b. b ≡ record { kind = BrokenKind.Managed; cell = cell }) }
    ensures owned { IsSome result → (n : ℕ) × IsOwner placed.entry.now cell n
        × IsSomeAnd (slice_get placed.entry.now.rows.now n) (λ row. spec.is_of_group row ≡ false) }
    ensures none { result ≡ None → (n : ℕ) → IsOwner placed.entry.now cell n
        → IsSomeAnd (slice_get placed.entry.now.rows.now n) (λ row. spec.is_of_group row ≡ true) }
{
    match owner(placed, cell) {
        Some(number) if !is_of_group(&placed.rows[number]) => Some(Broken {
            kind: BrokenKind::Managed,
            cell,
        }),
        _ => None,
    }
}

/// Whether a row is made for a group.
fn is_of_group(row: &PresetRow) -> bool
    ensures { result ≡ spec.is_of_group row.now }
{
    row.place.as_str().as_bytes().starts_with(b"group.")
}

/// What is forbidden of the values of the row of a number.
fn forbidden_in(
    maker: &Maker<'_>,
    placed: &Placed<'_>,
    number: usize,
) -> Result<Option<Broken>, NoMemory>
    requires whole { IsWhole maker.now.schema.now placed.now }
    requires within { number < length placed.now.rows.now }
    ensures { IfOk result (FindsBy maker.entry.now.schema.now (course_of maker.entry.now.schema.now placed.entry.now)
        (Gives maker.entry.now.schema.now (course_of maker.entry.now.schema.now placed.entry.now) number) number) }
{
    let row = &placed.rows[number];
    for one in row.values.as_slice() {
        if let Some(broken) = forbidden_value(maker, placed, number, row.model, one.0)? {
            return Ok(Some(broken));
        }
    }
    Ok(None)
}

/// What is forbidden of the value that it gives a field of its model.
fn forbidden_value(
    maker: &Maker<'_>,
    placed: &Placed<'_>,
    number: usize,
    model: ModelNo,
    field: FieldNo,
) -> Result<Option<Broken>, NoMemory>
    requires whole { IsWhole maker.now.schema.now placed.now }
    requires within { number < length placed.now.rows.now }
    requires field { HasField maker.now.schema.now model field }
    ensures { IfOk result (FindsBy maker.entry.now.schema.now (course_of maker.entry.now.schema.now placed.entry.now)
        (GivesFor maker.entry.now.schema.now (course_of maker.entry.now.schema.now placed.entry.now) number model field) number) }
{
    let info = own_info(maker.schema, model, field);
    if !info.fixed && !is_readonly(maker.schema, info) {
        return Ok(None);
    }
    match cell_given(maker, placed, number, model, field)? {
        Some(cell) => forbidden_at(maker, placed, number, info, cell),
        None => Ok(None),
    }
}

/// The field for which a value stands: of a delegated one the parent's.
fn own_info<'s>(schema: &'s Schema, model: ModelNo, field: FieldNo) -> &'s FieldInfo
    requires { HasField schema.now model field }
    ensures { IsSomeAnd (field_at schema.now model field) (λ own. HasOwnInfo schema.now model field own.origin result.now) }
{
    // The law of registries, by which the parent has the field.
    schema.parts_fit_together();
    let info = schema.info(model, field);
    match &info.origin {
        Origin::Delegated(at) => schema.info(at.model, at.field),
        _ => info,
    }
}

/// The cell for which the value of a field of the row of a number stands.
fn cell_given(
    maker: &Maker<'_>,
    placed: &Placed<'_>,
    number: usize,
    model: ModelNo,
    field: FieldNo,
) -> Result<Option<Cell>, NoMemory>
    requires whole { IsWhole maker.now.schema.now placed.now }
    requires within { number < length placed.now.rows.now }
    requires field { HasField maker.now.schema.now model field }
    ensures { IfOk result (λ found. (cell : CellData) → (found ≡ Some cell)
        ↔ GivesFor maker.entry.now.schema.now (course_of maker.entry.now.schema.now placed.entry.now) number model field cell) }
{
    // The law of registries, by which a link is a plain field.
    maker.schema.parts_fit_together();
    let id = placed.ids[number];
    match &maker.schema.info(model, field).origin {
        Origin::Delegated(at) => {
            let link = Cell {
                model,
                id,
                field: at.link,
            };
            let target = tables_of(maker, placed, number + 1)?.plain(link)?;
            Ok(cell_behind(target, *at))
        }
        _ => Ok(Some(Cell { model, id, field })),
    }
}

/// The parent's cell in the row that a link names.
fn cell_behind(target: Option<Value>, at: Delegation) -> Option<Cell>
    ensures { (cell : CellData) → (result ≡ Some cell) ↔ ((target ≡ Some (Value.Ref cell.id)) × (cell.model ≡ at.model) × (cell.field ≡ at.field)) }
{
    match target {
        Some(Value::Ref(id)) => Some(Cell {
            model: at.model,
            id,
            field: at.field,
        }),
        _ => None,
    }
}

/// What is forbidden of a value that the row of a number gives for a cell of this field.
fn forbidden_at(
    maker: &Maker<'_>,
    placed: &Placed<'_>,
    number: usize,
    info: &FieldInfo,
    cell: Cell,
) -> Result<Option<Broken>, NoMemory>
    requires whole { IsWhole maker.now.schema.now placed.now }
    requires within { number < length placed.now.rows.now }
    requires field { field_at maker.now.schema.now cell.model cell.field ≡ Some info.now }
    ensures { IfOk result (FindsBy maker.entry.now.schema.now (course_of maker.entry.now.schema.now placed.entry.now)
        (λ other. other ≡ cell) number) }
{
    if info.fixed && changes(maker, placed, number, info, cell)? {
        return Ok(Some(Broken {
            kind: BrokenKind::Fixed,
            cell,
        }));
    }
    if is_readonly(maker.schema, info) {
        return Ok(managed(placed, cell));
    }
    Ok(None)
}

/// Whether a cell of a row that is there before the row of a number has another value behind it.
fn changes(
    maker: &Maker<'_>,
    placed: &Placed<'_>,
    number: usize,
    info: &FieldInfo,
    cell: Cell,
) -> Result<bool, NoMemory>
    requires whole { IsWhole maker.now.schema.now placed.now }
    requires within { number < length placed.now.rows.now }
    requires field { field_at maker.now.schema.now cell.model cell.field ≡ Some info.now }
    ensures owned { IfOk result (λ changed. changed ≡ true → (n : ℕ) × IsOwner placed.entry.now cell n) }
    ensures told { IfOk result (λ changed. IsTrue changed
        ↔ ChangesAt maker.entry.now.schema.now (course_of maker.entry.now.schema.now placed.entry.now) number cell) }
{
    if !is_given(info) || !is_made_before(placed, number, cell) {
        return Ok(false);
    }
    let before = tables_of(maker, placed, number)?.plain(cell)?;
    let behind = tables_of(maker, placed, number + 1)?.plain(cell)?;
    Ok(differ(before, behind))
}

/// Whether the row itself has the values of a field.
fn is_given(info: &FieldInfo) -> bool
    ensures { result ≡ is_given_from info.now.origin }
{
    matches!(info.origin, Origin::Id | Origin::Plain)
}

/// Whether the row of a cell is made for a row before the one of a number.
fn is_made_before(placed: &Placed<'_>, number: usize, cell: Cell) -> bool
    requires { AreCounted placed.now }
    ensures before { result ≡ true → (n : ℕ) × IsOwner placed.entry.now cell n × (n < number) }
    ensures unmade { result ≡ false → (position (makes cell) placed.entry.now.making.edits.items ≡ None)
        ⊎ ((n : ℕ) × IsOwner placed.entry.now cell n × (number ≤ n)) }
{
    match owner(placed, cell) {
        Some(first) => first < number,
        None => false,
    }
}

/// Whether there is a value, and the other one isn't it.
fn differ(before: Option<Value>, behind: Option<Value>) -> bool
    ensures { IsTrue result ↔ IsSomeAnd before (λ v. behind ≢ Some v) }
{
    match (before, behind) {
        (Some(before), Some(behind)) => !value_eq(&before, &behind),
        (before, _) => before.is_some(),
    }
}
