//! What keeps rows from going: they last (`lasts`), they are locked, or a row that stays
//! names one of them by a many2one with `restrict`. A further reason is told here.

ghost use Rattle.std.specs.Prelude.{◌≡◌, ◌≤◌, ◌↔◌, All, Any, Contains, IfErr, IsSome, IsTrue, OnOk};
ghost use Rattle.ob_base.specs.declared.id.Cell.{Cell};
ghost use Rattle.ob_cache.specs.Calls.{Refuses};
ghost use Rattle.ob_cache.specs.Standing.{RestsAt, Stays};
ghost use Rattle.ob_cache.specs.declared.stages.Phase.TheVariants as phase;
ghost use Rattle.ob_io.specs.Cause.{Rose};
ghost use Rattle.ob_rows.specs.Settling.{BreaksField};
ghost use Rattle.ob_unlink.specs.Deletion.{DoesAt};
ghost use Rattle.ob_unlink.specs.DeletionSteps.{BarsRow, IsRestricting, MayGo};
ghost use Rattle.ob_rows.specs.RowSets.{has_key};
ghost use Rattle.ob_rows.specs.Lasting.{Lasts};
ghost use Rattle.ob_rows.specs.Locks.{IsLocked};
ghost use Rattle.ob_definition.specs.declared.field_type.OnDelete.TheVariants as ondelete;
ghost use Rattle.ob_schema.specs.Models.{HasField, HasModel};
ghost use Rattle.ob_schema.specs.Tables.{Tables, row_at};

use crate::unlinking::leaving::row_of;
use ob_base::{Broken, BrokenKind, Cell, Refusal, RowKey};
use ob_cache::Engine;
use ob_io::Keeper;
use ob_rows::{id_cell, is_locked, lasts, told_field};
use ob_schema::{FieldInfo, FieldType, OnDelete, Schema};
use std::collections::BTreeSet;

/// Tests that rows may go, whatever names them.
pub(crate) fn test_rows<K: Keeper>(
    engine: &mut Engine<'_, K>,
    rows: &[RowKey],
) -> Result<(), Refusal>
    requires models { All (λ row. HasModel engine.old.held.models row.model) rows.now }
    requires rest { engine.old.held.phase ≡ phase.Settled }
    ensures ok { OnOk result ((tables : Tables) → RestsAt (K.kept engine.old.keeper.now) engine.old.held tables
        → All (λ row. IsSome (row_at tables row.model row.id)) rows.now → All (MayGo engine.old.held.models tables) rows.now) }
    ensures refused { IfErr result (λ why. (tables : Tables) → RestsAt (K.kept engine.old.keeper.now) engine.old.held tables
        → All (λ row. IsSome (row_at tables row.model row.id)) rows.now
        → Refuses (Rose (K.faults engine.old.keeper.now) (K.faults engine.new.keeper.now)) (λ cause. Any (λ row. BarsRow engine.old.held.models tables row cause) rows.now) why) }
    ensures causes { IfErr result (Refuses (Rose (K.faults engine.old.keeper.now) (K.faults engine.new.keeper.now)) (BreaksField engine.old.held.models)) }
    ensures same { Stays (K.kept engine.old.keeper.now) engine.old.held (K.kept engine.new.keeper.now) engine.new.held }
    ensures count { K.faults engine.old.keeper.now ≤ K.faults engine.new.keeper.now }
    ensures lender { engine.new.keeper.ghost_name ≡ engine.old.keeper.ghost_name }
{
    for row in rows {
        test_row(engine, *row)?;
    }
    Ok(())
}

/// Tests that a row may go, whatever names it.
fn test_row<K: Keeper>(engine: &mut Engine<'_, K>, row: RowKey) -> Result<(), Refusal>
    requires model { HasModel engine.old.held.models row.model }
    requires rest { engine.old.held.phase ≡ phase.Settled }
    ensures ok { OnOk result ((tables : Tables) → RestsAt (K.kept engine.old.keeper.now) engine.old.held tables
        → IsSome (row_at tables row.model row.id) → MayGo engine.old.held.models tables row) }
    ensures refused { IfErr result (λ why. (tables : Tables) → RestsAt (K.kept engine.old.keeper.now) engine.old.held tables
        → IsSome (row_at tables row.model row.id)
        → Refuses (Rose (K.faults engine.old.keeper.now) (K.faults engine.new.keeper.now)) (BarsRow engine.old.held.models tables row) why) }
    ensures causes { IfErr result (Refuses (Rose (K.faults engine.old.keeper.now) (K.faults engine.new.keeper.now)) (BreaksField engine.old.held.models)) }
    ensures same { Stays (K.kept engine.old.keeper.now) engine.old.held (K.kept engine.new.keeper.now) engine.new.held }
    ensures count { K.faults engine.old.keeper.now ≤ K.faults engine.new.keeper.now }
    ensures lender { engine.new.keeper.ghost_name ≡ engine.old.keeper.ghost_name }
{
    let schema = engine.schema();
    if lasts(schema, row) {
        return Err(lasting_row(schema, row));
    }
    if is_locked(engine, row)? {
        return Err(locked_row(schema, row));
    }
    Ok(())
}

/// The refusal of a row that no call deletes.
fn lasting_row(schema: &Schema, row: RowKey) -> Refusal
    requires model { HasModel schema.now row.model }
    requires lasts { Lasts schema.now row }
    ensures bars { (tables : Tables) → BarsRow schema.now tables row result }
    ensures field { BreaksField schema.now result }
{
    Refusal::Constraint(Broken {
        kind: BrokenKind::Managed,
        cell: id_cell(schema, row.model, row.id),
    })
}

/// The refusal of a locked row.
fn locked_row(schema: &Schema, row: RowKey) -> Refusal
    requires model { HasModel schema.now row.model }
    ensures bars { (tables : Tables) → IsLocked schema.now tables row → BarsRow schema.now tables row result }
    ensures field { BreaksField schema.now result }
{
    Refusal::Constraint(Broken {
        kind: BrokenKind::Locked,
        cell: Cell {
            model: row.model,
            id: row.id,
            field: told_field(schema, row.model),
        },
    })
}

/// Tests that of these cells, which name rows that go, none of a row that stays is one of a
/// many2one with `restrict`.
pub(crate) fn test_cells(
    schema: &Schema,
    cells: &[Cell],
    rows: &BTreeSet<RowKey>,
) -> Result<(), Refusal>
    requires fields { All (λ cell. HasField schema.now cell.model cell.field) cells.now }
    ensures ok { OnOk result (All (λ cell. IsRestricting schema.now (has_key rows.now) cell → ⊥) cells.now) }
    ensures refused { IfErr result (λ why. (cell : Cell) × Contains cells.now cell × IsRestricting schema.now (has_key rows.now) cell
        × (why ≡ Refusal.Constraint (record { kind = BrokenKind.Restrict; cell = cell }))) }
{
    for cell in cells {
        if is_restricting(schema, *cell, rows) {
            return Err(Refusal::Constraint(Broken {
                kind: BrokenKind::Restrict,
                cell: *cell,
            }));
        }
    }
    Ok(())
}

/// Whether a cell is one of a row that stays, of a many2one with `restrict`.
fn is_restricting(schema: &Schema, cell: Cell, rows: &BTreeSet<RowKey>) -> bool
    requires field { HasField schema.now cell.model cell.field }
    ensures { IsTrue result ↔ IsRestricting schema.now (has_key rows.now) cell }
{
    restricts(schema.info(cell.model, cell.field)) && !rows.contains(&row_of(cell))
}

/// Whether a field is a many2one with `restrict`.
fn restricts(field: &FieldInfo) -> bool
    ensures { IsTrue result ↔ DoesAt ondelete.Restrict field.now }
{
    matches!(field.field_type, FieldType::Many2one) && matches!(field.ondelete, OnDelete::Restrict)
}
