//! Rows that are taken, each of which waits once to be asked what goes with it, and the cells that
//! are known to name any of them. Nothing here asks the engine.

ghost use Rattle.std.specs.Prelude.{◌≡◌, Contains, IfOk, true};
ghost use Rattle.ob_unlink.specs.DeletionSteps.{AddsCells, KeepsCount, TakesMore, cell_by};
ghost use Rattle.ob_rows.specs.Rights.{rows_named};

use ob_base::{Cell, ModelNo, NoMemory, RecId, RowKey};
use ob_rows::KeptRelation;
use std::collections::BTreeSet;

/// Takes the named rows.
pub(crate) fn take_named(
    model: ModelNo,
    ids: &[u64],
    rows: &mut BTreeSet<RowKey>,
    waiting: &mut Vec<RowKey>,
) -> Result<(), NoMemory>
    ensures rows { IfOk result (λ _. TakesMore rows.old rows.new waiting.old.items waiting.new.items (Contains (rows_named model ids.now))) }
    ensures count { IfOk result (λ _. KeepsCount rows.old rows.new waiting.old.items waiting.new.items) }
{
    for id in ids {
        let row = RowKey {
            model,
            id: RecId(*id),
        };
        take(rows, waiting, row)?;
    }
    Ok(())
}

/// Takes a row, and has it wait if it wasn't taken before.
fn take(rows: &mut BTreeSet<RowKey>, waiting: &mut Vec<RowKey>, row: RowKey) -> Result<(), NoMemory>
    ensures rows { IfOk result (λ _. TakesMore rows.old rows.new waiting.old.items waiting.new.items (λ other. other ≡ row)) }
    ensures count { IfOk result (λ _. KeepsCount rows.old rows.new waiting.old.items waiting.new.items) }
{
    if !rows.insert(row)? {
        return Ok(());
    }
    waiting.push(row)?;
    Ok(())
}

/// Adds the cells of a relation in some rows, and takes these where the relation cascades.
pub(crate) fn add_found(
    relation: KeptRelation,
    ids: &[RecId],
    rows: &mut BTreeSet<RowKey>,
    waiting: &mut Vec<RowKey>,
    cells: &mut BTreeSet<Cell>,
) -> Result<(), NoMemory>
    ensures rows { IfOk result (λ _. TakesMore rows.old rows.new waiting.old.items waiting.new.items
        (λ other. (relation.cascades ≡ true) × (other.model ≡ relation.model) × Contains ids.now other.id)) }
    ensures cells { IfOk result (λ _. AddsCells cells.old cells.new (λ cell. (cell ≡ cell_by relation cell.id) × Contains ids.now cell.id)) }
    ensures count { IfOk result (λ _. KeepsCount rows.old rows.new waiting.old.items waiting.new.items) }
{
    add_cells(relation, ids, cells)?;
    if !relation.cascades {
        return Ok(());
    }
    take_holders(relation.model, ids, rows, waiting)
}

/// Adds the cells of a relation in some rows.
fn add_cells(
    relation: KeptRelation,
    ids: &[RecId],
    cells: &mut BTreeSet<Cell>,
) -> Result<(), NoMemory>
    ensures { IfOk result (λ _. AddsCells cells.old cells.new (λ cell. (cell ≡ cell_by relation cell.id) × Contains ids.now cell.id)) }
{
    for id in ids {
        let cell = Cell {
            model: relation.model,
            id: *id,
            field: relation.field,
        };
        cells.insert(cell)?;
    }
    Ok(())
}

/// Takes rows of a model.
fn take_holders(
    model: ModelNo,
    ids: &[RecId],
    rows: &mut BTreeSet<RowKey>,
    waiting: &mut Vec<RowKey>,
) -> Result<(), NoMemory>
    ensures rows { IfOk result (λ _. TakesMore rows.old rows.new waiting.old.items waiting.new.items (λ other. (other.model ≡ model) × Contains ids.now other.id)) }
    ensures count { IfOk result (λ _. KeepsCount rows.old rows.new waiting.old.items waiting.new.items) }
{
    for id in ids {
        take(rows, waiting, RowKey { model, id: *id })?;
    }
    Ok(())
}
