//! Rows that are taken, each of which waits once to be asked what goes with it, and the cells that
//! are known to name any of them. Nothing here asks the engine.

ghost use Rattle.std.specs.Prelude.{◌≡◌, All, List, OnOk};
ghost use Rattle.ob_effect.specs.Deletion.{IsFitRow, TakesFit};
ghost use Rattle.ob_effect.specs.Relations.{IsRelation};
ghost use Rattle.ob_schema.specs.declared.info.ModelInfo.{ModelInfo};
ghost use Rattle.ob_tables.specs.Fitting.{IsFitId};

use crate::cells::row_of;
use crate::deletion::Deletion;
use crate::relations::KeptRelation;
use ob_base::{Cell, NoMemory, RecId, RowKey};
use ob_schema::OnDelete;

/// Takes a row, and has it wait if it wasn't taken before.
pub(crate) fn take(
    deletion: &mut Deletion,
    waiting: &mut Vec<RowKey>,
    row: RowKey,
) -> Result<(), NoMemory>
    ensures { OnOk result ((models : List ModelInfo) → IsFitRow models row → TakesFit models deletion.old deletion.new waiting.old.items waiting.new.items) }
{
    if !deletion.taken.insert(row)? {
        return Ok(());
    }
    deletion.rows.push(row)?;
    waiting.push(row)?;
    Ok(())
}

/// Adds the cells of a relation in some rows, and takes these where the relation cascades.
pub(crate) fn add_found(
    relation: KeptRelation,
    ids: &[RecId],
    deletion: &mut Deletion,
    waiting: &mut Vec<RowKey>,
) -> Result<(), NoMemory>
    requires { All IsFitId ids.now }
    ensures { OnOk result ((models : List ModelInfo) → IsRelation models relation → TakesFit models deletion.old deletion.new waiting.old.items waiting.new.items) }
{
    for id in ids {
        let cell = Cell {
            model: relation.model,
            id: *id,
            field: relation.field,
        };
        add_cell(relation, cell, deletion, waiting)?;
    }
    Ok(())
}

/// Adds a cell of a relation, and takes its row where the relation cascades.
fn add_cell(
    relation: KeptRelation,
    cell: Cell,
    deletion: &mut Deletion,
    waiting: &mut Vec<RowKey>,
) -> Result<(), NoMemory>
    requires of { (cell.model ≡ relation.model) × (cell.field ≡ relation.field) }
    requires id { IsFitId cell.id }
    ensures { OnOk result ((models : List ModelInfo) → IsRelation models relation → TakesFit models deletion.old deletion.new waiting.old.items waiting.new.items) }
{
    deletion.cells.push(cell)?;
    if matches!(relation.action, Some(OnDelete::Cascade)) {
        take(deletion, waiting, row_of(cell))?;
    }
    Ok(())
}
