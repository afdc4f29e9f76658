//! Sets of fields that no two rows may share, in rows of which a change edits one of them: the
//! first field of one that is shared is told. Whether another row shares one the tables tell.

ghost use Rattle.std.specs.Prelude.{◌↔◌, Contains, IfOk, IsSomeAnd, IsTrue};
ghost use Rattle.ob_change.specs.Changing.{AreEdited, models_of, sides_of};
ghost use Rattle.ob_change.specs.Testing.{SharesAt, SharesFrom, TellsOne};
ghost use Rattle.ob_schema.specs.Models.{model_at};
ghost use Rattle.ob_sound.specs.EditsBreak.{SharesEdited};

use crate::change::Change;
use ob_base::{Cell, FieldNo, NoMemory};
use ob_tables::Tables;

/// The first cell of a set that a row shares with another one, where the change edits one of its
/// cells.
pub(crate) fn shared_edited(
    change: Change<'_, '_>,
    cells: &[Cell],
) -> Result<Option<Cell>, NoMemory>
    requires { AreEdited change cells.now }
    ensures { IfOk result (TellsOne (SharesEdited (models_of change.entry) (sides_of change.entry))) }
{
    for cell in cells {
        if let Some(field) = shared_at(change, *cell)? {
            return Ok(Some(Cell { field, ..*cell }));
        }
    }
    Ok(None)
}

/// The first field of a set that has a cell's field and that the cell's row shares.
fn shared_at(change: Change<'_, '_>, cell: Cell) -> Result<Option<FieldNo>, NoMemory>
    ensures { IfOk result
        (TellsOne (SharesAt (models_of change.entry) (sides_of change.entry).behind cell)) }
{
    let Some(info) = change.schema.find_model(cell.model) else {
        return Ok(None);
    };
    for set in info.unique.as_slice() {
        if let Some(field) = shared_by(change.behind, cell, set.as_slice())? {
            return Ok(Some(field));
        }
    }
    Ok(None)
}

/// The first field of a set, where it has a cell's field and another row shares it with the cell's.
fn shared_by(tables: &Tables<'_>, cell: Cell, set: &[FieldNo]) -> Result<Option<FieldNo>, NoMemory>
    requires { IsSomeAnd (model_at tables.now.models cell.model)
        (λ info. Contains info.unique set.now) }
    ensures { IfOk result
        (TellsOne (SharesFrom tables.now.models tables.now.tables cell set.now)) }
{
    if !has_field(set, cell.field) {
        return Ok(None);
    }
    if !tables.shares_set(cell.model, set, cell.id)? {
        return Ok(None);
    }
    Ok(set.first().copied())
}

/// Whether a set has a field.
fn has_field(set: &[FieldNo], field: FieldNo) -> bool
    ensures { IsTrue result ↔ Contains set.now field }
{
    set.contains(&field)
}
