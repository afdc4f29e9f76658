//! All tests of what a change edits, the cheap ones first. The first that fails tells what is
//! broken: of cells the first in their order.

ghost use Rattle.std.specs.Prelude.{All, IfOk, IfSome};
ghost use Rattle.ob_change.specs.Changing.{AreEdited, TellsBroken, models_of, sides_of};
ghost use Rattle.ob_change.specs.Testing.{BreaksNone};
ghost use Rattle.ob_schema.specs.Models.{HasField};
ghost use Rattle.ob_sound.specs.EditsBreak.{EditsPass};

use crate::cells::broken_kind;
use crate::change::Change;
use crate::gone::naming_gone;
use crate::sets::shared_edited;
use crate::trees::broken_tree;
use ob_base::{Broken, BrokenKind, Cell, NoMemory};
use ob_sound::broken_cells_found;

/// Something that is broken behind a change; none where all tests of what it edits pass.
pub fn broken_edit(change: Change<'_, '_>, cells: &[Cell]) -> Result<Option<Broken>, NoMemory>
    requires { AreEdited change cells.now }
    ensures told { IfOk result
        (TellsBroken (models_of change.entry) (sides_of change.entry).behind
        (EditsPass (models_of change.entry) (sides_of change.entry))) }
    ensures field { IfOk result (λ told. IfSome told (λ broken.
        HasField (models_of change.entry) broken.cell.model broken.cell.field)) }
{
    // The laws by which a test that fails finds its cell broken, and what is broken has a field.
    broken_cells_found();
    change.behind.fit_together();
    if let Some(broken) = broken_cell(change, cells)? {
        return Ok(Some(broken));
    }
    if let Some(cell) = naming_gone(change)? {
        let kind = BrokenKind::MissingRef;
        return Ok(Some(Broken { kind, cell }));
    }
    if let Some(cell) = shared_edited(change, cells)? {
        let kind = BrokenKind::Unique;
        return Ok(Some(Broken { kind, cell }));
    }
    broken_tree(change, cells)
}

/// The first of some cells that is broken by itself behind a change.
fn broken_cell(change: Change<'_, '_>, cells: &[Cell]) -> Result<Option<Broken>, NoMemory>
    ensures { IfOk result (TellsBroken (models_of change.entry) (sides_of change.entry).behind
        (All (BreaksNone (models_of change.entry) (sides_of change.entry).behind) cells.now)) }
{
    for cell in cells {
        if let Some(kind) = broken_kind(change, *cell)? {
            return Ok(Some(Broken { kind, cell: *cell }));
        }
    }
    Ok(None)
}
