//! What is known of computed cells before others are evaluated: the values of those that these
//! read, where they are held, so that no more is evaluated than what changed.

ghost use Rattle.std.specs.Prelude.{◌≡◌, IfSome, IsSome, true};
ghost use Rattle.ob_cache.specs.Behind.{AreKnown};
ghost use Rattle.ob_schema.specs.Models.{FieldHas, is_computed_from};
ghost use Rattle.ob_schema.specs.Tables.{row_at};
ghost use Rattle.ob_tables.specs.Scratch.{HasScratch};

use crate::whole::CellValues;
use ob_base::{Cell, NoMemory, Value};
use ob_tables::Values;

/// Takes what is held of the cells that some cells read as known.
pub(crate) fn know_read(
    held: &CellValues,
    cells: &[Cell],
    source: &mut Values<'_, '_>,
) -> Result<(), NoMemory>
    requires right { AreKnown source.old.models source.old.tables held.now }
    ensures { source.new ≡ source.old }
{
    for cell in cells {
        let ends = source.reads(*cell)?;
        know_all(held, ends.as_slice(), source)?;
    }
    Ok(())
}

/// Takes what is held of some cells as known.
fn know_all(held: &CellValues, cells: &[Cell], source: &mut Values<'_, '_>) -> Result<(), NoMemory>
    requires right { AreKnown source.old.models source.old.tables held.now }
    ensures { source.new ≡ source.old }
{
    for cell in cells {
        if let Some(value) = held_of(held, *cell, source) {
            source.know(*cell, value)?;
        }
    }
    Ok(())
}

/// What is held of a cell.
fn held_of<'h>(held: &'h CellValues, cell: Cell, source: &Values<'_, '_>) -> Option<&'h Value>
    requires right { AreKnown source.now.models source.now.tables held.now }
    ensures field { IfSome result (λ _. FieldHas source.now.models (λ info. is_computed_from info.origin ≡ true) cell.model cell.field) }
    ensures row { IfSome result (λ _. IsSome (row_at source.now.tables cell.model cell.id)) }
    ensures value { IfSome result (λ value. HasScratch source.now.models source.now.tables cell value.now) }
{
    held.get(&cell)
}
