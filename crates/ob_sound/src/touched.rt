//! Laws of what a change touches, as clauses of functions that do nothing: edits touch their own
//! rows alone, and cells are edited in rows that are touched or through them.

ghost use Rattle.std.specs.Prelude.{List, map};
ghost use Rattle.ob_base.specs.declared.id.Cell.{Cell};
ghost use Rattle.ob_base.specs.declared.id.RowKey.{RowKey};
ghost use Rattle.ob_schema.specs.Links.{Sides};
ghost use Rattle.ob_schema.specs.Tables.{Tables};
ghost use Rattle.ob_schema.specs.declared.info.ModelInfo.{ModelInfo};
ghost use Rattle.ob_sound.specs.Touched.{IsTouched, TouchesOnly};
ghost use Rattle.ob_tables.specs.After.{after};
ghost use Rattle.ob_tables.specs.Changes.{edited_row};
ghost use Rattle.ob_tables.specs.declared.edit.Edit.{Edit};
ghost use Rattle.ob_trigger.specs.Affected.{Edited};

use ob_tables::one_row_changes;

/// Edits leave all rows as they were but those that they make, change or take out.
pub fn edits_touch_their_rows()
    ensures { (models : List ModelInfo) (tables : Tables) (edits : List Edit)
        → TouchesOnly (map edited_row edits) (record { before = tables; behind = after models tables edits }) }
{
    one_row_changes();
}

/// A cell that is edited is one of a row that is touched, or a list that has one.
pub fn edited_cells_are_touched()
    ensures { (models : List ModelInfo) (sides : Sides) (keys : List RowKey) → TouchesOnly keys sides
        → (cell : Cell) → Edited models sides cell → IsTouched models keys sides cell }
{}
