//! Trees of rows, where a change edits a row's parent: no row is its own parent or that of one
//! of its parents, and none stands deeper than a tree may be. From each edited row parents are
//! followed up, which tells its depth, and then the rows below it by levels. A row is met once
//! for each edited one above it: no more often than a tree may be deep. In which order rows are
//! followed may change here at will.

ghost use Rattle.std.specs.Prelude.{◌≡◌, ◌≤◌, ◌↔◌, IfOk, IsSome, IsTrue, false};
ghost use Rattle.ob_base.specs.Limits.{max_tree_depth};
ghost use Rattle.ob_change.specs.Changing.{AreEdited, TellsBroken, models_of, sides_of};
ghost use Rattle.ob_change.specs.TreeRows.{AreChildren, HasParentField, IsTheParent, NoneSinks, StandsWell, TellsDepth, TreesPass, referred};
ghost use Rattle.ob_schema.specs.Broken.{Sound};
ghost use Rattle.ob_schema.specs.Models.{HasModel};
ghost use Rattle.ob_schema.specs.Tables.{row_at};
ghost use Rattle.ob_schema.specs.Tied.{HasDepth};
ghost use Rattle.ob_sound.specs.EditsBreak.{IsInTree};

use crate::change::Change;
use ob_base::limits::MAX_TREE_DEPTH;
use ob_base::{Broken, Cell, FieldNo, ModelNo, NoMemory, RecId, Value};
use ob_sound::depths_add;
use ob_tables::Tables;
use std::alloc::Global;

/// The first that is broken behind a change, where it edits a tree that doesn't stand as it must.
/// Which row of a tree is the first so all rows tell: no formula is evaluated for it, since rows
/// can't be followed.
pub(crate) fn broken_tree(
    change: Change<'_, '_>,
    cells: &[Cell],
) -> Result<Option<Broken>, NoMemory>
    requires { AreEdited change cells.now }
    ensures { IfOk result (TellsBroken (models_of change.entry) (sides_of change.entry).behind
        (TreesPass (models_of change.entry) (sides_of change.entry))) }
{
    if trees_pass(change, cells)? {
        return Ok(None);
    }
    change.behind.broken()
}

/// Whether trees stand behind a change as they must, where it edits them.
fn trees_pass(change: Change<'_, '_>, cells: &[Cell]) -> Result<bool, NoMemory>
    requires { AreEdited change cells.now }
    ensures pass { IfOk result (λ passes. IsTrue passes
        → TreesPass (models_of change.entry) (sides_of change.entry)) }
    ensures fail { IfOk result (λ passes. passes ≡ false
        → Sound (models_of change.entry) change.entry.behind.now.tables → ⊥) }
{
    for cell in cells {
        if is_in_tree(change, *cell) && !row_passes(change.alloc, change.behind, *cell)? {
            return Ok(false);
        }
    }
    Ok(true)
}

/// Whether a cell is the parent field of a row that is there behind a change.
fn is_in_tree(change: Change<'_, '_>, cell: Cell) -> bool
    ensures { IsTrue result ↔ IsInTree (models_of change.entry) (sides_of change.entry) cell }
{
    match change.schema.find_model(cell.model) {
        Some(info) => {
            info.parent == Some(cell.field) && change.behind.has_row(cell.model, cell.id)
        }
        None => false,
    }
}

/// Whether a row stands in its tree as it must, and each row below it.
fn row_passes(alloc: Global, tables: &Tables<'_>, cell: Cell) -> Result<bool, NoMemory>
    requires field { HasParentField tables.now.models cell.model cell.field }
    requires row { IsSome (row_at tables.now.tables cell.model cell.id) }
    ensures pass { IfOk result (λ passes. IsTrue passes
        → StandsWell tables.now.models tables.now.tables cell) }
    ensures fail { IfOk result (λ passes. passes ≡ false
        → Sound tables.now.models tables.now.tables → ⊥) }
{
    // The law by which a row has one depth.
    depths_add();
    match depth_of(tables, cell)? {
        Some(depth) => none_sinks(alloc, tables, cell, depth),
        None => Ok(false),
    }
}

/// How deep a row stands. It isn't told where more rows than there may be are above it.
fn depth_of(tables: &Tables<'_>, cell: Cell) -> Result<Option<usize>, NoMemory>
    requires { HasParentField tables.now.models cell.model cell.field }
    ensures { IfOk result (λ depth. TellsDepth tables.now.models tables.now.tables cell depth) }
{
    let mut at = cell.id;
    for above in 0..MAX_TREE_DEPTH {
        match parent_of(tables, Cell { id: at, ..cell })? {
            Some(parent) => at = parent,
            None => return Ok(Some(above + 1)),
        }
    }
    // The law by which no id is so great that rows could go on without end.
    tables.fit_together();
    Ok(None)
}

/// The parent of a row, where it is there.
fn parent_of(tables: &Tables<'_>, cell: Cell) -> Result<Option<RecId>, NoMemory>
    requires { HasParentField tables.now.models cell.model cell.field }
    ensures { IfOk result (λ parent. IsTheParent tables.now.models tables.now.tables
        cell parent) }
{
    // The registry's law: the parent field is a plain many2one.
    tables.fit_together();
    let Some(parent) = referred(tables.plain(cell)?) else {
        return Ok(None);
    };
    if !tables.has_row(cell.model, parent) {
        return Ok(None);
    }
    Ok(Some(parent))
}

/// The row to which a value refers.
fn referred(value: Option<Value>) -> Option<RecId>
    ensures { result ≡ referred value }
{
    match value {
        Some(Value::Ref(id)) => Some(id),
        _ => None,
    }
}

/// Whether neither a row of this depth nor one below it stands deeper than a tree may be.
fn none_sinks(
    alloc: Global,
    tables: &Tables<'_>,
    cell: Cell,
    depth: usize,
) -> Result<bool, NoMemory>
    requires field { HasParentField tables.now.models cell.model cell.field }
    requires row { IsSome (row_at tables.now.tables cell.model cell.id) }
    requires depth { HasDepth tables.now.models tables.now.tables cell.model cell.field depth
        cell.id }
    requires low { depth ≤ max_tree_depth }
    ensures pass { IfOk result (λ passes. IsTrue passes
        → NoneSinks tables.now.models tables.now.tables cell) }
    ensures fail { IfOk result (λ passes. passes ≡ false
        → Sound tables.now.models tables.now.tables → ⊥) }
{
    // The laws by which a row has one depth, and names at most one row by its parent field.
    depths_add();
    tables.fit_together();
    let mut level = vec![in alloc; cell.id]?;
    for _below in depth..MAX_TREE_DEPTH + 1 {
        level = children_of(alloc, tables, cell.model, cell.field, level.as_slice())?;
    }
    Ok(level.is_empty())
}

/// The rows whose parent is one of these.
fn children_of(
    alloc: Global,
    tables: &Tables<'_>,
    model: ModelNo,
    parent: FieldNo,
    rows: &[RecId],
) -> Result<Vec<RecId>, NoMemory>
    requires { HasModel tables.now.models model }
    ensures { IfOk result (λ children. AreChildren tables.now.models tables.now.tables
        model parent rows.now children.items) }
{
    let mut children = Vec::new(alloc);
    for row in rows {
        let named = tables.naming(model, parent, *row)?;
        children.extend_from_slice(named.as_slice())?;
    }
    Ok(children)
}
