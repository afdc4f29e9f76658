//! What edits make of staged tables, with the rows that they touch.

ghost use Rattle.std.specs.Prelude.{◌≡◌, All, Contains, IfOk, IfSome, IsTrue, OnOk, map};
ghost use Rattle.ob_base.specs.declared.id.RowKey.{RowKey};
ghost use Rattle.ob_cache.specs.Rooms.{or_before};
ghost use Rattle.ob_sound.specs.Touched.{TouchesOnly};
ghost use Rattle.ob_tables.specs.After.{after};
ghost use Rattle.ob_tables.specs.Changes.{edited_row};
ghost use Rattle.ob_tables.specs.Fitting.{IsFitEdit};

use ob_base::{NoMemory, RowKey};
use ob_sound::edits_touch_their_rows;
use ob_tables::{Edit, Tables};

/// What edits make of the tables that are staged, or else of those that were settled last: the
/// former are changed in place, and the latter copied. The rows that they touch are listed.
pub(crate) fn edited<'k>(
    staged: Option<Tables<'k>>,
    settled: &Tables<'k>,
    edits: &[Edit],
    touched: &mut Vec<RowKey>,
) -> Result<Tables<'k>, NoMemory>
    requires over { IfSome staged (λ s. s.models ≡ settled.now.models) }
    requires fit { All (IsFitEdit settled.now.models) edits.now }
    requires touches { TouchesOnly touched.old.items (record { before = settled.now.tables; behind = or_before staged settled.now.tables }) }
    ensures edited { IfOk result (λ tables. tables ≡ record { models = settled.now.models; tables = after settled.now.models (or_before staged.entry settled.now.tables) edits.now }) }
    ensures touches { IfOk result (λ tables. TouchesOnly touched.new.items (record { before = settled.now.tables; behind = tables.tables })) }
{
    // The law that edits touch their own rows alone.
    edits_touch_their_rows();
    add_edited(edits, touched)?;
    match staged {
        Some(mut staged) => {
            staged.edit(edits)?;
            Ok(staged)
        }
        None => settled.after(edits),
    }
}

/// Adds the rows that edits make, change or take out.
fn add_edited(edits: &[Edit], touched: &mut Vec<RowKey>) -> Result<(), NoMemory>
    ensures kept { OnOk result ((key : RowKey) → Contains touched.old.items key → Contains touched.new.items key) }
    ensures edited { OnOk result ((key : RowKey) → Contains (map edited_row edits.now) key → Contains touched.new.items key) }
{
    for edit in edits {
        add_row(touched, edited_row(edit))?;
    }
    Ok(())
}

/// Adds a row to a list, if the list doesn't end in it: edits of one row follow one another.
fn add_row(rows: &mut Vec<RowKey>, row: RowKey) -> Result<(), NoMemory>
    ensures kept { OnOk result ((key : RowKey) → Contains rows.old.items key → Contains rows.new.items key) }
    ensures added { OnOk result (Contains rows.new.items row) }
{
    if ends_in(rows.as_slice(), row) {
        return Ok(());
    }
    rows.push(row)?;
    Ok(())
}

/// Whether a list ends in a row.
fn ends_in(rows: &[RowKey], row: RowKey) -> bool
    ensures { IsTrue result → Contains rows.now row }
{
    match rows.last() {
        Some(last) => *last == row,
        None => false,
    }
}

/// The row that an edit makes, changes or takes out.
fn edited_row(edit: &Edit) -> RowKey
    ensures { result ≡ edited_row edit.now }
{
    let (model, id) = match edit {
        Edit::Make { model, id, .. } | Edit::Gone { model, id } => (*model, *id),
        Edit::Set { cell, .. } => (cell.model, cell.id),
    };
    RowKey { model, id }
}
