//! Whole tables behind a change of whole ones: only what the change edits is tested, and only the
//! computed cells that it reaches are evaluated, as `ob_sound` says that it suffices. Which rows
//! may be kept in another form is told with them. What is broken is told by the test that fails.

ghost use Rattle.std.specs.Prelude.{◌≡◌, Contains, IfErr, IfOk, IsOk, OnOk};
ghost use Rattle.ob_base.specs.declared.id.Cell.{Cell};
ghost use Rattle.ob_base.specs.declared.id.RowKey.{RowKey};
ghost use Rattle.ob_cache.specs.Behind.{AreMarked, TicksEach};
ghost use Rattle.ob_cache.specs.Changing.{KeepsOthers};
ghost use Rattle.ob_cache.specs.Rooms.{AreValues, IsUnsoundBy, NamesBrokenField};
ghost use Rattle.ob_change.specs.Changing.{AreEdited, models_of, sides_of};
ghost use Rattle.ob_schema.specs.Broken.{AreSound};
ghost use Rattle.ob_schema.specs.Tables.{key_of};
ghost use Rattle.ob_schema.specs.Tied.{IsTied};
ghost use Rattle.ob_sound.specs.EditsBreak.{EditsPass};
ghost use Rattle.ob_sound.specs.Touched.{TouchesOnly};

use crate::between::Between;
use crate::once::once_each;
use crate::renewing::values_behind;
use crate::whole::{CellValues, Whole};
use ob_base::{Cell, Ledger, NoMemory, RowKey, Steps};
use ob_change::{Change, broken_edit, edited_cells};
use ob_sound::{others_keep_values, still_sound, still_tied};
use ob_tables::{ApplyFault, Tables};
use ob_trigger::{CellSet, CloseFault, Triggers};
use std::alloc::Global;

/// Whole tables behind a change of whole ones in some rows, or something that the change breaks.
/// The rows that may be kept in another form are added to a list; a row may stand there twice.
/// Steps tick once for each cell that is evaluated.
pub(crate) fn settled_behind<'a, L: Ledger>(
    alloc: Global,
    before: &Whole<'a>,
    tables: Tables<'a>,
    touched: &[RowKey],
    triggers: &Triggers<'_>,
    unkept: &mut Vec<RowKey>,
    steps: &mut Steps<L>,
) -> Result<Whole<'a>, ApplyFault>
    requires over { tables.models ≡ before.now.models }
    requires triggers { triggers.now ≡ before.now.models }
    requires touches { TouchesOnly touched.now (record { before = before.now.tables; behind = tables.tables }) }
    ensures whole { IfOk result (λ whole. whole ≡ tables.entry) }
    ensures sound { IfOk result (λ _. AreSound tables.entry.models tables.entry.tables) }
    ensures forms { IfOk result (λ _. KeepsOthers before.now tables.entry unkept.new.items) }
    ensures kept { (key : RowKey) → Contains unkept.old.items key → Contains unkept.new.items key }
    ensures fault { IfErr result (IsUnsoundBy tables.entry) }
    ensures field { IfErr result (NamesBrokenField before.now.models) }
    ensures evaluated { TicksEach L.noted before.now.models (record { before = before.now.tables; behind = tables.entry.tables })
        (IsOk result) steps.old steps.new }
{
    // The laws of the registry, of whose fields what is broken is, and of its constants.
    tables.fit_together();
    before.laws();
    let schema = before.schema();
    let was = before.tables();
    let rows = once_each(alloc, touched)?;
    let change = Change {
        alloc,
        schema,
        before: was,
        behind: &tables,
        touched: rows.as_slice(),
    };
    let values = renewed(change, before, triggers, unkept, steps)?;
    Ok(Whole::with(alloc, schema, tables, values))
}

/// The values of the computed cells behind a change of whole tables, or something that it breaks.
fn renewed<L: Ledger>(
    change: Change<'_, '_>,
    before: &Whole<'_>,
    triggers: &Triggers<'_>,
    unkept: &mut Vec<RowKey>,
    steps: &mut Steps<L>,
) -> Result<CellValues, ApplyFault>
    requires whole { before.now ≡ change.before.now }
    requires touches { TouchesOnly change.touched.now (sides_of change) }
    requires triggers { triggers.now ≡ models_of change }
    ensures sound { IfOk result (λ _. AreSound (models_of change.entry) change.entry.behind.now.tables) }
    ensures values { IfOk result (AreValues (models_of change.entry) change.entry.behind.now.tables) }
    ensures forms { IfOk result (λ _. KeepsOthers change.entry.before.now change.entry.behind.now unkept.new.items) }
    ensures kept { (key : RowKey) → Contains unkept.old.items key → Contains unkept.new.items key }
    ensures fault { IfErr result (IsUnsoundBy change.entry.behind.now) }
    ensures evaluated { TicksEach L.noted (models_of change.entry) (sides_of change.entry) (IsOk result) steps.old steps.new }
{
    // The laws of tables, and of what keeps them sound behind a change.
    before.laws();
    change.behind.fit_together();
    still_sound();
    others_keep_values();
    let marked = reached(change, triggers)?;
    let values = values_behind(change, before.values(), marked.as_slice(), steps)?;
    add_rows(change.touched, marked.as_slice(), unkept)?;
    Ok(values)
}

/// The computed cells that a change of sound tables reaches, where all tests of what it edits pass.
fn reached(change: Change<'_, '_>, triggers: &Triggers<'_>) -> Result<CellSet, ApplyFault>
    requires sound { AreSound (models_of change) change.before.now.tables }
    requires triggers { triggers.now ≡ models_of change }
    ensures marked { IfOk result (AreMarked (models_of change.entry) (sides_of change.entry)) }
    ensures pass { IfOk result (λ _. EditsPass (models_of change.entry) (sides_of change.entry)) }
    ensures tied { IfOk result (λ _. IsTied (models_of change.entry) change.entry.behind.now.tables) }
    ensures fault { IfErr result (IsUnsoundBy change.entry.behind.now) }
{
    // The laws of tables, and of rows that can be followed still.
    change.behind.fit_together();
    still_tied();
    let edited = edited_cells(change)?;
    if let Some(broken) = broken_edit(change, edited.as_slice())? {
        return Err(ApplyFault::Broken(broken));
    }
    let marked = marked_cells(change, edited.as_slice(), triggers)?;
    Ok(marked)
}

/// The computed cells to which a change may give another outcome.
fn marked_cells(
    change: Change<'_, '_>,
    edited: &[Cell],
    triggers: &Triggers<'_>,
) -> Result<CellSet, NoMemory>
    requires triggers { triggers.now ≡ models_of change }
    requires edited { AreEdited change edited.now }
    requires before { IsTied (models_of change) change.before.now.tables }
    requires behind { IsTied (models_of change) change.behind.now.tables }
    ensures { IfOk result (AreMarked (models_of change.entry) (sides_of change.entry)) }
{
    let mut between = Between { change };
    match triggers.close(change.alloc, edited, &mut between) {
        Ok(cells) => Ok(cells),
        Err(CloseFault::World(NoMemory) | CloseFault::NoMemory) => Err(NoMemory),
    }
}

/// Adds rows to a list, and those of marked cells.
fn add_rows(touched: &[RowKey], marked: &[Cell], listed: &mut Vec<RowKey>) -> Result<(), NoMemory>
    ensures kept { (key : RowKey) → Contains listed.old.items key → Contains listed.new.items key }
    ensures touched { OnOk result ((key : RowKey) → Contains touched.now key → Contains listed.new.items key) }
    ensures marked { OnOk result ((cell : Cell) → Contains marked.now cell → Contains listed.new.items (key_of cell.model cell.id)) }
{
    listed.extend_from_slice(touched)?;
    for cell in marked {
        listed.push(RowKey {
            model: cell.model,
            id: cell.id,
        })?;
    }
    Ok(())
}
