//! The rows from which steps lead to a row, as links tell them before a change. Each is found
//! from the row at the end, so that no other row is asked of.

ghost use Rattle.std.specs.Prelude.{◌≡◌, ◌↔◌, ◌⊎◌, [], ◌∷◌, Contains, IfErr, IfOk};
ghost use Rattle.ob_base.specs.declared.id.RecId.{RecId};
ghost use Rattle.ob_schema.specs.Facts.{FailedBehind, OfAllTold};
ghost use Rattle.ob_schema.specs.Links.{leading_to};
ghost use Rattle.ob_schema.specs.Models.{FieldHas};
ghost use Rattle.ob_schema.specs.Plain.{plain_at};
ghost use Rattle.ob_schema.specs.ReadCells.{cell_at, targets_at};
ghost use Rattle.ob_trigger.specs.Asking.{AskedAlone};
ghost use Rattle.ob_trigger.specs.Faults.{IsCloseFault};
ghost use Rattle.ob_trigger.specs.Readers.{AllLead, IsLed, IsPlainRelation};

use crate::fault::CloseFault;
use ob_base::{NoMemory, RecId, RefList};
use ob_schema::{Links, Side, Step};
use std::alloc::Global;
use std::collections::BTreeSet;

/// The rows from which steps lead to a row, each step's cell to the next one's row.
pub(crate) fn rows_to<W: Links>(
    alloc: Global,
    steps: &[Step],
    id: RecId,
    worlds: &mut W,
) -> Result<BTreeSet<RecId>, CloseFault<W::Fault>>
    requires { AllLead (W.registry worlds.old) steps.now }
    ensures told { IfOk result (λ rows. OfAllTold (W.tells worlds.old) (λ sides. (row : RecId)
        → Contains rows.keys row ↔ IsLed (plain_at sides.before (W.registry worlds.old)) steps.now row id)) }
    ensures fault { IfErr result (IsCloseFault (FailedBehind W.asks W.has_failed worlds.old worlds.new)) }
    ensures stays { AskedAlone W.asks W.registry W.tells worlds.old worlds.new }
{
    let Some((step, behind)) = steps.split_first() else {
        return Ok(only(alloc, id)?);
    };
    let step = *step;
    let rows = rows_to(alloc, behind, id, worlds)?;
    let before = rows_before(alloc, step, &rows, worlds)?;
    Ok(before)
}

/// A row alone.
fn only(alloc: Global, id: RecId) -> Result<BTreeSet<RecId>, NoMemory>
    ensures { IfOk result (λ rows. rows.keys ≡ id ∷ []) }
{
    let mut rows = BTreeSet::new(alloc);
    rows.insert(id)?;
    Ok(rows)
}

/// The rows whose cell of a step leads to one of some rows.
fn rows_before<W: Links>(
    alloc: Global,
    step: Step,
    rows: &BTreeSet<RecId>,
    worlds: &mut W,
) -> Result<BTreeSet<RecId>, CloseFault<W::Fault>>
    requires { FieldHas (W.registry worlds.old) IsPlainRelation step.model step.field }
    ensures told { IfOk result (λ before. OfAllTold (W.tells worlds.old) (λ sides. (row : RecId) → Contains before.keys row
        ↔ ((target : RecId) × Contains rows.now.keys target
        × Contains (targets_at (plain_at sides.before (W.registry worlds.old)) (cell_at step row)) target))) }
    ensures fault { IfErr result (IsCloseFault (FailedBehind W.asks W.has_failed worlds.old worlds.new)) }
    ensures stays { AskedAlone W.asks W.registry W.tells worlds.old worlds.new }
{
    let targets = ids_of(alloc, rows)?;
    let mut before = BTreeSet::new(alloc);
    for target in targets.as_slice() {
        let ids = sources_of(step, *target, worlds)?;
        add_all(&mut before, ids.as_slice())?;
    }
    Ok(before)
}

/// The ids of a set as a list.
pub(crate) fn ids_of(alloc: Global, ids: &BTreeSet<RecId>) -> Result<Vec<RecId>, NoMemory>
    ensures { IfOk result (λ list. list.items ≡ ids.now.keys) }
{
    Ok(ids.iter().copied().collect(alloc)?)
}

/// The rows whose cell of a step leads to a row.
fn sources_of<W: Links>(
    step: Step,
    target: RecId,
    worlds: &mut W,
) -> Result<RefList, CloseFault<W::Fault>>
    requires { FieldHas (W.registry worlds.old) IsPlainRelation step.model step.field }
    ensures told { IfOk result (λ ids. OfAllTold (W.tells worlds.old)
        (λ sides. ids ≡ leading_to (W.registry worlds.old) sides.before step.model step.field target)) }
    ensures fault { IfErr result (IsCloseFault (FailedBehind W.asks W.has_failed worlds.old worlds.new)) }
    ensures stays { AskedAlone W.asks W.registry W.tells worlds.old worlds.new }
{
    worlds
        .sources(Side::Old, step.model, step.field, target)
        .map_err(CloseFault::World)
}

/// Adds ids to a set.
fn add_all(set: &mut BTreeSet<RecId>, ids: &[RecId]) -> Result<(), NoMemory>
    ensures { IfOk result (λ _. (id : RecId) → Contains set.new.keys id ↔ (Contains set.old.keys id ⊎ Contains ids.now id)) }
{
    for id in ids {
        set.insert(*id)?;
    }
    Ok(())
}
