//! The tables with the edits so far: what is asked of them, and how edits are added. Faults of the
//! engine become refusals here.

ghost use Rattle.std.specs.Prelude.{◌≡◌, ◌≤◌, ℕ, All, IfErr, IfOk, IfSome, OnErr, OnOk, true};
ghost use Rattle.ob_base.specs.declared.id.ModelNo.{ModelNo};
ghost use Rattle.ob_cache.specs.Calls.{Refuses};
ghost use Rattle.ob_cache.specs.Stages.{IsKeptRelation, IsPlainCell, IsUsable, with_edits};
ghost use Rattle.ob_cache.specs.Standing.{NextIdsUpTo, OfStages, Stands, max_next_id};
ghost use Rattle.ob_effect.specs.Effect.{Asks, ChangesSome, Edits, IsFitChange, Keeps};
ghost use Rattle.ob_effect.specs.Faults.{keeper_refusal};
ghost use Rattle.ob_io.specs.Cause.{Rose};
ghost use Rattle.ob_schema.specs.Fields.{HasFieldType};
ghost use Rattle.ob_schema.specs.Models.{FieldHas, HasModel, field_at};
ghost use Rattle.ob_schema.specs.Tables.{next_of};
ghost use Rattle.ob_tables.specs.Changes.{MakesBelow};
ghost use Rattle.ob_tables.specs.Fitting.{IsFitEdit, IsFitId};

use crate::cells::id_cell;
use ob_base::{Cell, FieldNo, ModelNo, RecId, RefList, Refusal, RowKey, Value};
use ob_cache::{Engine, ReadFault};
use ob_io::{KeepFault, Keeper};
use ob_tables::{Edit, next_ids_after};
use std::alloc::Global;

/// Whether a row is there: then its id has a next one.
pub fn is_there<K: Keeper>(engine: &mut Engine<'_, K>, row: RowKey) -> Result<bool, Refusal>
    requires usable { IsUsable engine.old.held.phase }
    requires model { HasModel engine.old.held.models row.model }
    ensures fit { IfOk result (λ there. there ≡ true → IsFitId row.id) }
    ensures causes { IfErr result (Refuses (Rose (K.faults engine.old.keeper.now) (K.faults engine.new.keeper.now)) (λ _. ⊥)) }
    ensures asked { Asks K.Keeper engine.old engine.new }
{
    let cell = id_cell(engine.schema(), row);
    let id = value_at(engine, cell)?;
    Ok(id.is_some())
}

/// The value of a plain cell; none where its row isn't there.
pub(crate) fn value_at<K: Keeper>(
    engine: &mut Engine<'_, K>,
    cell: Cell,
) -> Result<Option<Value>, Refusal>
    requires usable { IsUsable engine.old.held.phase }
    requires plain { IsPlainCell engine.old.held.models cell }
    ensures typed { IfOk result (λ value. IfSome value (HasFieldType (field_at engine.old.held.models cell.model cell.field))) }
    ensures fit { IfOk result (λ value. IfSome value (λ _. IsFitId cell.id)) }
    ensures causes { IfErr result (Refuses (Rose (K.faults engine.old.keeper.now) (K.faults engine.new.keeper.now)) (λ _. ⊥)) }
    ensures asked { Asks K.Keeper engine.old engine.new }
{
    match engine.read(cell) {
        Ok(value) => Ok(Some(value)),
        Err(ReadFault::Missing) => Ok(None),
        Err(ReadFault::Keeper) => Err(Refusal::Keeper),
        Err(ReadFault::NoMemory) => Err(Refusal::NoMemory),
    }
}

/// The row of a model that a many2one names, where both are there.
pub(crate) fn linked_row<K: Keeper>(
    engine: &mut Engine<'_, K>,
    cell: Cell,
    model: ModelNo,
) -> Result<Option<RowKey>, Refusal>
    requires usable { IsUsable engine.old.held.phase }
    requires plain { IsPlainCell engine.old.held.models cell }
    requires model { HasModel engine.old.held.models model }
    ensures row { IfOk result (λ row. IfSome row (λ row. row.model ≡ model)) }
    ensures fit { IfOk result (λ row. IfSome row (λ row. IsFitId row.id)) }
    ensures causes { IfErr result (Refuses (Rose (K.faults engine.old.keeper.now) (K.faults engine.new.keeper.now)) (λ _. ⊥)) }
    ensures asked { Asks K.Keeper engine.old engine.new }
{
    let Some(Value::Ref(id)) = value_at(engine, cell)? else {
        return Ok(None);
    };
    let row = RowKey { model, id };
    if is_there(engine, row)? {
        Ok(Some(row))
    } else {
        Ok(None)
    }
}

/// The rows of a model that name a row by a relation.
pub fn naming<K: Keeper>(
    engine: &mut Engine<'_, K>,
    model: ModelNo,
    field: FieldNo,
    target: RecId,
) -> Result<RefList, Refusal>
    requires usable { IsUsable engine.old.held.phase }
    requires field { FieldHas engine.old.held.models IsKeptRelation model field }
    ensures fit { IfOk result (All IsFitId) }
    ensures causes { IfErr result (Refuses (Rose (K.faults engine.old.keeper.now) (K.faults engine.new.keeper.now)) (λ _. ⊥)) }
    ensures asked { Asks K.Keeper engine.old engine.new }
{
    match engine.holders(model, field, target, RecId(0), u32::MAX) {
        Ok(ids) => Ok(ids),
        Err(fault) => Err(keeper_refusal(fault)),
    }
}

/// The id that a model's next row takes.
pub(crate) fn next_id<K: Keeper>(
    engine: &mut Engine<'_, K>,
    model: ModelNo,
) -> Result<RecId, Refusal>
    requires usable { IsUsable engine.old.held.phase }
    requires model { HasModel engine.old.held.models model }
    ensures next { IfOk result (λ id. OfStages (K.kept engine.old.keeper.now) engine.old.held (λ at. id.0 ≡ next_of at.staged model)) }
    ensures bound { IfOk result (λ id. (bound : ℕ) → max_next_id ≤ bound → NextIdsUpTo bound engine.old.held → id.0 ≤ bound) }
    ensures causes { IfErr result (Refuses (Rose (K.faults engine.old.keeper.now) (K.faults engine.new.keeper.now)) (λ _. ⊥)) }
    ensures asked { Asks K.Keeper engine.old engine.new }
{
    match engine.next_id(model) {
        Ok(id) => Ok(RecId(id)),
        Err(fault) => Err(keeper_refusal(fault)),
    }
}

/// Stages edits.
pub(crate) fn stage<K: Keeper>(engine: &mut Engine<'_, K>, edits: &[Edit]) -> Result<(), Refusal>
    requires usable { IsUsable engine.old.held.phase }
    requires fit { All (IsFitEdit engine.old.held.models) edits.now }
    ensures edited { OnOk result (Edits K.Keeper engine.old engine.new) }
    ensures staged { OnOk result (OfStages (K.kept engine.old.keeper.now) engine.old.held
        (λ at. Stands (K.kept engine.new.keeper.now) engine.new.held (with_edits at edits.now))) }
    ensures next_ids { OnOk result ((bound : ℕ) → max_next_id ≤ bound → ((model : ModelNo) → All (MakesBelow model bound) edits.now)
        → NextIdsUpTo bound engine.old.held → NextIdsUpTo bound engine.new.held) }
    ensures kept { OnErr result (Keeps K.Keeper engine.old engine.new) }
    ensures causes { IfErr result (Refuses (Rose (K.faults engine.old.keeper.now) (K.faults engine.new.keeper.now)) (λ _. ⊥)) }
{
    match engine.stage(edits) {
        Ok(()) => {
            // The law of next ids.
            next_ids_after();
            Ok(())
        }
        Err(fault) => Err(keeper_refusal(fault)),
    }
}

/// Stages edits that make no row.
pub(crate) fn stage_changes<K: Keeper>(
    engine: &mut Engine<'_, K>,
    edits: &[Edit],
) -> Result<(), Refusal>
    requires usable { IsUsable engine.old.held.phase }
    requires fit { All (IsFitChange engine.old.held.models) edits.now }
    ensures changed { OnOk result (ChangesSome K.Keeper engine.old engine.new) }
    ensures kept { OnErr result (Keeps K.Keeper engine.old engine.new) }
    ensures causes { IfErr result (Refuses (Rose (K.faults engine.old.keeper.now) (K.faults engine.new.keeper.now)) (λ _. ⊥)) }
{
    stage(engine, edits)
}

/// Stages one edit that makes no row.
pub(crate) fn stage_change<K: Keeper>(
    alloc: Global,
    engine: &mut Engine<'_, K>,
    edit: Edit,
) -> Result<(), Refusal>
    requires usable { IsUsable engine.old.held.phase }
    requires fit { IsFitChange engine.old.held.models edit }
    ensures changed { OnOk result (ChangesSome K.Keeper engine.old engine.new) }
    ensures kept { OnErr result (Keeps K.Keeper engine.old engine.new) }
    ensures causes { IfErr result (Refuses (Rose (K.faults engine.old.keeper.now) (K.faults engine.new.keeper.now)) (λ _. ⊥)) }
{
    let mut edits = Vec::new(alloc);
    edits.push(edit)?;
    stage_changes(engine, edits.as_slice())
}

/// A fault of the keeper as a refusal.
pub(crate) fn keeper_refusal(fault: KeepFault) -> Refusal
    ensures { result ≡ keeper_refusal fault }
{
    match fault {
        KeepFault::Failed => Refusal::Keeper,
        KeepFault::NoMemory => Refusal::NoMemory,
    }
}
