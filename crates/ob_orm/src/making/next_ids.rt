//! The ids that rows take: the next ones of their models, as the engine tells them once, and raised
//! with each row that is made.

ghost use Rattle.std.specs.Prelude.{◌≡◌, ◌≢◌, ◌+◌, ◌<◌, ◌≤◌, ◌^◌, ◌∷◌, [], ℕ, IfErr, IfOk, IsSomeAnd, OnOk, Some, if◌then◌else◌, length};
ghost use Rattle.std.specs.BTreeMap as tree;
ghost use Rattle.std.specs.Ordering.{eq_by_cmp, nat_cmp};
ghost use Rattle.ob_cache.specs.Calls.{Refuses};
ghost use Rattle.ob_cache.specs.Standing.{IsAtRest, RestsAt, Stays, max_next_id};
ghost use Rattle.ob_io.specs.Cause.{Rose};
ghost use Rattle.ob_orm.specs.NewRowSteps.{HoldsNextIds, IsReady, held_next};
ghost use Rattle.ob_schema.specs.Models.{HasModel};
ghost use Rattle.ob_schema.specs.Tables.{Tables, next_of};

use ob_base::limits::MAX_MODELS;
use ob_base::{ModelNo, NoMemory, RecId, Refusal};
use ob_cache::Engine;
use ob_io::Keeper;
use ob_tables::Edit;
use std::alloc::Global;
use std::collections::BTreeMap;

/// Rows that are made so far: the edits that make them, and by models' numbers the ids that the
/// next rows take.
#[derive(Drop)]
pub struct Making {
    pub next_ids: BTreeMap<u16, u64>,
    pub edits: Vec<Edit>,
}

/// No rows so far, with the next ids of an engine that rests. Refused only where the keeper fails or
/// memory is wanting. The engine stays as it was.
pub fn begun<K: Keeper>(alloc: Global, engine: &mut Engine<'_, K>) -> Result<Making, Refusal>
    requires rest { IsAtRest engine.old.held.models engine.old.held }
    ensures none { IfOk result (λ making. making.edits.items ≡ []) }
    ensures ready { IfOk result (IsReady engine.old.held.models) }
    ensures told { IfOk result (λ making. (tables : Tables) → RestsAt (K.kept engine.old.keeper.now) engine.old.held tables
        → HoldsNextIds engine.old.held.models tables making) }
    ensures causes { IfErr result (Refuses (Rose (K.faults engine.old.keeper.now) (K.faults engine.new.keeper.now)) (λ _. ⊥)) }
    ensures same { Stays (K.kept engine.old.keeper.now) engine.old.held (K.kept engine.new.keeper.now) engine.new.held }
    ensures count { K.faults engine.old.keeper.now ≤ K.faults engine.new.keeper.now }
    ensures lender { engine.new.keeper.ghost_name ≡ engine.old.keeper.ghost_name }
{
    // There are no more models than these.
    engine.schema().parts_fit_together();
    let mut next_ids = BTreeMap::new(alloc);
    for place in 0..MAX_MODELS as u16 {
        hold_next(engine, &mut next_ids, ModelNo(place + 1))?;
    }
    Ok(Making {
        next_ids,
        edits: Vec::new(alloc),
    })
}

/// Holds the id that the next row of a model takes, where there is such a model.
fn hold_next<K: Keeper>(
    engine: &mut Engine<'_, K>,
    next_ids: &mut BTreeMap<u16, u64>,
    model: ModelNo,
) -> Result<(), Refusal>
    requires rest { IsAtRest engine.old.held.models engine.old.held }
    ensures held { OnOk result (HasModel engine.old.held.models model → IsSomeAnd (tree.get nat_cmp next_ids.new model.0) (λ next. next ≤ max_next_id)) }
    ensures told { OnOk result ((tables : Tables) → RestsAt (K.kept engine.old.keeper.now) engine.old.held tables
        → HasModel engine.old.held.models model → tree.get nat_cmp next_ids.new model.0 ≡ Some (next_of tables model)) }
    ensures others { OnOk result ((number : ℕ) → number ≢ model.0 → tree.get nat_cmp next_ids.new number ≡ tree.get nat_cmp next_ids.old number) }
    ensures causes { IfErr result (Refuses (Rose (K.faults engine.old.keeper.now) (K.faults engine.new.keeper.now)) (λ _. ⊥)) }
    ensures same { Stays (K.kept engine.old.keeper.now) engine.old.held (K.kept engine.new.keeper.now) engine.new.held }
    ensures count { K.faults engine.old.keeper.now ≤ K.faults engine.new.keeper.now }
    ensures lender { engine.new.keeper.ghost_name ≡ engine.old.keeper.ghost_name }
{
    if engine.schema().find_model(model).is_none() {
        return Ok(());
    }
    let next = engine.next_id(model)?;
    next_ids.insert(model.0, next)?;
    Ok(())
}

/// The id that the next row of a model takes, which it has then taken.
pub(crate) fn take_id(making: &mut Making, model: ModelNo) -> Result<RecId, NoMemory>
    requires held { IsSomeAnd (held_next making.old model) (λ next. next ≤ max_next_id + length making.old.edits.items) }
    ensures edits { making.new.edits ≡ making.old.edits }
    ensures next { IfOk result (λ id. held_next making.old model ≡ Some id.0) }
    ensures raised { IfOk result (λ id. (number : ℕ) → tree.get nat_cmp making.new.next_ids number
        ≡ (if eq_by_cmp nat_cmp model.0 number then Some (id.0 + 1) else tree.get nat_cmp making.old.next_ids number)) }
    ensures room { IfOk result (λ id. id.0 + 1 < 2 ^ 64) }
{
    let next = match making.next_ids.get(&model.0) {
        Some(next) => *next,
        None => unreachable!(),
    };
    let _ = making.edits.len();
    making.next_ids.insert(model.0, next + 1)?;
    Ok(RecId(next))
}
