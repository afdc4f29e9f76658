//! Which rows a write touches, by what the engine settled last: each row that it names, and with one
//! that is there the rows of its parents for whose fields something is given. By these rights and
//! rules are asked. A change begins with `touched`.

ghost use Rattle.std.specs.Prelude.{◌≡◌, ◌≤◌, ◌++◌, ◌∷◌, List, All, Contains, IfErr, IfOk, OnOk, option_to_list, true};
ghost use Rattle.std.specs.List.{filter_map};
ghost use Rattle.ob_base.specs.declared.id.ModelNo.{ModelNo};
ghost use Rattle.ob_cache.specs.Calls.{Refuses};
ghost use Rattle.ob_cache.specs.Standing.{RestsAt, Stays};
ghost use Rattle.ob_cache.specs.Telling.{TellsFacts};
ghost use Rattle.ob_cache.specs.declared.stages.Phase.TheVariants as phase;
ghost use Rattle.ob_io.specs.Cause.{Rose};
ghost use Rattle.ob_rows.specs.AskingSteps.{AreKnown};
ghost use Rattle.ob_orm.specs.NewRowSteps.{IsTyped};
ghost use Rattle.ob_rows.specs.Rights.{rows_named};
ghost use Rattle.ob_orm.specs.WriteSteps.{AreOfModels};
ghost use Rattle.ob_orm.specs.Touched.{given_parents, parent_row, parent_rows, touched, touched_models};
ghost use Rattle.ob_schema.specs.Facts.{OfAllTold};
ghost use Rattle.ob_schema.specs.Models.{HasModel, IsParentIn};
ghost use Rattle.ob_schema.specs.Tables.{Tables, key_of};

use crate::making::Maker;
use crate::making::parents::behind;
use crate::writing::change::Change;
use crate::writing::edits::linked_row;
use ob_base::{FieldNo, ModelNo, NoMemory, RecId, Refusal, RowKey, Value};
use ob_cache::Engine;
use ob_io::Keeper;
use ob_rows::is_there;
use ob_schema::ParentInfo;

/// The parents of a model for whose fields something is given.
pub(crate) fn given_parents(
    maker: &Maker<'_>,
    model: ModelNo,
    given: &[(FieldNo, Value)],
) -> Result<Vec<ParentInfo>, NoMemory>
    requires model { HasModel maker.now.schema.now model }
    requires typed { All (IsTyped maker.now.schema.now model) given.now }
    ensures parents { IfOk result (λ parents. parents.items ≡ given_parents maker.entry.now.schema.now model given.now) }
    ensures within { IfOk result (λ parents. All (IsParentIn maker.entry.now.schema.now model) parents.items) }
{
    let mut parents = Vec::new(maker.alloc);
    let all = maker.schema.model_info(model).inherits.as_slice();
    for parent in all {
        let values = behind(maker, model, *parent, given)?;
        if !values.is_empty() {
            parents.push(*parent)?;
        }
    }
    Ok(parents)
}

/// The rows that a change touches, row by row, each followed by those of the given parents.
pub(crate) fn touched_rows<K: Keeper>(
    maker: &Maker<'_>,
    engine: &mut Engine<'_, K>,
    model: ModelNo,
    parents: &[ParentInfo],
    change: &Change,
) -> Result<Vec<RowKey>, Refusal>
    requires schema { engine.old.held.models ≡ maker.now.schema.now }
    requires model { HasModel engine.old.held.models model }
    requires parents { parents.now ≡ given_parents engine.old.held.models model change.now.object.values }
    requires within { All (IsParentIn engine.old.held.models model) parents.now }
    requires typed { All (IsTyped engine.old.held.models model) change.now.object.values }
    requires rest { engine.old.held.phase ≡ phase.Settled }
    ensures told { IfOk result (λ rows. (tables : Tables) → RestsAt (K.kept engine.old.keeper.now) engine.old.held tables
        → rows.items ≡ touched engine.old.held.models model change.now.object.values tables change.now.ids.items) }
    // Where the named rows are there all of them are.
    ensures known { IfOk result (λ rows. OfAllTold (TellsFacts (K.kept engine.old.keeper.now) engine.old.held)
        (λ told. AreKnown (rows_named model change.now.ids.items) told → AreKnown rows.items told)) }
    ensures models { IfOk result (λ rows. All (λ row. Contains (touched_models engine.old.held.models model change.now.object.values) row.model) rows.items) }
    ensures causes { IfErr result (Refuses (Rose (K.faults engine.old.keeper.now) (K.faults engine.new.keeper.now)) (λ _. ⊥)) }
    ensures same { Stays (K.kept engine.old.keeper.now) engine.old.held (K.kept engine.new.keeper.now) engine.new.held }
    ensures count { K.faults engine.old.keeper.now ≤ K.faults engine.new.keeper.now }
    ensures lender { engine.new.keeper.ghost_name ≡ engine.old.keeper.ghost_name }
{
    let mut rows = Vec::new(maker.alloc);
    let ids = change.ids.as_slice();
    let given = change.object.values.as_slice();
    for id in ids {
        push_touched(engine, &mut rows, model, *id, parents, given)?;
    }
    Ok(rows)
}

/// Puts a row, and where it is there those of the given parents that are changed with it, behind
/// others.
fn push_touched<K: Keeper>(
    engine: &mut Engine<'_, K>,
    rows: &mut Vec<RowKey>,
    model: ModelNo,
    id: u64,
    parents: &[ParentInfo],
    given: &[(FieldNo, Value)],
) -> Result<(), Refusal>
    requires model { HasModel engine.old.held.models model }
    requires parents { parents.now ≡ given_parents engine.old.held.models model given.now }
    requires within { All (IsParentIn engine.old.held.models model) parents.now }
    requires typed { All (IsTyped engine.old.held.models model) given.now }
    requires rest { engine.old.held.phase ≡ phase.Settled }
    ensures told { OnOk result ((tables : Tables) → RestsAt (K.kept engine.old.keeper.now) engine.old.held tables
        → rows.new.items ≡ rows.old.items ++ (key_of model (record { 0 = id }) ∷ parent_rows engine.old.held.models model given.now tables id)) }
    ensures known { OnOk result (OfAllTold (TellsFacts (K.kept engine.old.keeper.now) engine.old.held)
        (λ told. told.knows model (record { 0 = id }) ≡ true → AreKnown rows.old.items told → AreKnown rows.new.items told)) }
    ensures models { OnOk result ((ms : List ModelNo) → Contains ms model → AreOfModels ms parents.now → All (λ row. Contains ms row.model) rows.old.items → All (λ row. Contains ms row.model) rows.new.items) }
    ensures causes { IfErr result (Refuses (Rose (K.faults engine.old.keeper.now) (K.faults engine.new.keeper.now)) (λ _. ⊥)) }
    ensures same { Stays (K.kept engine.old.keeper.now) engine.old.held (K.kept engine.new.keeper.now) engine.new.held }
    ensures count { K.faults engine.old.keeper.now ≤ K.faults engine.new.keeper.now }
    ensures lender { engine.new.keeper.ghost_name ≡ engine.old.keeper.ghost_name }
{
    let own = RecId(id);
    rows.push(RowKey { model, id: own })?;
    let there = is_there(engine, model, own)?;
    if !there {
        return Ok(());
    }
    push_parents(engine, rows, model, id, parents, given)
}

/// Puts those of parents, where there are any, behind others.
fn push_parents<K: Keeper>(
    engine: &mut Engine<'_, K>,
    rows: &mut Vec<RowKey>,
    model: ModelNo,
    id: u64,
    parents: &[ParentInfo],
    given: &[(FieldNo, Value)],
) -> Result<(), Refusal>
    requires within { All (IsParentIn engine.old.held.models model) parents.now }
    requires typed { All (IsTyped engine.old.held.models model) given.now }
    requires rest { engine.old.held.phase ≡ phase.Settled }
    ensures told { OnOk result ((tables : Tables) → RestsAt (K.kept engine.old.keeper.now) engine.old.held tables
        → rows.new.items ≡ rows.old.items ++ filter_map (parent_row engine.old.held.models model given.now tables id) parents.now) }
    ensures known { OnOk result (OfAllTold (TellsFacts (K.kept engine.old.keeper.now) engine.old.held) (λ told. AreKnown rows.old.items told → AreKnown rows.new.items told)) }
    ensures models { OnOk result ((ms : List ModelNo) → AreOfModels ms parents.now → All (λ row. Contains ms row.model) rows.old.items → All (λ row. Contains ms row.model) rows.new.items) }
    ensures causes { IfErr result (Refuses (Rose (K.faults engine.old.keeper.now) (K.faults engine.new.keeper.now)) (λ _. ⊥)) }
    ensures same { Stays (K.kept engine.old.keeper.now) engine.old.held (K.kept engine.new.keeper.now) engine.new.held }
    ensures count { K.faults engine.old.keeper.now ≤ K.faults engine.new.keeper.now }
    ensures lender { engine.new.keeper.ghost_name ≡ engine.old.keeper.ghost_name }
{
    for parent in parents {
        push_parent(engine, rows, model, id, *parent, given)?;
    }
    Ok(())
}

/// Puts the row of a parent that a row's link names behind the change, where it is there, behind
/// others.
fn push_parent<K: Keeper>(
    engine: &mut Engine<'_, K>,
    rows: &mut Vec<RowKey>,
    model: ModelNo,
    id: u64,
    parent: ParentInfo,
    given: &[(FieldNo, Value)],
) -> Result<(), Refusal>
    requires within { IsParentIn engine.old.held.models model parent }
    requires typed { All (IsTyped engine.old.held.models model) given.now }
    requires rest { engine.old.held.phase ≡ phase.Settled }
    ensures told { OnOk result ((tables : Tables) → RestsAt (K.kept engine.old.keeper.now) engine.old.held tables
        → rows.new.items ≡ rows.old.items ++ option_to_list (parent_row engine.old.held.models model given.now tables id parent)) }
    ensures known { OnOk result (OfAllTold (TellsFacts (K.kept engine.old.keeper.now) engine.old.held) (λ told. AreKnown rows.old.items told → AreKnown rows.new.items told)) }
    ensures models { OnOk result ((ms : List ModelNo) → Contains ms parent.model → All (λ row. Contains ms row.model) rows.old.items → All (λ row. Contains ms row.model) rows.new.items) }
    ensures causes { IfErr result (Refuses (Rose (K.faults engine.old.keeper.now) (K.faults engine.new.keeper.now)) (λ _. ⊥)) }
    ensures same { Stays (K.kept engine.old.keeper.now) engine.old.held (K.kept engine.new.keeper.now) engine.new.held }
    ensures count { K.faults engine.old.keeper.now ≤ K.faults engine.new.keeper.now }
    ensures lender { engine.new.keeper.ghost_name ≡ engine.old.keeper.ghost_name }
{
    let linked = linked_row(engine, model, id, parent, given)?;
    let Some(row) = linked else {
        return Ok(());
    };
    let there = is_there(engine, parent.model, row)?;
    if !there {
        return Ok(());
    }
    rows.push(RowKey {
        model: parent.model,
        id: row,
    })?;
    Ok(())
}
