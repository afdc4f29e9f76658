//! Which rows go with the named ones, and which cells name any of these. Each row is asked once
//! for those that name it. How rows are taken stands in `taking`, what becomes of the cells in
//! `leaving`.

ghost use Rattle.std.specs.Prelude.{◌≡◌, ◌≤◌, ◌↔◌, All, Any, Contains, IfErr, IfOk, IsTrue};
ghost use Rattle.ob_base.specs.Limits.{max_id};
ghost use Rattle.ob_base.specs.declared.id.RowKey.{RowKey};
ghost use Rattle.ob_cache.specs.Calls.{Refuses};
ghost use Rattle.ob_cache.specs.Stages.{IsKeptRelation};
ghost use Rattle.ob_cache.specs.Standing.{RestsAt, Stays};
ghost use Rattle.ob_cache.specs.declared.stages.Phase.TheVariants as phase;
ghost use Rattle.ob_io.specs.Cause.{Rose};
ghost use Rattle.ob_unlink.specs.DeletionSteps.{AddsCells, AreFit, IsDeletion, KeepsCount, LeadsBy, TakesBy, TakesMore};
ghost use Rattle.ob_rows.specs.Relations.{IsRelation};
ghost use Rattle.ob_rows.specs.Rights.{rows_named};
ghost use Rattle.ob_rows.specs.declared.relations.KeptRelation.{KeptRelation};
ghost use Rattle.ob_schema.specs.Models.{FieldHas, HasModel};
ghost use Rattle.ob_schema.specs.Plain.{naming};
ghost use Rattle.ob_schema.specs.Tables.{Tables};
ghost use Rattle.ob_tables.specs.Fitting.{IsFitId};

use crate::unlinking::taking::{add_found, take_named};
use ob_base::{Cell, ModelNo, NoMemory, RecId, RefList, Refusal, RowKey};
use ob_cache::Engine;
use ob_io::Keeper;
use ob_rows::{KeptRelation, kept_relations};
use std::alloc::Global;
use std::collections::BTreeSet;

/// The rows that go, and the cells that name any of them.
#[derive(Drop)]
pub(crate) struct Deletion {
    pub(crate) rows: BTreeSet<RowKey>,
    pub(crate) cells: BTreeSet<Cell>,
}

/// What goes with the named rows of a model.
pub(crate) fn deletion_of<K: Keeper>(
    alloc: Global,
    engine: &mut Engine<'_, K>,
    model: ModelNo,
    ids: &[u64],
) -> Result<Deletion, Refusal>
    requires model { HasModel engine.old.held.models model }
    requires low { All (λ id. id ≤ max_id) ids.now }
    requires rest { engine.old.held.phase ≡ phase.Settled }
    ensures told { IfOk result (λ deletion. (tables : Tables) → RestsAt (K.kept engine.old.keeper.now) engine.old.held tables
        → IsDeletion engine.old.held.models tables (rows_named model ids.now) deletion.rows deletion.cells) }
    ensures fit { IfOk result (λ deletion. AreFit engine.old.held.models deletion.rows deletion.cells) }
    ensures causes { IfErr result (Refuses (Rose (K.faults engine.old.keeper.now) (K.faults engine.new.keeper.now)) (λ _. ⊥)) }
    ensures same { Stays (K.kept engine.old.keeper.now) engine.old.held (K.kept engine.new.keeper.now) engine.new.held }
    ensures count { K.faults engine.old.keeper.now ≤ K.faults engine.new.keeper.now }
    ensures lender { engine.new.keeper.ghost_name ≡ engine.old.keeper.ghost_name }
{
    let schema = engine.schema();
    let relations = kept_relations(alloc, schema)?;
    search(alloc, engine, relations.as_slice(), model, ids)
}

/// The same by the relations of the registry.
fn search<K: Keeper>(
    alloc: Global,
    engine: &mut Engine<'_, K>,
    relations: &[KeptRelation],
    model: ModelNo,
    ids: &[u64],
) -> Result<Deletion, Refusal>
    requires relations { (r : KeptRelation) → Contains relations.now r ↔ IsRelation engine.old.held.models r }
    requires model { HasModel engine.old.held.models model }
    requires low { All (λ id. id ≤ max_id) ids.now }
    requires rest { engine.old.held.phase ≡ phase.Settled }
    ensures told { IfOk result (λ deletion. (tables : Tables) → RestsAt (K.kept engine.old.keeper.now) engine.old.held tables
        → IsDeletion engine.old.held.models tables (rows_named model ids.now) deletion.rows deletion.cells) }
    ensures fit { IfOk result (λ deletion. AreFit engine.old.held.models deletion.rows deletion.cells) }
    ensures causes { IfErr result (Refuses (Rose (K.faults engine.old.keeper.now) (K.faults engine.new.keeper.now)) (λ _. ⊥)) }
    ensures same { Stays (K.kept engine.old.keeper.now) engine.old.held (K.kept engine.new.keeper.now) engine.new.held }
    ensures count { K.faults engine.old.keeper.now ≤ K.faults engine.new.keeper.now }
    ensures lender { engine.new.keeper.ghost_name ≡ engine.old.keeper.ghost_name }
{
    let mut rows = BTreeSet::new(alloc);
    let mut waiting = Vec::new(alloc);
    take_named(model, ids, &mut rows, &mut waiting)?;
    let mut cells = BTreeSet::new(alloc);
    while let Some(row) = waiting.pop() {
        add_holders(engine, relations, row, &mut rows, &mut waiting, &mut cells)?;
        // The bound of each such set.
        let _ = rows.len();
    }
    Ok(Deletion { rows, cells })
}

/// Adds the cells that name a row, and takes the rows that go with it.
fn add_holders<K: Keeper>(
    engine: &mut Engine<'_, K>,
    relations: &[KeptRelation],
    row: RowKey,
    rows: &mut BTreeSet<RowKey>,
    waiting: &mut Vec<RowKey>,
    cells: &mut BTreeSet<Cell>,
) -> Result<(), Refusal>
    requires relations { All (IsRelation engine.old.held.models) relations.now }
    requires rest { engine.old.held.phase ≡ phase.Settled }
    ensures rows { IfOk result (λ _. (tables : Tables) → RestsAt (K.kept engine.old.keeper.now) engine.old.held tables
        → TakesMore rows.old rows.new waiting.old.items waiting.new.items (λ other. Any (λ relation. TakesBy tables relation row other) relations.now)) }
    ensures cells { IfOk result (λ _. (tables : Tables) → RestsAt (K.kept engine.old.keeper.now) engine.old.held tables
        → AddsCells cells.old cells.new (λ cell. Any (λ relation. LeadsBy tables relation row cell) relations.now)) }
    ensures kept_count { IfOk result (λ _. KeepsCount rows.old rows.new waiting.old.items waiting.new.items) }
    ensures fit { IfOk result (λ _. AreFit engine.old.held.models rows.old cells.old → AreFit engine.old.held.models rows.new cells.new) }
    ensures causes { IfErr result (Refuses (Rose (K.faults engine.old.keeper.now) (K.faults engine.new.keeper.now)) (λ _. ⊥)) }
    ensures same { Stays (K.kept engine.old.keeper.now) engine.old.held (K.kept engine.new.keeper.now) engine.new.held }
    ensures count { K.faults engine.old.keeper.now ≤ K.faults engine.new.keeper.now }
    ensures lender { engine.new.keeper.ghost_name ≡ engine.old.keeper.ghost_name }
{
    for relation in relations {
        add_by(engine, *relation, row, rows, waiting, cells)?;
    }
    Ok(())
}

/// The same by one relation.
fn add_by<K: Keeper>(
    engine: &mut Engine<'_, K>,
    relation: KeptRelation,
    row: RowKey,
    rows: &mut BTreeSet<RowKey>,
    waiting: &mut Vec<RowKey>,
    cells: &mut BTreeSet<Cell>,
) -> Result<(), Refusal>
    requires relation { IsRelation engine.old.held.models relation }
    requires rest { engine.old.held.phase ≡ phase.Settled }
    ensures rows { IfOk result (λ _. (tables : Tables) → RestsAt (K.kept engine.old.keeper.now) engine.old.held tables
        → TakesMore rows.old rows.new waiting.old.items waiting.new.items (TakesBy tables relation row)) }
    ensures cells { IfOk result (λ _. (tables : Tables) → RestsAt (K.kept engine.old.keeper.now) engine.old.held tables
        → AddsCells cells.old cells.new (LeadsBy tables relation row)) }
    ensures kept_count { IfOk result (λ _. KeepsCount rows.old rows.new waiting.old.items waiting.new.items) }
    ensures fit { IfOk result (λ _. AreFit engine.old.held.models rows.old cells.old → AreFit engine.old.held.models rows.new cells.new) }
    ensures causes { IfErr result (Refuses (Rose (K.faults engine.old.keeper.now) (K.faults engine.new.keeper.now)) (λ _. ⊥)) }
    ensures same { Stays (K.kept engine.old.keeper.now) engine.old.held (K.kept engine.new.keeper.now) engine.new.held }
    ensures count { K.faults engine.old.keeper.now ≤ K.faults engine.new.keeper.now }
    ensures lender { engine.new.keeper.ghost_name ≡ engine.old.keeper.ghost_name }
{
    if !leads_to(relation, row.model) {
        return Ok(());
    }
    // The law of registries, by which the field of a relation is there.
    engine.schema().parts_fit_together();
    let ids = holders(engine, relation, row.id)?;
    add_found(relation, ids.as_slice(), rows, waiting, cells)?;
    Ok(())
}

/// Whether a relation leads to rows of a model.
fn leads_to(relation: KeptRelation, model: ModelNo) -> bool
    ensures { IsTrue result ↔ (relation.target ≡ model) }
{
    relation.target == model
}

/// The rows that name one by a relation.
fn holders<K: Keeper>(
    engine: &mut Engine<'_, K>,
    relation: KeptRelation,
    id: RecId,
) -> Result<RefList, Refusal>
    requires relation { FieldHas engine.old.held.models IsKeptRelation relation.model relation.field }
    requires rest { engine.old.held.phase ≡ phase.Settled }
    ensures told { IfOk result (λ ids. (tables : Tables) → RestsAt (K.kept engine.old.keeper.now) engine.old.held tables
        → ids ≡ naming tables relation.model relation.field id) }
    ensures fit { IfOk result (All IsFitId) }
    ensures causes { IfErr result (Refuses (Rose (K.faults engine.old.keeper.now) (K.faults engine.new.keeper.now)) (λ _. ⊥)) }
    ensures same { Stays (K.kept engine.old.keeper.now) engine.old.held (K.kept engine.new.keeper.now) engine.new.held }
    ensures count { K.faults engine.old.keeper.now ≤ K.faults engine.new.keeper.now }
    ensures lender { engine.new.keeper.ghost_name ≡ engine.old.keeper.ghost_name }
{
    // The law of registries, by which each row has an id of 1 to the limit: one page has all.
    engine.schema().parts_fit_together();
    Ok(engine.holders(relation.model, relation.field, id, RecId(0), u32::MAX)?)
}

/// The rows of a set as a list.
pub(crate) fn listed_rows(alloc: Global, rows: &BTreeSet<RowKey>) -> Result<Vec<RowKey>, NoMemory>
    ensures { IfOk result (λ list. list.items ≡ rows.now.keys) }
{
    Ok(rows.iter().copied().collect(alloc)?)
}

/// The cells of a set as a list.
pub(crate) fn listed_cells(alloc: Global, cells: &BTreeSet<Cell>) -> Result<Vec<Cell>, NoMemory>
    ensures { IfOk result (λ list. list.items ≡ cells.now.keys) }
{
    Ok(cells.iter().copied().collect(alloc)?)
}
