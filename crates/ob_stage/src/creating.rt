//! `stage_create`: a row of given values behind what is staged already, with rows of those of its
//! parents that no value names. All edits are gathered first, by the next ids of the staged tables,
//! and then staged at once. Which they are is `made_row`, as of a create: a change begins there.

ghost use Rattle.std.specs.Prelude.{◌≡◌, ◌≤◌, ◌<◌, ◌+◌, ◌-◌, ◌^◌, ◌++◌, ◌∷◌, [], ℕ, suc, All, IfOk, IsErrOf, IsSome, OnErr, OnOk, length};
ghost use Rattle.ob_base.specs.Times.{IsMoment};
ghost use Rattle.ob_cache.specs.Stages.{IsUsable, with_edits};
ghost use Rattle.ob_cache.specs.Standing.{NextIdsUpTo, OfStages, Stands, Stays, max_next_id};
ghost use Rattle.ob_cache.specs.declared.stages.Phase.TheVariants as phase;
ghost use Rattle.ob_io.specs.Cause.{HasCause};
ghost use Rattle.ob_rows.specs.Author.{author_by};
ghost use Rattle.ob_orm.specs.NewRows as spec;
ghost use Rattle.ob_orm.specs.NewRows.{linked, made_row, parents_of, with_parent, with_parents};
ghost use Rattle.ob_orm.specs.NewRowSteps.{IsTyped, MayFit};
ghost use Rattle.ob_schema.specs.Models.{HasModel, IsParentIn};
ghost use Rattle.ob_schema.specs.Tables.{next_of};
ghost use Rattle.ob_stage.specs.Stage.{AreLinked, KeepsFlushed};
ghost use Rattle.ob_stage.specs.StageSteps.{LeaveRoom, MakesUpTo, RaisesBound};
ghost use Rattle.ob_tables.specs.After.{after};
ghost use Rattle.ob_tables.specs.Fitting.{IsFitId};

use crate::next_ids::next_id;
use ob_base::{FieldNo, ModelNo, NoMemory, RecId, Value};
use ob_cache::Engine;
use ob_call::Call;
use ob_io::{KeepFault, Keeper};
use ob_orm::{Maker, behind, filled, linked, parent_changes};
use ob_rows::Author;
use ob_schema::ParentInfo;
use ob_tables::Edit;
use std::alloc::Global;

/// A row that is made: the edits, and its id.
#[derive(Drop)]
struct MadeRow {
    edits: Vec<Edit>,
    id: RecId,
}

/// What is begun of a row: the edits that make its parents, and what is given with the links to
/// them.
#[derive(Drop)]
struct Begun {
    edits: Vec<Edit>,
    given: Vec<(FieldNo, Value)>,
}

/// Stages the edits of a create of given values, by the numbers of the model's fields, behind those
/// that are staged already, by the call's caller at its moment, and answers the row's id. It tests
/// and settles nothing. After a fault only `forget` and `close` of the engine may be called. The
/// caller sees to it that the engine may be asked, that the registry has the model, that each value
/// is one of its field, that the moment lies within the years 0001 to 9999, and that next ids leave
/// room for the row and one more for each parent, none past 2^64 - 1.
pub fn stage_create<K: Keeper>(
    alloc: Global,
    engine: &mut Engine<'_, K>,
    call: &Call<'_>,
    model: ModelNo,
    values: &[(FieldNo, Value)],
) -> Result<RecId, KeepFault>
    requires usable { IsUsable engine.old.held.phase }
    requires model { HasModel engine.old.held.models model }
    requires moment { IsMoment call.now.now }
    requires typed { All (IsTyped engine.old.held.models model) values.now }
    requires next_ids { NextIdsUpTo (2 ^ 64 - 1 - suc (length (parents_of engine.old.held.models model))) engine.old.held }

    // The edits of a create are staged, and no others.
    ensures staged { IfOk result (λ id. OfStages (K.kept engine.old.keeper.now) engine.old.held (λ at.
        let made = made_row at.models (author_by call.entry.now) at.staged model values.now in
        (id.0 ≡ made.id) × Stands (K.kept engine.new.keeper.now) engine.new.held (with_edits at made.edits))) }
    ensures phase { OnOk result (engine.new.held.phase ≡ phase.Staged) }

    // Next ids rise by no more than the rows that are made, and where that is one it is told.
    ensures fit { IfOk result IsFitId }
    ensures next_ids { OnOk result ((bound : ℕ) → max_next_id ≤ bound → NextIdsUpTo bound engine.old.held
        → NextIdsUpTo (bound + suc (length (parents_of engine.old.held.models model))) engine.new.held) }
    ensures alone { IfOk result (λ id. AreLinked values.now (parents_of engine.old.held.models model) → (bound : ℕ) → max_next_id ≤ bound → id.0 < bound
        → NextIdsUpTo bound engine.old.held → NextIdsUpTo bound engine.new.held) }

    // After a fault `forget` leads back to what was kept last.
    ensures left { OnErr result (KeepsFlushed (K.kept engine.old.keeper.now) engine.old.held (K.kept engine.new.keeper.now) engine.new.held) }
    ensures cause { HasCause (K.faults engine.old.keeper.now) (K.faults engine.new.keeper.now) (IsErrOf result KeepFault.Failed) }
    ensures models { engine.new.held.models ≡ engine.old.held.models }
    ensures same { K.kept engine.new.keeper.now ≡ K.kept engine.old.keeper.now }
    ensures lender { engine.new.keeper.ghost_name ≡ engine.old.keeper.ghost_name }
{
    // The law of registries, by which a model has few parents.
    engine.schema().parts_fit_together();
    let maker = Maker {
        alloc,
        schema: engine.schema(),
        author: Author {
            user: call.caller,
            now: call.now,
        },
    };
    let row = make_row(&maker, engine, model, values)?;
    engine.stage(row.edits.as_slice())?;
    Ok(row.id)
}

/// Makes a row of given values behind what is staged already, with rows of its parents.
fn make_row<K: Keeper>(
    maker: &Maker<'_>,
    engine: &mut Engine<'_, K>,
    model: ModelNo,
    values: &[(FieldNo, Value)],
) -> Result<MadeRow, KeepFault>
    requires schema { engine.old.held.models ≡ maker.now.schema.now }
    requires usable { IsUsable engine.old.held.phase }
    requires model { HasModel maker.now.schema.now model }
    requires moment { IsMoment maker.now.author.now }
    requires typed { All (IsTyped maker.now.schema.now model) values.now }
    requires room { LeaveRoom (suc (length (parents_of maker.now.schema.now model))) engine.old.held [] }
    ensures made { IfOk result (λ row. OfStages (K.kept engine.old.keeper.now) engine.old.held (λ at.
        let made = made_row maker.entry.now.schema.now maker.entry.now.author at.staged model values.now in
        (row.edits.items ≡ made.edits) × (row.id.0 ≡ made.id))) }
    ensures low { IfOk result (λ row. IsFitId row.id) }
    ensures fit { IfOk result (λ row. All (MayFit maker.entry.now.schema.now) row.edits.items) }
    ensures next_ids { IfOk result (λ row. (bound : ℕ) → max_next_id ≤ bound → NextIdsUpTo bound engine.old.held
        → MakesUpTo (bound + suc (length (parents_of maker.entry.now.schema.now model))) row.edits.items) }
    ensures alone { IfOk result (λ row. AreLinked values.now (parents_of maker.entry.now.schema.now model) → (bound : ℕ) → row.id.0 < bound → MakesUpTo bound row.edits.items) }
    ensures cause { HasCause (K.faults engine.old.keeper.now) (K.faults engine.new.keeper.now) (IsErrOf result KeepFault.Failed) }
    ensures same { Stays (K.kept engine.old.keeper.now) engine.old.held (K.kept engine.new.keeper.now) engine.new.held }
    ensures lender { engine.new.keeper.ghost_name ≡ engine.old.keeper.ghost_name }
{
    let Begun { mut edits, given } = begin_row(maker, engine, model, values)?;
    let id = make_one(maker, engine, &mut edits, model, given.as_slice())?;
    let mut changes = parent_changes(maker, model, values)?;
    match edits.append(&mut changes) {
        Ok(()) => Ok(MadeRow { edits, id }),
        Err(_) => Err(KeepFault::NoMemory),
    }
}

/// Makes the parents of a row whose links aren't given by an id, and gives the links to them.
fn begin_row<K: Keeper>(
    maker: &Maker<'_>,
    engine: &mut Engine<'_, K>,
    model: ModelNo,
    values: &[(FieldNo, Value)],
) -> Result<Begun, KeepFault>
    requires schema { engine.old.held.models ≡ maker.now.schema.now }
    requires usable { IsUsable engine.old.held.phase }
    requires model { HasModel maker.now.schema.now model }
    requires moment { IsMoment maker.now.author.now }
    requires typed { All (IsTyped maker.now.schema.now model) values.now }
    requires room { LeaveRoom (length (parents_of maker.now.schema.now model)) engine.old.held [] }
    ensures begun { IfOk result (λ begun. OfStages (K.kept engine.old.keeper.now) engine.old.held (λ at.
        let all = with_parents maker.entry.now.schema.now maker.entry.now.author at.staged model values.now (parents_of maker.entry.now.schema.now model) in
        (begun.edits.items ≡ all.edits) × (begun.given.items ≡ all.given))) }
    ensures typed { IfOk result (λ begun. All (IsTyped maker.entry.now.schema.now model) begun.given.items) }
    ensures fit { IfOk result (λ begun. All (MayFit maker.entry.now.schema.now) begun.edits.items) }
    ensures next_ids { IfOk result (λ begun. (bound : ℕ) → max_next_id ≤ bound → NextIdsUpTo bound engine.old.held
        → MakesUpTo (bound + length (parents_of maker.entry.now.schema.now model)) begun.edits.items) }
    ensures alone { IfOk result (λ begun. AreLinked values.now (parents_of maker.entry.now.schema.now model) → begun.edits.items ≡ []) }
    ensures cause { HasCause (K.faults engine.old.keeper.now) (K.faults engine.new.keeper.now) (IsErrOf result KeepFault.Failed) }
    ensures same { Stays (K.kept engine.old.keeper.now) engine.old.held (K.kept engine.new.keeper.now) engine.new.held }
    ensures lender { engine.new.keeper.ghost_name ≡ engine.old.keeper.ghost_name }
{
    let mut begun = Begun {
        edits: Vec::new(maker.alloc),
        given: copied(maker.alloc, values)?,
    };
    let parents = maker.schema.model_info(model).inherits.as_slice();
    for parent in parents {
        begin_parent(maker, engine, &mut begun, model, *parent)?;
    }
    Ok(begun)
}

/// Makes a parent of a row, where its link isn't given by an id.
fn begin_parent<K: Keeper>(
    maker: &Maker<'_>,
    engine: &mut Engine<'_, K>,
    begun: &mut Begun,
    model: ModelNo,
    parent: ParentInfo,
) -> Result<(), KeepFault>
    requires schema { engine.old.held.models ≡ maker.now.schema.now }
    requires usable { IsUsable engine.old.held.phase }
    requires model { HasModel maker.now.schema.now model }
    requires parent { IsParentIn maker.now.schema.now model parent }
    requires moment { IsMoment maker.now.author.now }
    requires typed { All (IsTyped maker.now.schema.now model) begun.old.given.items }
    requires fit { All (MayFit maker.now.schema.now) begun.old.edits.items }
    requires room { LeaveRoom 1 engine.old.held begun.old.edits.items }
    ensures begun { OnOk result (OfStages (K.kept engine.old.keeper.now) engine.old.held (λ at.
        let before = after maker.entry.now.schema.now at.staged begun.old.edits.items in
        let one = with_parent maker.entry.now.schema.now maker.entry.now.author before model begun.old.given.items parent in
        (begun.new.edits.items ≡ begun.old.edits.items ++ one.edits) × (begun.new.given.items ≡ one.given))) }
    ensures typed { OnOk result (All (IsTyped maker.entry.now.schema.now model) begun.new.given.items) }
    ensures fit { OnOk result (All (MayFit maker.entry.now.schema.now) begun.new.edits.items) }
    ensures next_ids { OnOk result (RaisesBound engine.old.held begun.old.edits.items begun.new.edits.items) }
    ensures alone { OnOk result (IsSome (linked begun.old.given.items parent.link)
        → (begun.new.edits.items ≡ begun.old.edits.items) × (begun.new.given.items ≡ begun.old.given.items)) }
    ensures cause { HasCause (K.faults engine.old.keeper.now) (K.faults engine.new.keeper.now) (IsErrOf result KeepFault.Failed) }
    ensures same { Stays (K.kept engine.old.keeper.now) engine.old.held (K.kept engine.new.keeper.now) engine.new.held }
    ensures lender { engine.new.keeper.ghost_name ≡ engine.old.keeper.ghost_name }
{
    if linked(begun.given.as_slice(), parent.link).is_some() {
        return Ok(());
    }
    let values = behind(maker, model, parent, begun.given.as_slice())?;
    let id = make_one(
        maker,
        engine,
        &mut begun.edits,
        parent.model,
        values.as_slice(),
    )?;
    begun.given.insert(0, (parent.link, Value::Ref(id)))?;
    Ok(())
}

/// Makes a row of given values, whatever its parents are, behind other edits, and answers its id.
fn make_one<K: Keeper>(
    maker: &Maker<'_>,
    engine: &mut Engine<'_, K>,
    edits: &mut Vec<Edit>,
    model: ModelNo,
    given: &[(FieldNo, Value)],
) -> Result<RecId, KeepFault>
    requires schema { engine.old.held.models ≡ maker.now.schema.now }
    requires usable { IsUsable engine.old.held.phase }
    requires model { HasModel maker.now.schema.now model }
    requires moment { IsMoment maker.now.author.now }
    requires typed { All (IsTyped maker.now.schema.now model) given.now }
    requires fit { All (MayFit maker.now.schema.now) edits.old.items }
    requires room { LeaveRoom 1 engine.old.held edits.old.items }
    ensures made { IfOk result (λ id. OfStages (K.kept engine.old.keeper.now) engine.old.held (λ at.
        let before = after maker.entry.now.schema.now at.staged edits.old.items in
        (edits.new.items ≡ edits.old.items ++ spec.making maker.entry.now.schema.now maker.entry.now.author before model given.now ∷ []) × (id.0 ≡ next_of before model))) }
    ensures low { IfOk result IsFitId }
    ensures fit { OnOk result (All (MayFit maker.entry.now.schema.now) edits.new.items) }
    ensures next_ids { OnOk result (RaisesBound engine.old.held edits.old.items edits.new.items) }
    ensures own { IfOk result (λ id. (bound : ℕ) → id.0 < bound → MakesUpTo bound edits.old.items → MakesUpTo bound edits.new.items) }
    ensures cause { HasCause (K.faults engine.old.keeper.now) (K.faults engine.new.keeper.now) (IsErrOf result KeepFault.Failed) }
    ensures same { Stays (K.kept engine.old.keeper.now) engine.old.held (K.kept engine.new.keeper.now) engine.new.held }
    ensures lender { engine.new.keeper.ghost_name ≡ engine.old.keeper.ghost_name }
{
    let id = next_id(engine, edits.as_slice(), model)?;
    let values = filled(maker, true, model, given)?;
    edits.push(Edit::Make { model, id, values })?;
    Ok(id)
}

/// The same values.
fn copied(alloc: Global, values: &[(FieldNo, Value)]) -> Result<Vec<(FieldNo, Value)>, NoMemory>
    ensures { IfOk result (λ given. given.items ≡ values.now) }
{
    let mut given = Vec::new(alloc);
    for one in values {
        given.push((one.0, one.1.try_clone(alloc)?))?;
    }
    Ok(given)
}
