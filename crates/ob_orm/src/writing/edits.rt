//! What a write sets, as edits: in each of the rows, and for what is given behind a link to a parent
//! in the row that the link names. Where the object gives no link the engine is asked for the one
//! that the row has, before anything is staged, and only where something is given behind it. What is
//! set is `edits_of`: a change begins there.

ghost use Rattle.std.specs.Prelude.{◌≡◌, ◌≤◌, ◌++◌, All, IfErr, IfOk, IfSome, OnOk, false, option_and_then};
ghost use Rattle.ob_base.specs.Limits.{max_id};
ghost use Rattle.ob_base.specs.Times.{IsMoment};
ghost use Rattle.ob_cache.specs.Calls.{Refuses};
ghost use Rattle.ob_cache.specs.Standing.{RestsAt, Stays};
ghost use Rattle.ob_cache.specs.declared.stages.Phase.TheVariants as phase;
ghost use Rattle.ob_io.specs.Cause.{Rose};
ghost use Rattle.ob_orm.specs.NewRows as spec;
ghost use Rattle.ob_orm.specs.NewRows.{row_edits, row_named};
ghost use Rattle.ob_orm.specs.NewRowSteps.{IsTyped};
ghost use Rattle.ob_orm.specs.Touched.{linked_in};
ghost use Rattle.ob_orm.specs.Write.{edits_of, edits_of_row, parent_edits};
ghost use Rattle.ob_orm.specs.WriteSteps.{SetsFit, asked_change};
ghost use Rattle.ob_schema.specs.Models.{HasModel, IsParentIn};
ghost use Rattle.ob_schema.specs.Plain.{plain_at};
ghost use Rattle.ob_schema.specs.Tables.{Tables};
ghost use Rattle.ob_tables.specs.Fitting.{IsFitId};

use crate::making::Maker;
use crate::making::filling::{filled, value_for};
use crate::making::parents::behind;
use crate::writing::change::Change;
use crate::writing::push_row_edits;
use ob_base::limits::MAX_ID;
use ob_base::{Cell, FieldNo, ModelNo, NoMemory, RecId, Refusal, Value};
use ob_cache::Engine;
use ob_io::Keeper;
use ob_rows::settled_value;
use ob_schema::ParentInfo;
use ob_tables::Edit;

/// The edits of a change, row by row.
pub(crate) fn change_edits<K: Keeper>(
    maker: &Maker<'_>,
    engine: &mut Engine<'_, K>,
    model: ModelNo,
    change: &Change,
) -> Result<Vec<Edit>, Refusal>
    requires schema { engine.old.held.models ≡ maker.now.schema.now }
    requires model { HasModel maker.now.schema.now model }
    requires moment { IsMoment maker.now.author.now }
    requires typed { All (IsTyped maker.now.schema.now model) change.now.object.values }
    requires low { All (λ id. id ≤ max_id) change.now.ids.items }
    requires rest { engine.old.held.phase ≡ phase.Settled }
    ensures told { IfOk result (λ edits. (tables : Tables) → RestsAt (K.kept engine.old.keeper.now) engine.old.held tables
        → edits.items ≡ edits_of maker.entry.now.schema.now maker.entry.now.author model tables (asked_change change.now)) }
    ensures fit { IfOk result (λ edits. All (SetsFit maker.entry.now.schema.now) edits.items) }
    ensures causes { IfErr result (Refuses (Rose (K.faults engine.old.keeper.now) (K.faults engine.new.keeper.now)) (λ _. ⊥)) }
    ensures same { Stays (K.kept engine.old.keeper.now) engine.old.held (K.kept engine.new.keeper.now) engine.new.held }
    ensures count { K.faults engine.old.keeper.now ≤ K.faults engine.new.keeper.now }
    ensures lender { engine.new.keeper.ghost_name ≡ engine.old.keeper.ghost_name }
{
    let mut edits = Vec::new(maker.alloc);
    let ids = change.ids.as_slice();
    let given = change.object.values.as_slice();
    for id in ids {
        push_row(maker, engine, &mut edits, model, *id, given)?;
    }
    Ok(edits)
}

/// Puts the edits of one row behind others: its own, then those of its parents.
fn push_row<K: Keeper>(
    maker: &Maker<'_>,
    engine: &mut Engine<'_, K>,
    edits: &mut Vec<Edit>,
    model: ModelNo,
    id: u64,
    given: &[(FieldNo, Value)],
) -> Result<(), Refusal>
    requires schema { engine.old.held.models ≡ maker.now.schema.now }
    requires model { HasModel maker.now.schema.now model }
    requires moment { IsMoment maker.now.author.now }
    requires typed { All (IsTyped maker.now.schema.now model) given.now }
    requires low { id ≤ max_id }
    requires rest { engine.old.held.phase ≡ phase.Settled }
    ensures told { OnOk result ((tables : Tables) → RestsAt (K.kept engine.old.keeper.now) engine.old.held tables
        → edits.new.items ≡ edits.old.items ++ edits_of_row maker.entry.now.schema.now maker.entry.now.author model tables given.now id) }
    ensures fit { OnOk result (All (SetsFit maker.entry.now.schema.now) edits.old.items → All (SetsFit maker.entry.now.schema.now) edits.new.items) }
    ensures causes { IfErr result (Refuses (Rose (K.faults engine.old.keeper.now) (K.faults engine.new.keeper.now)) (λ _. ⊥)) }
    ensures same { Stays (K.kept engine.old.keeper.now) engine.old.held (K.kept engine.new.keeper.now) engine.new.held }
    ensures count { K.faults engine.old.keeper.now ≤ K.faults engine.new.keeper.now }
    ensures lender { engine.new.keeper.ghost_name ≡ engine.old.keeper.ghost_name }
{
    let Ok(()) = push_filled(maker, edits, model, RecId(id), given) else {
        return Err(Refusal::NoMemory);
    };
    let parents = maker.schema.model_info(model).inherits.as_slice();
    for parent in parents {
        push_parent(maker, engine, edits, model, id, *parent, given)?;
    }
    Ok(())
}

/// Puts the edits that set what is given in a row, with the stamps of its change, behind others.
fn push_filled(
    maker: &Maker<'_>,
    edits: &mut Vec<Edit>,
    model: ModelNo,
    id: RecId,
    given: &[(FieldNo, Value)],
) -> Result<(), NoMemory>
    requires model { HasModel maker.now.schema.now model }
    requires moment { IsMoment maker.now.author.now }
    requires typed { All (IsTyped maker.now.schema.now model) given.now }
    requires low { IsFitId id }
    ensures edits { OnOk result (edits.new.items ≡ edits.old.items ++ row_edits model (spec.filled maker.entry.now.schema.now maker.entry.now.author false model given.now) id.0) }
    ensures fit { OnOk result (All (SetsFit maker.entry.now.schema.now) edits.old.items → All (SetsFit maker.entry.now.schema.now) edits.new.items) }
{
    let changed = filled(maker, false, model, given)?;
    push_row_edits(maker.alloc, edits, model, id.0, changed.as_slice())
}

/// Puts the edits of a row's parent behind others.
fn push_parent<K: Keeper>(
    maker: &Maker<'_>,
    engine: &mut Engine<'_, K>,
    edits: &mut Vec<Edit>,
    model: ModelNo,
    id: u64,
    parent: ParentInfo,
    given: &[(FieldNo, Value)],
) -> Result<(), Refusal>
    requires schema { engine.old.held.models ≡ maker.now.schema.now }
    requires model { HasModel maker.now.schema.now model }
    requires parent { IsParentIn maker.now.schema.now model parent }
    requires moment { IsMoment maker.now.author.now }
    requires typed { All (IsTyped maker.now.schema.now model) given.now }
    requires rest { engine.old.held.phase ≡ phase.Settled }
    ensures told { OnOk result ((tables : Tables) → RestsAt (K.kept engine.old.keeper.now) engine.old.held tables
        → edits.new.items ≡ edits.old.items ++ parent_edits maker.entry.now.schema.now maker.entry.now.author model tables given.now id parent) }
    ensures fit { OnOk result (All (SetsFit maker.entry.now.schema.now) edits.old.items → All (SetsFit maker.entry.now.schema.now) edits.new.items) }
    ensures causes { IfErr result (Refuses (Rose (K.faults engine.old.keeper.now) (K.faults engine.new.keeper.now)) (λ _. ⊥)) }
    ensures same { Stays (K.kept engine.old.keeper.now) engine.old.held (K.kept engine.new.keeper.now) engine.new.held }
    ensures count { K.faults engine.old.keeper.now ≤ K.faults engine.new.keeper.now }
    ensures lender { engine.new.keeper.ghost_name ≡ engine.old.keeper.ghost_name }
{
    let Ok(values) = behind(maker, model, parent, given) else {
        return Err(Refusal::NoMemory);
    };
    let values = values.as_slice();
    if values.is_empty() {
        return Ok(());
    }
    let linked = linked_row(engine, model, id, parent, given)?;
    let Some(row) = linked else {
        return Ok(());
    };
    match push_filled(maker, edits, parent.model, row, values) {
        Ok(()) => Ok(()),
        Err(NoMemory) => Err(Refusal::NoMemory),
    }
}

/// The row that a row's link to a parent names behind a change of what is given: the given one, else
/// that which the engine settled last; none where neither names one, or the row isn't there. `given`
/// has values by the numbers of the model's fields. Refused only where the keeper fails or memory is
/// wanting. The caller sees to it that the engine has settled, that the parent is one of the model,
/// and that each value is one of its field. The engine stays as it was.
pub fn linked_row<K: Keeper>(
    engine: &mut Engine<'_, K>,
    model: ModelNo,
    id: u64,
    parent: ParentInfo,
    given: &[(FieldNo, Value)],
) -> Result<Option<RecId>, Refusal>
    requires parent { IsParentIn engine.old.held.models model parent }
    requires typed { All (IsTyped engine.old.held.models model) given.now }
    requires rest { engine.old.held.phase ≡ phase.Settled }
    ensures told { IfOk result (λ row. (tables : Tables) → RestsAt (K.kept engine.old.keeper.now) engine.old.held tables
        → row ≡ linked_in engine.old.held.models model tables given.now id parent.link) }
    ensures fit { IfOk result (λ row. IfSome row IsFitId) }
    ensures causes { IfErr result (Refuses (Rose (K.faults engine.old.keeper.now) (K.faults engine.new.keeper.now)) (λ _. ⊥)) }
    ensures same { Stays (K.kept engine.old.keeper.now) engine.old.held (K.kept engine.new.keeper.now) engine.new.held }
    ensures count { K.faults engine.old.keeper.now ≤ K.faults engine.new.keeper.now }
    ensures lender { engine.new.keeper.ghost_name ≡ engine.old.keeper.ghost_name }
{
    if let Some(value) = value_for(given, parent.link) {
        return Ok(row_named(value));
    }
    let cell = Cell {
        model,
        id: RecId(id),
        field: parent.link,
    };
    kept_row(engine, parent, cell)
}

/// The row that the cell of a link to a parent names, as the engine settled it.
fn kept_row<K: Keeper>(
    engine: &mut Engine<'_, K>,
    parent: ParentInfo,
    cell: Cell,
) -> Result<Option<RecId>, Refusal>
    requires parent { IsParentIn engine.old.held.models cell.model parent }
    requires link { cell.field ≡ parent.link }
    requires rest { engine.old.held.phase ≡ phase.Settled }
    ensures told { IfOk result (λ row. (tables : Tables) → RestsAt (K.kept engine.old.keeper.now) engine.old.held tables
        → row ≡ option_and_then row_named (plain_at tables engine.old.held.models cell)) }
    ensures fit { IfOk result (λ row. IfSome row IsFitId) }
    ensures causes { IfErr result (Refuses (Rose (K.faults engine.old.keeper.now) (K.faults engine.new.keeper.now)) (λ _. ⊥)) }
    ensures same { Stays (K.kept engine.old.keeper.now) engine.old.held (K.kept engine.new.keeper.now) engine.new.held }
    ensures count { K.faults engine.old.keeper.now ≤ K.faults engine.new.keeper.now }
    ensures lender { engine.new.keeper.ghost_name ≡ engine.old.keeper.ghost_name }
{
    // The law of registries, by which a link leads to its parent.
    engine.schema().parts_fit_together();
    let value = settled_value(engine, cell)?;
    Ok(row_within(&value))
}

/// The row that a value names, where its id is within the limit of ids: that of a row that is there
/// is.
fn row_within(value: &Option<Value>) -> Option<RecId>
    ensures named { IfSome (option_and_then row_named value.now) (λ row. row.0 ≤ max_id) → result ≡ option_and_then row_named value.now }
    ensures fit { IfSome result IsFitId }
{
    let Some(Value::Ref(row)) = value else {
        return None;
    };
    if row.0 <= MAX_ID { Some(*row) } else { None }
}

/// The row that a value names, if it is one alone.
fn row_named(value: &Value) -> Option<RecId>
    ensures { result ≡ row_named value.now }
{
    match value {
        Value::Ref(id) => Some(*id),
        _ => None,
    }
}
