//! `stage_write`: given values of a row, behind what is staged already, and of the rows of its
//! parents that its links then name. All edits are gathered first, by what the staged tables tell
//! of links and rows, and then staged at once. Which they are is `edits_of_row`, as of a write: a
//! change begins there.

ghost use Rattle.std.specs.Prelude.{◌≡◌, ◌++◌, All, IfOk, IsErrOf, OnErr, OnOk, false, option_and_then};
ghost use Rattle.ob_base.specs.Times.{IsMoment};
ghost use Rattle.ob_cache.specs.Stages.{IsUsable, with_edits};
ghost use Rattle.ob_cache.specs.Standing.{KeepsBounds, OfStages, Stands, Stays};
ghost use Rattle.ob_cache.specs.declared.stages.Phase.TheVariants as phase;
ghost use Rattle.ob_io.specs.Cause.{HasCause};
ghost use Rattle.ob_rows.specs.Author.{author_by};
ghost use Rattle.ob_orm.specs.NewRows as spec;
ghost use Rattle.ob_orm.specs.NewRows.{row_edits, row_named};
ghost use Rattle.ob_orm.specs.NewRowSteps.{IsTyped};
ghost use Rattle.ob_orm.specs.Touched.{linked_in};
ghost use Rattle.ob_orm.specs.Write.{edits_of_row, parent_edits};
ghost use Rattle.ob_orm.specs.WriteSteps.{SetsFit};
ghost use Rattle.ob_schema.specs.Models.{HasModel, IsParentIn};
ghost use Rattle.ob_stage.specs.Stage.{KeepsFlushed};
ghost use Rattle.ob_tables.specs.After.{after};

use crate::staged::{is_there, value_at};
use ob_base::{Cell, FieldNo, ModelNo, RecId, Value};
use ob_cache::Engine;
use ob_call::Call;
use ob_io::{KeepFault, Keeper};
use ob_orm::{Maker, behind, filled, push_row_edits, value_for};
use ob_rows::Author;
use ob_schema::ParentInfo;
use ob_tables::Edit;
use std::alloc::Global;

/// Stages the edits of a write of given values, by the numbers of the model's fields, to one row,
/// behind those that are staged already, by the call's caller at its moment. It tests and settles
/// nothing: a row that isn't there is left so. After a fault only `forget` and `close` of the
/// engine may be called. The caller sees to it that the engine may be asked, that the registry has
/// the model, that each value is one of its field, and that the moment lies within the years 0001
/// to 9999.
pub fn stage_write<K: Keeper>(
    alloc: Global,
    engine: &mut Engine<'_, K>,
    call: &Call<'_>,
    model: ModelNo,
    id: RecId,
    values: &[(FieldNo, Value)],
) -> Result<(), KeepFault>
    requires usable { IsUsable engine.old.held.phase }
    requires model { HasModel engine.old.held.models model }
    requires moment { IsMoment call.now.now }
    requires typed { All (IsTyped engine.old.held.models model) values.now }

    // The edits of a write are staged, and no others.
    ensures staged { OnOk result (OfStages (K.kept engine.old.keeper.now) engine.old.held (λ at.
        Stands (K.kept engine.new.keeper.now) engine.new.held (with_edits at (edits_of_row at.models (author_by call.entry.now) model at.staged values.now id.0)))) }
    ensures phase { OnOk result (engine.new.held.phase ≡ phase.Staged) }
    ensures next_ids { OnOk result (KeepsBounds engine.old.held engine.new.held) }

    // After a fault `forget` leads back to what was kept last.
    ensures left { OnErr result (KeepsFlushed (K.kept engine.old.keeper.now) engine.old.held (K.kept engine.new.keeper.now) engine.new.held) }
    ensures cause { HasCause (K.faults engine.old.keeper.now) (K.faults engine.new.keeper.now) (IsErrOf result KeepFault.Failed) }
    ensures models { engine.new.held.models ≡ engine.old.held.models }
    ensures same { K.kept engine.new.keeper.now ≡ K.kept engine.old.keeper.now }
    ensures lender { engine.new.keeper.ghost_name ≡ engine.old.keeper.ghost_name }
{
    let maker = Maker {
        alloc,
        schema: engine.schema(),
        author: Author {
            user: call.caller,
            now: call.now,
        },
    };
    let edits = change_row(&maker, engine, model, id, values)?;
    engine.stage(edits.as_slice())
}

/// The edits that set given values in a row and in those of its parents; they make of the staged
/// tables what those of a write make.
fn change_row<K: Keeper>(
    maker: &Maker<'_>,
    engine: &mut Engine<'_, K>,
    model: ModelNo,
    id: RecId,
    given: &[(FieldNo, Value)],
) -> Result<Vec<Edit>, KeepFault>
    requires schema { engine.old.held.models ≡ maker.now.schema.now }
    requires usable { IsUsable engine.old.held.phase }
    requires model { HasModel maker.now.schema.now model }
    requires moment { IsMoment maker.now.author.now }
    requires typed { All (IsTyped maker.now.schema.now model) given.now }
    ensures told { IfOk result (λ edits. OfStages (K.kept engine.old.keeper.now) engine.old.held (λ at. after maker.entry.now.schema.now at.staged edits.items
        ≡ after maker.entry.now.schema.now at.staged (edits_of_row maker.entry.now.schema.now maker.entry.now.author model at.staged given.now id.0))) }
    ensures fit { IfOk result (λ edits. All (SetsFit maker.entry.now.schema.now) edits.items) }
    ensures cause { HasCause (K.faults engine.old.keeper.now) (K.faults engine.new.keeper.now) (IsErrOf result KeepFault.Failed) }
    ensures same { Stays (K.kept engine.old.keeper.now) engine.old.held (K.kept engine.new.keeper.now) engine.new.held }
    ensures lender { engine.new.keeper.ghost_name ≡ engine.old.keeper.ghost_name }
{
    let mut edits = Vec::new(maker.alloc);
    push_changes(maker, engine, &mut edits, model, id, given)?;
    let parents = maker.schema.model_info(model).inherits.as_slice();
    for parent in parents {
        push_parent(maker, engine, &mut edits, model, id, *parent, given)?;
    }
    Ok(edits)
}

/// Puts the edits of a row's parent behind others.
fn push_parent<K: Keeper>(
    maker: &Maker<'_>,
    engine: &mut Engine<'_, K>,
    edits: &mut Vec<Edit>,
    model: ModelNo,
    id: RecId,
    parent: ParentInfo,
    given: &[(FieldNo, Value)],
) -> Result<(), KeepFault>
    requires schema { engine.old.held.models ≡ maker.now.schema.now }
    requires usable { IsUsable engine.old.held.phase }
    requires model { HasModel maker.now.schema.now model }
    requires parent { IsParentIn maker.now.schema.now model parent }
    requires moment { IsMoment maker.now.author.now }
    requires typed { All (IsTyped maker.now.schema.now model) given.now }
    requires fit { All (SetsFit maker.now.schema.now) edits.old.items }
    ensures told { OnOk result (OfStages (K.kept engine.old.keeper.now) engine.old.held (λ at. after maker.entry.now.schema.now at.staged edits.new.items
        ≡ after maker.entry.now.schema.now at.staged (edits.old.items ++ parent_edits maker.entry.now.schema.now maker.entry.now.author model at.staged given.now id.0 parent))) }
    ensures fit { OnOk result (All (SetsFit maker.entry.now.schema.now) edits.new.items) }
    ensures cause { HasCause (K.faults engine.old.keeper.now) (K.faults engine.new.keeper.now) (IsErrOf result KeepFault.Failed) }
    ensures same { Stays (K.kept engine.old.keeper.now) engine.old.held (K.kept engine.new.keeper.now) engine.new.held }
    ensures lender { engine.new.keeper.ghost_name ≡ engine.old.keeper.ghost_name }
{
    let values = behind(maker, model, parent, given)?;
    let values = values.as_slice();
    if values.is_empty() {
        return Ok(());
    }
    let linked = linked_row(engine, model, id, parent, given)?;
    let Some(row) = linked else {
        return Ok(());
    };
    push_changes(maker, engine, edits, parent.model, row, values)
}

/// Puts the edits that set what is given in a row, with the stamps of its change, behind others,
/// where the row is there: elsewhere they would change nothing.
fn push_changes<K: Keeper>(
    maker: &Maker<'_>,
    engine: &mut Engine<'_, K>,
    edits: &mut Vec<Edit>,
    model: ModelNo,
    row: RecId,
    given: &[(FieldNo, Value)],
) -> Result<(), KeepFault>
    requires schema { engine.old.held.models ≡ maker.now.schema.now }
    requires usable { IsUsable engine.old.held.phase }
    requires model { HasModel maker.now.schema.now model }
    requires moment { IsMoment maker.now.author.now }
    requires typed { All (IsTyped maker.now.schema.now model) given.now }
    requires fit { All (SetsFit maker.now.schema.now) edits.old.items }
    ensures told { OnOk result (OfStages (K.kept engine.old.keeper.now) engine.old.held (λ at. after maker.entry.now.schema.now at.staged edits.new.items
        ≡ after maker.entry.now.schema.now at.staged (edits.old.items ++ row_edits model (spec.filled maker.entry.now.schema.now maker.entry.now.author false model given.now) row.0))) }
    ensures fit { OnOk result (All (SetsFit maker.entry.now.schema.now) edits.new.items) }
    ensures cause { HasCause (K.faults engine.old.keeper.now) (K.faults engine.new.keeper.now) (IsErrOf result KeepFault.Failed) }
    ensures same { Stays (K.kept engine.old.keeper.now) engine.old.held (K.kept engine.new.keeper.now) engine.new.held }
    ensures lender { engine.new.keeper.ghost_name ≡ engine.old.keeper.ghost_name }
{
    if !is_there(engine, model, row)? {
        return Ok(());
    }
    let changed = filled(maker, false, model, given)?;
    push_row_edits(maker.alloc, edits, model, row.0, changed.as_slice())?;
    Ok(())
}

/// The row that a row's link to a parent names behind a change of what is given: the given one,
/// else that which the staged tables have.
fn linked_row<K: Keeper>(
    engine: &mut Engine<'_, K>,
    model: ModelNo,
    id: RecId,
    parent: ParentInfo,
    given: &[(FieldNo, Value)],
) -> Result<Option<RecId>, KeepFault>
    requires usable { IsUsable engine.old.held.phase }
    requires parent { IsParentIn engine.old.held.models model parent }
    ensures told { IfOk result (λ row. OfStages (K.kept engine.old.keeper.now) engine.old.held (λ at. row ≡ linked_in engine.old.held.models model at.staged given.now id.0 parent.link)) }
    ensures cause { HasCause (K.faults engine.old.keeper.now) (K.faults engine.new.keeper.now) (IsErrOf result KeepFault.Failed) }
    ensures same { Stays (K.kept engine.old.keeper.now) engine.old.held (K.kept engine.new.keeper.now) engine.new.held }
    ensures lender { engine.new.keeper.ghost_name ≡ engine.old.keeper.ghost_name }
{
    if let Some(value) = value_for(given, parent.link) {
        return Ok(row_named(value));
    }
    // The law of registries, by which a link leads to its parent.
    engine.schema().parts_fit_together();
    let cell = Cell {
        model,
        id,
        field: parent.link,
    };
    let value = value_at(engine, cell)?;
    Ok(row_of(&value))
}

/// The row that a value names, if there is one and it names one alone.
fn row_of(value: &Option<Value>) -> Option<RecId>
    ensures { result ≡ option_and_then row_named value.now }
{
    match value {
        Some(value) => row_named(value),
        None => None,
    }
}

/// The row that a value names, if it is one alone.
fn row_named(value: &Value) -> Option<RecId>
    ensures { result ≡ row_named value.now }
{
    match value {
        Value::Ref(id) => Some(*id),
        _ => None,
    }
}
