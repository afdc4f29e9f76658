//! What is asked of the tables with the edits that are staged: plain cells, and which rows are
//! there.

ghost use Rattle.std.specs.Prelude.{◌≡◌, IfOk, IfSome, IsErrOf, None, false, true};
ghost use Rattle.ob_cache.specs.Stages.{IsPlainCell, IsUsable};
ghost use Rattle.ob_cache.specs.Standing.{OfStages, Stays};
ghost use Rattle.ob_io.specs.Cause.{HasCause};
ghost use Rattle.ob_rows.specs.LockSteps.{IsSettledAt};
ghost use Rattle.ob_schema.specs.Models.{HasModel};
ghost use Rattle.ob_schema.specs.Tables.{row_at};
ghost use Rattle.ob_tables.specs.Fitting.{IsFitId};

use ob_base::{Cell, ModelNo, RecId, Value};
use ob_cache::{Engine, ReadFault};
use ob_io::{KeepFault, Keeper};
use ob_rows::id_cell;

/// The value of a plain cell; none where its row isn't there.
pub(crate) fn value_at<K: Keeper>(
    engine: &mut Engine<'_, K>,
    cell: Cell,
) -> Result<Option<Value>, KeepFault>
    requires usable { IsUsable engine.old.held.phase }
    requires plain { IsPlainCell engine.old.held.models cell }
    ensures told { IfOk result (λ value. OfStages (K.kept engine.old.keeper.now) engine.old.held (λ at. IsSettledAt engine.old.held.models at.staged cell value)) }
    ensures fit { IfOk result (λ value. IfSome value (λ _. IsFitId cell.id)) }
    ensures cause { HasCause (K.faults engine.old.keeper.now) (K.faults engine.new.keeper.now) (IsErrOf result KeepFault.Failed) }
    ensures same { Stays (K.kept engine.old.keeper.now) engine.old.held (K.kept engine.new.keeper.now) engine.new.held }
    ensures lender { engine.new.keeper.ghost_name ≡ engine.old.keeper.ghost_name }
{
    match engine.read(cell) {
        Ok(value) => Ok(Some(value)),
        Err(ReadFault::Missing) => Ok(None),
        Err(ReadFault::Keeper) => Err(KeepFault::Failed),
        Err(ReadFault::NoMemory) => Err(KeepFault::NoMemory),
    }
}

/// Whether a row of a model is there: then its id has a next one.
pub(crate) fn is_there<K: Keeper>(
    engine: &mut Engine<'_, K>,
    model: ModelNo,
    id: RecId,
) -> Result<bool, KeepFault>
    requires usable { IsUsable engine.old.held.phase }
    requires model { HasModel engine.old.held.models model }
    ensures there { IfOk result (λ there. there ≡ true → IsFitId id) }
    ensures absent { IfOk result (λ there. there ≡ false → OfStages (K.kept engine.old.keeper.now) engine.old.held (λ at. row_at at.staged model id ≡ None)) }
    ensures cause { HasCause (K.faults engine.old.keeper.now) (K.faults engine.new.keeper.now) (IsErrOf result KeepFault.Failed) }
    ensures same { Stays (K.kept engine.old.keeper.now) engine.old.held (K.kept engine.new.keeper.now) engine.new.held }
    ensures lender { engine.new.keeper.ghost_name ≡ engine.old.keeper.ghost_name }
{
    let cell = id_cell(engine.schema(), model, id);
    let value = value_at(engine, cell)?;
    Ok(value.is_some())
}
