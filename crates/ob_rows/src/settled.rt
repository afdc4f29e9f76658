//! Values of cells as the engine settled them last, whatever is staged.

ghost use Rattle.std.specs.Prelude.{◌≡◌, ◌≤◌, IfErr, IfOk, IfSome};
ghost use Rattle.ob_cache.specs.Calls.{Refuses};
ghost use Rattle.ob_cache.specs.Standing.{RestsAt, Stays};
ghost use Rattle.ob_cache.specs.declared.stages.Phase.TheVariants as phase;
ghost use Rattle.ob_io.specs.Cause.{Rose};
ghost use Rattle.ob_rows.specs.LockSteps.{IsSettledAt};
ghost use Rattle.ob_schema.specs.Fields.{HasFieldType};
ghost use Rattle.ob_schema.specs.Models.{HasField, field_at};
ghost use Rattle.ob_schema.specs.Tables.{Tables};

use ob_base::{Cell, Refusal, Value};
use ob_cache::{Engine, ReadFault};
use ob_io::Keeper;

/// The value of a cell as the engine settled it last, plain or computed; none where its row isn't
/// there. Refused only where the keeper fails or memory is wanting. The caller sees to it that the
/// engine has settled and that the registry has the field. The engine stays as it was.
pub fn settled_value<K: Keeper>(
    engine: &mut Engine<'_, K>,
    cell: Cell,
) -> Result<Option<Value>, Refusal>
    requires field { HasField engine.old.held.models cell.model cell.field }
    requires rest { engine.old.held.phase ≡ phase.Settled }
    ensures told { IfOk result (λ value. (tables : Tables) → RestsAt (K.kept engine.old.keeper.now) engine.old.held tables
        → IsSettledAt engine.old.held.models tables cell value) }
    ensures typed { IfOk result (λ value. IfSome value (HasFieldType (field_at engine.old.held.models cell.model cell.field))) }
    ensures causes { IfErr result (Refuses (Rose (K.faults engine.old.keeper.now) (K.faults engine.new.keeper.now)) (λ _. ⊥)) }
    ensures same { Stays (K.kept engine.old.keeper.now) engine.old.held (K.kept engine.new.keeper.now) engine.new.held }
    ensures count { K.faults engine.old.keeper.now ≤ K.faults engine.new.keeper.now }
    ensures lender { engine.new.keeper.ghost_name ≡ engine.old.keeper.ghost_name }
{
    match engine.read_settled(cell) {
        Ok(value) => Ok(Some(value)),
        Err(ReadFault::Missing) => Ok(None),
        Err(ReadFault::Keeper) => Err(Refusal::Keeper),
        Err(ReadFault::NoMemory) => Err(Refusal::NoMemory),
    }
}
