//! Which rows are locked: those of which their model's condition `locked` was true when the engine
//! settled last. A call that changes or deletes rows asks here.

ghost use Rattle.std.specs.Prelude.{◌≡◌, ◌≤◌, ◌<◌, ◌↔◌, IfErr, IfOk, IfSome, IsSome, Some, bytes_eq, codes, length, position, true};
ghost use Rattle.ob_cache.specs.Calls.{Refuses};
ghost use Rattle.ob_cache.specs.Standing.{RestsAt, Stays};
ghost use Rattle.ob_cache.specs.declared.stages.Phase.TheVariants as phase;
ghost use Rattle.ob_io.specs.Cause.{Rose};
ghost use Rattle.ob_rows.specs.Locks as spec;
ghost use Rattle.ob_rows.specs.Locks.{IsLocked};
ghost use Rattle.ob_schema.specs.Models.{HasField, HasModel, model_at};
ghost use Rattle.ob_schema.specs.Tables.{Tables, row_at};

use crate::settled::settled_value;
use ob_base::{Cell, FieldNo, ModelNo, Refusal, RowKey, Value};
use ob_cache::Engine;
use ob_io::Keeper;
use ob_schema::{ModelInfo, Schema};

/// Whether a row is locked, by what the engine settled last; of one that isn't there nothing is told.
/// Refused only where the keeper fails or memory is wanting. The caller sees to it that the engine
/// has settled and that the registry has the model. The engine stays as it was.
pub fn is_locked<K: Keeper>(engine: &mut Engine<'_, K>, row: RowKey) -> Result<bool, Refusal>
    requires model { HasModel engine.old.held.models row.model }
    requires rest { engine.old.held.phase ≡ phase.Settled }
    ensures told { IfOk result (λ locked. (tables : Tables) → RestsAt (K.kept engine.old.keeper.now) engine.old.held tables
        → IsSome (row_at tables row.model row.id) → (locked ≡ true) ↔ IsLocked engine.old.held.models tables row) }
    ensures causes { IfErr result (Refuses (Rose (K.faults engine.old.keeper.now) (K.faults engine.new.keeper.now)) (λ _. ⊥)) }
    ensures same { Stays (K.kept engine.old.keeper.now) engine.old.held (K.kept engine.new.keeper.now) engine.new.held }
    ensures count { K.faults engine.old.keeper.now ≤ K.faults engine.new.keeper.now }
    ensures lender { engine.new.keeper.ghost_name ≡ engine.old.keeper.ghost_name }
{
    let schema = engine.schema();
    let Some(field) = locking_field(schema, row.model) else {
        return Ok(false);
    };
    let cell = Cell {
        model: row.model,
        id: row.id,
        field,
    };
    let value = settled_value(engine, cell)?;
    Ok(matches!(value, Some(Value::Bool(true))))
}

/// The condition that locks rows of a model.
fn locking_field(schema: &Schema, model: ModelNo) -> Option<FieldNo>
    requires model { HasModel schema.now model }
    ensures number { IfSome (model_at schema.now model) (λ info. result ≡ spec.locking_field info) }
    ensures there { IfSome result (HasField schema.now model) }
{
    let info = schema.model_info(model);
    let place = locking_place(info)?;
    Some(FieldNo((info.fields.len() + place) as u16 + 1))
}

/// Its place among the conditions.
fn locking_place(info: &ModelInfo) -> Option<usize>
    ensures place { result ≡ position (λ field. bytes_eq field.name (codes "locked")) info.now.hidden }
    ensures within { IfSome result (λ place. place < length info.now.hidden) }
{
    info.hidden
        .as_slice()
        .iter()
        .position(|field| field.name.as_str() == "locked")
}

/// The field by whose cell a locked row of a model is told: the state of a picking or a move of stock,
/// else the id. The caller sees to it that the registry has the model.
pub fn told_field(schema: &Schema, model: ModelNo) -> FieldNo
    requires model { HasModel schema.now model }
    ensures number { IfSome (model_at schema.now model) (λ info. spec.told_field info ≡ Some result) }
    ensures there { HasField schema.now model result }
{
    if let Some(field) = state_field(schema, model) {
        return field;
    }
    // Each model has a field of this name.
    schema.parts_fit_together();
    match schema.field(model, "id") {
        Some(field) => field,
        None => unreachable!(),
    }
}

/// The state of the pickings and the moves of stock.
fn state_field(schema: &Schema, model: ModelNo) -> Option<FieldNo>
    requires model { HasModel schema.now model }
    ensures number { IfSome (model_at schema.now model) (λ info. result ≡ spec.state_field info) }
    ensures there { IfSome result (HasField schema.now model) }
{
    let name = schema.model_info(model).name.as_str();
    if name == "stock.picking" || name == "stock.move" {
        schema.field(model, "state")
    } else {
        None
    }
}
