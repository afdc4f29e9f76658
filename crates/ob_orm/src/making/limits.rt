//! Rows that are made are settled here, unless one of them has an id past its limit.

ghost use Rattle.std.specs.Prelude.{◌≡◌, ◌<◌, ◌≤◌, ℕ, All, Any, IfErr, IfSome, IsSomeAnd, None, OnOk, true};
ghost use Rattle.ob_base.specs.Limits.{max_id};
ghost use Rattle.ob_base.specs.Tally.{ticked_times};
ghost use Rattle.ob_cache.specs.Calls.{Refuses, settled_over};
ghost use Rattle.ob_cache.specs.Standing.{IsAtRest, RestsAt, Stands};
ghost use Rattle.ob_io.specs.Cause.{Rose};
ghost use Rattle.ob_rows.specs.Settling.{BreaksField, IsBrokenBy};
ghost use Rattle.ob_orm.specs.NewRowSteps.{IsReady, MakesRow, MakesWithin, so_far};
ghost use Rattle.ob_schema.specs.Models.{HasModel, field_at, is_id_from};
ghost use Rattle.ob_schema.specs.Tables.{Tables};

use crate::making::next_ids::Making;
use ob_base::limits::MAX_ID;
use ob_base::{Broken, BrokenKind, FieldNo, Ledger, Refusal, RowKey, Steps};
use ob_cache::Engine;
use ob_io::Keeper;
use ob_rows::{id_cell, settle_edits};
use ob_schema::Schema;
use ob_tables::Edit;

/// Settles the engine with rows that were made; it isn't flushed. Refused is a row that has an id past
/// the limit of ids, the first of the edits, before anything is staged; else as edits are
/// (`settle_edits`); and the engine rests as it did. The caller sees to it that the engine rests.
pub fn settle_rows<K: Keeper, L: Ledger>(
    engine: &mut Engine<'_, K>,
    making: &Making,
    steps: &mut Steps<L>,
) -> Result<(), Refusal>
    requires ready { IsReady engine.old.held.models making.now }
    requires rest { IsAtRest engine.old.held.models engine.old.held }
    ensures settled { OnOk result ((tables : Tables) → RestsAt (K.kept engine.old.keeper.now) engine.old.held tables
        → Stands (K.kept engine.new.keeper.now) engine.new.held (settled_over engine.old.held.models tables (so_far engine.old.held.models tables making.now))) }
    ensures refused { IfErr result (λ why. (tables : Tables) → RestsAt (K.kept engine.old.keeper.now) engine.old.held tables
        → RestsAt (K.kept engine.new.keeper.now) engine.new.held tables
        × Refuses (Rose (K.faults engine.old.keeper.now) (K.faults engine.new.keeper.now)) (IsBrokenBy engine.old.held.models (so_far engine.old.held.models tables making.now)) why) }
    ensures causes { IfErr result (Refuses (Rose (K.faults engine.old.keeper.now) (K.faults engine.new.keeper.now)) (BreaksField engine.old.held.models)) }
    ensures rests { IsAtRest engine.old.held.models engine.new.held }
    ensures count { K.faults engine.old.keeper.now ≤ K.faults engine.new.keeper.now }
    ensures ticks { (n : ℕ) × (steps.new ≡ ticked_times n L.noted steps.old) }
    ensures same { K.kept engine.new.keeper.now ≡ K.kept engine.old.keeper.now }
    ensures lender { engine.new.keeper.ghost_name ≡ engine.old.keeper.ghost_name }
{
    let edits = making.edits.as_slice();
    if let Some(row) = past_limit(edits) {
        return Err(limit_refusal(engine.schema(), row));
    }
    settle_edits(engine, edits, steps)
}

/// The first row that edits make under an id past the limit of ids.
fn past_limit(edits: &[Edit]) -> Option<RowKey>
    ensures within { result ≡ None → All MakesWithin edits.now }
    ensures past { IfSome result (λ row. Any (MakesRow row) edits.now) }
    ensures over { IfSome result (λ row. max_id < row.id.0) }
{
    for edit in edits {
        if let Some(row) = past_row(edit) {
            return Some(row);
        }
    }
    None
}

/// The row that an edit makes, where its id is past the limit.
fn past_row(edit: &Edit) -> Option<RowKey>
    ensures within { result ≡ None → MakesWithin edit.now }
    ensures past { IfSome result (λ row. MakesRow row edit.now) }
    ensures over { IfSome result (λ row. max_id < row.id.0) }
{
    match edit {
        Edit::Make { model, id, .. } if id.0 > MAX_ID => Some(RowKey {
            model: *model,
            id: *id,
        }),
        _ => None,
    }
}

/// The refusal of a row whose id is past the limit.
fn limit_refusal(schema: &Schema, row: RowKey) -> Refusal
    requires model { HasModel schema.now row.model }
    ensures { (field : FieldNo) × IsSomeAnd (field_at schema.now row.model field) (λ info. is_id_from info.origin ≡ true)
        × (result ≡ Refusal.Constraint (record { kind = BrokenKind.Limit; cell = record { model = row.model; id = row.id; field = field } })) }
{
    Refusal::Constraint(Broken {
        kind: BrokenKind::Limit,
        cell: id_cell(schema, row.model, row.id),
    })
}
