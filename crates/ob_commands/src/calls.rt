//! `create` and `write`, each by the crate that tells most of it: where a call gives only what
//! `ob_orm` sets, and rows of the model and of its parents are free to be made or changed, that crate
//! carries it out, edit by edit as the machine does; any other is carried out here. A call that becomes exact moves
//! from the one meaning to the other in specs/Told.

ghost use Rattle.std.specs.Prelude.{◌≡◌, ℕ, IfOk, IfSome, false};
ghost use Rattle.serde_json.specs.View.{view};
ghost use Rattle.serde_json.specs.Written.{has_float};
ghost use Rattle.ob_access.specs.Policies.{IsPolicyOver};
ghost use Rattle.ob_base.specs.Tally.{ticked_times};
ghost use Rattle.ob_base.specs.Times.{IsMoment};
ghost use Rattle.ob_cache.specs.Calls.{IsCalled, IsResting, models_at, standpoint};
ghost use Rattle.ob_call.specs.Called.{called_by, result_view};
ghost use Rattle.ob_commands.specs.Told.{CreatesRows, CreatesRowsCause, WritesRows, WritesRowsCause};
ghost use Rattle.ob_commands.specs.Told as spec;
ghost use Rattle.ob_schema.specs.Models.{HasModel, model_at};

use crate::creating::create_some;
use crate::holding::gives_others;
use crate::writing::write_some;
use ob_access::Policy;
use ob_base::{Ledger, Refusal, Steps};
use ob_cache::Engine;
use ob_call::{Call, Json};
use ob_io::Keeper;
use ob_rows::{is_creatable, is_writable};
use ob_schema::Schema;
use std::alloc::Global;

/// Makes a row of the values that the object `vals` gives, or one of each object of the list, in its
/// order; with rows of the parents that no id links, and with what commands on lists do: the seven
/// of Odoo 17's `Command`. Answers the row's id, or the list of the rows' ids; the engine is then
/// settled with all that, and not flushed. Refused is the first of: an argument that is malformed;
/// a right that the caller lacks on a model, or on a field; a value that is malformed; a row that a
/// rule denies him; something that the call or its tables break. Then the engine rests as it did.
/// The caller of this function sees to it that the engine rests, that the policy is one over its
/// registry, and that the moment lies within the years 0001 to 9999.
pub fn create<K: Keeper, L: Ledger>(
    alloc: Global,
    engine: &mut Engine<'_, K>,
    policy: &Policy,
    call: &Call<'_>,
    steps: &mut Steps<L>,
) -> Result<Json, Refusal>
    requires model { HasModel (models_at (standpoint K.Keeper engine.old)) call.now.model }
    requires moment { IsMoment call.now.now }
    requires rest { IsResting (standpoint K.Keeper engine.old) }
    requires policy { IsPolicyOver (models_at (standpoint K.Keeper engine.old)) policy.now }
    // It is the machine's create, or goes on to sound tables.
    ensures call { let before = standpoint K.Keeper engine.old in let models = models_at before in
        IfSome (model_at models call.entry.now.model) (λ info. let c = called_by call.entry.now info in
        IsCalled (CreatesRows models policy.now c) before (standpoint K.Keeper engine.new) (CreatesRowsCause models policy.now c) (result_view result)) }
    ensures plain { IfOk result (λ json. has_float (view json) ≡ false) }
    ensures ticks { (n : ℕ) × (steps.new ≡ ticked_times n L.noted steps.old) }
    ensures lender { engine.new.keeper.ghost_name ≡ engine.old.keeper.ghost_name }
{
    if is_told_create(engine.schema(), call) {
        ob_orm::create(alloc, engine, policy, call, steps)
    } else {
        create_some(alloc, engine, policy, call, steps)
    }
}

/// Sets the values that the object `vals` gives in each row that `ids` names, and in those of its
/// parents, and carries out the commands on lists; the changed rows are stamped. Answers true; the
/// engine is then settled with all that, and not flushed. Refused is the first of: an argument that
/// is malformed; a right that the caller lacks on a model, or on a field; a value that is malformed;
/// the least id that no row has; a row that a rule denies him; something that the call or its tables
/// break. Then the engine rests as it did. The caller of this function sees to it that the engine
/// rests, that the policy is one over its registry, and that the moment lies within the years 0001
/// to 9999.
pub fn write<K: Keeper, L: Ledger>(
    alloc: Global,
    engine: &mut Engine<'_, K>,
    policy: &Policy,
    call: &Call<'_>,
    steps: &mut Steps<L>,
) -> Result<Json, Refusal>
    requires model { HasModel (models_at (standpoint K.Keeper engine.old)) call.now.model }
    requires moment { IsMoment call.now.now }
    requires rest { IsResting (standpoint K.Keeper engine.old) }
    requires policy { IsPolicyOver (models_at (standpoint K.Keeper engine.old)) policy.now }
    // It is the machine's write, or goes on to sound tables.
    ensures call { let before = standpoint K.Keeper engine.old in let models = models_at before in
        IfSome (model_at models call.entry.now.model) (λ info. let c = called_by call.entry.now info in
        IsCalled (WritesRows models policy.now c) before (standpoint K.Keeper engine.new) (WritesRowsCause models policy.now c) (result_view result)) }
    ensures plain { IfOk result (λ json. has_float (view json) ≡ false) }
    ensures ticks { (n : ℕ) × (steps.new ≡ ticked_times n L.noted steps.old) }
    ensures lender { engine.new.keeper.ghost_name ≡ engine.old.keeper.ghost_name }
{
    if is_told_write(engine.schema(), call) {
        ob_orm::write(alloc, engine, policy, call, steps)
    } else {
        write_some(alloc, engine, policy, call, steps)
    }
}

/// Whether a create is told edit by edit.
fn is_told_create(schema: &Schema, call: &Call<'_>) -> bool
    requires model { HasModel schema.now call.now.model }
    ensures { IfSome (model_at schema.now call.entry.now.model) (λ info. result ≡ spec.is_told_create schema.now (called_by call.entry.now info)) }
{
    is_creatable(schema, call.model) && !gives_others(schema, call, 0)
}

/// Whether a write is.
fn is_told_write(schema: &Schema, call: &Call<'_>) -> bool
    requires model { HasModel schema.now call.now.model }
    ensures { IfSome (model_at schema.now call.entry.now.model) (λ info. result ≡ spec.is_told_write schema.now (called_by call.entry.now info)) }
{
    is_writable(schema, call.model) && !gives_others(schema, call, 1)
}
