//! The reply to one body. A reply's bytes are made before its changes are committed,
//! so that want of memory for them comes before anything is kept.

ghost use Rattle.std.specs.Prelude.{◌≡◌, ◌≤◌, ◌⊎◌, ℕ, ℤ, IfOk, IfSome, false, option_map};
ghost use Rattle.serde_json.specs.View.{view, items_view};
ghost use Rattle.serde_json.specs.Written.{has_float};
ghost use Rattle.ob_access.specs.Policies.{IsPolicyOver};
ghost use Rattle.ob_base.specs.Times.{IsMoment};
ghost use Rattle.ob_cache.specs.Calls.{IsAsked, IsCalled, IsResting, models_at, settled_over, standpoint};
ghost use Rattle.ob_cache.specs.Kept.{OthersStay};
ghost use Rattle.ob_cache.specs.Standing.{IsAtRest, NextIdsUpTo, Stands, Stays, max_next_id};
ghost use Rattle.ob_cache.specs.declared.stages.Phase.TheVariants as phase;
ghost use Rattle.ob_call.specs.Called.{called_by, result_view};
ghost use Rattle.ob_io.specs.Cause.{Rose};
ghost use Rattle.ob_query.specs.SearchQuestions.{OnlyAsked};
ghost use Rattle.ob_rpc.specs.Envelope.{envelope_of};
ghost use Rattle.ob_rpc.specs.declared.methods.Served.TheVariants.{EveryMethod};
ghost use Rattle.ob_schema.specs.Models.{HasModel, model_at};
ghost use Rattle.ob_schema.specs.Tables.{Tables};
ghost use Rattle.ob_server.specs.Body.{AnswersOver, RepliesAsked, RepliesBy, RepliesOver, ServesAsked, ServesOver};
ghost use Rattle.ob_server.specs.Machine.{Makes, MakesCause, Tells, TellsCause, moments_after};
ghost use Rattle.ob_server.specs.MethodCall.{call_view, handed_view};
ghost use Rattle.ob_server.specs.Reply.{Keeps, TellsKept, text_of};
ghost use Rattle.ob_server.specs.Request.{call_of, called, listed, login_of, request_by, request_with, telling_by};
ghost use Rattle.ob_server.specs.Setup.{over};
ghost use Rattle.ob_server.specs.Texts.{no_memory_text};

use crate::replies::{Reply, call_refused, refused, told, unread, version_told};
use crate::request::{Layout, Method, MethodCall, ReadMethod, WriteMethod, call_of};
use crate::service::{is_login, listed, login_of};
use crate::terms::Terms;
use ob_access::Policy;
use ob_base::{Ledger, NoMemory, Refusal, Sequence, Steps};
use ob_cache::Engine;
use ob_call::Call;
use ob_commands::{create, write};
use ob_fields::fields_get;
use ob_group::read_group;
use ob_io::{Clock, KeepFault, Keeper};
use ob_query::{read, search, search_count, search_read};
use ob_rpc::{EnvFault, Envelope, Json, Outcome, Served, envelope, reply_text};
use ob_unlink::unlink;
use serde_json::Map;
use std::alloc::Global;

/// Answers one body on these terms, and carries out what it asks for.
pub fn answer<K: Keeper, C: Clock, L: Ledger>(
    alloc: Global,
    engine: &mut Engine<'_, K>,
    terms: &Terms<'_>,
    clock: &mut C,
    steps: &mut Steps<L>,
    body: &[u8],
) -> Reply
    requires rest { IsAtRest engine.old.held.models engine.old.held }
    requires policy { IsPolicyOver (models_at (standpoint K.Keeper engine.old)) terms.now.policy.now }

    // Over a keeper that tells its rows it is a step of the machine, at the moment that the clock gave.
    ensures served { AnswersOver terms.now (standpoint K.Keeper engine.old) (standpoint K.Keeper engine.new) (C.coming clock.old) (C.coming clock.new) body.now (text_of result) }
    // A request takes one moment. Where memory is wanting to read the body, none is taken.
    ensures moments { (C.coming clock.new ≡ option_map (moments_after (envelope_of EveryMethod body.now)) (C.coming clock.old))
        ⊎ ((text_of result ≡ no_memory_text) × (C.coming clock.new ≡ C.coming clock.old)) }
    // Whatever the keeper tells, each refusal has its cause: a malformed body the first place that is wrong, a
    // call one that its method has; a fault of the keeper is told only where its count rose.
    ensures causes { RepliesOver terms.now (standpoint K.Keeper engine.old) (standpoint K.Keeper engine.new) (C.coming clock.old) body.now (text_of result) }
    // Rows of other models stay.
    ensures others { OthersStay engine.old.held.models (K.kept engine.old.keeper.now) (K.kept engine.new.keeper.now) }
    ensures rests { IsAtRest engine.old.held.models engine.new.held }
    ensures lender { engine.new.keeper.ghost_name ≡ engine.old.keeper.ghost_name }
    ensures count { K.faults engine.old.keeper.now ≤ K.faults engine.new.keeper.now }
{
    match envelope(alloc, Served::EveryMethod, body) {
        Ok(envelope) => {
            let now = clock.now();
            serve(alloc, engine, terms, now, steps, envelope)
        }
        Err(EnvFault::At(place, id)) => refused(
            alloc,
            engine.schema(),
            &id,
            &Refusal::Request(place),
        ),
        Err(EnvFault::NoMemory) => Reply::NoMemory,
    }
}

/// Answers the request of an envelope at its moment. The methods of all services have names of
/// their own, so the service needn't be asked.
fn serve<K: Keeper, L: Ledger>(
    alloc: Global,
    engine: &mut Engine<'_, K>,
    terms: &Terms<'_>,
    now: i64,
    steps: &mut Steps<L>,
    envelope: Envelope,
) -> Reply
    requires rest { IsResting (standpoint K.Keeper engine.old) }
    requires policy { IsPolicyOver (models_at (standpoint K.Keeper engine.old)) terms.now.policy.now }
    requires moment { IsMoment now }
    requires id { has_float (view envelope.id) ≡ false }
    ensures served { ServesAsked terms.now (standpoint K.Keeper engine.old) (standpoint K.Keeper engine.new) now
        (λ directory. request_with (over terms.now (models_at (standpoint K.Keeper engine.old))) directory (view envelope.id) envelope.method (items_view envelope.args)) (text_of result) }
    ensures causes { RepliesAsked terms.now (standpoint K.Keeper engine.old) (standpoint K.Keeper engine.new) now
        (λ directory. request_with (over terms.now (models_at (standpoint K.Keeper engine.old))) directory (view envelope.id) envelope.method (items_view envelope.args)) (text_of result) }
    ensures others { OthersStay engine.old.held.models (K.kept engine.old.keeper.now) (K.kept engine.new.keeper.now) }
    ensures rests { IsAtRest engine.old.held.models engine.new.held }
    ensures lender { engine.new.keeper.ghost_name ≡ engine.old.keeper.ghost_name }
    ensures count { K.faults engine.old.keeper.now ≤ K.faults engine.new.keeper.now }
{
    let Envelope {
        id,
        method,
        args,
        ..
    } = envelope;
    if method.as_str() == "version" {
        return version_told(alloc, &id);
    }
    if is_login(method.as_str()) {
        return serve_login(alloc, engine, terms, &id, args.as_slice());
    }
    if method.as_str() == "execute" {
        return serve_spread(alloc, engine, terms, now, steps, &id, args);
    }
    serve_elements(
        alloc,
        engine,
        terms,
        now,
        steps,
        &id,
        Layout::Listed,
        args.as_slice(),
    )
}

/// Answers what `login` or `authenticate` find, or which element is wrong.
fn serve_login<K: Keeper>(
    alloc: Global,
    engine: &mut Engine<'_, K>,
    terms: &Terms<'_>,
    id: &Json,
    elements: &[Json],
) -> Reply
    requires rest { IsResting (standpoint K.Keeper engine.old) }
    requires id { has_float (view id.now) ≡ false }
    ensures served { (now : ℤ) → ServesAsked terms.now (standpoint K.Keeper engine.old) (standpoint K.Keeper engine.new) now
        (λ directory. telling_by (view id.now) (login_of terms.now.database.now directory (items_view elements.now))) (text_of result) }
    ensures causes { (now : ℤ) → RepliesAsked terms.now (standpoint K.Keeper engine.old) (standpoint K.Keeper engine.new) now
        (λ directory. telling_by (view id.now) (login_of terms.now.database.now directory (items_view elements.now))) (text_of result) }
    ensures asked { OnlyAsked K.Keeper engine.old engine.new }
{
    match login_of(alloc, engine, terms.database, elements) {
        Ok(json) => told(alloc, id, &Outcome::Result(json)),
        Err(fault) => unread(alloc, engine.schema(), id, fault),
    }
}

/// Answers the call of `execute` at its moment, whose arguments are elements by themselves.
fn serve_spread<K: Keeper, L: Ledger>(
    alloc: Global,
    engine: &mut Engine<'_, K>,
    terms: &Terms<'_>,
    now: i64,
    steps: &mut Steps<L>,
    id: &Json,
    elements: Sequence<Json>,
) -> Reply
    requires rest { IsResting (standpoint K.Keeper engine.old) }
    requires policy { IsPolicyOver (models_at (standpoint K.Keeper engine.old)) terms.now.policy.now }
    requires moment { IsMoment now }
    requires id { has_float (view id.now) ≡ false }
    ensures served { ServesAsked terms.now (standpoint K.Keeper engine.old) (standpoint K.Keeper engine.new) now
        (λ directory. request_by (view id.now) (call_of (over terms.now (models_at (standpoint K.Keeper engine.old))) directory Layout.Spread (listed (items_view elements)))) (text_of result) }
    ensures causes { RepliesAsked terms.now (standpoint K.Keeper engine.old) (standpoint K.Keeper engine.new) now
        (λ directory. request_by (view id.now) (call_of (over terms.now (models_at (standpoint K.Keeper engine.old))) directory Layout.Spread (listed (items_view elements)))) (text_of result) }
    ensures others { OthersStay engine.old.held.models (K.kept engine.old.keeper.now) (K.kept engine.new.keeper.now) }
    ensures rests { IsAtRest engine.old.held.models engine.new.held }
    ensures lender { engine.new.keeper.ghost_name ≡ engine.old.keeper.ghost_name }
    ensures count { K.faults engine.old.keeper.now ≤ K.faults engine.new.keeper.now }
{
    match listed(elements) {
        Ok(elements) => serve_elements(
            alloc,
            engine,
            terms,
            now,
            steps,
            id,
            Layout::Spread,
            elements.as_slice(),
        ),
        Err(NoMemory) => Reply::NoMemory,
    }
}

/// Answers the call that elements make at its moment.
fn serve_elements<K: Keeper, L: Ledger>(
    alloc: Global,
    engine: &mut Engine<'_, K>,
    terms: &Terms<'_>,
    now: i64,
    steps: &mut Steps<L>,
    id: &Json,
    layout: Layout,
    elements: &[Json],
) -> Reply
    requires rest { IsResting (standpoint K.Keeper engine.old) }
    requires policy { IsPolicyOver (models_at (standpoint K.Keeper engine.old)) terms.now.policy.now }
    requires moment { IsMoment now }
    requires id { has_float (view id.now) ≡ false }
    ensures served { ServesAsked terms.now (standpoint K.Keeper engine.old) (standpoint K.Keeper engine.new) now
        (λ directory. request_by (view id.now) (call_of (over terms.now (models_at (standpoint K.Keeper engine.old))) directory layout (items_view elements.now))) (text_of result) }
    ensures causes { RepliesAsked terms.now (standpoint K.Keeper engine.old) (standpoint K.Keeper engine.new) now
        (λ directory. request_by (view id.now) (call_of (over terms.now (models_at (standpoint K.Keeper engine.old))) directory layout (items_view elements.now))) (text_of result) }
    ensures others { OthersStay engine.old.held.models (K.kept engine.old.keeper.now) (K.kept engine.new.keeper.now) }
    ensures rests { IsAtRest engine.old.held.models engine.new.held }
    ensures lender { engine.new.keeper.ghost_name ≡ engine.old.keeper.ghost_name }
    ensures count { K.faults engine.old.keeper.now ≤ K.faults engine.new.keeper.now }
{
    match call_of(engine, terms, layout, elements) {
        Ok(call) => serve_call(alloc, engine, terms, now, steps, id, &call),
        Err(fault) => unread(alloc, engine.schema(), id, fault),
    }
}

/// Answers a call at its moment. Arguments by name may be absent, and are none then.
fn serve_call<K: Keeper, L: Ledger>(
    alloc: Global,
    engine: &mut Engine<'_, K>,
    terms: &Terms<'_>,
    now: i64,
    steps: &mut Steps<L>,
    id: &Json,
    call: &MethodCall<'_>,
) -> Reply
    requires rest { IsResting (standpoint K.Keeper engine.old) }
    requires policy { IsPolicyOver (models_at (standpoint K.Keeper engine.old)) terms.now.policy.now }
    requires moment { IsMoment now }
    requires model { HasModel (models_at (standpoint K.Keeper engine.old)) call.now.model }
    requires id { has_float (view id.now) ≡ false }
    ensures served { ServesOver terms.now (standpoint K.Keeper engine.old) (standpoint K.Keeper engine.new) now (called (view id.now) (call_view call.now)) (text_of result) }
    ensures causes { RepliesBy terms.now (standpoint K.Keeper engine.old) (standpoint K.Keeper engine.new) now (called (view id.now) (call_view call.now)) (text_of result) }
    ensures others { OthersStay engine.old.held.models (K.kept engine.old.keeper.now) (K.kept engine.new.keeper.now) }
    ensures rests { IsAtRest engine.old.held.models engine.new.held }
    ensures lender { engine.new.keeper.ghost_name ≡ engine.old.keeper.ghost_name }
    ensures count { K.faults engine.old.keeper.now ≤ K.faults engine.new.keeper.now }
{
    let none = Json::Object(Map::new(alloc));
    let handed = Call {
        caller: call.caller,
        now,
        model: call.model,
        args: call.args,
        kw: call.kw.unwrap_or(&none),
    };
    match call.method {
        Method::Reads(method) => {
            serve_reading(
                alloc,
                engine,
                terms,
                steps,
                id,
                method,
                call.layout,
                &handed,
            )
        }
        Method::Writes(method) => {
            serve_writing(
                alloc,
                engine,
                terms,
                steps,
                id,
                method,
                call.layout,
                &handed,
            )
        }
    }
}

/// Answers a call that reads.
fn serve_reading<K: Keeper, L: Ledger>(
    alloc: Global,
    engine: &mut Engine<'_, K>,
    terms: &Terms<'_>,
    steps: &mut Steps<L>,
    id: &Json,
    method: ReadMethod,
    layout: Layout,
    call: &Call<'_>,
) -> Reply
    requires rest { IsResting (standpoint K.Keeper engine.old) }
    requires policy { IsPolicyOver (models_at (standpoint K.Keeper engine.old)) terms.now.policy.now }
    requires moment { IsMoment call.now.now }
    requires model { HasModel (models_at (standpoint K.Keeper engine.old)) call.now.model }
    requires id { has_float (view id.now) ≡ false }
    ensures served { ServesOver terms.now (standpoint K.Keeper engine.old) (standpoint K.Keeper engine.new) call.entry.now.now
        (called (view id.now) (handed_view layout (Method.Reads method) call.entry.now)) (text_of result) }
    ensures causes { RepliesBy terms.now (standpoint K.Keeper engine.old) (standpoint K.Keeper engine.new) call.entry.now.now
        (called (view id.now) (handed_view layout (Method.Reads method) call.entry.now)) (text_of result) }
    ensures others { OthersStay engine.old.held.models (K.kept engine.old.keeper.now) (K.kept engine.new.keeper.now) }
    ensures rests { IsAtRest engine.old.held.models engine.new.held }
    ensures lender { engine.new.keeper.ghost_name ≡ engine.old.keeper.ghost_name }
    ensures count { K.faults engine.old.keeper.now ≤ K.faults engine.new.keeper.now }
{
    match tell(alloc, engine, terms.policy, steps, method, call) {
        Ok(json) => told(alloc, id, &Outcome::Result(json)),
        Err(refusal) => call_refused(alloc, engine.schema(), id, layout, refusal),
    }
}

/// Answers a call that writes.
fn serve_writing<K: Keeper, L: Ledger>(
    alloc: Global,
    engine: &mut Engine<'_, K>,
    terms: &Terms<'_>,
    steps: &mut Steps<L>,
    id: &Json,
    method: WriteMethod,
    layout: Layout,
    call: &Call<'_>,
) -> Reply
    requires rest { IsResting (standpoint K.Keeper engine.old) }
    requires policy { IsPolicyOver (models_at (standpoint K.Keeper engine.old)) terms.now.policy.now }
    requires moment { IsMoment call.now.now }
    requires model { HasModel (models_at (standpoint K.Keeper engine.old)) call.now.model }
    requires id { has_float (view id.now) ≡ false }
    ensures served { ServesOver terms.now (standpoint K.Keeper engine.old) (standpoint K.Keeper engine.new) call.entry.now.now
        (called (view id.now) (handed_view layout (Method.Writes method) call.entry.now)) (text_of result) }
    ensures causes { RepliesBy terms.now (standpoint K.Keeper engine.old) (standpoint K.Keeper engine.new) call.entry.now.now
        (called (view id.now) (handed_view layout (Method.Writes method) call.entry.now)) (text_of result) }
    ensures others { OthersStay engine.old.held.models (K.kept engine.old.keeper.now) (K.kept engine.new.keeper.now) }
    ensures rests { IsAtRest engine.old.held.models engine.new.held }
    ensures lender { engine.new.keeper.ghost_name ≡ engine.old.keeper.ghost_name }
    ensures count { K.faults engine.old.keeper.now ≤ K.faults engine.new.keeper.now }
{
    match make(alloc, engine, terms.policy, steps, method, call) {
        Ok(json) => keep(alloc, engine, id, json),
        Err(refusal) => call_refused(alloc, engine.schema(), id, layout, refusal),
    }
}

/// Carries out a method that reads.
fn tell<K: Keeper, L: Ledger>(
    alloc: Global,
    engine: &mut Engine<'_, K>,
    policy: &Policy,
    steps: &mut Steps<L>,
    method: ReadMethod,
    call: &Call<'_>,
) -> Result<Json, Refusal>
    requires model { HasModel (models_at (standpoint K.Keeper engine.old)) call.now.model }
    requires rest { IsResting (standpoint K.Keeper engine.old) }
    requires policy { IsPolicyOver (models_at (standpoint K.Keeper engine.old)) policy.now }
    ensures call { IfSome (model_at (models_at (standpoint K.Keeper engine.old)) call.entry.now.model) (λ info.
        IsAsked (Tells method (models_at (standpoint K.Keeper engine.old)) policy.now (called_by call.entry.now info)) (standpoint K.Keeper engine.old) (standpoint K.Keeper engine.new)
        (TellsCause method (models_at (standpoint K.Keeper engine.old)) policy.now (called_by call.entry.now info)) (result_view result)) }
    ensures plain { IfOk result (λ json. has_float (view json) ≡ false) }
    ensures same { Stays (K.kept engine.old.keeper.now) engine.old.held (K.kept engine.new.keeper.now) engine.new.held }
    ensures count { K.faults engine.old.keeper.now ≤ K.faults engine.new.keeper.now }
    ensures lender { engine.new.keeper.ghost_name ≡ engine.old.keeper.ghost_name }
{
    match method {
        ReadMethod::Read => read(alloc, engine, policy, call, steps),
        ReadMethod::Search => search(alloc, engine, policy, call, steps),
        ReadMethod::SearchCount => search_count(alloc, engine, policy, call, steps),
        ReadMethod::SearchRead => search_read(alloc, engine, policy, call, steps),
        ReadMethod::ReadGroup => read_group(alloc, engine, policy, call, steps),
        ReadMethod::FieldsGet => fields_get(alloc, engine, policy, call, steps),
    }
}

/// Carries out a method that writes; what it settles isn't kept yet.
fn make<K: Keeper, L: Ledger>(
    alloc: Global,
    engine: &mut Engine<'_, K>,
    policy: &Policy,
    steps: &mut Steps<L>,
    method: WriteMethod,
    call: &Call<'_>,
) -> Result<Json, Refusal>
    requires model { HasModel (models_at (standpoint K.Keeper engine.old)) call.now.model }
    requires moment { IsMoment call.now.now }
    requires rest { IsResting (standpoint K.Keeper engine.old) }
    requires policy { IsPolicyOver (models_at (standpoint K.Keeper engine.old)) policy.now }
    ensures call { IfSome (model_at (models_at (standpoint K.Keeper engine.old)) call.entry.now.model) (λ info.
        IsCalled (Makes method (models_at (standpoint K.Keeper engine.old)) policy.now (called_by call.entry.now info)) (standpoint K.Keeper engine.old) (standpoint K.Keeper engine.new)
        (MakesCause method (models_at (standpoint K.Keeper engine.old)) policy.now (called_by call.entry.now info)) (result_view result)) }
    ensures plain { IfOk result (λ json. has_float (view json) ≡ false) }
    ensures models { engine.new.held.models ≡ engine.old.held.models }
    ensures phase { engine.new.held.phase ≡ phase.Settled }
    ensures next_ids { NextIdsUpTo max_next_id engine.new.held }
    ensures same { K.kept engine.new.keeper.now ≡ K.kept engine.old.keeper.now }
    ensures count { K.faults engine.old.keeper.now ≤ K.faults engine.new.keeper.now }
    ensures lender { engine.new.keeper.ghost_name ≡ engine.old.keeper.ghost_name }
{
    match method {
        WriteMethod::Create => create(alloc, engine, policy, call, steps),
        WriteMethod::Write => write(alloc, engine, policy, call, steps),
        WriteMethod::Unlink => unlink(alloc, engine, policy, call, steps),
    }
}

/// Makes the reply to a call that is settled, and then keeps its changes; or neither.
fn keep<K: Keeper>(alloc: Global, engine: &mut Engine<'_, K>, id: &Json, json: Json) -> Reply
    requires settled { engine.old.held.phase ≡ phase.Settled }
    requires next_ids { NextIdsUpTo max_next_id engine.old.held }
    requires id { has_float (view id.now) ≡ false }
    requires json { has_float (view json) ≡ false }
    ensures kept { (old next : Tables) → Stands (K.kept engine.old.keeper.now) engine.old.held (settled_over engine.old.held.models old next)
        → Keeps (Rose (K.faults engine.old.keeper.now) (K.faults engine.new.keeper.now)) (view id.now) (view json) old next (K.kept engine.new.keeper.now) engine.new.held (text_of result) }
    ensures rests { IsAtRest engine.old.held.models engine.new.held }
    ensures lender { engine.new.keeper.ghost_name ≡ engine.old.keeper.ghost_name }
    ensures count { K.faults engine.old.keeper.now ≤ K.faults engine.new.keeper.now }
    ensures causes { TellsKept (Rose (K.faults engine.old.keeper.now) (K.faults engine.new.keeper.now)) (view id.now) (view json) (text_of result) }
    ensures others { OthersStay engine.old.held.models (K.kept engine.old.keeper.now) (K.kept engine.new.keeper.now) }
{
    let Ok(text) = reply_text(alloc, id, &Outcome::Result(json)) else {
        engine.forget();
        return Reply::NoMemory;
    };
    let Err(fault) = engine.flush() else {
        return Reply::Text(text);
    };
    engine.forget();
    match fault {
        KeepFault::Failed => refused(alloc, engine.schema(), id, &Refusal::Keeper),
        KeepFault::NoMemory => Reply::NoMemory,
    }
}
