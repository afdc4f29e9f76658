//! Serving one connection over HTTP: each message is answered before the next one is read.
//!
//! Which messages come in and how replies are written is settled in `ob_http`, and how a body
//! is answered in `answering`; only the order of reading, answering and writing may be changed here.

ghost use Rattle.std.specs.Prelude.{◌≡◌, ◌≤◌, ◌+◌, ℕ, List, Some, IsErr, MatchOption};
ghost use Rattle.ob_access.specs.Policies.{IsPolicyOver};
ghost use Rattle.ob_cache.specs.Kept.{OthersStay};
ghost use Rattle.ob_cache.specs.Standing.{IsAtRest};
ghost use Rattle.ob_http.specs.Reply.{IsFaultStatus};
ghost use Rattle.ob_io.specs.Cause.{HasCause, Rose};
ghost use Rattle.ob_server.specs.Exchange.{Exchange, HasState, MayEndBy, Situation, situation};
ghost use Rattle.ob_server.specs.ExchangeSteps.{AnswersBody, HasAnswered, TellsStatus, parting_behind};
ghost use Rattle.ob_server.specs.Machine.{State};

use crate::answering::answer;
use crate::terms::Terms;
use ob_base::limits::MAX_INPUT_BYTES;
use ob_base::{Ledger, NoMemory, Steps};
use ob_cache::Engine;
use ob_http::{Held, HttpFault, Inlet, next_request, write_reply};
use ob_io::{Clock, Door, Failed, Keeper};
use std::alloc::Global;

/// How a connection ended.
#[derive(Clone, Copy, Debug, PartialEq, Eq)]
pub(crate) enum Parting {
    /// All that it asked was answered.
    Served,
    /// A read or a write failed.
    Failed,
    /// It sent more bytes than a connection may.
    TooLong,
    /// An allocation failed outside a request.
    NoMemory,
}

/// Serves the door's current connection on these terms: its messages are answered in order under
/// status 200, also those that are refused, until it ends, isn't kept, sends what is no message that is
/// served, or sends more than 2^40 bytes. Shutting it is left to the caller. Where reading or
/// writing fails, that ends the connection alone.
pub fn serve_connection<K: Keeper, D: Door, C: Clock, L: Ledger>(
    alloc: Global,
    engine: &mut Engine<'_, K>,
    terms: &Terms<'_>,
    door: &mut D,
    clock: &mut C,
    steps: &mut Steps<L>,
) -> Result<(), NoMemory>
    requires rest { IsAtRest engine.old.held.models engine.old.held }
    requires policy { IsPolicyOver engine.old.held.models terms.now.policy.now }
    // Over an engine that rests at tables, and objects that tell what they hold, it is a run
    // of the machine over the bodies that were taken in, with what was written by it.
    ensures exchange { (first : State) (stream : List ℕ) → HasState (situation K.Keeper C.Clock D.Door engine.old clock.old door.old) first → D.left door.old ≡ Some stream
        → (why : Parting) × MayEndBy (Rose (D.faults door.old) (D.faults door.new)) why result
        × Exchange terms.now why first stream (situation K.Keeper C.Clock D.Door engine.old clock.old door.old) (situation K.Keeper C.Clock D.Door engine.new clock.new door.new) }
    ensures rests { IsAtRest engine.old.held.models engine.new.held }
    ensures door_count { D.faults door.old ≤ D.faults door.new }
    ensures keeper_count { K.faults engine.old.keeper.now ≤ K.faults engine.new.keeper.now }
    // No other connection is touched, and rows of other models stay.
    ensures others { (D.coming door.new ≡ D.coming door.old) × (D.next_faults door.new ≡ D.next_faults door.old) }
    ensures other_rows { OthersStay engine.old.held.models (K.kept engine.old.keeper.now) (K.kept engine.new.keeper.now) }
    ensures lender { engine.new.keeper.ghost_name ≡ engine.old.keeper.ghost_name }
{
    match serve_items(alloc, engine, terms, door, clock, steps) {
        Parting::Served | Parting::Failed | Parting::TooLong => Ok(()),
        Parting::NoMemory => Err(NoMemory),
    }
}

/// Serves the items of the door's current connection. Each takes a byte at least, so that a
/// connection of no more bytes than one may send has no more items.
fn serve_items<K: Keeper, D: Door, C: Clock, L: Ledger>(
    alloc: Global,
    engine: &mut Engine<'_, K>,
    terms: &Terms<'_>,
    door: &mut D,
    clock: &mut C,
    steps: &mut Steps<L>,
) -> Parting
    requires rest { IsAtRest engine.old.held.models engine.old.held }
    requires policy { IsPolicyOver engine.old.held.models terms.now.policy.now }
    ensures exchange { (first : State) (stream : List ℕ) → HasState (situation K.Keeper C.Clock D.Door engine.old clock.old door.old) first → D.left door.old ≡ Some stream
        → Exchange terms.now result first stream (situation K.Keeper C.Clock D.Door engine.old clock.old door.old) (situation K.Keeper C.Clock D.Door engine.new clock.new door.new) }
    ensures failed { result ≡ Parting.Failed → Rose (D.faults door.old) (D.faults door.new) }
    ensures rests { IsAtRest engine.old.held.models engine.new.held }
    ensures door_count { D.faults door.old ≤ D.faults door.new }
    ensures keeper_count { K.faults engine.old.keeper.now ≤ K.faults engine.new.keeper.now }
    ensures others { (D.coming door.new ≡ D.coming door.old) × (D.next_faults door.new ≡ D.next_faults door.old) }
    ensures other_rows { OthersStay engine.old.held.models (K.kept engine.old.keeper.now) (K.kept engine.new.keeper.now) }
    ensures lender { engine.new.keeper.ghost_name ≡ engine.old.keeper.ghost_name }
{
    let mut held = Held::new(alloc);
    for _item in 0..=MAX_INPUT_BYTES {
        if let Some(parting) = serve_item(alloc, engine, terms, door, clock, steps, &mut held) {
            return parting;
        }
    }
    Parting::TooLong
}

/// Serves the next item of the connection. Answers how the connection ended, where it did.
fn serve_item<K: Keeper, D: Door, C: Clock, L: Ledger>(
    alloc: Global,
    engine: &mut Engine<'_, K>,
    terms: &Terms<'_>,
    door: &mut D,
    clock: &mut C,
    steps: &mut Steps<L>,
    held: &mut Held,
) -> Option<Parting>
    requires rest { IsAtRest engine.old.held.models engine.old.held }
    requires policy { IsPolicyOver engine.old.held.models terms.now.policy.now }
    // The exchange goes on by one item, or ends.
    ensures exchange { (count : ℕ) (first : State) (stream : List ℕ) (start : Situation)
        → HasAnswered terms.now count first stream start held.old (situation K.Keeper C.Clock D.Door engine.old clock.old door.old)
        → MatchOption result (HasAnswered terms.now (count + 1) first stream start held.new (situation K.Keeper C.Clock D.Door engine.new clock.new door.new))
        (λ why. Exchange terms.now why first stream start (situation K.Keeper C.Clock D.Door engine.new clock.new door.new)) }
    ensures failed { result ≡ Some Parting.Failed → Rose (D.faults door.old) (D.faults door.new) }
    ensures rests { IsAtRest engine.old.held.models engine.new.held }
    ensures door_count { D.faults door.old ≤ D.faults door.new }
    ensures keeper_count { K.faults engine.old.keeper.now ≤ K.faults engine.new.keeper.now }
    ensures others { (D.coming door.new ≡ D.coming door.old) × (D.next_faults door.new ≡ D.next_faults door.old) }
    ensures other_rows { OthersStay engine.old.held.models (K.kept engine.old.keeper.now) (K.kept engine.new.keeper.now) }
    ensures lender { engine.new.keeper.ghost_name ≡ engine.old.keeper.ghost_name }
{
    match next_request(door, held) {
        Ok(Inlet::Post { body, keep }) => {
            if answer_body(alloc, engine, terms, door, clock, steps, &body, keep).is_err() {
                return Some(Parting::Failed);
            }
            parting_after(keep, held.taken())
        }
        Ok(Inlet::Bad(status)) => Some(refuse(door, status)),
        Ok(Inlet::Ended) => Some(Parting::Served),
        Ok(Inlet::Cut) => Some(Parting::Served),
        Err(HttpFault::Failed) => Some(Parting::Failed),
        Err(HttpFault::NoMemory) => Some(Parting::NoMemory),
    }
}

/// Answers the body of a message, and writes the reply.
fn answer_body<K: Keeper, D: Door, C: Clock, L: Ledger>(
    alloc: Global,
    engine: &mut Engine<'_, K>,
    terms: &Terms<'_>,
    door: &mut D,
    clock: &mut C,
    steps: &mut Steps<L>,
    body: &[u8],
    keep: bool,
) -> Result<(), Failed>
    requires rest { IsAtRest engine.old.held.models engine.old.held }
    requires policy { IsPolicyOver engine.old.held.models terms.now.policy.now }
    // In whatever state the machine is, it is a step of it.
    ensures answers { (first : State) → HasState (situation K.Keeper C.Clock D.Door engine.old clock.old door.old) first
        → AnswersBody terms.now body.now keep result first (situation K.Keeper C.Clock D.Door engine.old clock.old door.old) (situation K.Keeper C.Clock D.Door engine.new clock.new door.new) }
    ensures unread { D.left door.new ≡ D.left door.old }
    ensures cause { HasCause (D.faults door.old) (D.faults door.new) (IsErr result) }
    ensures rests { IsAtRest engine.old.held.models engine.new.held }
    ensures keeper_count { K.faults engine.old.keeper.now ≤ K.faults engine.new.keeper.now }
    ensures others { (D.coming door.new ≡ D.coming door.old) × (D.next_faults door.new ≡ D.next_faults door.old) }
    ensures other_rows { OthersStay engine.old.held.models (K.kept engine.old.keeper.now) (K.kept engine.new.keeper.now) }
    ensures lender { engine.new.keeper.ghost_name ≡ engine.old.keeper.ghost_name }
{
    let reply = answer(alloc, engine, terms, clock, steps, body);
    write_reply(door, 200, reply.as_str().as_bytes(), keep)
}

/// How a connection ends behind an answer, where it does: it isn't kept, or it has sent more
/// bytes than one may.
fn parting_after(keep: bool, taken: u64) -> Option<Parting>
    ensures { result ≡ parting_behind keep taken }
{
    if !keep {
        return Some(Parting::Served);
    }
    if taken > MAX_INPUT_BYTES {
        return Some(Parting::TooLong);
    }
    None
}

/// Tells the status of what is no message that is served.
fn refuse<D: Door>(door: &mut D, status: u16) -> Parting
    requires { IsFaultStatus status }
    ensures wrote { TellsStatus result (D.written door.old) (D.written door.new) status }
    ensures unread { D.left door.new ≡ D.left door.old }
    ensures failed { result ≡ Parting.Failed → Rose (D.faults door.old) (D.faults door.new) }
    ensures count { D.faults door.old ≤ D.faults door.new }
    ensures others { (D.coming door.new ≡ D.coming door.old) × (D.next_faults door.new ≡ D.next_faults door.old) }
{
    match write_reply(door, status, b"", false) {
        Ok(()) => Parting::Served,
        Err(Failed) => Parting::Failed,
    }
}
