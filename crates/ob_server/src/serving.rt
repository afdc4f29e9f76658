//! Serving connections: each connection of the door in turn, up to a number of them.
//!
//! How one is served is settled in `connection`; only the order in which connections are let in,
//! served and shut may be changed here.

ghost use Rattle.std.specs.Prelude.{◌≡◌, ◌≤◌, ◌<◌, ◌+◌, ℕ, ℤ, List, Option, Some, IfSome, MatchOption};
ghost use Rattle.ob_access.specs.Policies.{IsPolicyOver};
ghost use Rattle.ob_cache.specs.Kept.{OthersStay};
ghost use Rattle.ob_cache.specs.Standing.{IsAtRest, RestsAt};
ghost use Rattle.ob_io.specs.Cause.{Rose};
ghost use Rattle.ob_schema.specs.Tables.{Tables};
ghost use Rattle.ob_server.specs.Ending.{HasReason};
ghost use Rattle.ob_server.specs.Exchange.{situation};
ghost use Rattle.ob_server.specs.Machine.{State};
ghost use Rattle.ob_server.specs.Outside.{doorway};
ghost use Rattle.ob_server.specs.Reception.{Reception};
ghost use Rattle.ob_server.specs.ReceptionSteps.{HasStopped, IsReceiving, Post};
ghost use Rattle.ob_server.specs.Setup.{over};

use crate::connection::serve_connection;
use crate::ending::Ending;
use crate::terms::Terms;
use ob_base::{NoMemory, Silent, Steps};
use ob_cache::Engine;
use ob_io::{Clock, Door, Failed, Keeper};
use std::alloc::Global;

/// Serves the connections of the door, at most so many of them.
pub(crate) fn serve_connections<K: Keeper, D: Door, C: Clock>(
    alloc: Global,
    engine: &mut Engine<'_, K>,
    terms: &Terms<'_>,
    door: &mut D,
    clock: &mut C,
    most: u32,
) -> Ending
    requires rest { IsAtRest engine.old.held.models engine.old.held }
    requires policy { IsPolicyOver engine.old.held.models terms.now.policy.now }
    // Over an engine that rests at tables, and objects that tell what they hold, it is a run
    // of the machine over the connections that came.
    ensures reception { (first : Tables) (streams : List (List ℕ)) (moments : ℕ → ℤ) (written : Option (List ℕ)) → D.coming door.old ≡ Some streams → C.coming clock.old ≡ Some moments
        → RestsAt (K.kept engine.old.keeper.now) engine.old.held first
        → Reception (over terms.now engine.old.held.models) first result most moments (doorway D.Door door.old) (doorway D.Door door.new)
        (record { faults = K.faults engine.old.keeper.now; kept = K.kept engine.old.keeper.now; coming = C.coming clock.old; written = written })
        (record { faults = K.faults engine.new.keeper.now; kept = K.kept engine.new.keeper.now; coming = C.coming clock.new; written = written }) }
    ensures reason { HasReason ⊥ (Rose (D.next_faults door.old) (D.next_faults door.new)) ⊥ ⊥ result }
    ensures keeper_count { K.faults engine.old.keeper.now ≤ K.faults engine.new.keeper.now }
    ensures next_count { D.next_faults door.old ≤ D.next_faults door.new }
    ensures other_rows { OthersStay engine.old.held.models (K.kept engine.old.keeper.now) (K.kept engine.new.keeper.now) }
    ensures lender { engine.new.keeper.ghost_name ≡ engine.old.keeper.ghost_name }
{
    for _visit in 0..most {
        if let Some(ending) = serve_next(alloc, engine, terms, door, clock) {
            return ending;
        }
    }
    Ending::Done
}

/// Lets the next connection in, serves it and shuts it. Answers how serving ended, where it did.
fn serve_next<K: Keeper, D: Door, C: Clock>(
    alloc: Global,
    engine: &mut Engine<'_, K>,
    terms: &Terms<'_>,
    door: &mut D,
    clock: &mut C,
) -> Option<Ending>
    requires rest { IsAtRest engine.old.held.models engine.old.held }
    requires policy { IsPolicyOver engine.old.held.models terms.now.policy.now }
    // A reception goes on by one connection, or ends.
    ensures reception { (count limit : ℕ) (first : State) (start : Post) → count < limit
        → IsReceiving terms.now count first start (record { situation = situation K.Keeper C.Clock D.Door engine.old clock.old door.old; doorway = doorway D.Door door.old })
        → MatchOption result (IsReceiving terms.now (count + 1) first start (record { situation = situation K.Keeper C.Clock D.Door engine.new clock.new door.new; doorway = doorway D.Door door.new }))
        (λ why. HasStopped terms.now why limit first start (record { situation = situation K.Keeper C.Clock D.Door engine.new clock.new door.new; doorway = doorway D.Door door.new })) }
    ensures reason { IfSome result (HasReason ⊥ (Rose (D.next_faults door.old) (D.next_faults door.new)) ⊥ ⊥) }
    ensures rests { IsAtRest engine.old.held.models engine.new.held }
    ensures keeper_count { K.faults engine.old.keeper.now ≤ K.faults engine.new.keeper.now }
    ensures next_count { D.next_faults door.old ≤ D.next_faults door.new }
    ensures other_rows { OthersStay engine.old.held.models (K.kept engine.old.keeper.now) (K.kept engine.new.keeper.now) }
    ensures lender { engine.new.keeper.ghost_name ≡ engine.old.keeper.ghost_name }
{
    match door.next() {
        Ok(true) => {}
        Ok(false) => return Some(Ending::Done),
        Err(Failed) => return Some(Ending::ReadFault),
    }
    let mut steps = Steps::new(Silent);
    let served = serve_connection(alloc, engine, terms, door, clock, &mut steps);
    door.shut();
    match served {
        Ok(()) => None,
        Err(NoMemory) => Some(Ending::NoMemory),
    }
}
