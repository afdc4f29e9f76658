//! Before anything is asked of a store: one that is new gets the rows that modules bring, by user 1, at the
//! clock's moment. What else a store needs before its first request is added here.

ghost use Rattle.std.specs.Prelude.{◌≡◌, ◌≤◌, ℕ, ℤ, List, Option, Some, IfErr, OnErr, OnOk};
ghost use Rattle.ob_base.specs.Times.{IsMoment};
ghost use Rattle.ob_access.specs.Policies.{IsPolicyOver};
ghost use Rattle.ob_cache.specs.Calls.{HasTables, IsResting, KeeperRose, models_at, standpoint};
ghost use Rattle.ob_cache.specs.Kept.{OthersStay};
ghost use Rattle.ob_cache.specs.Standing.{IsAtRest, RestsAt};
ghost use Rattle.ob_io.specs.Cause.{Rose};
ghost use Rattle.ob_install.specs.Install.{IsInstalled, IsNew};
ghost use Rattle.ob_schema.specs.Presets.{IsPreset};
ghost use Rattle.ob_schema.specs.Tables.{Tables};
ghost use Rattle.ob_server.specs.Ending.{HasReason};
ghost use Rattle.ob_server.specs.Opening.{Begins, ServesDoor, ServesLines, StopsFilling, StopsUnfilled};
ghost use Rattle.ob_server.specs.OpeningSteps.{IsAskingEnding, IsFillingEnding, IsRowEnding, NamesOne};
ghost use Rattle.ob_server.specs.Outside.{doorway, surroundings};
ghost use Rattle.ob_server.specs.Setup.{over};

use crate::ending::Ending;
use crate::serving::serve_connections;
use crate::session::serve_lines;
use crate::terms::Terms;
use ob_base::{Silent, Steps, Word};
use ob_cache::Engine;
use ob_install::{InstallFault, install, is_new};
use ob_io::{Clock, Door, KeepFault, Keeper, Sink, Source};
use ob_schema::{Preset, PresetRow};
use std::alloc::Global;

/// Serves the lines of the input over a store that is filled first, where it is new.
///
/// The engine rests over the store that was opened, and `terms` and `preset`, the rows that modules
/// bring, are those of its registry. Each line of the input that isn't blank is a body, whose reply
/// is written to the output on a line of its own before the next one is answered. The clock gives
/// a moment for filling and one for each body with an envelope.
///
/// Answers how that ended: `Done` at the end of the input; `ReadFault` and `WriteFault` where the
/// input or the output failed; `TooLong` at a line of more than 2^23 bytes or past 2^40 bytes of
/// input; and before the first line `Module` where one of the rows can't be made, and `KeeperFault`
/// where the keeper failed. `NoMemory` may come at any time.
pub fn filled_lines<K: Keeper, S: Source, W: Sink, C: Clock>(
    alloc: Global,
    engine: &mut Engine<'_, K>,
    terms: &Terms<'_>,
    preset: &Preset,
    input: &mut S,
    output: &mut W,
    clock: &mut C,
) -> Ending
    requires rest { IsAtRest engine.old.held.models engine.old.held }
    requires policy { IsPolicyOver engine.old.held.models terms.now.policy.now }
    requires preset { IsPreset engine.old.held.models preset.now.rows }
    ensures outcome { let before = surroundings K.Keeper W.Sink C.Clock engine.old.keeper.now output.old clock.old in let now = surroundings K.Keeper W.Sink C.Clock engine.new.keeper.now output.new clock.new in
        (first : Tables) → RestsAt (K.kept engine.old.keeper.now) engine.old.held first
        → ServesLines (over terms.now engine.old.held.models) preset.now.rows first result (S.left input.old) (S.left input.new) before now }
    ensures reason { HasReason ⊥ (Rose (S.faults input.old) (S.faults input.new))
        (Rose (W.faults output.old) (W.faults output.new))
        (Rose (K.faults engine.old.keeper.now) (K.faults engine.new.keeper.now)) result }
    ensures output_count { W.faults output.old ≤ W.faults output.new }
    ensures keeper_count { K.faults engine.old.keeper.now ≤ K.faults engine.new.keeper.now }
    ensures others { OthersStay engine.old.held.models (K.kept engine.old.keeper.now) (K.kept engine.new.keeper.now) }
    ensures lender { engine.new.keeper.ghost_name ≡ engine.old.keeper.ghost_name }
{
    match fill(alloc, engine, preset, clock) {
        Ok(()) => serve_lines(alloc, engine, terms, input, output, clock),
        Err(ending) => ending,
    }
}

/// Serves the connections of the door over a store that is filled first, where it is new.
///
/// The engine rests over the store that was opened, and `terms` and `preset`, the rows that modules
/// bring, are those of its registry. Connections are let in one after another, at most `most` of
/// them (any number, 0 for none), and each is served as `serve_connection` does and then shut. The
/// clock gives a moment for filling and one for each body with an envelope.
///
/// Answers how that ended: `Done` where the door has ended or `most` connections were served;
/// `ReadFault` where the door failed to let the next one in; and before the first `Module` where
/// one of the rows can't be made, and `KeeperFault` where the keeper failed. `NoMemory` may come at
/// any time. A read or a write that fails ends its connection alone.
pub fn filled_connections<K: Keeper, D: Door, C: Clock>(
    alloc: Global,
    engine: &mut Engine<'_, K>,
    terms: &Terms<'_>,
    preset: &Preset,
    door: &mut D,
    clock: &mut C,
    most: u32,
) -> Ending
    requires rest { IsAtRest engine.old.held.models engine.old.held }
    requires policy { IsPolicyOver engine.old.held.models terms.now.policy.now }
    requires preset { IsPreset engine.old.held.models preset.now.rows }
    ensures outcome { (first : Tables) (streams : List (List ℕ)) (moments : ℕ → ℤ) (written : Option (List ℕ)) → D.coming door.old ≡ Some streams → C.coming clock.old ≡ Some moments
        → RestsAt (K.kept engine.old.keeper.now) engine.old.held first
        → ServesDoor (over terms.now engine.old.held.models) preset.now.rows first result most (doorway D.Door door.old) (doorway D.Door door.new)
        (record { faults = K.faults engine.old.keeper.now; kept = K.kept engine.old.keeper.now; coming = C.coming clock.old; written = written })
        (record { faults = K.faults engine.new.keeper.now; kept = K.kept engine.new.keeper.now; coming = C.coming clock.new; written = written }) }
    ensures reason { HasReason ⊥ (Rose (D.next_faults door.old) (D.next_faults door.new)) ⊥ (Rose (K.faults engine.old.keeper.now) (K.faults engine.new.keeper.now)) result }
    ensures keeper_count { K.faults engine.old.keeper.now ≤ K.faults engine.new.keeper.now }
    ensures others { OthersStay engine.old.held.models (K.kept engine.old.keeper.now) (K.kept engine.new.keeper.now) }
    ensures lender { engine.new.keeper.ghost_name ≡ engine.old.keeper.ghost_name }
{
    match fill(alloc, engine, preset, clock) {
        Ok(()) => serve_connections(alloc, engine, terms, door, clock, most),
        Err(ending) => ending,
    }
}

/// Fills a store that is new, and leaves another as it is. Where that isn't done, the store is as it
/// was.
fn fill<K: Keeper, C: Clock>(
    alloc: Global,
    engine: &mut Engine<'_, K>,
    preset: &Preset,
    clock: &mut C,
) -> Result<(), Ending>
    requires rest { IsAtRest engine.old.held.models engine.old.held }
    requires preset { IsPreset engine.old.held.models preset.now.rows }
    ensures begins { OnOk result ((first : Tables) → RestsAt (K.kept engine.old.keeper.now) engine.old.held first
        → (begun : Tables) × Begins engine.old.held.models preset.entry.now.rows first begun (C.coming clock.old) (C.coming clock.new)
        × RestsAt (K.kept engine.new.keeper.now) engine.new.held begun) }
    ensures stops { IfErr result (λ why. (first : Tables) → RestsAt (K.kept engine.old.keeper.now) engine.old.held first
        → StopsUnfilled engine.old.held.models preset.entry.now.rows why first (Rose (K.faults engine.old.keeper.now) (K.faults engine.new.keeper.now)) (C.coming clock.old) (C.coming clock.new)) }
    ensures same { IfErr result (λ why. K.kept engine.new.keeper.now ≡ K.kept engine.old.keeper.now) }
    ensures reason { IfErr result (HasReason ⊥ ⊥ ⊥ (Rose (K.faults engine.old.keeper.now) (K.faults engine.new.keeper.now))) }
    ensures rests { IsAtRest engine.old.held.models engine.new.held }
    ensures others { OthersStay engine.old.held.models (K.kept engine.old.keeper.now) (K.kept engine.new.keeper.now) }
    ensures lender { engine.new.keeper.ghost_name ≡ engine.old.keeper.ghost_name }
    ensures count { K.faults engine.old.keeper.now ≤ K.faults engine.new.keeper.now }
{
    match is_new(engine) {
        Ok(true) => bring(alloc, engine, preset, clock.now()),
        Ok(false) => Ok(()),
        Err(fault) => Err(asking_fault(fault)),
    }
}

/// Makes the rows that modules bring in a new store, and keeps them.
fn bring<K: Keeper>(
    alloc: Global,
    engine: &mut Engine<'_, K>,
    preset: &Preset,
    now: i64,
) -> Result<(), Ending>
    requires rest { IsResting (standpoint K.Keeper engine.old) }
    requires moment { IsMoment now }
    requires preset { IsPreset (models_at (standpoint K.Keeper engine.old)) preset.now.rows }
    requires new { IsNew (standpoint K.Keeper engine.old) }
    ensures brought { OnOk result ((first : Tables) → HasTables (standpoint K.Keeper engine.old) first
        → (begun : Tables) × IsInstalled (models_at (standpoint K.Keeper engine.old)) now preset.now.rows begun × HasTables (standpoint K.Keeper engine.new) begun) }
    ensures stops { IfErr result (λ why. (first : Tables) → HasTables (standpoint K.Keeper engine.old) first
        → StopsFilling (models_at (standpoint K.Keeper engine.old)) preset.now.rows now (KeeperRose (standpoint K.Keeper engine.old) (standpoint K.Keeper engine.new)) why) }
    ensures same { OnErr result (K.kept engine.new.keeper.now ≡ K.kept engine.old.keeper.now) }
    ensures reason { IfErr result (HasReason ⊥ ⊥ ⊥ (KeeperRose (standpoint K.Keeper engine.old) (standpoint K.Keeper engine.new))) }
    ensures rests { IsAtRest (models_at (standpoint K.Keeper engine.old)) engine.new.held }
    ensures others { OthersStay (models_at (standpoint K.Keeper engine.old)) (K.kept engine.old.keeper.now) (K.kept engine.new.keeper.now) }
    ensures lender { engine.new.keeper.ghost_name ≡ engine.old.keeper.ghost_name }
    ensures count { K.faults engine.old.keeper.now ≤ K.faults engine.new.keeper.now }
{
    let mut steps = Steps::new(Silent);
    match install(alloc, engine, preset, now, &mut steps) {
        Ok(()) => Ok(()),
        Err(fault) => Err(filling_fault(alloc, preset, fault)),
    }
}

/// How a run ends where it isn't known whether the store is new.
fn asking_fault(fault: KeepFault) -> Ending
    ensures { IsAskingEnding fault result }
{
    match fault {
        KeepFault::Failed => Ending::KeeperFault,
        KeepFault::NoMemory => Ending::NoMemory,
    }
}

/// How a run ends whose new store doesn't get its rows.
fn filling_fault(alloc: Global, preset: &Preset, fault: InstallFault) -> Ending
    requires { NamesOne preset.now.rows fault }
    ensures { IsFillingEnding preset.now.rows fault result }
{
    match fault {
        InstallFault::Keeper => Ending::KeeperFault,
        InstallFault::Refused(number, _) => {
            let rows = preset.rows.as_slice();
            row_fault(alloc, &rows[number as usize])
        }
        InstallFault::NoMemory => Ending::NoMemory,
    }
}

/// How a run ends where this row can't be made.
fn row_fault(alloc: Global, row: &PresetRow) -> Ending
    ensures { IsRowEnding row.now result }
{
    match format!(in alloc; "module {}: Preset {}", row.module, row.place) {
        Ok(text) => Ending::Module(Word::new(text)),
        Err(_) => Ending::NoMemory,
    }
}
