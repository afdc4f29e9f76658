//! `install`: the rows that modules bring, made in a new store, in one settle and one commit.
//!
//! Rooms: `bringing` (the values that a row brings), `placing` (the edits and ids of the rows, one
//! behind another), `owners` (for which of them a row is made) and `forbidding` (what calls may not
//! do, and a row does). What it means is `InstallsOver`: a change begins there.

ghost use Rattle.std.specs.Prelude.{◌≡◌, ◌≤◌, ◌<◌, ◌↔◌, ℕ, IfErr, IfOk, IsErrOf, IsTrue, OnErr, OnOk, length};
ghost use Rattle.ob_base.specs.Tally.{ticked_times};
ghost use Rattle.ob_base.specs.Times.{IsMoment};
ghost use Rattle.ob_cache.specs.Calls.{HasTables, IsResting, KeeperRose, models_at, settled_over, standpoint};
ghost use Rattle.ob_cache.specs.Kept.{OthersStay};
ghost use Rattle.ob_cache.specs.Standing.{IsAtRest, RestsAt, Stands, Stays};
ghost use Rattle.ob_io.specs.Cause.{HasCause, Rose};
ghost use Rattle.ob_install.specs.Install.{InstallsOver, IsInstalled, IsNew, IsRefused, NamesRow, RefusesRows, course, installed};
ghost use Rattle.ob_install.specs.InstallSteps.{AreCounted, IsPlain, TellsOwner, plain_fault};
ghost use Rattle.ob_schema.specs.Models.{HasModel};
ghost use Rattle.ob_schema.specs.Presets.{IsPreset};
ghost use Rattle.ob_schema.specs.Tables.{Tables, empty_tables, next_of};

mod bringing;
mod forbidding;
mod owners;
mod placing;

use crate::installing::forbidding::forbidden;
use crate::installing::owners::owner;
use crate::installing::placing::{Placed, place_rows};
use ob_base::limits::MAX_MODELS;
use ob_base::{Broken, Ledger, ModelNo, RecId, Refusal, Steps};
use ob_cache::Engine;
use ob_io::{KeepFault, Keeper};
use ob_orm::{Maker, begun, settle_rows};
use ob_rows::Author;
use ob_schema::{Preset, PresetRow};
use std::alloc::Global;

/// The user as which the system itself makes rows.
const SYSTEM: RecId = RecId(1);

/// Why rows that modules bring aren't made.
#[derive(Clone, Copy, Debug, PartialEq, Eq)]
pub enum InstallFault {
    /// The keeper failed.
    Keeper,
    /// Something is wrong at a cell of the row of this number, from 0, or of a parent that is made
    /// for it.
    Refused(u32, Broken),
    /// Memory is wanting.
    NoMemory,
}

/// Whether no model has a row and each one's next id is 1. The caller sees to it that the engine
/// rests.
pub fn is_new<K: Keeper>(engine: &mut Engine<'_, K>) -> Result<bool, KeepFault>
    requires rest { IsResting (standpoint K.Keeper engine.old) }
    ensures told { IfOk result (λ told. (tables : Tables) → HasTables (standpoint K.Keeper engine.old) tables
        → IsTrue told ↔ (tables ≡ empty_tables (models_at (standpoint K.Keeper engine.old)))) }
    ensures same { Stays (K.kept engine.old.keeper.now) engine.old.held (K.kept engine.new.keeper.now) engine.new.held }
    ensures cause { HasCause (K.faults engine.old.keeper.now) (K.faults engine.new.keeper.now) (IsErrOf result KeepFault.Failed) }
    ensures lender { engine.new.keeper.ghost_name ≡ engine.old.keeper.ghost_name }
{
    // There are no more models than these.
    engine.schema().parts_fit_together();
    for place in 0..MAX_MODELS as u16 {
        if !begins_anew(engine, ModelNo(place + 1))? {
            return Ok(false);
        }
    }
    Ok(true)
}

/// Whether a model's next id is 1, where there is such a model: ids are below it, so it has no row.
fn begins_anew<K: Keeper>(engine: &mut Engine<'_, K>, model: ModelNo) -> Result<bool, KeepFault>
    requires rest { IsAtRest engine.old.held.models engine.old.held }
    ensures told { IfOk result (λ told. (tables : Tables) → RestsAt (K.kept engine.old.keeper.now) engine.old.held tables
        → IsTrue told ↔ (HasModel engine.old.held.models model → next_of tables model ≡ 1)) }
    ensures same { Stays (K.kept engine.old.keeper.now) engine.old.held (K.kept engine.new.keeper.now) engine.new.held }
    ensures cause { HasCause (K.faults engine.old.keeper.now) (K.faults engine.new.keeper.now) (IsErrOf result KeepFault.Failed) }
    ensures lender { engine.new.keeper.ghost_name ≡ engine.old.keeper.ghost_name }
{
    if engine.schema().find_model(model).is_none() {
        return Ok(true);
    }
    Ok(engine.next_id(model)? == 1)
}

/// Makes the rows that modules bring, as user 1 at a moment, one behind another, each with those of
/// its parents that it doesn't name; keeps them in one commit. Where something is wrong with one, or
/// the keeper fails, nothing is made, and the engine rests as it did. The caller sees to it that the
/// engine rests, has no row and only next ids 1 (`is_new`), and that the moment lies within the years
/// 0001 to 9999.
pub fn install<K: Keeper, L: Ledger>(
    alloc: Global,
    engine: &mut Engine<'_, K>,
    preset: &Preset,
    now: i64,
    steps: &mut Steps<L>,
) -> Result<(), InstallFault>
    requires rest { IsResting (standpoint K.Keeper engine.old) }
    requires moment { IsMoment now }
    requires preset { IsPreset (models_at (standpoint K.Keeper engine.old)) preset.now.rows }
    requires new { IsNew (standpoint K.Keeper engine.old) }

    // Over a keeper that tells: the rows are made and kept, or refused.
    ensures answer { (tables : Tables) → HasTables (standpoint K.Keeper engine.old) tables
        → InstallsOver now preset.now.rows (standpoint K.Keeper engine.old) (standpoint K.Keeper engine.new) tables result }

    // Over any keeper.
    ensures causes { IfErr result (RefusesRows (KeeperRose (standpoint K.Keeper engine.old) (standpoint K.Keeper engine.new))
        (NamesRow (models_at (standpoint K.Keeper engine.old)) preset.now.rows)) }
    ensures rests { IsAtRest (models_at (standpoint K.Keeper engine.old)) engine.new.held }
    ensures unkept { OnErr result (K.kept engine.new.keeper.now ≡ K.kept engine.old.keeper.now) }
    ensures others { OthersStay (models_at (standpoint K.Keeper engine.old)) (K.kept engine.old.keeper.now) (K.kept engine.new.keeper.now) }
    ensures count { K.faults engine.old.keeper.now ≤ K.faults engine.new.keeper.now }
    ensures ticks { (n : ℕ) × (steps.new ≡ ticked_times n L.noted steps.old) }
    ensures lender { engine.new.keeper.ghost_name ≡ engine.old.keeper.ghost_name }
{
    let rows = preset.rows.as_slice();
    if rows.is_empty() {
        return Ok(());
    }
    settle_preset(alloc, engine, rows, now, steps)?;
    keep(engine)
}

/// Settles the engine with the rows; else it rests as it did.
fn settle_preset<K: Keeper, L: Ledger>(
    alloc: Global,
    engine: &mut Engine<'_, K>,
    rows: &[PresetRow],
    now: i64,
    steps: &mut Steps<L>,
) -> Result<(), InstallFault>
    requires rest { IsAtRest engine.old.held.models engine.old.held }
    requires moment { IsMoment now }
    requires preset { IsPreset engine.old.held.models rows.now }
    requires new { IsNew (standpoint K.Keeper engine.old) }
    requires some { 0 < length rows.now }
    ensures settled { OnOk result ((tables : Tables) → RestsAt (K.kept engine.old.keeper.now) engine.old.held tables
        → let new = (installed engine.old.held.models now rows.now).tables in IsInstalled engine.old.held.models now rows.now new
        × Stands (K.kept engine.new.keeper.now) engine.new.held (settled_over engine.old.held.models tables new)) }
    ensures refused { IfErr result (λ why. (tables : Tables) → RestsAt (K.kept engine.old.keeper.now) engine.old.held tables
        → RefusesRows (Rose (K.faults engine.old.keeper.now) (K.faults engine.new.keeper.now))
        (IsRefused engine.old.held.models (course engine.old.held.models now rows.now)) why
        × RestsAt (K.kept engine.new.keeper.now) engine.new.held tables) }
    ensures causes { IfErr result (RefusesRows (Rose (K.faults engine.old.keeper.now) (K.faults engine.new.keeper.now))
        (NamesRow engine.old.held.models rows.now)) }
    ensures rests { IsAtRest engine.old.held.models engine.new.held }
    ensures count { K.faults engine.old.keeper.now ≤ K.faults engine.new.keeper.now }
    ensures ticks { (n : ℕ) × (steps.new ≡ ticked_times n L.noted steps.old) }
    ensures same { K.kept engine.new.keeper.now ≡ K.kept engine.old.keeper.now }
    ensures lender { engine.new.keeper.ghost_name ≡ engine.old.keeper.ghost_name }
{
    let making = begun(alloc, engine).map_err(plain_fault)?;
    let maker = Maker {
        alloc,
        schema: engine.schema(),
        author: Author { user: SYSTEM, now },
    };
    let Ok(placed) = place_rows(&maker, making, rows) else {
        return Err(InstallFault::NoMemory);
    };
    match forbidden(&maker, &placed) {
        Ok(None) => {}
        Ok(Some(broken)) => return Err(refused(&placed, broken)),
        Err(_) => return Err(InstallFault::NoMemory),
    }
    match settle_rows(engine, &placed.making, steps) {
        Ok(()) => Ok(()),
        Err(Refusal::Constraint(broken)) => Err(refused(&placed, broken)),
        Err(why) => Err(plain_fault(why)),
    }
}

/// The fault of the keeper or of memory that a refusal tells.
fn plain_fault(why: Refusal) -> InstallFault
    requires { IsPlain why }
    ensures { result ≡ plain_fault why }
{
    match why {
        Refusal::Keeper => InstallFault::Keeper,
        Refusal::NoMemory => InstallFault::NoMemory,
        _ => unreachable!(),
    }
}

/// What is wrong, with the number of the row to which its cell belongs: the first, where there is
/// none.
fn refused(placed: &Placed<'_>, broken: Broken) -> InstallFault
    requires { AreCounted placed.now }
    ensures { TellsOwner placed.entry.now broken result }
{
    let number = owner(placed, broken.cell).unwrap_or(0);
    match u32::try_from(number) {
        Ok(number) => InstallFault::Refused(number, broken),
        Err(_) => InstallFault::NoMemory,
    }
}

/// Keeps what was settled; else the engine rests as it did before that.
fn keep<K: Keeper>(engine: &mut Engine<'_, K>) -> Result<(), InstallFault>
    requires rest { IsAtRest engine.old.held.models engine.old.held }
    ensures kept { OnOk result ((old new : Tables) → Stands (K.kept engine.old.keeper.now) engine.old.held (settled_over engine.old.held.models old new)
        → RestsAt (K.kept engine.new.keeper.now) engine.new.held new) }
    ensures forgotten { OnErr result ((old new : Tables) → Stands (K.kept engine.old.keeper.now) engine.old.held (settled_over engine.old.held.models old new)
        → RestsAt (K.kept engine.new.keeper.now) engine.new.held old) }
    ensures causes { IfErr result (RefusesRows (Rose (K.faults engine.old.keeper.now) (K.faults engine.new.keeper.now)) (λ _ _. ⊥)) }
    ensures rests { IsAtRest engine.old.held.models engine.new.held }
    ensures unkept { OnErr result (K.kept engine.new.keeper.now ≡ K.kept engine.old.keeper.now) }
    ensures others { OthersStay engine.old.held.models (K.kept engine.old.keeper.now) (K.kept engine.new.keeper.now) }
    ensures count { K.faults engine.old.keeper.now ≤ K.faults engine.new.keeper.now }
    ensures lender { engine.new.keeper.ghost_name ≡ engine.old.keeper.ghost_name }
{
    let Err(why) = engine.flush() else {
        return Ok(());
    };
    engine.forget();
    Err(match why {
        KeepFault::Failed => InstallFault::Keeper,
        KeepFault::NoMemory => InstallFault::NoMemory,
    })
}
