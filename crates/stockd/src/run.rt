//! A run of the program, from its words to its status. What is done in which order stands
//! here; what a session does and what connections get is settled in `ob_server`, and what modules
//! mean in `ob_load`.

ghost use Rattle.std.specs.Prelude.{◌≡◌, ◌≤◌, ◌⊎◌, ℕ, ℤ, List, Option, Some, ⊤, IfErr, IfOk, IfSome, option_map};
ghost use Rattle.ob_access.specs.Policies.{IsPolicyOver};
ghost use Rattle.ob_cache.specs.Kept.{OthersStay};
ghost use Rattle.ob_cache.specs.Opening.{ShowsField};
ghost use Rattle.ob_io.specs.Cause.{Rose};
ghost use Rattle.ob_io.specs.Store.{Store};
ghost use Rattle.ob_load.specs.Texts.{AgreesWith, FileTexts, text_in};
ghost use Rattle.ob_schema.specs.Presets.{IsPreset};
ghost use Rattle.ob_words.specs.Values.{audit, serve};
ghost use Rattle.ob_words.specs.Views.{command_view};
ghost use Rattle.ob_words.specs.Words.{AsksFor, AsksNoRun, AsksToBeTold, Command as Meant, IsUsage, asked_of};
ghost use Rattle.ob_schema.specs.Tables.{Tables};
ghost use Rattle.ob_server.specs.Ending.{HasReason, WritesLast, last_line, status_of};
ghost use Rattle.ob_server.specs.Opening.{ServesDoor, ServesLines};
ghost use Rattle.ob_server.specs.Outside.{Doorway, doorway, surroundings};
ghost use Rattle.ob_server.specs.Session.{StandsFor};
ghost use Rattle.stockd.specs.Outside.{outside};
ghost use Rattle.stockd.specs.Program.{AreLoadedBy, EndsAction, EndsAudit, EndsCall, EndsServe, HasCauses, IsUntouched, KeepsOthers, Runs};
ghost use Rattle.stockd.specs.Setup.{setup_of};
ghost use Rattle.stockd.specs.Store.{IsOpeningEnding, MayEndLoading, MayEndOpening, EndsLoading, EndsOpening, TellsFault};

use crate::auditing::audited;
use crate::help::{told_help, told_version};
use ob_base::{NoMemory, Word};
use ob_cache::{Engine, OpenFault};
use ob_io::{Clock, Door, Files, Keeper, Sink, Source};
use ob_load::{FaultyModule, LoadFault, Loaded, load};
use ob_orm::cell_text;
use ob_schema::Schema;
use ob_server::{Ending, Terms, filled_connections, filled_lines};
use ob_words::{Action, Asked, Command, asked_of};
use std::alloc::Global;

/// Runs the program over these objects and answers its status.
pub fn run<F: Files, K: Keeper, S: Source, W: Sink, D: Door, C: Clock>(
    alloc: Global,
    words: &[String],
    files: &mut F,
    keeper: &mut K,
    input: &mut S,
    output: &mut W,
    door: &mut D,
    clock: &mut C,
) -> u8
    // Words that ask for nothing that is served: the usage line; or that memory is wanting.
    ensures usage { IsUsage words.now
        → ((result ≡ 2) × WritesLast (Rose (W.faults output.old) (W.faults output.new)) (W.written output.old) (W.written output.new) (last_line Ending.Usage))
        ⊎ ((result ≡ 7) × WritesLast (Rose (W.faults output.old) (W.faults output.new)) (W.written output.old) (W.written output.new) (last_line Ending.NoMemory)) }

    // Words that ask for help or the version: it is told, unless the sink failed or memory was wanting.
    ensures told { AsksToBeTold (asked_of words.now) → (result ≡ 0) ⊎ ((result ≡ 5) ⊎ (result ≡ 7)) }

    // Where no run is asked for, nothing but the output is touched.
    ensures untouched { AsksNoRun (asked_of words.now) →
        (files.new ≡ files.old) × (keeper.new ≡ keeper.old) × (input.new ≡ input.old) × (door.new ≡ door.old) × (clock.new ≡ clock.old) }

    // A command, over a keeper that tells its rows. `call`: the machine's replies to the bodies of the
    // input, and its tables as kept rows. This is where the headline stands. `serve`: the same for the
    // messages of each connection, where the door and the clock tell theirs. `audit`: the report on the
    // rows that are kept. Of each other object that tells what it holds, that agrees.
    ensures runs { (command : Meant) → AsksFor words.now command → Runs command
        (outside K.Keeper W.Sink C.Clock F.Files S.Source files.old keeper.old input.old output.old clock.old (doorway D.Door door.old))
        (outside K.Keeper W.Sink C.Clock F.Files S.Source files.new keeper.new input.new output.new clock.new (doorway D.Door door.new)) result }

    // Rows under numbers that no model has stay.
    ensures others { (command : Meant) → AsksFor words.now command → KeepsOthers command (F.texts files.old) (K.kept keeper.old) (K.kept keeper.new) }

    // What files hold stays, and no run but one that serves connections uses the door.
    ensures texts { F.texts files.new ≡ F.texts files.old }
    ensures unused { (command : Meant) → AsksFor words.now command → (command.action ≡ serve → ⊥) → door.new ≡ door.old }

    // Each status has its cause, whatever the objects tell.
    ensures causes { HasCauses (asked_of words.now)
        (outside K.Keeper W.Sink C.Clock F.Files S.Source files.old keeper.old input.old output.old clock.old (doorway D.Door door.old))
        (outside K.Keeper W.Sink C.Clock F.Files S.Source files.new keeper.new input.new output.new clock.new (doorway D.Door door.new)) result }
{
    match asked_of(alloc, words) {
        Ok(Some(Asked::Command(command))) => {
            let ending = carried_out(alloc, &command, files, keeper, input, output, door, clock);
            finish(&ending, output)
        }
        Ok(Some(Asked::Help)) => {
            let ending = told_help(alloc, output);
            finish(&ending, output)
        }
        Ok(Some(Asked::Version)) => {
            let ending = told_version(output);
            finish(&ending, output)
        }
        Ok(None) => finish(&Ending::Usage, output),
        Err(NoMemory) => finish(&Ending::NoMemory, output),
    }
}

/// Tells how the run ends, and answers its status.
fn finish<W: Sink>(ending: &Ending, output: &mut W) -> u8
    ensures status { result ≡ status_of ending.now }
    ensures line { WritesLast (Rose (W.faults output.old) (W.faults output.new))
        (W.written output.old) (W.written output.new) (last_line ending.now) }
    ensures count { W.faults output.old ≤ W.faults output.new }
{
    ending.tell(output);
    ending.status()
}

/// Does what is asked for.
fn carried_out<F: Files, K: Keeper, S: Source, W: Sink, D: Door, C: Clock>(
    alloc: Global,
    command: &Command<'_>,
    files: &mut F,
    keeper: &mut K,
    input: &mut S,
    output: &mut W,
    door: &mut D,
    clock: &mut C,
) -> Ending
    ensures outcome { (store : Store) → K.kept keeper.old ≡ Some store → EndsAction (command_view command.now).action (command_view command.now) result store
        (outside K.Keeper W.Sink C.Clock F.Files S.Source files.old keeper.old input.old output.old clock.old (doorway D.Door door.old))
        (outside K.Keeper W.Sink C.Clock F.Files S.Source files.new keeper.new input.new output.new clock.new (doorway D.Door door.new)) }
    ensures unused { ((command_view command.now).action ≡ serve → ⊥) → door.new ≡ door.old }
    ensures others { KeepsOthers (command_view command.now) (F.texts files.old) (K.kept keeper.old) (K.kept keeper.new) }
    ensures reason { HasReason ((command_view command.now).action ≡ audit)
        (Rose (F.faults files.old) (F.faults files.new) ⊎ (Rose (S.faults input.old) (S.faults input.new) ⊎ Rose (D.next_faults door.old) (D.next_faults door.new)))
        (Rose (W.faults output.old) (W.faults output.new))
        (Rose (K.faults keeper.old) (K.faults keeper.new)) result }
    ensures texts { F.texts files.new ≡ F.texts files.old }
    ensures output_count { W.faults output.old ≤ W.faults output.new }
{
    match command.action {
        Action::Call => call(alloc, command, files, keeper, input, output, clock),
        Action::Serve => serve(alloc, command, files, keeper, door, clock),
        Action::Audit => audit(alloc, command, files, keeper, output),
    }
}

/// Loads the modules, opens the store and serves the connections of the door.
fn serve<F: Files, K: Keeper, D: Door, C: Clock>(
    alloc: Global,
    command: &Command<'_>,
    files: &mut F,
    keeper: &mut K,
    door: &mut D,
    clock: &mut C,
) -> Ending
    // Over a keeper, a door and a clock that tell what they hold: the loading or the opening stopped, or
    // connections were served.
    ensures outcome { (store : Store) (streams : List (List ℕ)) (moments : ℕ → ℤ) (left written : Option (List ℕ)) (source_faults sink_faults : ℕ) → K.kept keeper.old ≡ Some store
        → D.coming door.old ≡ Some streams → C.coming clock.old ≡ Some moments
        → EndsServe (command_view command.now) result store
        (record {
          texts = F.texts files.old;
          left = left;
          door = doorway D.Door door.old;
          file_faults = F.faults files.old;
          source_faults = source_faults;
          sink_faults = sink_faults;
          standing = record { faults = K.faults keeper.old; kept = K.kept keeper.old; coming = C.coming clock.old; written = written };
        })
        (record {
          texts = F.texts files.new;
          left = left;
          door = doorway D.Door door.new;
          file_faults = F.faults files.new;
          source_faults = source_faults;
          sink_faults = sink_faults;
          standing = record { faults = K.faults keeper.new; kept = K.kept keeper.new; coming = C.coming clock.new; written = written };
        }) }
    ensures others { KeepsOthers (command_view command.now) (F.texts files.old) (K.kept keeper.old) (K.kept keeper.new) }
    ensures reason { HasReason ⊥ (Rose (F.faults files.old) (F.faults files.new) ⊎ Rose (D.next_faults door.old) (D.next_faults door.new)) ⊥
        (Rose (K.faults keeper.old) (K.faults keeper.new)) result }
    ensures texts { F.texts files.new ≡ F.texts files.old }
{
    match loaded(alloc, files, command) {
        Ok(loaded) => received(alloc, keeper, door, clock, &loaded, command),
        Err(ending) => ending,
    }
}

/// Loads the modules and audits the store.
fn audit<F: Files, K: Keeper, W: Sink>(
    alloc: Global,
    command: &Command<'_>,
    files: &mut F,
    keeper: &mut K,
    output: &mut W,
) -> Ending
    // Over a keeper that tells its rows: the loading stopped, or the rows were audited.
    ensures outcome { (store : Store) (left : Option (List ℕ)) (door : Doorway) (coming : Option (ℕ → ℤ)) (source_faults : ℕ) → K.kept keeper.old ≡ Some store
        → EndsAudit (command_view command.now) result store
        (record {
          texts = F.texts files.old;
          left = left;
          door = door;
          file_faults = F.faults files.old;
          source_faults = source_faults;
          sink_faults = W.faults output.old;
          standing = record { faults = K.faults keeper.old; kept = K.kept keeper.old; coming = coming; written = W.written output.old };
        })
        (record {
          texts = F.texts files.new;
          left = left;
          door = door;
          file_faults = F.faults files.new;
          source_faults = source_faults;
          sink_faults = W.faults output.new;
          standing = record { faults = K.faults keeper.new; kept = K.kept keeper.new; coming = coming; written = W.written output.new };
        }) }
    ensures reason { HasReason ⊤ (Rose (F.faults files.old) (F.faults files.new))
        (Rose (W.faults output.old) (W.faults output.new))
        (Rose (K.faults keeper.old) (K.faults keeper.new)) result }
    ensures same { K.kept keeper.new ≡ K.kept keeper.old }
    ensures texts { F.texts files.new ≡ F.texts files.old }
    ensures output_count { W.faults output.old ≤ W.faults output.new }
{
    match loaded(alloc, files, command) {
        Ok(loaded) => audited(alloc, keeper, output, &loaded.schema),
        Err(ending) => ending,
    }
}

/// Loads the modules, opens the store and serves the lines of the input.
fn call<F: Files, K: Keeper, S: Source, W: Sink, C: Clock>(
    alloc: Global,
    command: &Command<'_>,
    files: &mut F,
    keeper: &mut K,
    input: &mut S,
    output: &mut W,
    clock: &mut C,
) -> Ending
    // Over a keeper that tells its rows: the loading or the opening stopped, or a session was served.
    ensures outcome { (store : Store) (door : Doorway) → K.kept keeper.old ≡ Some store → EndsCall (command_view command.now) result store
        (outside K.Keeper W.Sink C.Clock F.Files S.Source files.old keeper.old input.old output.old clock.old door)
        (outside K.Keeper W.Sink C.Clock F.Files S.Source files.new keeper.new input.new output.new clock.new door) }
    ensures others { KeepsOthers (command_view command.now) (F.texts files.old) (K.kept keeper.old) (K.kept keeper.new) }
    ensures reason { HasReason ⊥ (Rose (F.faults files.old) (F.faults files.new) ⊎ Rose (S.faults input.old) (S.faults input.new))
        (Rose (W.faults output.old) (W.faults output.new))
        (Rose (K.faults keeper.old) (K.faults keeper.new)) result }
    ensures texts { F.texts files.new ≡ F.texts files.old }
    ensures output_count { W.faults output.old ≤ W.faults output.new }
{
    match loaded(alloc, files, command) {
        Ok(loaded) => opened(alloc, keeper, input, output, clock, &loaded, command),
        Err(ending) => ending,
    }
}

/// What the modules mean.
fn loaded<F: Files>(alloc: Global, files: &mut F, command: &Command<'_>) -> Result<Loaded, Ending>
    ensures ok { IfOk result (λ loaded. AreLoadedBy (command_view command.now) (F.texts files.old) (setup_of command.now loaded) loaded.preset.rows) }
    ensures policy { IfOk result (λ loaded. IsPolicyOver loaded.schema loaded.policy) }
    ensures preset { IfOk result (λ loaded. IsPreset loaded.schema loaded.preset.rows) }
    ensures told { IfErr result (λ why. (texts : FileTexts) × AgreesWith (F.texts files.old) texts
        × EndsLoading (text_in texts command.now.folder.now) command.now.names (Rose (F.faults files.old) (F.faults files.new)) why) }
    ensures err { IfErr result (MayEndLoading (Rose (F.faults files.old) (F.faults files.new))) }
    ensures texts { F.texts files.new ≡ F.texts files.old }
{
    match load(alloc, files, command.folder, command.names.as_slice()) {
        Ok(loaded) => Ok(loaded),
        Err(LoadFault::File) => Err(Ending::ReadFault),
        Err(LoadFault::Module(faulty)) => Err(module_fault(alloc, &faulty)),
        Err(LoadFault::NoMemory) => Err(Ending::NoMemory),
    }
}

/// How a run ends against whose modules something stands.
fn module_fault(alloc: Global, faulty: &FaultyModule) -> Ending
    ensures { TellsFault faulty.now result }
{
    match format!(in alloc; "{faulty}") {
        Ok(text) => Ending::Module(Word::new(text)),
        Err(_) => Ending::NoMemory,
    }
}

/// Opens the store and serves the lines of the input, by what modules declare and words ask for.
fn opened<K: Keeper, S: Source, W: Sink, C: Clock>(
    alloc: Global,
    keeper: &mut K,
    input: &mut S,
    output: &mut W,
    clock: &mut C,
    loaded: &Loaded,
    command: &Command<'_>,
) -> Ending
    requires policy { IsPolicyOver loaded.now.schema loaded.now.policy }
    requires preset { IsPreset loaded.now.schema loaded.now.preset.rows }
    // A store that doesn't stand for tables stops it, and one that can't be filled; else it is a session.
    ensures outcome { let before = surroundings K.Keeper W.Sink C.Clock keeper.old output.old clock.old in let now = surroundings K.Keeper W.Sink C.Clock keeper.new output.new clock.new in
        (store : Store) → K.kept keeper.old ≡ Some store
        → (EndsOpening loaded.now.schema store (Rose (K.faults keeper.old) (K.faults keeper.new)) result × IsUntouched (S.left input.old) (S.left input.new) before now)
        ⊎ ((first : Tables) × StandsFor loaded.now.schema first store × ServesLines (setup_of command.now loaded.now) loaded.now.preset.rows first result (S.left input.old) (S.left input.new) before now) }
    ensures reason { HasReason ⊥ (Rose (S.faults input.old) (S.faults input.new))
        (Rose (W.faults output.old) (W.faults output.new))
        (Rose (K.faults keeper.old) (K.faults keeper.new)) result }
    ensures output_count { W.faults output.old ≤ W.faults output.new }
    ensures others { OthersStay loaded.now.schema (K.kept keeper.old) (K.kept keeper.new) }
{
    match Engine::begin(alloc, &mut *keeper, &loaded.schema, command.cache) {
        Ok(mut engine) => {
            let terms = Terms {
                database: command.database,
                policy: &loaded.policy,
            };
            let ending = filled_lines(
                alloc,
                &mut engine,
                &terms,
                &loaded.preset,
                input,
                output,
                clock,
            );
            // What the keeper tells is known where it is given back.
            engine.close();
            ending
        }
        Err(unopened) => opening_fault(alloc, &loaded.schema, unopened.fault),
    }
}

/// Opens the store and serves the connections of the door, by what modules declare and words ask
/// for.
fn received<K: Keeper, D: Door, C: Clock>(
    alloc: Global,
    keeper: &mut K,
    door: &mut D,
    clock: &mut C,
    loaded: &Loaded,
    command: &Command<'_>,
) -> Ending
    requires policy { IsPolicyOver loaded.now.schema loaded.now.policy }
    requires preset { IsPreset loaded.now.schema loaded.now.preset.rows }
    // A store that doesn't stand for tables stops it, and one that can't be filled; else connections are served.
    ensures outcome { (store : Store) (streams : List (List ℕ)) (moments : ℕ → ℤ) (written : Option (List ℕ)) → K.kept keeper.old ≡ Some store
        → D.coming door.old ≡ Some streams → C.coming clock.old ≡ Some moments
        → (EndsOpening loaded.now.schema store (Rose (K.faults keeper.old) (K.faults keeper.new)) result × (K.kept keeper.new ≡ K.kept keeper.old) × (C.coming clock.new ≡ C.coming clock.old)
        × (doorway D.Door door.new ≡ doorway D.Door door.old))
        ⊎ ((first : Tables) × StandsFor loaded.now.schema first store × ServesDoor (setup_of command.now loaded.now) loaded.now.preset.rows first result command.now.limit (doorway D.Door door.old) (doorway D.Door door.new)
        (record { faults = K.faults keeper.old; kept = K.kept keeper.old; coming = C.coming clock.old; written = written })
        (record { faults = K.faults keeper.new; kept = K.kept keeper.new; coming = C.coming clock.new; written = written })) }
    ensures reason { HasReason ⊥ (Rose (D.next_faults door.old) (D.next_faults door.new)) ⊥ (Rose (K.faults keeper.old) (K.faults keeper.new)) result }
    ensures others { OthersStay loaded.now.schema (K.kept keeper.old) (K.kept keeper.new) }
{
    match Engine::begin(alloc, &mut *keeper, &loaded.schema, command.cache) {
        Ok(mut engine) => {
            let terms = Terms {
                database: command.database,
                policy: &loaded.policy,
            };
            let ending = filled_connections(
                alloc,
                &mut engine,
                &terms,
                &loaded.preset,
                door,
                clock,
                command.limit,
            );
            // What the keeper tells is known where it is given back.
            engine.close();
            ending
        }
        Err(unopened) => opening_fault(alloc, &loaded.schema, unopened.fault),
    }
}

/// How a run ends whose store isn't opened.
fn opening_fault(alloc: Global, schema: &Schema, fault: OpenFault) -> Ending
    ensures { IsOpeningEnding schema.now fault result }
{
    match fault {
        OpenFault::Keeper => Ending::KeeperFault,
        OpenFault::Inconsistent(cell) => match cell_text(alloc, schema, cell) {
            Ok(text) => Ending::Store(text),
            Err(NoMemory) => Ending::NoMemory,
        },
        OpenFault::NoMemory => Ending::NoMemory,
    }
}
