//! Whether the rows that a command names are there, with the edits before it.

ghost use Rattle.std.specs.Prelude.{IfErr};
ghost use Rattle.ob_cache.specs.Calls.{Refuses};
ghost use Rattle.ob_cache.specs.Stages.{IsUsable};
ghost use Rattle.ob_effect.specs.Effect.{Asks};
ghost use Rattle.ob_io.specs.Cause.{Rose};
ghost use Rattle.ob_schema.specs.Models.{HasModel};

use crate::staged::is_there;
use ob_base::{ModelNo, RecId, Refusal, RowKey};
use ob_cache::Engine;
use ob_codec::Command;
use ob_io::Keeper;

/// Whether the rows of a model that a command names are there.
pub(crate) fn names_rows<K: Keeper>(
    engine: &mut Engine<'_, K>,
    model: ModelNo,
    command: &Command,
) -> Result<bool, Refusal>
    requires usable { IsUsable engine.old.held.phase }
    requires model { HasModel engine.old.held.models model }
    ensures causes { IfErr result (Refuses (Rose (K.faults engine.old.keeper.now) (K.faults engine.new.keeper.now)) (λ _. ⊥)) }
    ensures asked { Asks K.Keeper engine.old engine.new }
{
    match command {
        Command::Create(_) | Command::Clear => Ok(true),
        Command::Update(id, _) | Command::Delete(id) | Command::Unlink(id) | Command::Link(id) => {
            is_there(engine, RowKey { model, id: *id })
        }
        Command::Set(ids) => are_there(engine, model, ids.as_slice()),
    }
}

/// Whether some rows of a model are there.
fn are_there<K: Keeper>(
    engine: &mut Engine<'_, K>,
    model: ModelNo,
    ids: &[RecId],
) -> Result<bool, Refusal>
    requires usable { IsUsable engine.old.held.phase }
    requires model { HasModel engine.old.held.models model }
    ensures causes { IfErr result (Refuses (Rose (K.faults engine.old.keeper.now) (K.faults engine.new.keeper.now)) (λ _. ⊥)) }
    ensures asked { Asks K.Keeper engine.old engine.new }
{
    for id in ids {
        let there = is_there(engine, RowKey { model, id: *id })?;
        if !there {
            return Ok(false);
        }
    }
    Ok(true)
}
