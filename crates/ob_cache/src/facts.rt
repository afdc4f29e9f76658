//! What the engine tells of rows and their cells, for domains and rules: what the tables hold
//! that were settled last, whatever is staged. So a call that stages edits may ask for the rows
//! as they were before.

ghost use Rattle.std.specs.Prelude.{◌≡◌, ◌≤◌};
ghost use Rattle.ob_cache.specs.Standing.{Stays};
ghost use Rattle.ob_cache.specs.Telling.{FailsFacts, TellsFacts};
ghost use Rattle.ob_io.specs.Cause.{Rose};

use crate::engine::Engine;
use crate::fault::ReadFault;
use ob_base::{Cell, ModelNo, RecId, Value};
use ob_io::Keeper;
use ob_schema::Facts;

impl<'k, K: Keeper> Facts for Engine<'k, K> {
    type Fault = ReadFault;

    ghost registry = { λ engine. engine.held.models };

    ghost tells = { λ engine. TellsFacts (K.kept engine.keeper.now) engine.held };

    ghost asks = { λ old new. (new.keeper.ghost_name ≡ old.keeper.ghost_name) × Stays (K.kept old.keeper.now) old.held (K.kept new.keeper.now) new.held
        × (K.faults old.keeper.now ≤ K.faults new.keeper.now) };

    ghost has_failed = { λ old new. FailsFacts (TellsFacts (K.kept old.keeper.now) old.held) (Rose (K.faults old.keeper.now) (K.faults new.keeper.now)) };

    fn known(&mut self, model: ModelNo, id: RecId) -> Result<bool, ReadFault> {
        Ok(self.held().had_row(model, id))
    }

    fn value(&mut self, cell: Cell) -> Result<Value, ReadFault> {
        self.held().read_settled(cell)
    }
}
