//! The laws of questions to an engine: questions behind one another change it as one question
//! may, and the last of them fails as one fails. So rules and views compose over an engine.

ghost use Rattle.std.specs.Prelude.{◌≡◌, ◌≤◌};
ghost use Rattle.ob_cache.specs.Standing.{Stays};
ghost use Rattle.ob_cache.specs.Telling.{AreQuestions, FailAsOne, FailsFacts, TellsFacts};
ghost use Rattle.ob_io.specs.Cause.{Rose};

use crate::engine::Engine;
use ob_io::Keeper;

impl<'k, K: Keeper> Engine<'k, K> {
    /// The laws of questions about facts to engines over such a keeper. Where one of several
    /// fails, the keeper's count rose since the first, nothing is told, or memory is wanting.
    pub fn questions_are_questions(&self)
        ensures asked { AreQuestions self.now
            (λ old new. (new.keeper.ghost_name ≡ old.keeper.ghost_name) × Stays (K.kept old.keeper.now) old.held (K.kept new.keeper.now) new.held
            × (K.faults old.keeper.now ≤ K.faults new.keeper.now)) }
        ensures failed { FailAsOne self.now
            (λ old new. (new.keeper.ghost_name ≡ old.keeper.ghost_name) × Stays (K.kept old.keeper.now) old.held (K.kept new.keeper.now) new.held
            × (K.faults old.keeper.now ≤ K.faults new.keeper.now))
            (λ old new. FailsFacts (TellsFacts (K.kept old.keeper.now) old.held) (Rose (K.faults old.keeper.now) (K.faults new.keeper.now))) }
    {}
}
