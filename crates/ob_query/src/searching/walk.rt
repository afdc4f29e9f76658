//! A walk over the ids of a model's rows, rising, a page at a time. It asks the engine once for
//! each page.

ghost use Rattle.std.specs.Prelude.{◌≡◌, [], ◌+◌, ◌<◌, drop, length, IfErr, IfOk, IfSome, IfNone};
ghost use Rattle.ob_cache.specs.Calls.{HasTables, models_at, standpoint};
ghost use Rattle.ob_cache.specs.declared.stages.Phase.TheVariants as phase;
ghost use Rattle.ob_query.specs.SearchQuestions.{IsTaken, IsUnanswered, OnlyAsked, ahead, distance};
ghost use Rattle.ob_schema.specs.Models.{HasModel};
ghost use Rattle.ob_schema.specs.Tables.{Tables, ids_in};

use ob_base::{ModelNo, RecId, RefList};
use ob_cache::Engine;
use ob_io::{KeepFault, Keeper};
use std::alloc::Global;

/// How many ids the engine is asked for at once.
const PAGE_ROWS: u32 = 256;

/// Where a walk stands: the ids of its page that are still to come, and the last id of the page.
#[derive(Drop)]
pub struct Walk {
    page: RefList,
    place: usize,
    last: RecId,
}

impl Walk {
    /// A walk from the first row on.
    pub fn new(alloc: Global) -> Walk
        ensures page { result.page ≡ [] }
        ensures last { result.last ≡ record { 0 = 0 } }
    {
        Walk {
            page: RefList::new(alloc),
            place: 0,
            last: RecId(0),
        }
    }

    /// The next id of the model's rows, where there is one.
    pub fn next<K: Keeper>(
        &mut self,
        engine: &mut Engine<'_, K>,
        model: ModelNo,
    ) -> Result<Option<RecId>, KeepFault>
        requires model { HasModel (models_at (standpoint K.Keeper engine.old)) model }
        requires rest { (standpoint K.Keeper engine.old).held.phase ≡ phase.Settled }
        ensures told { IfOk result (λ next. (tables : Tables) → HasTables (standpoint K.Keeper engine.old) tables
            → IsTaken next (ahead self.old (ids_in tables model)) (ahead self.new (ids_in tables model))) }
        ensures nearer { IfOk result (λ next. IfSome next (λ _. distance self.new < distance self.old)) }
        ensures asked { OnlyAsked K.Keeper engine.old engine.new }
        ensures causes { IfErr result (IsUnanswered K.Keeper engine.old engine.new) }
    {
        if let Some(id) = self.of_page() {
            return Ok(Some(id));
        }
        let page = engine.page(model, self.last, PAGE_ROWS)?;
        let Some(last) = page.as_slice().last() else {
            return Ok(None);
        };
        self.last = *last;
        self.page = page;
        self.place = 0;
        Ok(self.of_page())
    }

    /// The next id of the page, where there is one.
    fn of_page(&mut self) -> Option<RecId>
        ensures left { IsTaken result (drop self.old.place self.old.page) (drop self.new.place self.new.page) }
        ensures place { IfSome result (λ _. (self.new.place ≡ self.old.place + 1) × (self.old.place < length self.old.page)) }
        ensures none { IfNone result (self.new.place ≡ self.old.place) }
        ensures page { self.new.page ≡ self.old.page }
        ensures last { self.new.last ≡ self.old.last }
    {
        let id = self.page.as_slice().get(self.place).copied()?;
        self.place += 1;
        Some(id)
    }
}
