//! The engine: the one way by which calls know and change what is kept. Its contract speaks
//! of tables at three moments (`specs/Stages`): those that were kept last, those that were
//! settled last, and those with the edits since. What is told of them is told of all stages at
//! which the engine stands (`specs/Standing`): over a keeper that doesn't tell its rows, of none.
//! How rows and values are held may change behind it at will (`held`); what a call answers may
//! not.

ghost use Rattle.std.specs.Prelude.{◌≡◌, ◌≤◌, ◌+◌, ℕ, All, IfErr, IfOk, IsErrOf, IsOk, IsSome, IsSomeAnd, List, MatchResult, Ok, OnErr, OnOk, Some, is_some, length};
ghost use Rattle.ob_base.specs.Tally.{ticked_times};
ghost use Rattle.ob_base.specs.declared.id.Cell.{Cell};
ghost use Rattle.ob_base.specs.declared.id.ModelNo.{ModelNo};
ghost use Rattle.ob_cache.specs.Evaluating.{AreEvaluated};
ghost use Rattle.ob_cache.specs.Kept.{Kept, OthersStay};
ghost use Rattle.ob_cache.specs.Opening.{ShowsField, StopsOpening};
ghost use Rattle.ob_cache.specs.Stages.{IsKeptRelation, IsPageAbove, IsReadable, IsShown, IsUnread, IsUnreadIn, IsUsable, NamesField, StaysUnsettled, flushed_of, forgotten, holders_of, page_of, seen, settled_of, with_edits};
ghost use Rattle.ob_cache.specs.Standing.{IsAtRest, IsSpoiled, KeepsBounds, NextIdsUpTo, OfStages, RestsAt, Stands, Stays, max_next_id};
ghost use Rattle.ob_cache.specs.Telling.{sides_of};
ghost use Rattle.ob_cache.specs.declared.stages.Phase.TheVariants as phase;
ghost use Rattle.ob_codec.specs.Held.{HasFieldType};
ghost use Rattle.ob_io.specs.Cause.{HasCause, Rose};
ghost use Rattle.ob_schema.specs.Models.{FieldHas, HasField, HasModel, field_at};
ghost use Rattle.ob_schema.specs.Tables.{Tables, next_of, row_at};
ghost use Rattle.ob_schema.specs.Val.{val};
ghost use Rattle.ob_tables.specs.Changes.{MakesBelow};
ghost use Rattle.ob_tables.specs.Fitting.{IsFitEdit, IsFitId};

use crate::fault::{OpenFault, ReadFault, SettleFault};
use crate::held::Held;
use crate::opening::open;
use ob_base::{Cell, FieldNo, Ledger, ModelNo, NoMemory, RecId, RefList, Steps, Value};
use ob_io::{KeepFault, Keeper};
use ob_schema::Schema;
use ob_tables::{Edit, next_ids_after};
use std::alloc::Global;

/// Tables over the rows of a keeper, whose edits are staged, settled and then kept.
#[derive(Drop)]
pub struct Engine<'k, K: Keeper> {
    keeper: &'k mut K,
    held: Held<'k>,
}

/// A store that isn't opened: its keeper, and why.
#[derive(Drop)]
pub struct Unopened<'k, K: Keeper> {
    pub keeper: &'k mut K,
    pub fault: OpenFault,
}

impl<'k, K: Keeper> Engine<'k, K> {
    /// Opens a keeper's rows, all of which are tested: where it tells them, it is opened exactly
    /// where they are those of sound tables of the registry. `capacity` is how many rows may be
    /// held in memory beside those that are staged; it is unread so far.
    pub fn begin(
        alloc: Global,
        keeper: &'k mut K,
        schema: &'k Schema,
        capacity: u32,
    ) -> Result<Engine<'k, K>, Unopened<'k, K>>
        ensures rests { IfOk result (λ engine. IsAtRest schema.now engine.held) }
        ensures stands { IfOk result (λ engine. IsSome (K.kept keeper.old) → (tables : Tables) × RestsAt (K.kept engine.keeper.now) engine.held tables) }
        ensures fault { IfErr result (λ unopened. StopsOpening schema.now (K.kept keeper.old)
            (Rose (K.faults keeper.old) (K.faults unopened.keeper.now)) unopened.fault) }
        ensures field { IfErr result (λ unopened. ShowsField schema.now unopened.fault) }

        // It keeps nothing.
        ensures same { MatchResult result (λ engine. K.kept engine.keeper.now ≡ K.kept keeper.old) (λ unopened. K.kept unopened.keeper.now ≡ K.kept keeper.old) }
        ensures count { MatchResult result (λ engine. K.faults keeper.old ≤ K.faults engine.keeper.now) (λ unopened. K.faults keeper.old ≤ K.faults unopened.keeper.now) }
        ensures lender { MatchResult result (λ engine. engine.keeper.ghost_name ≡ keeper.entry.ghost_name) (λ unopened. unopened.keeper.ghost_name ≡ keeper.entry.ghost_name) }
    {
        let _ = capacity;
        match open(alloc, &mut *keeper, schema) {
            Ok(whole) => match Held::of(alloc, schema, whole) {
                Ok(held) => Ok(Engine { keeper, held }),
                Err(NoMemory) => Err(Unopened {
                    keeper,
                    fault: OpenFault::NoMemory,
                }),
            },
            Err(fault) => Err(Unopened { keeper, fault }),
        }
    }

    /// The registry over which the tables stand.
    pub fn schema(&self) -> &'k Schema
        ensures { result.now ≡ self.now.held.models }
    {
        self.held.schema()
    }

    /// The value of a cell: what the edits so far give a plain one; of another one what was
    /// settled last. While edits are staged only plain cells may be read, and computed ones that
    /// are kept; the latter are told of rows that were there at the last settle and still are.
    pub fn read(&mut self, cell: Cell) -> Result<Value, ReadFault>
        requires usable { IsUsable self.old.held.phase }
        requires field { HasField self.old.held.models cell.model cell.field }
        requires readable { IsReadable self.old.held.models self.old.held.phase cell }
        ensures value { IfOk result (λ value. OfStages (K.kept self.old.keeper.now) self.old.held (λ at. IsShown at cell → seen at cell ≡ Some (Ok value))) }
        ensures typed { IfOk result (HasFieldType (field_at self.old.held.models cell.model cell.field)) }
        ensures fit { IfOk result (λ _. IsFitId cell.id) }
        ensures fault { IfErr result (λ fault. OfStages (K.kept self.old.keeper.now) self.old.held (λ at. IsShown at cell
            → IsUnread at (Rose (K.faults self.old.keeper.now) (K.faults self.new.keeper.now)) cell fault)) }
        ensures cause { HasCause (K.faults self.old.keeper.now) (K.faults self.new.keeper.now) (IsErrOf result ReadFault.Keeper) }
        ensures same { Stays (K.kept self.old.keeper.now) self.old.held (K.kept self.new.keeper.now) self.new.held }
        ensures lender { self.new.keeper.ghost_name ≡ self.old.keeper.ghost_name }
    {
        self.held.read(cell)
    }

    /// The value of a cell of any field as it was settled last, whatever is staged.
    pub fn read_settled(&mut self, cell: Cell) -> Result<Value, ReadFault>
        requires usable { IsUsable self.old.held.phase }
        requires field { HasField self.old.held.models cell.model cell.field }
        ensures value { IfOk result (λ value. OfStages (K.kept self.old.keeper.now) self.old.held (λ at. val at.models at.settled cell ≡ Ok value)) }
        ensures typed { IfOk result (HasFieldType (field_at self.old.held.models cell.model cell.field)) }
        ensures fit { IfOk result (λ _. IsFitId cell.id) }
        ensures fault { IfErr result (λ fault. OfStages (K.kept self.old.keeper.now) self.old.held (λ at.
            IsUnreadIn at.settled (Rose (K.faults self.old.keeper.now) (K.faults self.new.keeper.now)) cell fault)) }
        ensures cause { HasCause (K.faults self.old.keeper.now) (K.faults self.new.keeper.now) (IsErrOf result ReadFault.Keeper) }
        ensures same { Stays (K.kept self.old.keeper.now) self.old.held (K.kept self.new.keeper.now) self.new.held }
        ensures lender { self.new.keeper.ghost_name ≡ self.old.keeper.ghost_name }
    {
        self.held.read_settled(cell)
    }

    /// Whether a model's row is there, with the edits so far.
    pub fn has_row(&mut self, model: ModelNo, id: RecId) -> Result<bool, KeepFault>
        requires usable { IsUsable self.old.held.phase }
        requires model { HasModel self.old.held.models model }
        ensures there { IfOk result (λ there. OfStages (K.kept self.old.keeper.now) self.old.held (λ at. there ≡ is_some (row_at at.staged model id))) }
        ensures cause { HasCause (K.faults self.old.keeper.now) (K.faults self.new.keeper.now) (IsErrOf result KeepFault.Failed) }
        ensures same { Stays (K.kept self.old.keeper.now) self.old.held (K.kept self.new.keeper.now) self.new.held }
        ensures lender { self.new.keeper.ghost_name ≡ self.old.keeper.ghost_name }
    {
        Ok(self.held.has_row(model, id))
    }

    /// The id that a model's next row takes.
    pub fn next_id(&mut self, model: ModelNo) -> Result<u64, KeepFault>
        requires usable { IsUsable self.old.held.phase }
        requires model { HasModel self.old.held.models model }
        ensures next { IfOk result (λ next. OfStages (K.kept self.old.keeper.now) self.old.held (λ at. next ≡ next_of at.staged model)) }
        ensures bound { IfOk result (λ next. (bound : ℕ) → max_next_id ≤ bound → NextIdsUpTo bound self.old.held → next ≤ bound) }
        ensures cause { HasCause (K.faults self.old.keeper.now) (K.faults self.new.keeper.now) (IsErrOf result KeepFault.Failed) }
        ensures same { Stays (K.kept self.old.keeper.now) self.old.held (K.kept self.new.keeper.now) self.new.held }
        ensures lender { self.new.keeper.ghost_name ≡ self.old.keeper.ghost_name }
    {
        Ok(self.held.next_id(model))
    }

    /// The first ids of a model's rows above one, at most so many, rising.
    pub fn page(&mut self, model: ModelNo, after: RecId, most: u32) -> Result<RefList, KeepFault>
        requires usable { IsUsable self.old.held.phase }
        requires model { HasModel self.old.held.models model }
        ensures ids { IfOk result (λ ids. OfStages (K.kept self.old.keeper.now) self.old.held (λ at. ids ≡ page_of at model after most)) }
        ensures fits { IfOk result (IsPageAbove after most) }
        ensures cause { HasCause (K.faults self.old.keeper.now) (K.faults self.new.keeper.now) (IsErrOf result KeepFault.Failed) }
        ensures same { Stays (K.kept self.old.keeper.now) self.old.held (K.kept self.new.keeper.now) self.new.held }
        ensures lender { self.new.keeper.ghost_name ≡ self.old.keeper.ghost_name }
    {
        Ok(self.held.page(model, after, most)?)
    }

    /// The first ids above one, at most so many, rising, of a model's rows that name a row by
    /// a plain kept relation.
    pub fn holders(
        &mut self,
        model: ModelNo,
        field: FieldNo,
        target: RecId,
        after: RecId,
        most: u32,
    ) -> Result<RefList, KeepFault>
        requires usable { IsUsable self.old.held.phase }
        requires field { FieldHas self.old.held.models IsKeptRelation model field }
        ensures ids { IfOk result (λ ids. OfStages (K.kept self.old.keeper.now) self.old.held (λ at. ids ≡ holders_of at model field target after most)) }
        ensures fits { IfOk result (IsPageAbove after most) }
        ensures cause { HasCause (K.faults self.old.keeper.now) (K.faults self.new.keeper.now) (IsErrOf result KeepFault.Failed) }
        ensures same { Stays (K.kept self.old.keeper.now) self.old.held (K.kept self.new.keeper.now) self.new.held }
        ensures lender { self.new.keeper.ghost_name ≡ self.old.keeper.ghost_name }
    {
        Ok(self.held.holders(model, field, target, after, most)?)
    }

    /// Stages edits, behind those that are staged already. After a fault only `forget` and `close`
    /// may be called.
    pub fn stage(&mut self, edits: &[Edit]) -> Result<(), KeepFault>
        requires usable { IsUsable self.old.held.phase }
        requires fit { All (IsFitEdit self.old.held.models) edits.now }
        ensures staged { OnOk result (OfStages (K.kept self.old.keeper.now) self.old.held (λ at. Stands (K.kept self.new.keeper.now) self.new.held (with_edits at edits.now))) }
        ensures phase { OnOk result (self.new.held.phase ≡ phase.Staged) }
        ensures next_ids { OnOk result ((bound : ℕ) → max_next_id ≤ bound → ((model : ModelNo) → All (MakesBelow model bound) edits.now)
            → NextIdsUpTo bound self.old.held → NextIdsUpTo bound self.new.held) }
        ensures spoiled { OnErr result (IsSpoiled (K.kept self.old.keeper.now) self.old.held (K.kept self.new.keeper.now) self.new.held) }
        ensures cause { HasCause (K.faults self.old.keeper.now) (K.faults self.new.keeper.now) (IsErrOf result KeepFault.Failed) }
        ensures models { self.new.held.models ≡ self.old.held.models }
        ensures same { K.kept self.new.keeper.now ≡ K.kept self.old.keeper.now }
        ensures lender { self.new.keeper.ghost_name ≡ self.old.keeper.ghost_name }
    {
        match self.held.stage(edits) {
            Ok(()) => {
                // The laws of what is held, and of next ids.
                self.held.laws();
                next_ids_after();
                Ok(())
            }
            Err(NoMemory) => Err(KeepFault::NoMemory),
        }
    }

    /// Evaluates the tables with the edits, and tests them: where they are told, they are settled
    /// exactly where they are sound. Of several things that are broken any may be named. After a
    /// fault only `forget` and `close` may be called.
    pub fn settle<L: Ledger>(&mut self, steps: &mut Steps<L>) -> Result<(), SettleFault>
        requires usable { IsUsable self.old.held.phase }
        ensures settled { OnOk result (OfStages (K.kept self.old.keeper.now) self.old.held (λ at. Stands (K.kept self.new.keeper.now) self.new.held (settled_of at))) }
        ensures phase { OnOk result (self.new.held.phase ≡ phase.Settled) }
        ensures next_ids { OnOk result (KeepsBounds self.old.held self.new.held) }
        ensures fault { IfErr result (λ fault. OfStages (K.kept self.old.keeper.now) self.old.held (λ at.
            StaysUnsettled at (Rose (K.faults self.old.keeper.now) (K.faults self.new.keeper.now)) fault)) }
        ensures field { IfErr result (NamesField self.old.held.models) }
        ensures ticks { (n : ℕ) × (steps.new ≡ ticked_times n L.noted steps.old) }

        // A tick for each cell that it evaluates.
        ensures evaluations { (cells : List Cell) × (steps.new.count ≡ steps.old.count + length cells)
            × OfStages (K.kept self.old.keeper.now) self.old.held (λ at. AreEvaluated at.models (sides_of at) (IsOk result) cells) }
        ensures spoiled { OnErr result (IsSpoiled (K.kept self.old.keeper.now) self.old.held (K.kept self.new.keeper.now) self.new.held) }
        ensures cause { HasCause (K.faults self.old.keeper.now) (K.faults self.new.keeper.now) (IsErrOf result SettleFault.Keeper) }
        ensures models { self.new.held.models ≡ self.old.held.models }
        ensures same { K.kept self.new.keeper.now ≡ K.kept self.old.keeper.now }
        ensures lender { self.new.keeper.ghost_name ≡ self.old.keeper.ghost_name }
    {
        self.held.settle(steps)
    }

    /// Keeps what was settled last, all or nothing. After a fault nothing of it is kept, and
    /// only `forget` and `close` may be called.
    pub fn flush(&mut self) -> Result<(), KeepFault>
        requires settled { self.old.held.phase ≡ phase.Settled }
        requires next_ids { NextIdsUpTo max_next_id self.old.held }
        ensures flushed { OnOk result (OfStages (K.kept self.old.keeper.now) self.old.held (λ at. Stands (K.kept self.new.keeper.now) self.new.held (flushed_of at))) }
        ensures rests { OnOk result (IsAtRest self.old.held.models self.new.held) }
        ensures others { OthersStay self.old.held.models (K.kept self.old.keeper.now) (K.kept self.new.keeper.now) }
        ensures spoiled { OnErr result (IsSpoiled (K.kept self.old.keeper.now) self.old.held (K.kept self.new.keeper.now) self.new.held) }
        ensures cause { HasCause (K.faults self.old.keeper.now) (K.faults self.new.keeper.now) (IsErrOf result KeepFault.Failed) }
        ensures lender { self.new.keeper.ghost_name ≡ self.old.keeper.ghost_name }
    {
        let kept = self.keep();
        match kept {
            Ok(()) => self.held.keep(),
            Err(_) => self.held.spoil(),
        }
        kept
    }

    /// Gives up what wasn't kept, also after a fault. It takes no memory.
    pub fn forget(&mut self)
        ensures forgotten { OfStages (K.kept self.old.keeper.now) self.old.held (λ at. Stands (K.kept self.new.keeper.now) self.new.held (forgotten at)) }
        ensures rests { IsAtRest self.old.held.models self.new.held }
        ensures same { self.new.keeper ≡ self.old.keeper }
    {
        self.held.forget();
        // The law of what is held.
        self.held.laws();
    }

    /// Gives the keeper back, also after a fault. What wasn't kept is lost.
    pub fn close(self) -> &'k mut K
        ensures lender { result.ghost_name ≡ self.entry.keeper.ghost_name }
        ensures same { result.now ≡ self.entry.keeper.now }
    {
        self.keeper
    }

    /// What it holds.
    pub(crate) fn held(&self) -> &Held<'k>
        ensures { result.now ≡ self.now.held }
    {
        &self.held
    }

    /// Has the keeper keep what was settled last.
    fn keep(&mut self) -> Result<(), KeepFault>
        requires settled { self.old.held.phase ≡ phase.Settled }
        requires next_ids { NextIdsUpTo max_next_id self.old.held }
        ensures held { self.new.held ≡ self.old.held }
        ensures kept { OnOk result (OfStages (K.kept self.old.keeper.now) self.old.held (λ at. IsSomeAnd (K.kept self.new.keeper.now) (Kept at.models at.settled))) }
        ensures others { OthersStay self.old.held.models (K.kept self.old.keeper.now) (K.kept self.new.keeper.now) }
        ensures unkept { OnErr result (K.kept self.new.keeper.now ≡ K.kept self.old.keeper.now) }
        ensures cause { HasCause (K.faults self.old.keeper.now) (K.faults self.new.keeper.now) (IsErrOf result KeepFault.Failed) }
        ensures lender { self.new.keeper.ghost_name ≡ self.old.keeper.ghost_name }
    {
        let changes = self.held.changes()?;
        self.keeper.commit(changes.as_slice())
    }
}
