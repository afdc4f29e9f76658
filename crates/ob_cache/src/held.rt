//! What the engine holds: whole tables at three moments, and lists of the rows that differ
//! between them, so that a settle and a flush look at these alone. This form keeps all rows;
//! another one may stand here.

ghost use Rattle.std.specs.Prelude.{◌≡◌, All, IfErr, IfOk, IfSome, IsErrOf, IsOk, IsSome, IsSomeAnd, None, Ok, OnErr, OnOk, Some, is_some, true, unwrap_or};
ghost use Rattle.ob_cache.specs.Behind.{TicksEach};
ghost use Rattle.ob_cache.specs.Changing.{ChangesTo};
ghost use Rattle.ob_cache.specs.Rooms.{AreOfSpoiled, IsValueIn, ShowsUnsettled, settle_fault_of};
ghost use Rattle.ob_cache.specs.Stages.{IsPageAbove, IsReadable, IsShown, IsUnread, IsUnreadIn, IsUsable, NamesField, flushed_of, forgotten, holders_of, page_of, resting, seen, settled_of, spoiled, with_edits};
ghost use Rattle.ob_cache.specs.Standing.{FitNextIds, NextIdsUpTo, max_next_id};
ghost use Rattle.ob_cache.specs.Telling.{sides_of};
ghost use Rattle.ob_cache.specs.declared.stages.Phase.TheVariants as phase;
ghost use Rattle.ob_codec.specs.Held.{HasFieldType};
ghost use Rattle.ob_schema.specs.Broken.{AreSound};
ghost use Rattle.ob_schema.specs.Links.{Leads, leading_to, led_to, tables_on};
ghost use Rattle.ob_schema.specs.Models.{FieldHas, HasModel, field_at, is_given_from};
ghost use Rattle.ob_schema.specs.Tables.{Fits, next_of, row_at};
ghost use Rattle.ob_schema.specs.Val.{val};
ghost use Rattle.ob_tables.specs.Fitting.{IsFitEdit, IsFitId};

use crate::behind::settled_behind;
use crate::fault::{ReadFault, SettleFault};
use crate::flushing::changes;
use crate::links::{sources_in, targets_in};
use crate::stages::Phase;
use crate::staging::edited;
use crate::whole::Whole;
use ob_base::{
    Cell, FieldNo, Ledger, ModelNo, NoMemory, RecId, RefList, RowKey, Sequence, Steps, Value,
};
use ob_io::Change;
use ob_schema::{Origin, Schema, Side};
use ob_tables::{ApplyFault, Edit, Tables};
use ob_trigger::Triggers;
use std::alloc::Global;
use std::marker::Model;

/// Tables as they were kept last, as they were settled last, and with the edits since. Where
/// one of the latter is none, it is the one before it: so to forget takes no memory.
#[derive(Drop)]
pub(crate) struct Held<'k> {
    alloc: Global,
    schema: &'k Schema,
    triggers: Triggers<'k>,
    flushed: Whole<'k>,
    settled: Option<Whole<'k>>,
    staged: Option<Tables<'k>>,
    /// The rows that edits touched since the last settle.
    touched: Vec<RowKey>,
    /// The rows that may be kept in another form than that in which they were settled last.
    unkept: Vec<RowKey>,
    phase: Phase,
}

impl<'k> Model for Held<'k> {
    ghost use Rattle.ob_cache.specs.Rooms.{AreHeldOver, AreListed, held_stages};
    ghost use Rattle.ob_cache.specs.Stages.{Stages};
    ghost use Rattle.ob_cache.specs.Coding.{coded_stages};
    ghost use Rattle.ob_expr.specs.contracts.typed.Typed as typed;
    ghost use Rattle.std.specs.Coded.{codes};

    ghost coded = { coded_stages (Prim.hlevel (codes, typed.the_row.coded)) (Prim.hlevel codes) };

    ghost Value = { Stages };

    ghost view = { λ h. held_stages h.schema.now h.flushed h.settled h.staged h.phase };

    ghost invariant = { λ h. AreHeldOver h.schema.now h.flushed h.settled h.staged h.phase
        × AreListed h.schema.now h.flushed h.settled h.staged h.triggers h.touched.items h.unkept.items };
}

impl<'k> Held<'k> {
    /// What holds of all that is held: the tables with the edits fit the registry.
    pub(crate) fn laws(&self)
        ensures fits { Fits self.now.models self.now.staged }
        ensures next_ids { FitNextIds self.now.models self.now.flushed }
    {
        // The law of what is held.
        let _ = &self.phase;
        self.staged().fit_together();
    }

    /// Sound tables that are kept, with nothing staged.
    pub(crate) fn of(
        alloc: Global,
        schema: &'k Schema,
        flushed: Whole<'k>,
    ) -> Result<Held<'k>, NoMemory>
        requires over { flushed.models ≡ schema.now }
        requires fits { FitNextIds schema.now flushed.tables }
        ensures rests { IfOk result (λ held. held ≡ resting schema.now flushed.entry.tables) }
        ensures sound { IfOk result (λ held. AreSound held.models held.flushed) }
    {
        flushed.laws();
        let triggers = Triggers::build(alloc, schema)?;
        Ok(Held {
            alloc,
            schema,
            triggers,
            flushed,
            settled: None,
            staged: None,
            touched: Vec::new(alloc),
            unkept: Vec::new(alloc),
            phase: Phase::Settled,
        })
    }

    /// The registry over which the tables stand.
    pub(crate) fn schema(&self) -> &'k Schema
        ensures { result.now ≡ self.now.models }
    {
        self.schema
    }

    fn settled(&self) -> &Whole<'k>
        ensures { result.now ≡ record { models = self.now.models; tables = self.now.settled } }
    {
        last(&self.settled, &self.flushed)
    }

    fn staged(&self) -> &Tables<'k>
        ensures { result.now ≡ record { models = self.now.models; tables = self.now.staged } }
    {
        match &self.staged {
            Some(staged) => staged,
            None => self.settled().tables(),
        }
    }

    /// The value of a cell.
    pub(crate) fn read(&self, cell: Cell) -> Result<Value, ReadFault>
        requires usable { IsUsable self.now.phase }
        requires field { IsSome (field_at self.now.models cell.model cell.field) }
        requires readable { IsReadable self.now.models self.now.phase cell }
        ensures value { IfOk result (λ value. seen self.now cell ≡ Some (Ok value)) }
        ensures typed { IfOk result (HasFieldType (field_at self.now.models cell.model cell.field)) }
        ensures fit { IfOk result (λ _. IsFitId cell.id) }
        ensures fault { IfErr result (λ fault. IsShown self.now cell → IsUnread self.now ⊥ cell fault) }
        // No keeper is asked.
        ensures unasked { IsErrOf result ReadFault.Keeper → ⊥ }
    {
        match self.told(cell)? {
            Some(value) => Ok(value),
            None => Err(ReadFault::Missing),
        }
    }

    /// The value of a cell, of a plain one with the edits so far; none where its row isn't there.
    fn told(&self, cell: Cell) -> Result<Option<Value>, NoMemory>
        requires usable { IsUsable self.now.phase }
        requires field { IsSome (field_at self.now.models cell.model cell.field) }
        requires readable { IsReadable self.now.models self.now.phase cell }
        ensures value { IfOk result (λ told. IfSome told (λ value. seen self.now cell ≡ Some (Ok value))) }
        ensures typed { IfOk result (λ told. IfSome told (HasFieldType (field_at self.now.models cell.model cell.field))) }
        ensures fit { IfOk result (λ told. IfSome told (λ _. IsFitId cell.id)) }
        ensures missing { IfOk result (λ told. IsShown self.now cell → told ≡ None → row_at self.now.staged cell.model cell.id ≡ None) }
    {
        match self.schema.info(cell.model, cell.field).origin {
            Origin::Id | Origin::Plain => self.plain(cell),
            _ => self.last_settled(cell),
        }
    }

    /// The value of a cell as it was settled last, whatever is staged.
    pub(crate) fn read_settled(&self, cell: Cell) -> Result<Value, ReadFault>
        requires field { IsSome (field_at self.now.models cell.model cell.field) }
        ensures value { IfOk result (λ value. val self.now.models self.now.settled cell ≡ Ok value) }
        ensures typed { IfOk result (HasFieldType (field_at self.now.models cell.model cell.field)) }
        ensures fit { IfOk result (λ _. IsFitId cell.id) }
        ensures fault { IfErr result (IsUnreadIn self.now.settled ⊥ cell) }
        // No keeper is asked.
        ensures unasked { IsErrOf result ReadFault.Keeper → ⊥ }
    {
        match self.last_settled(cell)? {
            Some(value) => Ok(value),
            None => Err(ReadFault::Missing),
        }
    }

    /// Whether a row was there when edits were settled last.
    pub(crate) fn had_row(&self, model: ModelNo, id: RecId) -> bool
        ensures { result ≡ is_some (row_at self.now.settled model id) }
    {
        self.settled().tables().has_row(model, id)
    }

    /// Whether a row is there, with the edits so far.
    pub(crate) fn has_row(&self, model: ModelNo, id: RecId) -> bool
        ensures { result ≡ is_some (row_at self.now.staged model id) }
    {
        self.staged().has_row(model, id)
    }

    /// The rows to which a cell leads on a side of the staged edits.
    pub(crate) fn targets(&self, side: Side, cell: Cell) -> Result<RefList, NoMemory>
        requires { FieldHas self.now.models Leads cell.model cell.field }
        ensures { IfOk result (λ ids. ids ≡ led_to self.now.models (tables_on (sides_of self.now) side) cell) }
    {
        targets_in(self.alloc, self.schema, self.tables_on(side), cell)
    }

    /// The rows of a model whose cell leads to a row on such a side.
    pub(crate) fn sources(
        &self,
        side: Side,
        model: ModelNo,
        field: FieldNo,
        target: RecId,
    ) -> Result<RefList, NoMemory>
        requires { FieldHas self.now.models Leads model field }
        ensures { IfOk result (λ ids. ids ≡ leading_to self.now.models (tables_on (sides_of self.now) side) model field target) }
    {
        let tables = self.tables_on(side);
        sources_in(self.alloc, self.schema, tables, model, field, target)
    }

    fn tables_on(&self, side: Side) -> &Tables<'k>
        ensures { result.now ≡ record { models = self.now.models; tables = tables_on (sides_of self.now) side } }
    {
        match side {
            Side::Old => self.settled().tables(),
            Side::New => self.staged(),
        }
    }

    /// The value of a plain cell; none exactly where its row isn't there.
    fn plain(&self, cell: Cell) -> Result<Option<Value>, NoMemory>
        requires { IsSomeAnd (field_at self.now.models cell.model cell.field) (λ info. is_given_from info.origin ≡ true) }
        ensures told { IfOk result (IsValueIn (record { models = self.now.models; tables = self.now.staged }) cell) }
        ensures typed { IfOk result (λ told. IfSome told (HasFieldType (field_at self.now.models cell.model cell.field))) }
        ensures fit { IfOk result (λ told. IfSome told (λ _. IsFitId cell.id)) }
    {
        let staged = self.staged();
        staged.fit_together();
        // The law of next ids: each id is below one that fits.
        let _next = staged.next(cell.model);
        staged.plain(cell)
    }

    /// The value of a cell as it was settled last; none exactly where its row wasn't there.
    fn last_settled(&self, cell: Cell) -> Result<Option<Value>, NoMemory>
        requires { IsSome (field_at self.now.models cell.model cell.field) }
        ensures told { IfOk result (IsValueIn (record { models = self.now.models; tables = self.now.settled }) cell) }
        ensures typed { IfOk result (λ told. IfSome told (HasFieldType (field_at self.now.models cell.model cell.field))) }
        ensures fit { IfOk result (λ told. IfSome told (λ _. IsFitId cell.id)) }
    {
        let settled = self.settled();
        // The law of next ids: each id is below one that fits.
        let _next = settled.tables().next(cell.model);
        settled.value(cell)
    }

    /// The id that a model's next row takes.
    pub(crate) fn next_id(&self, model: ModelNo) -> u64
        requires { HasModel self.now.models model }
        ensures { result ≡ next_of self.now.staged model }
    {
        self.staged().next(model)
    }

    /// The first ids of a model's rows above one.
    pub(crate) fn page(&self, model: ModelNo, after: RecId, most: u32) -> Result<RefList, NoMemory>
        requires { HasModel self.now.models model }
        ensures ids { IfOk result (λ ids. ids ≡ page_of self.now model after most) }
        ensures fits { IfOk result (IsPageAbove after most) }
    {
        let staged = self.staged();
        // The law of next ids: each id is below one that fits.
        let _next = staged.next(model);
        let ids = staged.ids_above(model, after, most)?;
        // The law of these lists: they rise.
        let _ = ids.as_slice();
        Ok(ids)
    }

    /// The first ids above one of a model's rows that name a row by a field.
    pub(crate) fn holders(
        &self,
        model: ModelNo,
        field: FieldNo,
        target: RecId,
        after: RecId,
        most: u32,
    ) -> Result<RefList, NoMemory>
        requires { HasModel self.now.models model }
        ensures ids { IfOk result (λ ids. ids ≡ holders_of self.now model field target after most) }
        ensures fits { IfOk result (IsPageAbove after most) }
    {
        let staged = self.staged();
        // The law of next ids: each id is below one that fits.
        let _next = staged.next(model);
        let ids = staged.naming_above(model, field, target, after, most)?;
        // The law of these lists: they rise.
        let _ = ids.as_slice();
        Ok(ids)
    }

    /// Stages edits. After a fault only what was kept last is of use.
    pub(crate) fn stage(&mut self, edits: &[Edit]) -> Result<(), NoMemory>
        requires fit { All (IsFitEdit self.old.models) edits.now }
        ensures staged { OnOk result (self.new ≡ with_edits self.old edits.now) }
        ensures spoiled { OnErr result (AreOfSpoiled self.old self.new) }
    {
        let staged = self.staged.take();
        let settled = last(&self.settled, &self.flushed).tables();
        match edited(staged, settled, edits, &mut self.touched) {
            Ok(staged) => {
                self.staged = Some(staged);
                self.phase = Phase::Staged;
                Ok(())
            }
            Err(NoMemory) => {
                self.phase = Phase::Spoiled;
                Err(NoMemory)
            }
        }
    }

    /// Settles what is staged. Steps tick once for each cell that is evaluated.
    pub(crate) fn settle<L: Ledger>(&mut self, steps: &mut Steps<L>) -> Result<(), SettleFault>
        ensures settled { OnOk result (self.new ≡ settled_of self.old) }
        ensures sound { OnOk result (AreSound self.new.models self.new.settled) }
        ensures unsettled { IfErr result (ShowsUnsettled self.old) }
        ensures field { IfErr result (NamesField self.old.models) }
        ensures spoiled { OnErr result (AreOfSpoiled self.old self.new) }
        ensures evaluated { TicksEach L.noted self.old.models (sides_of self.old) (IsOk result) steps.old steps.new }
    {
        if let Some(staged) = self.staged.take() {
            let settled = last(&self.settled, &self.flushed);
            let touched = self.touched.as_slice();
            let triggers = &self.triggers;
            match settled_behind(
                self.alloc,
                settled,
                staged,
                touched,
                triggers,
                &mut self.unkept,
                steps,
            ) {
                Ok(whole) => put_settled(&mut self.settled, whole),
                Err(fault) => {
                    self.phase = Phase::Spoiled;
                    return Err(settle_fault(fault));
                }
            }
        }
        self.touched.clear();
        self.phase = Phase::Settled;
        self.settled().laws();
        Ok(())
    }

    /// What a keeper of the tables that were kept last has to change.
    pub(crate) fn changes(&self) -> Result<Sequence<Change>, NoMemory>
        requires settled { self.now.phase ≡ phase.Settled }
        requires next_ids { NextIdsUpTo max_next_id self.now }
        ensures { IfOk result (ChangesTo (record { models = self.now.models; tables = self.now.flushed }) (record { models = self.now.models; tables = self.now.settled })) }
    {
        let settled = last(&self.settled, &self.flushed);
        let unkept = self.unkept.as_slice();
        changes(self.alloc, self.schema, &self.flushed, settled, unkept)
    }

    /// What was settled last is kept.
    pub(crate) fn keep(&mut self)
        requires settled { self.old.phase ≡ phase.Settled }
        requires next_ids { NextIdsUpTo max_next_id self.old }
        ensures { self.new ≡ flushed_of self.old }
    {
        if let Some(settled) = self.settled.take() {
            put(&mut self.flushed, settled);
        }
        self.unkept.clear();
    }

    /// A call failed.
    pub(crate) fn spoil(&mut self)
        ensures { AreOfSpoiled self.old self.new }
    {
        self.phase = Phase::Spoiled;
    }

    /// Gives up what wasn't kept.
    pub(crate) fn forget(&mut self)
        ensures { self.new ≡ forgotten self.old }
    {
        self.settled = None;
        self.staged = None;
        self.touched.clear();
        self.unkept.clear();
        self.phase = Phase::Settled;
    }
}

/// The tables that were settled last: those that are kept, if none were since.
fn last<'h, 'k>(settled: &'h Option<Whole<'k>>, flushed: &'h Whole<'k>) -> &'h Whole<'k>
    ensures { result.now ≡ unwrap_or settled.now flushed.now }
{
    match settled {
        Some(settled) => settled,
        None => flushed,
    }
}

/// Puts whole tables where none or others stood, which go.
fn put_settled<'k>(place: &mut Option<Whole<'k>>, whole: Whole<'k>)
    ensures { place.new ≡ Some whole.entry }
{
    *place = Some(whole);
}

/// Puts whole tables in the place of others, which go.
fn put<'k>(place: &mut Whole<'k>, whole: Whole<'k>)
    ensures { place.new ≡ whole.entry }
{
    *place = whole;
}

/// Why tables aren't settled.
fn settle_fault(fault: ApplyFault) -> SettleFault
    ensures { result ≡ settle_fault_of fault }
{
    match fault {
        ApplyFault::Broken(broken) => SettleFault::Broken(broken),
        ApplyFault::NoMemory => SettleFault::NoMemory,
    }
}
