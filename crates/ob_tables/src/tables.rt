//! Tables over a registry: what their rows keep, what they tell, and what edits make of
//! them. Contracts see a finite map of rows and a next id for each model, by
//! `specs/Tables`; the maps here may change at will. They share what they have in common with
//! the maps of tables that were copied from these or that these were copied from, so that a copy
//! costs nothing and an edit a few nodes. A next id that was never raised isn't kept, so that
//! empty tables take no memory. The digests of the rows follow them at each edit.

ghost use Rattle.std.specs.Prelude.{◌≡◌, ◌≤◌, ◌<◌, ◌+◌, ◌^◌, ◌-◌, All, IfErr, IfOk, IsSome, Ok, IsSomeAnd, Some, is_some, true, filter, map, nat_lt, option_and_then, option_map};
ghost use Rattle.std.specs.FinMap as finite;
ghost use Rattle.ob_base.specs.declared.id.RecId.{RecId};
ghost use Rattle.ob_schema.specs.Models.{HasModel, IsRegistry, field_at, is_given_from};
ghost use Rattle.ob_schema.specs.declared.info.Origin.{Origin};
ghost use Rattle.ob_schema.specs.declared.info.Origin.TheVariants as origin;
ghost use Rattle.ob_tables.specs.After.{after, edited, with_next_id};
ghost use Rattle.ob_tables.specs.Digests.{AmongDigested};
ghost use Rattle.ob_schema.specs.Tied.{IsTied};
ghost use Rattle.ob_tables.specs.Faults.{HasNoValue};
ghost use Rattle.ob_tables.specs.Fitting.{AreFitIn, IsFitEdit, IsFitId, IsFitValueAt};
ghost use Rattle.ob_schema.specs.Plain.{id_value, naming, plain_at};
ghost use Rattle.ob_tables.specs.Rooms.{Gives, shown_row, shown_rows};
ghost use Rattle.ob_schema.specs.Val.{val};
ghost use Rattle.ob_schema.specs.Tables.{Fits, Standing, empty_tables, ids_in, key_of, kept_at, next_of, row_at, rows_in};
ghost use Rattle.ob_tables.specs.declared.edit.Edit.TheVariants as edits;

use crate::digests::{Digested, Digests, digested_at, put_row, remove_row};
use crate::edit::Edit;
use crate::fault::ScratchFault;
use crate::holdings::Holding;
use crate::reading::Given;
use crate::row::{PlainRow, new_row, row_with};
use crate::rows::Rows;
use ob_base::{Cell, FieldNo, ModelNo, NoMemory, RecId, RefList, RowKey, Value};
use ob_schema::{FieldInfo, Origin, Schema};
use ob_shared::{Range, SharedMap};
use std::alloc::Global;
use std::collections::BTreeMap;
use std::marker::Model;
use std::ops::Bound;

/// The plain values of rows, and a next id for each model of the registry over which they
/// stand. Calls give new tables, but for `edit`, which spares whoever stages edits a copy.
#[derive(Drop)]
pub struct Tables<'a> {
    pub(crate) alloc: Global,
    pub(crate) schema: &'a Schema,
    rows: Rows,
    digests: Digests,
    next_ids: SharedMap<u16, u64>,
}

impl<'a> Model for Tables<'a> {
    ghost use Rattle.ob_schema.specs.Tables.{Standing};
    ghost use Rattle.ob_tables.specs.Digests.{AreWhole};
    ghost use Rattle.ob_tables.specs.Rooms.{shown_tables};
    ghost use Rattle.ob_expr.specs.contracts.typed.Typed as typed;
    ghost use Rattle.std.specs.Coded.{codes};
    ghost use Rattle.ob_tables.specs.Coding.{coded_standing};

    ghost coded = { coded_standing (Prim.hlevel (codes, typed.the_row.coded)) (Prim.hlevel codes) };

    ghost Value = { Standing };

    ghost view = { λ t. record { models = t.schema.now; tables = shown_tables t.schema.now t.rows t.next_ids } };

    ghost invariant = { λ t. AreWhole t.schema.now t.rows t.digests t.next_ids };
}

/// What gives a plain cell its value.
#[derive(Clone, Copy, Debug)]
pub(crate) enum Source<'t> {
    /// Its row isn't there, or another cell or a formula gives it.
    Nothing,
    /// The row's id.
    Id,
    /// The row keeps it.
    Kept(&'t Value),
    /// The rows of a model that name the row by a field.
    Naming(ModelNo, FieldNo),
}

impl<'a> Tables<'a> {
    /// Tables without rows, whose models have the next id 1. They take no memory.
    pub fn empty(alloc: Global, schema: &'a Schema) -> Tables<'a>
        ensures { result ≡ record { models = schema.now; tables = empty_tables schema.now } }
    {
        Tables {
            alloc,
            schema,
            rows: Rows::new(alloc),
            digests: SharedMap::new(alloc),
            next_ids: SharedMap::new(alloc),
        }
    }

    /// What edits make of these tables in their order, without any test.
    pub fn after(&self, edits: &[Edit]) -> Result<Tables<'a>, NoMemory>
        requires { All (IsFitEdit self.now.models) edits.now }
        ensures { IfOk result (λ tables. tables ≡ record { models = self.now.models; tables = after self.now.models self.now.tables edits.now }) }
    {
        let mut tables = self.try_clone()?;
        tables.edit(edits)?;
        Ok(tables)
    }

    /// Carries out edits in their order, without any test. After a fault these tables are of no
    /// use.
    pub fn edit(&mut self, edits: &[Edit]) -> Result<(), NoMemory>
        requires { All (IsFitEdit self.old.models) edits.now }
        ensures models { self.new.models ≡ self.old.models }
        ensures tables { IfOk result (λ _. self.new.tables ≡ after self.old.models self.old.tables edits.now) }
    {
        for edit in edits {
            self.carry_out(edit)?;
        }
        Ok(())
    }

    /// The value of a plain cell, of `id` or of a one2many or many2many; none exactly where its
    /// row isn't there.
    pub fn plain(&self, cell: Cell) -> Result<Option<Value>, NoMemory>
        requires { IsSomeAnd (field_at self.now.models cell.model cell.field)
            (λ info. is_given_from info.origin ≡ true) }
        ensures { IfOk result (λ value. value ≡ plain_at self.now.tables self.now.models cell) }
    {
        self.plain_of(cell)
    }

    /// The same; none of any other cell.
    pub(crate) fn plain_of(&self, cell: Cell) -> Result<Option<Value>, NoMemory>
        ensures { IfOk result (λ value. value ≡ plain_at self.now.tables self.now.models cell) }
    {
        match self.source(cell) {
            Source::Nothing => Ok(None),
            Source::Id => Ok(Some(id_value(cell.id))),
            Source::Kept(value) => Ok(Some(value.try_clone(self.alloc)?)),
            Source::Naming(model, field) => {
                let ids = self.naming(model, field, cell.id)?;
                Ok(Some(Value::Refs(ids)))
            }
        }
    }

    /// The ids of a model's rows.
    pub fn ids(&self, model: ModelNo) -> Result<RefList, NoMemory>
        requires { HasModel self.now.models model }
        ensures { IfOk result (λ ids. ids ≡ ids_in self.now.tables model) }
    {
        let mut ids = RefList::new(self.alloc);
        for (key, _) in self.rows_of(model) {
            ids.push(key.id)?;
        }
        Ok(ids)
    }

    /// The id that a model's next row takes.
    pub fn next(&self, model: ModelNo) -> u64
        requires { HasModel self.now.models model }
        ensures next { result ≡ next_of self.now.tables model }
        ensures low { 1 ≤ result }
        ensures above { (id : RecId) → IsSome (row_at self.now.tables model id) → id.0 < result }
    {
        self.next_ids.get(&model.0).copied().unwrap_or(1)
    }

    /// The same rows, with another next id for a model.
    pub fn with_next(&self, model: ModelNo, next: u64) -> Result<Tables<'a>, NoMemory>
        requires model { HasModel self.now.models model }
        requires low { 1 ≤ next }
        requires above { (id : RecId) → IsSome (row_at self.now.tables model id) → id.0 < next }
        ensures { IfOk result (λ tables. tables ≡ record { models = self.now.models; tables = with_next_id model next self.now.tables }) }
    {
        let mut tables = self.try_clone()?;
        tables.next_ids.insert(model.0, next)?;
        Ok(tables)
    }

    /// The value of a cell from scratch, a condition's too, over tables whose rows lead to rows
    /// that are there and whose trees are trees.
    pub fn scratch(&self, cell: Cell) -> Result<Value, ScratchFault>
        requires field { IsSome (field_at self.now.models cell.model cell.field) }
        requires tied { IsTied self.now.models self.now.tables }
        ensures value { IfOk result (λ value. val self.now.models self.now.tables cell ≡ Ok value) }
        ensures fault { IfErr result (HasNoValue self.now.models self.now.tables cell) }
    {
        if !self.has_row(cell.model, cell.id) {
            return Err(ScratchFault::Missing);
        }
        let mut outcomes = BTreeMap::new(self.alloc);
        Given::of(self).value_of(&mut outcomes, cell)
    }

    /// The law of all tables: they fit their registry, whose parts fit together.
    pub fn fit_together(&self)
        ensures registry { IsRegistry self.now.models }
        ensures fits { Fits self.now.models self.now.tables }
    {
        self.schema.parts_fit_together();
    }

    /// Whether a row is there.
    pub fn has_row(&self, model: ModelNo, id: RecId) -> bool
        ensures { result ≡ is_some (row_at self.now.tables model id) }
    {
        self.rows.contains_key(&RowKey { model, id })
    }

    /// The rows of a model, rising. None has the next id or one above it.
    pub(crate) fn rows_of(&self, model: ModelNo) -> Range<'_, RowKey, PlainRow>
        requires { HasModel self.now.models model }
        ensures { map (λ entry. (entry.0.id, shown_row entry.1)) result ≡ rows_in self.now.tables model }
    {
        self.rows.range(
            Bound::Included(row_key(model, 0)),
            Bound::Excluded(row_key(model, self.next(model))),
        )
    }

    /// The rows of a model with ids above one, rising.
    pub(crate) fn rows_above(&self, model: ModelNo, after: RecId) -> Range<'_, RowKey, PlainRow>
        requires { HasModel self.now.models model }
        ensures { map (λ entry. (entry.0.id, shown_row entry.1)) result ≡ filter (λ entry. nat_lt after.0 entry.0.0) (rows_in self.now.tables model) }
    {
        let next = self.next(model);
        let first = after.0.min(next - 1) + 1;
        self.rows.range(
            Bound::Included(row_key(model, first)),
            Bound::Excluded(row_key(model, next)),
        )
    }

    /// The rows of a model that name a row by a field, rising.
    fn holders(&self, model: ModelNo, field: FieldNo, id: RecId) -> Range<'_, Holding, ()>
        requires { HasModel self.now.models model }
        ensures { map (λ entry. entry.0.holder) result ≡ naming self.now.tables model field id }
    {
        let end = RecId(self.next(model));
        self.rows.holders(model, field, id, end)
    }

    /// Those of them above an id.
    pub(crate) fn holders_above(
        &self,
        model: ModelNo,
        field: FieldNo,
        id: RecId,
        after: RecId,
    ) -> Range<'_, Holding, ()>
        requires { HasModel self.now.models model }
        ensures { map (λ entry. entry.0.holder) result ≡ filter (λ id. nat_lt after.0 id.0) (naming self.now.tables model field id) }
    {
        let end = RecId(self.next(model));
        self.rows.holders_above(model, field, id, after, end)
    }

    /// The rows of a model whose values in one of its sets that no two rows may share have a
    /// digest; there may be others among them.
    pub(crate) fn digested(&self, model: ModelNo, digest: u64) -> Range<'_, Digested, ()>
        requires { HasModel self.now.models model }
        ensures { AmongDigested self.now model digest (map (λ entry. entry.0.id) result) }
    {
        let first = digested_at(row_key(model, 0), digest);
        let end = digested_at(row_key(model, self.next(model)), digest);
        self.digests
            .range(Bound::Included(first), Bound::Excluded(end))
    }

    /// What a row keeps for a field.
    pub(crate) fn kept(&self, cell: Cell) -> Option<&Value>
        ensures { option_map (λ value. value.now) result ≡ kept_at self.now.tables cell }
    {
        self.rows.get(&key_of(cell))?.get(&cell.field.0)
    }

    /// The row of a model and an id.
    pub(crate) fn row(&self, model: ModelNo, id: RecId) -> Option<&PlainRow>
        ensures { option_map (λ row. shown_row row.now) result ≡ row_at self.now.tables model id }
    {
        self.rows.get(&RowKey { model, id })
    }

    /// What gives a cell its value.
    pub(crate) fn source(&self, cell: Cell) -> Source<'_>
        ensures { Gives self.now cell.id (plain_at self.now.tables self.now.models cell) result }
    {
        let Some(info) = self.schema.find_field(cell.model, cell.field) else {
            return Source::Nothing;
        };
        if !self.has_row(cell.model, cell.id) {
            return Source::Nothing;
        }
        match &info.origin {
            Origin::Id => Source::Id,
            Origin::Plain => self.plain_source(cell, info),
            _ => Source::Nothing,
        }
    }

    /// What gives a plain field its value in a row that is there: the rows that name this one by
    /// the field back, or the row itself.
    fn plain_source(&self, cell: Cell, info: &FieldInfo) -> Source<'_>
        requires row { IsSome (row_at self.now.tables cell.model cell.id) }
        requires field { field_at self.now.models cell.model cell.field ≡ Some info.now }
        requires plain { info.now.origin ≡ origin.Plain }
        ensures { Gives self.now cell.id (plain_at self.now.tables self.now.models cell) result }
    {
        // The registry's law: a field with a field back has a relation.
        let _ = self.schema.model_info(cell.model);
        let Some(back) = info.inverse.or(info.mirror) else {
            return match self.kept(cell) {
                Some(value) => Source::Kept(value),
                None => Source::Nothing,
            };
        };
        match info.relation {
            Some(model) => Source::Naming(model, back),
            None => Source::Nothing,
        }
    }

    /// The rows of a model that name a row by a field.
    pub fn naming(&self, model: ModelNo, field: FieldNo, id: RecId) -> Result<RefList, NoMemory>
        requires { HasModel self.now.models model }
        ensures { IfOk result (λ ids. ids ≡ naming self.now.tables model field id) }
    {
        let mut ids = RefList::new(self.alloc);
        for (holding, _) in self.holders(model, field, id) {
            ids.push(holding.holder)?;
        }
        Ok(ids)
    }

    /// Carries out an edit. After a fault these tables are of no use.
    fn carry_out(&mut self, edit: &Edit) -> Result<(), NoMemory>
        requires { IsFitEdit self.old.models edit.now }
        ensures models { self.new.models ≡ self.old.models }
        ensures tables { IfOk result (λ _. self.new.tables ≡ edited self.old.models self.old.tables edit.now) }
    {
        match edit {
            Edit::Make { model, id, values } => self.make(*model, *id, values.as_slice()),
            Edit::Set { cell, value } => self.set(*cell, value),
            Edit::Gone { model, id } => self.take_out(*model, *id),
        }
    }

    /// Makes a row, or makes it anew. The next id is raised first: it may stand higher than it
    /// must.
    fn make(
        &mut self,
        model: ModelNo,
        id: RecId,
        values: &[(FieldNo, Value)],
    ) -> Result<(), NoMemory>
        requires id { IsFitId id }
        requires values { AreFitIn self.old.models model values.now }
        ensures models { self.new.models ≡ self.old.models }
        ensures tables { IfOk result (λ _. self.new.tables ≡ edited self.old.models self.old.tables
            (edits.Make model id values.now)) }
    {
        let row = new_row(self.alloc, self.schema.model_info(model), values)?;
        let next = self.next(model).max(id.0 + 1);
        self.next_ids.insert(model.0, next)?;
        let key = RowKey { model, id };
        put_row(self.schema, &mut self.rows, &mut self.digests, key, row)?;
        Ok(())
    }

    /// Gives a cell of a row that is there a value.
    fn set(&mut self, cell: Cell, value: &Value) -> Result<(), NoMemory>
        requires { IsFitValueAt self.old.models cell value.now }
        ensures models { self.new.models ≡ self.old.models }
        ensures tables { IfOk result (λ _. self.new.tables ≡ edited self.old.models self.old.tables
            (edits.Set cell value.now)) }
    {
        // The registry's law: a model's conditions are no plain fields.
        let _ = self.schema.model_info(cell.model);
        let alloc = self.alloc;
        let key = key_of(cell);
        let Some(old) = self.rows.get(&key) else {
            return Ok(());
        };
        let row = row_with(alloc, old, cell.field, value.try_clone(alloc)?)?;
        put_row(self.schema, &mut self.rows, &mut self.digests, key, row)?;
        Ok(())
    }

    /// Takes a row out, if it is there.
    fn take_out(&mut self, model: ModelNo, id: RecId) -> Result<(), NoMemory>
        ensures models { self.new.models ≡ self.old.models }
        ensures tables { IfOk result (λ _. self.new.tables ≡ edited self.old.models self.old.tables
            (edits.Gone model id)) }
    {
        let key = RowKey { model, id };
        remove_row(self.schema, &mut self.rows, &mut self.digests, key)?;
        Ok(())
    }

    /// The same tables again. They share what they have in common.
    pub fn try_clone(&self) -> Result<Tables<'a>, NoMemory>
        ensures { IfOk result (λ tables. tables ≡ self.now) }
    {
        Ok(Tables {
            alloc: self.alloc,
            schema: self.schema,
            rows: self.rows.try_clone()?,
            digests: self.digests.try_clone()?,
            next_ids: self.next_ids.try_clone()?,
        })
    }
}

/// A row's id as an integer; the greatest one stands for those past it.
pub(crate) fn id_value(id: RecId) -> Value
    ensures { result ≡ id_value id }
{
    Value::Int(i64::try_from(id.0).unwrap_or(i64::MAX))
}

fn row_key(model: ModelNo, id: u64) -> RowKey
    ensures { result ≡ key_of model (record { 0 = id }) }
{
    RowKey {
        model,
        id: RecId(id),
    }
}

fn key_of(cell: Cell) -> RowKey
    ensures { result ≡ key_of cell.model cell.id }
{
    row_key(cell.model, cell.id.0)
}
