//! The rows of a keeper as tables: all are read, a model after the other, in pages. What rows
//! keep for computed fields stands beside the tables, in the order of cells.

ghost use Rattle.std.specs.Prelude.{◌≡◌, ◌≤◌, All, IfErr, IfOk, IfSome, OnOk, ⊤};
ghost use Rattle.ob_base.specs.Limits.{max_models};
ghost use Rattle.ob_audit.specs.Reading.{AreStored, IsAboveNone, IsFitStored, IsOf, IsUnreadAmong, ReadsModels, ReadsRows, StopsStore, StopsReading, TellsAfter, TellsAll, TellsNext};
ghost use Rattle.ob_audit.specs.Rows.{ArePlain};
ghost use Rattle.ob_io.specs.Cause.{Rose};
ghost use Rattle.ob_io.specs.Store.{Fits63};
ghost use Rattle.ob_schema.specs.Models.{HasModel, model_at};

use crate::fault::ReadingFault;
use crate::kept_rows::{ReadRows, id_cell, read_row};
use ob_base::limits::MAX_MODELS;
use ob_base::{Cell, ModelNo, RecId, Sequence, Value};
use ob_codec::one_row;
use ob_io::{Keeper, KeptRow};
use ob_schema::Schema;
use ob_tables::Tables;
use std::alloc::Global;

/// How many rows a keeper is asked for at once.
const PAGE_ROWS: u32 = 256;

/// The rows of a keeper: the tables of their plain values, and what they keep for computed
/// fields, in the order of cells.
#[derive(Drop)]
pub(crate) struct StoreRows<'a> {
    pub(crate) tables: Tables<'a>,
    pub(crate) stored: Sequence<(Cell, Value)>,
}

/// Reads all rows of a keeper.
pub(crate) fn read_store<'a, K: Keeper>(
    alloc: Global,
    keeper: &mut K,
    schema: &'a Schema,
) -> Result<StoreRows<'a>, ReadingFault>
    ensures models { IfOk result (λ rows. rows.tables.models ≡ schema.now) }
    ensures plain { IfOk result (λ rows. IfSome (K.kept keeper.old) (λ store. ArePlain schema.now store rows.tables.tables)) }
    ensures stored { IfOk result (λ rows. IfSome (K.kept keeper.old) (λ store. AreStored schema.now store rows.stored)) }
    ensures fit { IfOk result (λ rows. All (IsFitStored schema.now) rows.stored) }
    ensures fault { IfErr result (StopsStore schema.now (K.kept keeper.old) (Rose (K.faults keeper.old) (K.faults keeper.new))) }
    ensures same { K.kept keeper.new ≡ K.kept keeper.old }
    ensures count { K.faults keeper.old ≤ K.faults keeper.new }
{
    // The laws of the registry and of kept forms.
    schema.parts_fit_together();
    one_row();
    let mut rows = ReadRows {
        edits: Sequence::new(alloc),
        stored: Sequence::new(alloc),
    };
    let empty = read_models(alloc, keeper, schema, &mut rows)?;
    let ReadRows { edits, stored } = rows;
    let tables = empty.after(edits.as_slice())?;
    tables.fit_together();
    Ok(StoreRows { tables, stored })
}

/// Reads the rows of all models. It gives empty tables with the next ids that are kept.
fn read_models<'a, K: Keeper>(
    alloc: Global,
    keeper: &mut K,
    schema: &'a Schema,
    rows: &mut ReadRows,
) -> Result<Tables<'a>, ReadingFault>
    ensures models { IfOk result (λ tables. tables.models ≡ schema.now) }
    ensures read { IfOk result (λ tables. ReadsModels schema.now (K.kept keeper.old) max_models tables.tables rows.old rows.new) }
    ensures fault { IfErr result (StopsReading schema.now (K.kept keeper.old) (Rose (K.faults keeper.old) (K.faults keeper.new)) (λ _. ⊤)) }
    ensures same { K.kept keeper.new ≡ K.kept keeper.old }
    ensures count { K.faults keeper.old ≤ K.faults keeper.new }
{
    let mut tables = Tables::empty(alloc, schema);
    for place in 0..MAX_MODELS {
        let model = ModelNo(place as u16 + 1);
        if schema.find_model(model).is_some() {
            let next = read_model(alloc, keeper, schema, model, rows)?;
            tables = tables.with_next(model, next)?;
        }
    }
    Ok(tables)
}

/// Reads the rows of a model. It gives the next id that is kept.
fn read_model<K: Keeper>(
    alloc: Global,
    keeper: &mut K,
    schema: &Schema,
    model: ModelNo,
    rows: &mut ReadRows,
) -> Result<u64, ReadingFault>
    requires { HasModel schema.now model }
    ensures read { IfOk result (λ next. ReadsRows schema.now model next (TellsAll (K.kept keeper.old) model) rows.old rows.new) }
    ensures next { IfOk result (TellsNext (K.kept keeper.old) model) }
    ensures low { IfOk result (λ next. 1 ≤ next) }
    ensures fits { IfOk result Fits63 }
    ensures fault { IfErr result (StopsReading schema.now (K.kept keeper.old) (Rose (K.faults keeper.old) (K.faults keeper.new)) (IsOf model)) }
    ensures same { K.kept keeper.new ≡ K.kept keeper.old }
    ensures count { K.faults keeper.old ≤ K.faults keeper.new }
{
    let next = keeper.next_id(model)?;
    if next == 0 {
        return Err(ReadingFault::Unreadable(id_cell(schema, model, RecId(0))));
    }
    if let Some(row) = keeper.fetch(model, RecId(0))? {
        read_row(alloc, schema, model, next, &row, rows)?;
    }
    read_pages(alloc, keeper, schema, model, next, rows)?;
    Ok(next)
}

/// Reads the rows of a model whose ids are above 0.
fn read_pages<K: Keeper>(
    alloc: Global,
    keeper: &mut K,
    schema: &Schema,
    model: ModelNo,
    next: u64,
    rows: &mut ReadRows,
) -> Result<(), ReadingFault>
    requires model { HasModel schema.now model }
    requires next { TellsNext (K.kept keeper.old) model next }
    ensures read { OnOk result (ReadsRows schema.now model next (TellsAfter (K.kept keeper.old) model (record { 0 = 0 })) rows.old rows.new) }
    ensures fault { IfErr result (StopsReading schema.now (K.kept keeper.old) (Rose (K.faults keeper.old) (K.faults keeper.new)) (IsAboveNone model)) }
    ensures same { K.kept keeper.new ≡ K.kept keeper.old }
    ensures count { K.faults keeper.old ≤ K.faults keeper.new }
{
    let mut after = RecId(0);
    loop {
        let page = keeper.page(model, after, PAGE_ROWS)?;
        let Some(last) = page.as_slice().last() else {
            return Ok(());
        };
        after = last.id;
        read_page(alloc, schema, model, next, page.as_slice(), rows)?;
    }
}

/// Reads some rows of a model.
fn read_page(
    alloc: Global,
    schema: &Schema,
    model: ModelNo,
    next: u64,
    page: &[KeptRow],
    rows: &mut ReadRows,
) -> Result<(), ReadingFault>
    requires { HasModel schema.now model }
    ensures read { OnOk result (ReadsRows schema.now model next (λ read. read ≡ page.now) rows.old rows.new) }
    ensures fault { IfErr result (λ fault. IfSome (model_at schema.now model) (λ info. IsUnreadAmong schema.now next info page.now model fault)) }
{
    for row in page {
        read_row(alloc, schema, model, next, row, rows)?;
    }
    Ok(())
}
