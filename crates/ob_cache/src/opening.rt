//! The rows of a keeper as tables: all are read, a model after the other, in pages.

ghost use Rattle.std.specs.Prelude.{◌≡◌, ◌↔◌, ◌≤◌, All, IfErr, IfOk, IfSome, IsSome, IsTrue, Ok, OnOk, ⊤};
ghost use Rattle.ob_base.specs.Limits.{max_models};
ghost use Rattle.ob_cache.specs.Kept.{Kept};
ghost use Rattle.ob_cache.specs.Opening.{ShowsField, StopsOpening};
ghost use Rattle.ob_cache.specs.Reading.{DiffersAmong, IsAboveNone, IsUnreadAmong, ReadsModels, ReadsRows, StopsReading, TellsAfter, TellsAll, TellsNext};
ghost use Rattle.ob_cache.specs.Rooms.{IsOf};
ghost use Rattle.ob_cache.specs.Standing.{FitNextIds};
ghost use Rattle.ob_io.specs.Cause.{Rose};
ghost use Rattle.ob_io.specs.Store.{Fits63};
ghost use Rattle.ob_schema.specs.Models.{HasModel, field_at, model_at};
ghost use Rattle.ob_schema.specs.Val.{val};

use crate::fault::OpenFault;
use crate::kept_rows::{ReadRows, id_cell, read_row};
use crate::native::constants_are_native;
use crate::whole::Whole;
use ob_base::limits::MAX_MODELS;
use ob_base::{Cell, ModelNo, NoMemory, RecId, Sequence, Value, value_eq};
use ob_codec::one_row;
use ob_io::{Keeper, KeptRow};
use ob_schema::Schema;
use ob_tables::{ApplyFault, Tables, sound_values};
use std::alloc::Global;

/// How many rows a keeper is asked for at once.
const PAGE_ROWS: u32 = 256;

/// The sound tables whose rows a keeper keeps.
pub(crate) fn open<'a, K: Keeper>(
    alloc: Global,
    keeper: &mut K,
    schema: &'a Schema,
) -> Result<Whole<'a>, OpenFault>
    ensures models { IfOk result (λ whole. whole.models ≡ schema.now) }
    ensures kept { IfOk result (λ whole. IfSome (K.kept keeper.old) (Kept whole.models whole.tables)) }
    ensures next_ids { IfOk result (λ whole. FitNextIds schema.now whole.tables) }
    ensures fault { IfErr result (StopsOpening schema.now (K.kept keeper.old) (Rose (K.faults keeper.old) (K.faults keeper.new))) }
    ensures field { IfErr result (ShowsField schema.now) }
    ensures same { K.kept keeper.new ≡ K.kept keeper.old }
    ensures count { K.faults keeper.old ≤ K.faults keeper.new }
{
    // The laws of the registry, of its constants, of sound tables and of kept forms.
    schema.parts_fit_together();
    constants_are_native(schema);
    sound_values();
    one_row();
    let mut rows = ReadRows {
        edits: Sequence::new(alloc),
        stored: Sequence::new(alloc),
    };
    let empty = read_models(alloc, keeper, schema, &mut rows)?;
    let tables = empty.after(rows.edits.as_slice())?;
    tables.fit_together();
    let whole = match Whole::of(alloc, schema, tables) {
        Ok(whole) => whole,
        Err(ApplyFault::Broken(broken)) => return Err(OpenFault::Inconsistent(broken.cell)),
        Err(ApplyFault::NoMemory) => return Err(OpenFault::NoMemory),
    };
    test_stored(&whole, rows.stored.as_slice())?;
    Ok(whole)
}

/// Reads the rows of all models. It gives empty tables with the next ids that are kept.
fn read_models<'a, K: Keeper>(
    alloc: Global,
    keeper: &mut K,
    schema: &'a Schema,
    rows: &mut ReadRows,
) -> Result<Tables<'a>, OpenFault>
    ensures models { IfOk result (λ tables. tables.models ≡ schema.now) }
    ensures read { IfOk result (λ tables. ReadsModels schema.now (K.kept keeper.old) max_models tables.tables rows.old rows.new) }
    ensures fault { IfErr result (StopsReading schema.now (K.kept keeper.old) (Rose (K.faults keeper.old) (K.faults keeper.new)) (λ _. ⊤)) }
    ensures field { IfErr result (ShowsField schema.now) }
    ensures same { K.kept keeper.new ≡ K.kept keeper.old }
    ensures count { K.faults keeper.old ≤ K.faults keeper.new }
{
    let mut tables = Tables::empty(alloc, schema);
    for place in 0..MAX_MODELS {
        let model = ModelNo(place as u16 + 1);
        if schema.find_model(model).is_some() {
            let next = read_model(alloc, keeper, schema, model, rows)?;
            tables = tables.with_next(model, next)?;
        }
    }
    Ok(tables)
}

/// Reads the rows of a model. It gives the next id that is kept.
fn read_model<K: Keeper>(
    alloc: Global,
    keeper: &mut K,
    schema: &Schema,
    model: ModelNo,
    rows: &mut ReadRows,
) -> Result<u64, OpenFault>
    requires { HasModel schema.now model }
    ensures read { IfOk result (λ next. ReadsRows schema.now model next (TellsAll (K.kept keeper.old) model) rows.old rows.new) }
    ensures next { IfOk result (TellsNext (K.kept keeper.old) model) }
    ensures low { IfOk result (λ next. 1 ≤ next) }
    ensures fits { IfOk result Fits63 }
    ensures fault { IfErr result (StopsReading schema.now (K.kept keeper.old) (Rose (K.faults keeper.old) (K.faults keeper.new)) (IsOf model)) }
    ensures field { IfErr result (ShowsField schema.now) }
    ensures same { K.kept keeper.new ≡ K.kept keeper.old }
    ensures count { K.faults keeper.old ≤ K.faults keeper.new }
{
    let next = keeper.next_id(model)?;
    if next == 0 {
        return Err(OpenFault::Inconsistent(id_cell(schema, model, RecId(0))));
    }
    if let Some(row) = keeper.fetch(model, RecId(0))? {
        read_row(alloc, schema, model, next, &row, rows)?;
    }
    read_pages(alloc, keeper, schema, model, next, rows)?;
    Ok(next)
}

/// Reads the rows of a model whose ids are above 0.
fn read_pages<K: Keeper>(
    alloc: Global,
    keeper: &mut K,
    schema: &Schema,
    model: ModelNo,
    next: u64,
    rows: &mut ReadRows,
) -> Result<(), OpenFault>
    requires model { HasModel schema.now model }
    requires next { TellsNext (K.kept keeper.old) model next }
    ensures read { OnOk result (ReadsRows schema.now model next (TellsAfter (K.kept keeper.old) model (record { 0 = 0 })) rows.old rows.new) }
    ensures fault { IfErr result (StopsReading schema.now (K.kept keeper.old) (Rose (K.faults keeper.old) (K.faults keeper.new)) (IsAboveNone model)) }
    ensures field { IfErr result (ShowsField schema.now) }
    ensures same { K.kept keeper.new ≡ K.kept keeper.old }
    ensures count { K.faults keeper.old ≤ K.faults keeper.new }
{
    let mut after = RecId(0);
    loop {
        let page = keeper.page(model, after, PAGE_ROWS)?;
        let Some(last) = page.as_slice().last() else {
            return Ok(());
        };
        after = last.id;
        read_page(alloc, schema, model, next, page.as_slice(), rows)?;
    }
}

/// Reads some rows of a model.
fn read_page(
    alloc: Global,
    schema: &Schema,
    model: ModelNo,
    next: u64,
    page: &[KeptRow],
    rows: &mut ReadRows,
) -> Result<(), OpenFault>
    requires { HasModel schema.now model }
    ensures read { OnOk result (ReadsRows schema.now model next (λ read. read ≡ page.now) rows.old rows.new) }
    ensures fault { IfErr result (λ fault. IfSome (model_at schema.now model) (λ info. IsUnreadAmong schema.now next info page.now model fault)) }
    ensures field { IfErr result (ShowsField schema.now) }
{
    for row in page {
        read_row(alloc, schema, model, next, row, rows)?;
    }
    Ok(())
}

/// Tests that what rows keep for computed fields is the cells' values from scratch.
fn test_stored(whole: &Whole<'_>, stored: &[(Cell, Value)]) -> Result<(), OpenFault>
    requires { All (λ s. IsSome (field_at whole.now.models s.0.model s.0.field)) stored.now }
    ensures tested { OnOk result (All (λ s. val whole.now.models whole.now.tables s.0 ≡ Ok s.1) stored.now) }
    ensures fault { IfErr result (DiffersAmong whole.now stored.now) }
    ensures field { IfErr result (ShowsField whole.now.models) }
{
    for (cell, kept) in stored {
        if !has_value(whole, *cell, kept)? {
            return Err(OpenFault::Inconsistent(*cell));
        }
    }
    Ok(())
}

/// Whether a cell has this value.
fn has_value(whole: &Whole<'_>, cell: Cell, kept: &Value) -> Result<bool, NoMemory>
    requires { IsSome (field_at whole.now.models cell.model cell.field) }
    ensures { IfOk result (λ has. IsTrue has ↔ (val whole.now.models whole.now.tables cell ≡ Ok kept.now)) }
{
    match whole.value(cell)? {
        Some(value) => Ok(value_eq(&value, kept)),
        None => Ok(false),
    }
}
