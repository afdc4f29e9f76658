//! The steps of a run. `["stage", EDIT, ..]`, `["settle"]`, `["flush"]` and `["forget"]` tell
//! `"done"`; where one of them fails, the engine forgets what isn't kept, and the cause is told:
//! what is broken as `[KIND, MODEL, ID, FIELD]`, or words. `["count"]` settles too, and tells what
//! `["settle"]` does and then how many cells were evaluated. Any other step is a question
//! (`asked`). `["not asked"]` is told of edits that don't fit, of those that make a row whose id
//! is past the greatest one that a keeper keeps, and of a flush while edits are staged.

ghost use Rattle.std.specs.Prelude.{All, IsTrue, false, true};
ghost use Rattle.ob_base.specs.declared.id.ModelNo.{ModelNo};
ghost use Rattle.ob_cache.specs.Standing.{max_next_id};
ghost use Rattle.ob_tables.specs.Changes.{MakesBelow};
ghost use Rattle.probe_models.specs.Steps.{IsReady};

use crate::asked::put_asked;
use crate::edits::{do_fit, edits};
use crate::told_models::put_number;
use crate::told_tables::{NOT_ASKED, put_broken, put_fault};
use ob_base::{Counted, Steps};
use ob_cache::{Engine, SettleFault};
use ob_io::MemKeeper;
use ob_tables::Edit;
use probe_parts::parts::{Json, items_of};
use probe_parts::told::Told;
use std::alloc::Global;

/// What a step tells that gives nothing else.
pub(crate) const DONE: &str = "\"done\"";

/// Adds what the steps of a run tell.
pub(crate) fn put_steps(
    alloc: Global,
    told: &mut Told,
    engine: &mut Engine<'_, MemKeeper>,
    steps: &[Json],
)
    requires { IsReady true engine.old.held }
{
    told.put("[");
    let mut is_settled = true;
    let mut between = "";
    for step in steps {
        told.put(between);
        let step = items_of(told, step);
        is_settled = put_step(alloc, told, engine, is_settled, step);
        between = ",";
    }
    told.put("]");
}

/// Adds what a step tells, and whether nothing is staged behind it.
fn put_step(
    alloc: Global,
    told: &mut Told,
    engine: &mut Engine<'_, MemKeeper>,
    is_settled: bool,
    step: &[Json],
) -> bool
    requires { IsReady is_settled engine.old.held }
    ensures { IsReady result engine.new.held }
{
    let [Json::String(word), parts @ ..] = step else {
        told.refuse();
        return is_settled;
    };
    match word.as_str() {
        "stage" => put_staged(alloc, told, engine, is_settled, parts),
        "settle" | "count" => {
            put_settled(alloc, told, engine, word.as_str() == "count");
            true
        }
        "flush" if is_settled => {
            put_flushed(told, engine);
            true
        }
        "flush" => {
            told.put(NOT_ASKED);
            is_settled
        }
        "forget" => {
            engine.forget();
            told.put(DONE);
            true
        }
        word => {
            put_asked(alloc, told, engine, is_settled, word, parts);
            is_settled
        }
    }
}

/// Adds what staging edits tells, and whether nothing is staged behind it.
fn put_staged(
    alloc: Global,
    told: &mut Told,
    engine: &mut Engine<'_, MemKeeper>,
    is_settled: bool,
    list: &[Json],
) -> bool
    requires { IsReady is_settled engine.old.held }
    ensures { IsReady result engine.new.held }
{
    let schema = engine.schema();
    let given = edits(alloc, told, schema, list);
    if !do_fit(schema, given.as_slice()) || !are_low(given.as_slice()) {
        told.put(NOT_ASKED);
        return is_settled;
    }
    match engine.stage(given.as_slice()) {
        Ok(()) => {
            told.put(DONE);
            false
        }
        Err(fault) => {
            engine.forget();
            put_fault(told, &fault);
            true
        }
    }
}

/// Whether a keeper can keep the next ids behind edits.
fn are_low(edits: &[Edit]) -> bool
    ensures { IsTrue result → All (λ one. (model : ModelNo) → MakesBelow model max_next_id one) edits.now }
{
    for edit in edits {
        if !is_low(edit) {
            return false;
        }
    }
    true
}

/// Whether an edit makes no row whose id is past the greatest one that a keeper keeps.
fn is_low(edit: &Edit) -> bool
    ensures { IsTrue result → (model : ModelNo) → MakesBelow model max_next_id edit.now }
{
    match edit {
        Edit::Make { id, .. } => id.0 < i64::MAX as u64,
        _ => true,
    }
}

/// Adds what a settle tells, and where it is asked how many cells were evaluated.
fn put_settled(alloc: Global, told: &mut Told, engine: &mut Engine<'_, MemKeeper>, is_counted: bool)
    requires { IsReady false engine.old.held }
    ensures { IsReady true engine.new.held }
{
    let mut steps = Steps::new(Counted { total: 0 });
    match engine.settle(&mut steps) {
        Ok(()) => told.put(DONE),
        Err(SettleFault::Broken(broken)) => {
            engine.forget();
            put_broken(alloc, told, engine.schema(), broken);
        }
        Err(fault) => {
            engine.forget();
            put_fault(told, &fault);
        }
    }
    if is_counted {
        put_number(told, ",", steps.ledger().total);
    }
}

/// Adds what a flush tells.
fn put_flushed(told: &mut Told, engine: &mut Engine<'_, MemKeeper>)
    requires { IsReady true engine.old.held }
    ensures { IsReady true engine.new.held }
{
    match engine.flush() {
        Ok(()) => told.put(DONE),
        Err(fault) => {
            engine.forget();
            put_fault(told, &fault);
        }
    }
}
