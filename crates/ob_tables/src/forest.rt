//! The tree that the rows of a model are. Rows stand by their places among the model's ids,
//! and each step up is looked up once: of steps in twice the number the step of a step. So
//! many steps as there are rows lead past every root; where they still lead to a row, it
//! stands on a circle, and each row on a circle is led to.

ghost use Rattle.std.specs.Prelude.{◌≡◌, ◌⊎◌, ◌^◌, ◌<◌, ℕ, IfOk, IfSome, OnOk, IsSome, IsSomeAnd, Some, None, length, map, option_map};
ghost use Rattle.std.specs.List.Sorted.{IsStrictlyIncreasing};
ghost use Rattle.ob_schema.specs.Models.{model_at};
ghost use Rattle.ob_tables.specs.Finding.{BreaksIn, Finds, IsOf, is_of_trees};
ghost use Rattle.ob_schema.specs.Tables.{ids_in};
ghost use Rattle.ob_tables.specs.Trees.{AreParents, AreSteps, IsAt, IsLeastPlace, LeadsInside, Names, step_of};

use crate::findings::{Findings, add_if};
use crate::tables::Tables;
use ob_base::{BrokenKind, Cell, FieldNo, ModelNo, NoMemory, RecId, Value};
use std::alloc::Global;

/// How often a step is doubled to reach the depth that a tree may have.
const DEPTH_DOUBLINGS: u32 = 6;

/// How often it is doubled from there to pass all rows that there can be.
const FAR_DOUBLINGS: u32 = 57;

/// For each place the one to which steps lead from there.
type Steps = Vec<Option<usize>>;

/// Finds the row of the least id on a circle, and that of the least id too deep.
pub(crate) fn find_in_tree(
    tables: &Tables<'_>,
    model: ModelNo,
    parent: FieldNo,
    ids: &[RecId],
    findings: &mut Findings,
) -> Result<(), NoMemory>
    requires parent { IsSomeAnd (model_at tables.now.models model) (λ info. info.parent ≡ Some parent) }
    requires ids { ids.now ≡ ids_in tables.now.tables model }
    ensures { OnOk result (Finds (BreaksIn tables.now.models tables.now.tables is_of_trees (IsOf model)) findings.old findings.new) }
{
    let parents = parents_of(tables, model, parent, ids)?;
    let deep = doubled(tables.alloc, parents, DEPTH_DOUBLINGS)?;
    let next = squared(tables.alloc, deep.as_slice())?;
    let far = doubled(tables.alloc, next, FAR_DOUBLINGS)?;
    let circled = least_led_to(far.as_slice());
    let too_deep = least_leaving(deep.as_slice(), far.as_slice());
    add_at(findings, BrokenKind::Tree, model, parent, ids, circled);
    add_at(findings, BrokenKind::Depth, model, parent, ids, too_deep);
    Ok(())
}

/// Adds that the row at a place is broken, where there is one.
fn add_at(
    findings: &mut Findings,
    kind: BrokenKind,
    model: ModelNo,
    parent: FieldNo,
    ids: &[RecId],
    place: Option<usize>,
)
    requires { IfSome place (λ at. at < length ids.now) }
    ensures { Finds (IsAt kind model parent ids.now place) findings.old findings.new }
{
    if let Some(at) = place {
        let cell = Cell {
            model,
            id: ids[at],
            field: parent,
        };
        add_if(findings, true, kind, cell);
    }
}

/// The place of the parent of each row, where that is there.
fn parents_of(
    tables: &Tables<'_>,
    model: ModelNo,
    parent: FieldNo,
    ids: &[RecId],
) -> Result<Steps, NoMemory>
    requires { ids.now ≡ ids_in tables.now.tables model }
    ensures { IfOk result (λ steps. AreParents tables.now.tables model parent ids.now steps.items) }
{
    let mut steps = Vec::new(tables.alloc);
    for id in ids {
        let cell = Cell {
            model,
            id: *id,
            field: parent,
        };
        let place = place_of(ids, tables.kept(cell));
        steps.push(place)?;
    }
    Ok(steps)
}

/// The place of the row that a value names, among these ids.
fn place_of(ids: &[RecId], value: Option<&Value>) -> Option<usize>
    requires { IsStrictlyIncreasing (map (λ id. id.0) ids.now) }
    ensures { Names ids.now (option_map (λ v. v.now) value.entry) result }
{
    match value {
        Some(named) => place_named(ids, named),
        None => None,
    }
}

fn place_named(ids: &[RecId], value: &Value) -> Option<usize>
    requires { IsStrictlyIncreasing (map (λ id. id.0) ids.now) }
    ensures { Names ids.now (Some value.now) result }
{
    match value {
        Value::Ref(id) => ids.binary_search(id).ok(),
        _ => None,
    }
}

/// Steps doubled so often.
fn doubled(alloc: Global, steps: Steps, times: u32) -> Result<Steps, NoMemory>
    requires { LeadsInside steps.items }
    ensures { IfOk result (λ doubled. AreSteps steps.items (2 ^ times) doubled.items) }
{
    let mut doubled = steps;
    for done in 0..times {
        doubled = doubled_once(alloc, doubled)?;
    }
    Ok(doubled)
}

/// Steps doubled; those that lead nowhere are their own doubles.
fn doubled_once(alloc: Global, steps: Steps) -> Result<Steps, NoMemory>
    requires { LeadsInside steps.items }
    ensures { IfOk result (λ doubled. AreSteps steps.items 2 doubled.items) }
{
    if steps.iter().all(|step| step.is_none()) {
        return Ok(steps);
    }
    squared(alloc, steps.as_slice())
}

/// Each step twice.
fn squared(alloc: Global, steps: &[Option<usize>]) -> Result<Steps, NoMemory>
    requires { LeadsInside steps.now }
    ensures { IfOk result (λ squared. AreSteps steps.now 2 squared.items) }
{
    let mut squared = Vec::new(alloc);
    for step in steps {
        let next = match *step {
            Some(place) => steps[place],
            None => None,
        };
        squared.push(next)?;
    }
    Ok(squared)
}

/// The least place to which a step leads.
fn least_led_to(steps: &[Option<usize>]) -> Option<usize>
    ensures { IsLeastPlace (λ place. (from : ℕ) × (step_of steps.now from ≡ Some place)) result }
{
    let mut least = None;
    for step in steps {
        least = least_of(least, *step);
    }
    least
}

/// The less of two places, where there are any.
fn least_of(a: Option<usize>, b: Option<usize>) -> Option<usize>
    ensures { IsLeastPlace (λ place. (a ≡ Some place) ⊎ (b ≡ Some place)) result }
{
    match (a, b) {
        (Some(x), Some(y)) => Some(x.min(y)),
        _ => a.or(b),
    }
}

/// The least place from which the first steps lead on, and the further ones don't.
fn least_leaving(near: &[Option<usize>], far: &[Option<usize>]) -> Option<usize>
    requires { length far.now ≡ length near.now }
    ensures { IsLeastPlace (λ place. IsSome (step_of near.now place) × (step_of far.now place ≡ None)) result }
{
    for (place, step) in near.iter().enumerate() {
        if step.is_some() && far[place].is_none() {
            return Some(place);
        }
    }
    None
}
