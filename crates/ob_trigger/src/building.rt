//! The index of readers from a registry: each step of each path of each computed field. What
//! more a formula comes to read is added here.

ghost use Rattle.std.specs.Prelude.{◌≡◌, ◌≤◌, IfOk, IsSome, option_map};
ghost use Rattle.ob_base.specs.declared.id.FieldNo.{FieldNo};
ghost use Rattle.ob_schema.specs.Models.{field_at};
ghost use Rattle.ob_trigger.specs.Readers.{AddsReaders, DependsBehind, IsReaderIndex, IsReaderOf, IsStepBehind, formula_giving};

use crate::index::{Index, Reader, add_reader};
use ob_base::limits::MAX_MODELS;
use ob_base::{FieldNo, ModelNo, NoMemory, Sequence};
use ob_schema::{FieldInfo, Formula, Origin, Schema, Step};
use std::alloc::Global;
use std::collections::BTreeMap;

/// The readers of all fields of a registry.
pub(crate) fn index_of(alloc: Global, schema: &Schema) -> Result<Index, NoMemory>
    ensures { IfOk result (IsReaderIndex schema.now) }
{
    schema.parts_fit_together();
    let mut index = BTreeMap::new(alloc);
    for place in 0..MAX_MODELS as u16 {
        add_model(alloc, schema, ModelNo(place + 1), &mut index)?;
    }
    Ok(index)
}

/// Adds the computed fields of a model, where there is one, to the readers of what they read.
fn add_model(
    alloc: Global,
    schema: &Schema,
    model: ModelNo,
    index: &mut Index,
) -> Result<(), NoMemory>
    ensures { IfOk result (λ _. AddsReaders index.old index.new (λ step reader. (reader.computed.model ≡ model) × IsReaderOf schema.now step reader)) }
{
    let count = last_field(schema, model);
    for place in 0..count {
        let computed = Step {
            model,
            field: FieldNo(place + 1),
        };
        add_field(alloc, schema, computed, index)?;
    }
    Ok(())
}

/// The number of the last field of a model; 0 where there is no such model.
pub(crate) fn last_field(schema: &Schema, model: ModelNo) -> u16
    ensures { (field : FieldNo) → IsSome (field_at schema.now model field) → field.0 ≤ result }
{
    let Some(info) = schema.find_model(model) else {
        return 0;
    };
    schema.parts_fit_together();
    (info.fields.len() + info.hidden.len()) as u16
}

/// Adds a field, where it is there and computed, to the readers of what it reads.
fn add_field(
    alloc: Global,
    schema: &Schema,
    computed: Step,
    index: &mut Index,
) -> Result<(), NoMemory>
    ensures { IfOk result (λ _. AddsReaders index.old index.new (λ step reader. (reader.computed ≡ computed) × IsReaderOf schema.now step reader)) }
{
    let Some(info) = schema.find_field(computed.model, computed.field) else {
        return Ok(());
    };
    let Some(formula) = formula_of(info) else {
        return Ok(());
    };
    add_formula(alloc, computed, formula, index)?;
    Ok(())
}

/// The formula of a computed field.
fn formula_of(info: &FieldInfo) -> Option<&Formula>
    ensures { option_map (λ formula. formula.now) result ≡ formula_giving info.now.origin }
{
    match &info.origin {
        Origin::Computed(formula) => Some(formula),
        Origin::Id => None,
        Origin::Plain => None,
        Origin::Delegated(_) => None,
    }
}

/// Adds a computed field to the readers of each step of its formula's paths.
fn add_formula(
    alloc: Global,
    computed: Step,
    formula: &Formula,
    index: &mut Index,
) -> Result<(), NoMemory>
    ensures { IfOk result (λ _. AddsReaders index.old index.new (λ step reader. (reader.computed ≡ computed) × DependsBehind formula.now reader.front step)) }
{
    for path in formula.depends.as_slice() {
        add_path(alloc, computed, path.steps.as_slice(), index)?;
    }
    Ok(())
}

/// Adds a computed field to the readers of each of some steps.
fn add_path(
    alloc: Global,
    computed: Step,
    steps: &[Step],
    index: &mut Index,
) -> Result<(), NoMemory>
    ensures { IfOk result (λ _. AddsReaders index.old index.new (λ step reader. (reader.computed ≡ computed) × IsStepBehind steps.now reader.front step)) }
{
    for place in 0..steps.len() {
        let front = copied(alloc, &steps[..place])?;
        add_reader(alloc, index, steps[place], Reader { computed, front })?;
    }
    Ok(())
}

/// Steps as a list of their own.
fn copied(alloc: Global, steps: &[Step]) -> Result<Sequence<Step>, NoMemory>
    ensures { IfOk result (λ list. list ≡ steps.now) }
{
    Ok(Sequence::from_vec(steps.to_vec(alloc)?))
}
