//! Which fields read a field, each with the steps that lead from its row to that field's, found
//! by the field that is read. How they are kept may change here at will.

ghost use Rattle.std.specs.Prelude.{◌≡◌, ◌==◌, ◌++◌, ℕ, IfOk, false};
ghost use Rattle.ob_schema.specs.declared.info.Step.{Step};
ghost use Rattle.ob_trigger.specs.Readers.{readers_in, is_step, listed_at, reader_if, readers_at};

use ob_base::{NoMemory, Sequence};
use ob_schema::Step;
use std::alloc::Global;
use std::collections::BTreeMap;

/// A computed field, and the steps from its row that stand before one of its path's.
#[derive(Drop)]
pub(crate) struct Reader {
    pub(crate) computed: Step,
    pub(crate) front: Sequence<Step>,
}

/// The readers of the fields of a model, by the field's number.
pub(crate) type Fields = BTreeMap<u16, Vec<Reader>>;

/// Those of all models, by the model's number.
pub(crate) type Index = BTreeMap<u16, Fields>;

/// The readers of a field.
pub(crate) fn readers_of(index: &Index, step: Step) -> &[Reader]
    ensures { result.now ≡ readers_at index.now step }
{
    match index.get(&step.model.0) {
        Some(fields) => listed(fields, step.field.0),
        None => &[],
    }
}

/// Those of a field of a model.
fn listed(fields: &Fields, number: u16) -> &[Reader]
    ensures { result.now ≡ listed_at fields.now number }
{
    match fields.get(&number) {
        Some(list) => list.as_slice(),
        None => &[],
    }
}

/// Adds a reader of a field.
pub(crate) fn add_reader(
    alloc: Global,
    index: &mut Index,
    step: Step,
    reader: Reader,
) -> Result<(), NoMemory>
    ensures { IfOk result (λ _. (other : Step) → readers_at index.new other
        ≡ readers_at index.old other ++ reader_if (is_step step other) reader) }
{
    let mut fields = taken(alloc, index, step.model.0);
    add_to_field(alloc, &mut fields, step.field.0, reader)?;
    index.insert(step.model.0, fields)?;
    Ok(())
}

/// Takes the readers of the fields of a model out; none where there are none.
fn taken(alloc: Global, index: &mut Index, model: u16) -> Fields
    ensures fields { (field : ℕ) → listed_at result field ≡ readers_in index.old model field }
    ensures others { (other field : ℕ) → (model == other) ≡ false → readers_in index.new other field ≡ readers_in index.old other field }
{
    match index.remove(&model) {
        Some(fields) => fields,
        None => BTreeMap::new(alloc),
    }
}

/// Adds a reader of a field of a model.
fn add_to_field(
    alloc: Global,
    fields: &mut Fields,
    number: u16,
    reader: Reader,
) -> Result<(), NoMemory>
    ensures { IfOk result (λ _. (other : ℕ) → listed_at fields.new other
        ≡ listed_at fields.old other ++ reader_if (number == other) reader) }
{
    let mut list = match fields.remove(&number) {
        Some(list) => list,
        None => Vec::new(alloc),
    };
    list.push(reader)?;
    fields.insert(number, list)?;
    Ok(())
}
