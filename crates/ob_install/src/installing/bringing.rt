//! The values that a row which a module brings gives its fields, by the ids of the rows before it.
//! A further kind of value that a module may give gets its meaning here, and in `brought`.

ghost use Rattle.std.specs.Prelude.{◌≡◌, ◌<◌, All, IfOk, length, map};
ghost use Rattle.ob_install.specs.Install as spec;
ghost use Rattle.ob_install.specs.InstallSteps.{NamesAmong};

use ob_base::{FieldNo, NoMemory, RecId, RefList, Value};
use ob_schema::PresetValue;
use std::alloc::Global;
use std::collections::BTreeSet;

/// What these values give, by the numbers of fields.
pub(crate) fn given_by(
    alloc: Global,
    ids: &[RecId],
    values: &[(FieldNo, PresetValue)],
) -> Result<Vec<(FieldNo, Value)>, NoMemory>
    requires { All (λ given. NamesAmong (length ids.now) given.1) values.now }
    ensures { IfOk result (λ given. given.items ≡ spec.given_by (map (λ id. id.0) ids.now) values.now) }
{
    let mut given = Vec::new(alloc);
    for one in values {
        given.push((one.0, brought(alloc, ids, &one.1)?))?;
    }
    Ok(given)
}

/// The value that is brought.
fn brought(alloc: Global, ids: &[RecId], value: &PresetValue) -> Result<Value, NoMemory>
    requires { NamesAmong (length ids.now) value.now }
    ensures { IfOk result (λ own. own ≡ spec.brought (map (λ id. id.0) ids.now) value.now) }
{
    match value {
        PresetValue::Plain(own) => own.try_clone(alloc),
        PresetValue::Row(number) => Ok(Value::Ref(ids[*number as usize])),
        PresetValue::Rows(numbers) => {
            Ok(Value::Refs(ids_among(alloc, ids, numbers.as_slice())?))
        }
    }
}

/// The ids of the rows of these numbers.
fn ids_among(alloc: Global, ids: &[RecId], numbers: &[u32]) -> Result<RefList, NoMemory>
    requires { All (λ n. n < length ids.now) numbers.now }
    ensures { IfOk result (λ list. list ≡ spec.ids_among (map (λ id. id.0) ids.now) numbers.now) }
{
    let mut found = BTreeSet::new(alloc);
    for number in numbers {
        found.insert(ids[*number as usize].0)?;
    }
    listed(alloc, &found)
}

/// Ids as a list.
fn listed(alloc: Global, found: &BTreeSet<u64>) -> Result<RefList, NoMemory>
    ensures { IfOk result (λ list. list ≡ map (λ id. record { 0 = id }) found.now.keys) }
{
    let mut list = RefList::new(alloc);
    for id in found {
        list.push(RecId(*id))?;
    }
    Ok(list)
}
