//! The values of the plain fields of a row, from those that are given: what the author stamps, and
//! in a row that is made also defaults.

ghost use Rattle.std.specs.Prelude.{◌≡◌, ◌++◌, All, IfOk, IfSome, option_map};
ghost use Rattle.ob_base.specs.Times.{IsMoment};
ghost use Rattle.ob_rows.specs.Makeable.{IsMakeable};
ghost use Rattle.ob_orm.specs.NewRows as spec;
ghost use Rattle.ob_orm.specs.NewRows.{filled_value, value_for};
ghost use Rattle.ob_orm.specs.NewRowSteps.{IsTyped};
ghost use Rattle.ob_schema.specs.Fields.{HasFieldType};
ghost use Rattle.ob_schema.specs.Models.{HasField, HasModel, field_at};
ghost use Rattle.ob_tables.specs.Fitting.{AreFitIn};

use crate::making::Maker;
use crate::row_values::{default_value, push_valued};
use ob_base::{FieldNo, ModelNo, NoMemory, Sequence, Value};
use ob_rows::{is_stamp, stamp};

/// The values of the plain fields of a row, made (`made`) or changed by the author, that get one:
/// what the author stamps, else what is given, else in a row that is made the default. `given` has
/// values by the numbers of the model's fields. The caller sees to it that the registry has the model,
/// that each value is one of its field, and that the moment lies within the years 0001 to 9999.
pub fn filled(
    maker: &Maker<'_>,
    made: bool,
    model: ModelNo,
    given: &[(FieldNo, Value)],
) -> Result<Sequence<(FieldNo, Value)>, NoMemory>
    requires model { HasModel maker.now.schema.now model }
    requires moment { IsMoment maker.now.author.now }
    requires typed { All (IsTyped maker.now.schema.now model) given.now }
    ensures value { IfOk result (λ values. values ≡ spec.filled maker.entry.now.schema.now maker.entry.now.author made model given.now) }
    ensures fit { IfOk result (AreFitIn maker.entry.now.schema.now model) }
{
    let mut values = Sequence::new(maker.alloc);
    let count = maker.schema.model_info(model).fields.len();
    for index in 0..count {
        let number = FieldNo(index as u16 + 1);
        if maker.schema.info(model, number).is_plain_kept() {
            let value = filled_value(maker, made, model, number, given)?;
            push_valued(&mut values, number, value)?;
        }
    }
    Ok(values)
}

/// The value that a plain field gets, if any.
fn filled_value(
    maker: &Maker<'_>,
    made: bool,
    model: ModelNo,
    number: FieldNo,
    given: &[(FieldNo, Value)],
) -> Result<Option<Value>, NoMemory>
    requires field { HasField maker.now.schema.now model number }
    requires makeable { IfSome (field_at maker.now.schema.now model number) IsMakeable }
    requires moment { IsMoment maker.now.author.now }
    requires typed { All (IsTyped maker.now.schema.now model) given.now }
    ensures value { IfOk result (λ value. IfSome (field_at maker.entry.now.schema.now model number)
        (λ field. value ≡ filled_value maker.entry.now.schema.now maker.entry.now.author made given.now (number.0, field))) }
    ensures typed { IfOk result (λ value. IfSome value (HasFieldType (field_at maker.entry.now.schema.now model number))) }
{
    let field = maker.schema.info(model, number);
    let name = field.name.as_str();
    if is_stamp(made, name) {
        return Ok(Some(stamp(maker.author, name)));
    }
    match value_for(given, number) {
        Some(value) => Ok(Some(value.try_clone(maker.alloc)?)),
        None => default_value(maker.alloc, made, field),
    }
}

/// The value that is given for a field, by its number: the first, where several are.
pub fn value_for(given: &[(FieldNo, Value)], number: FieldNo) -> Option<&Value>
    ensures { option_map (λ value. value.now) result ≡ value_for given.now number.0 }
{
    for one in given {
        if one.0 == number {
            return Some(&one.1);
        }
    }
    None
}
