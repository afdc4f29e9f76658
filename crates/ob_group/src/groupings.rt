//! The groupings of a call, as they are written: a field, and of days and moments the period
//! behind a colon. By which fields rows can be grouped stands in `specs/GroupForms`.

ghost use Rattle.std.specs.Prelude.{◌≡◌, ◌++◌, [], map, option_map, option_to_list, All, IfOk, IfSome, None, Some, true};
ghost use Rattle.std.specs.Option.{option_map_or};
ghost use Rattle.serde_json.specs.View.{view};
ghost use Rattle.ob_call.specs.ArgumentsSteps.{given_of};
ghost use Rattle.ob_call.specs.Arguments.{is_among};
ghost use Rattle.ob_call.specs.Forms.{fields_at};
ghost use Rattle.ob_call.specs.Places.{below_steps};
ghost use Rattle.ob_group.specs.GroupForms.{can_group, first_wrong_grouping, grouping_from, grouping_of, grouping_by, groupings_fault, groupings_in, has_periods, is_groupable, period_of, text_fault};
ghost use Rattle.ob_group.specs.GroupParts.{grouping_view, text_of};
ghost use Rattle.ob_group.specs.GroupPeriods.{period_named};
ghost use Rattle.ob_query.specs.Callers.{is_first};
ghost use Rattle.ob_schema.specs.Models.{HasField, HasModel};
ghost use Rattle.ob_schema.specs.Paths.{step_at};

use crate::parted::parted;
use crate::period::{Period, period_named};
use crate::written::Written;
use ob_base::{FieldNo, ModelNo, NoMemory};
use ob_call::{Below, Given, Json};
use ob_query::{Naming, step_at};
use ob_schema::{FieldInfo, FieldType, Origin, Schema};
use std::alloc::Global;

/// A grouping: its text, the field that this names, and of days and moments the period.
#[derive(Clone, Copy)]
pub(crate) struct Grouping<'j> {
    pub(crate) text: &'j str,
    pub(crate) name: &'j str,
    pub(crate) field: FieldNo,
    pub(crate) period: Option<Period>,
}

/// Where the groupings that are given are wrong first: a list of texts, or one text, each for a
/// grouping, and none twice.
pub(crate) fn groupings_fault<'j>(
    alloc: Global,
    schema: &Schema,
    model: ModelNo,
    json: &'j Json,
) -> Result<Option<Below<'j>>, NoMemory>
    requires { HasModel schema.now model }
    ensures { IfOk result (λ told. option_map below_steps told ≡ groupings_fault (fields_at schema.now model) (view json.now)) }
{
    match json {
        Json::String(text) => Ok(text_fault(schema, model, text.as_str())),
        Json::Array(items) => first_wrong_grouping(alloc, schema, model, items.as_slice()),
        _ => Ok(Some(Below::Whole)),
    }
}

/// Whether a text stands for no grouping.
fn text_fault<'j>(schema: &Schema, model: ModelNo, text: &'j str) -> Option<Below<'j>>
    requires { HasModel schema.now model }
    ensures { option_map below_steps result ≡ text_fault (fields_at schema.now model) text.now }
{
    match grouping_of(schema, model, text) {
        Some(_) => None,
        None => Some(Below::Whole),
    }
}

/// The first item that stands for no grouping, or for one that stands before it.
fn first_wrong_grouping<'j>(
    alloc: Global,
    schema: &Schema,
    model: ModelNo,
    items: &'j [Json],
) -> Result<Option<Below<'j>>, NoMemory>
    requires { HasModel schema.now model }
    ensures { IfOk result (λ told. option_map below_steps told ≡ first_wrong_grouping (fields_at schema.now model) [] 0 (map view items.now)) }
{
    let mut earlier: Vec<Grouping<'j>> = Vec::new(alloc);
    for (number, item) in items.iter().enumerate() {
        let Some(grouping) = grouping_from(schema, model, item) else {
            return Ok(Some(Below::Item(number)));
        };
        if is_written(grouping.text, earlier.as_slice()) {
            return Ok(Some(Below::Item(number)));
        }
        earlier.push(grouping)?;
    }
    Ok(None)
}

/// Whether a grouping of this text is among some.
pub(crate) fn is_written(text: &str, groupings: &[Grouping<'_>]) -> bool
    ensures { result ≡ is_among text.now (map text_of groupings.now) }
{
    for grouping in groupings {
        if grouping.text == text {
            return true;
        }
    }
    false
}

/// The groupings for which items stand.
pub(crate) fn groupings_in<'j>(
    alloc: Global,
    schema: &Schema,
    model: ModelNo,
    items: &'j [Json],
) -> Result<Vec<Grouping<'j>>, NoMemory>
    requires { HasModel schema.now model }
    ensures groupings { IfOk result (λ groupings. map grouping_view groupings.items ≡ groupings_in (fields_at schema.now model) (map view items.now)) }
    ensures there { IfOk result (λ groupings. All (λ grouping. HasField schema.now model grouping.field) groupings.items) }
{
    let mut groupings = Vec::new(alloc);
    for item in items {
        add_grouping(&mut groupings, grouping_from(schema, model, item))?;
    }
    Ok(groupings)
}

/// Adds a grouping, if there is one.
fn add_grouping<'j>(
    groupings: &mut Vec<Grouping<'j>>,
    grouping: Option<Grouping<'j>>,
) -> Result<(), NoMemory>
    ensures { IfOk result (λ _. groupings.new.items ≡ groupings.old.items ++ option_to_list grouping.entry) }
{
    if let Some(grouping) = grouping {
        groupings.push(grouping)?;
    }
    Ok(())
}

/// The grouping for which a value stands.
fn grouping_from<'j>(schema: &Schema, model: ModelNo, json: &'j Json) -> Option<Grouping<'j>>
    requires { HasModel schema.now model }
    ensures grouping { option_map grouping_view result ≡ grouping_from (fields_at schema.now model) (view json.now) }
    ensures there { IfSome result (λ grouping. HasField schema.now model grouping.field) }
{
    grouping_of(schema, model, json.as_str()?)
}

/// The grouping for which a text stands.
pub(crate) fn grouping_of<'j>(
    schema: &Schema,
    model: ModelNo,
    text: &'j str,
) -> Option<Grouping<'j>>
    requires { HasModel schema.now model }
    ensures grouping { option_map grouping_view result ≡ grouping_of (fields_at schema.now model) text.now }
    ensures there { IfSome result (λ grouping. HasField schema.now model grouping.field) }
{
    match parted(text, ':') {
        Some((name, part)) => grouping_by(schema, model, text, name, Some(part)),
        None => grouping_by(schema, model, text, text, None),
    }
}

/// The grouping of a text by the name in it and what may stand behind the colon.
fn grouping_by<'j>(
    schema: &Schema,
    model: ModelNo,
    text: &'j str,
    name: &'j str,
    part: Option<&str>,
) -> Option<Grouping<'j>>
    requires { HasModel schema.now model }
    ensures grouping { option_map grouping_view result
        ≡ grouping_by (fields_at schema.now model) text.now name.now (option_map (λ part. part.now) part.entry) }
    ensures there { IfSome result (λ grouping. HasField schema.now model grouping.field) }
{
    let field = schema.field(model, name)?;
    let info = schema.info(model, field);
    if !can_group(info) {
        return None;
    }
    let period = period_of(info.field_type, part)?;
    Some(Grouping {
        text,
        name,
        field,
        period,
    })
}

/// The period of a grouping by a field, if it is of days or moments: months where none is said.
/// None where a period is said that isn't one, or of another field.
fn period_of(field_type: FieldType, part: Option<&str>) -> Option<Option<Period>>
    ensures { result ≡ period_of field_type (option_map (λ part. part.now) part.entry) }
{
    if !has_periods(field_type) {
        return match part {
            Some(_) => None,
            None => Some(None),
        };
    }
    match part {
        Some(name) => Some(Some(period_named(name)?)),
        None => Some(Some(Period::Month)),
    }
}

/// Whether values of a type lie in periods.
fn has_periods(field_type: FieldType) -> bool
    ensures { result ≡ has_periods field_type }
{
    matches!(field_type, FieldType::Date | FieldType::Datetime)
}

/// Whether rows can be grouped by a field.
fn can_group(field: &FieldInfo) -> bool
    ensures { result ≡ can_group field.now }
{
    is_groupable(field.field_type) && field.store && !matches!(field.origin, Origin::Id)
}

/// Whether rows can be grouped by values of a type.
fn is_groupable(field_type: FieldType) -> bool
    ensures { result ≡ is_groupable field_type }
{
    !field_type.is_list() && !matches!(field_type, FieldType::Text)
}

/// What groupings name, also such as aren't used.
pub(crate) fn groupings_naming(
    alloc: Global,
    model: ModelNo,
    given: &Option<Given<'_>>,
    written: &Written<'_>,
) -> Result<Naming, NoMemory>
    ensures positioned { IfOk result (λ naming. naming.positioned ≡ is_first (option_map given_of given.now)) }
    ensures fields { IfOk result (λ naming. naming.fields.items ≡ map (λ g. step_at model g.field) written.now.groupings.items) }
{
    let mut fields = Vec::new(alloc);
    for grouping in written.groupings.as_slice() {
        fields.push(step_at(model, grouping.field))?;
    }
    Ok(Naming::of(given, fields))
}
