//! A field of the registry from its definition, with every name resolved. A new key of the
//! module format gets its meaning here.

ghost use Rattle.std.specs.Prelude.{◌≡◌, [], IfOk, IfSome, unwrap_or};
ghost use Rattle.ob_base.specs.declared.id.ModelNo.{ModelNo};
ghost use Rattle.ob_registry.specs.Building.{IsPlaced};
ghost use Rattle.ob_schema.specs.Built.{IsFieldOf, IsOrigin};
ghost use Rattle.ob_definition.specs.Gathered.{Gathered};
ghost use Rattle.ob_definition.specs.Values.{IsNative};
ghost use Rattle.ob_registry.specs.ModelFields.{member_of};
ghost use Rattle.ob_registry.specs.Modelling.{named_back};

use crate::formulas::{DraftFormula, formula_from};
use crate::model::{Member, Model, Role};
use crate::models::Models;
use ob_base::{FieldNo, NoMemory, Sequence, Value, Word};
use ob_definition::{Choice, FieldDef, OnDelete, is_computed, is_set};
use ob_schema::{FieldInfo, Origin};
use std::alloc::Global;

/// A field with its names resolved, and with its formula where it has one. A delegated field
/// has what the parent's field has.
pub(crate) fn field_info(
    alloc: Global,
    models: &Models<'_>,
    model: &Model<'_>,
    member: &Member<'_>,
    formula: Option<DraftFormula>,
) -> Result<FieldInfo, NoMemory>
    ensures native { IfOk result (λ info. IfSome info.default IsNative) }
    ensures of { IfOk result (λ info. (g : Gathered) (number : ModelNo) (place : FieldNo)
        → IsPlaced models.now model.now (member_of member.now) formula g number place
        → IsFieldOf (record { models = models.now; number = number; member = member_of member.now }) g place info) }
{
    let field = member.def;
    Ok(FieldInfo {
        name: field.name.try_clone(alloc)?,
        field_type: field.field_type,
        origin: origin_of(models, model, member, formula),
        string: string_of(alloc, field)?,
        required: is_set(field.required),
        default: default_of(alloc, field)?,
        store: !is_computed(field) || is_set(field.store),
        recursive: is_set(field.recursive),
        relation: models.relation(field),
        inverse: back_number(models, field, &field.inverse),
        mirror: back_number(models, field, &field.mirror),
        ondelete: field.ondelete.unwrap_or(OnDelete::SetNull),
        selection: selection_of(alloc, field)?,
        groups: groups_of(alloc, field)?,
        managed: is_set(field.managed),
        fixed: is_set(field.fixed),
        secret: is_set(field.secret),
    })
}

/// Where a field's value comes from.
fn origin_of(
    models: &Models<'_>,
    model: &Model<'_>,
    member: &Member<'_>,
    formula: Option<DraftFormula>,
) -> Origin
    ensures { (g : Gathered) (number : ModelNo) (place : FieldNo)
        → IsPlaced models.now model.now (member_of member.now) formula g number place
        → IsOrigin (record { models = models.now; number = number; member = member_of member.now }) g place result }
{
    if let Role::Delegated(link) = member.role {
        if let Some(delegation) = models.delegation(model, link, member.def) {
            return Origin::Delegated(delegation);
        }
    }
    match formula_from(formula) {
        Some(formula) => Origin::Computed(formula),
        None if member.def.name.as_str() == "id" => Origin::Id,
        None => Origin::Plain,
    }
}

/// The number of the field back that a key names, among the fields of the relation's model.
fn back_number(models: &Models<'_>, field: &FieldDef, key: &Option<Word>) -> Option<FieldNo>
    ensures { result ≡ named_back models.now field.now key.now }
{
    let name = key.as_ref()?;
    let target = models.relation(field)?;
    models.model(target).number(name.as_str())
}

/// The words that people see; the name where they aren't given.
fn string_of(alloc: Global, field: &FieldDef) -> Result<Word, NoMemory>
    ensures { IfOk result (λ string. string ≡ unwrap_or field.now.string field.now.name) }
{
    match &field.string {
        Some(string) => string.try_clone(alloc),
        None => field.name.try_clone(alloc),
    }
}

/// A copy of the default.
fn default_of(alloc: Global, field: &FieldDef) -> Result<Option<Value>, NoMemory>
    ensures same { IfOk result (λ default. default ≡ field.now.default) }
    ensures native { IfOk result (λ default. IfSome default IsNative) }
{
    match &field.default {
        Some(value) => Ok(Some(same_constant(alloc, value)?)),
        None => Ok(None),
    }
}

/// The same constant again: by their types an integer fits 64 bits and a text is UTF-8.
fn same_constant(alloc: Global, value: &Value) -> Result<Value, NoMemory>
    ensures same { IfOk result (λ constant. constant ≡ value.now) }
    ensures native { IfOk result IsNative }
{
    match value {
        Value::Int(number) => Ok(Value::Int(*number)),
        Value::Word(word) => Ok(Value::Word(Word::from_text(alloc, word.as_str())?)),
        _ => value.try_clone(alloc),
    }
}

/// A copy of the values of a selection.
fn selection_of(alloc: Global, field: &FieldDef) -> Result<Sequence<Choice>, NoMemory>
    ensures { IfOk result (λ choices. choices ≡ unwrap_or field.now.selection []) }
{
    match &field.selection {
        Some(choices) => same_choices(alloc, choices.as_slice()),
        None => Ok(Sequence::new(alloc)),
    }
}

/// The same choices again.
fn same_choices(alloc: Global, own: &[Choice]) -> Result<Sequence<Choice>, NoMemory>
    ensures { IfOk result (λ choices. choices ≡ own.now) }
{
    let mut choices = Sequence::new(alloc);
    for choice in own {
        choices.push(Choice {
            key: choice.key.try_clone(alloc)?,
            label: choice.label.try_clone(alloc)?,
        })?;
    }
    Ok(choices)
}

/// A copy of the names of the groups that may see the field.
fn groups_of(alloc: Global, field: &FieldDef) -> Result<Sequence<Word>, NoMemory>
    ensures { IfOk result (λ groups. groups ≡ unwrap_or field.now.groups []) }
{
    match &field.groups {
        Some(groups) => same_words(alloc, groups.as_slice()),
        None => Ok(Sequence::new(alloc)),
    }
}

/// The same words again.
fn same_words(alloc: Global, own: &[Word]) -> Result<Sequence<Word>, NoMemory>
    ensures { IfOk result (λ words. words ≡ own.now) }
{
    let mut words = Sequence::new(alloc);
    for word in own {
        words.push(word.try_clone(alloc)?)?;
    }
    Ok(words)
}
