//! What may be wrong with the keys of a field: its relation, the field back, and whether its
//! keys fit. A new key of a field gets its function here.

ghost use Rattle.std.specs.Prelude.{◌≡◌, ◌↔◌, ◌&&◌, IfOk, IsTrue, not};
ghost use Rattle.ob_registry.specs.Faults.{HasUnknownRelation, LeadsBack};
ghost use Rattle.ob_definition.specs.Findings.{Adds, Tells};
ghost use Rattle.ob_definition.specs.Members.{is_own};
ghost use Rattle.ob_registry.specs.ModelFields.{member_of};
ghost use Rattle.ob_definition.specs.Names.{is_field_name};
ghost use Rattle.ob_registry.specs.Telling.{IsBackWrong, IsFieldKeyFault};

use crate::model::{Member, Role};
use crate::model_faults::is_plain;
use crate::models::Models;
use ob_base::{ModelNo, NoMemory, Word};
use ob_definition::{FieldType, First, Wrong, fits, is_field_name};

/// Finds what is wrong with the keys of a field that isn't delegated.
pub(crate) fn field_faults(
    models: &Models<'_>,
    number: ModelNo,
    member: &Member<'_>,
    first: &mut First,
) -> Result<(), NoMemory>
    ensures { IfOk result (λ _. Adds (IsFieldKeyFault
        (record { models = models.now; number = number; member = member_of member.now })) first.old first.new) }
{
    let def = member.def;
    let name = def.name.as_str();
    let entry = member.entry;
    let has_no_model = has_unknown_relation(models, number, member);
    first.at_field(entry, name, has_no_model.then_some(Wrong::Model))?;
    let is_wrong = !fits(def) || has_wrong_name(member);
    first.at_field(entry, name, is_wrong.then_some(Wrong::Kind))?;
    let wrong = wrong_back(models, number, member, &def.inverse, FieldType::Many2one);
    first.at_field(entry, name, wrong)?;
    let wrong = wrong_back(models, number, member, &def.mirror, FieldType::Many2many);
    first.at_field(entry, name, wrong)?;
    Ok(())
}

/// Whether the name is of another form; a hidden field's has none.
fn has_wrong_name(member: &Member<'_>) -> bool
    ensures { result ≡ (is_own (member_of member.now).role && not (is_field_name member.now.def.now.name)) }
{
    matches!(member.role, Role::Own) && !is_field_name(member.def.name.as_str())
}

/// Whether the relation is to a model that nobody declares.
fn has_unknown_relation(models: &Models<'_>, number: ModelNo, member: &Member<'_>) -> bool
    ensures { IsTrue result ↔ HasUnknownRelation (record { models = models.now; number = number; member = member_of member.now }) }
{
    let def = member.def;
    def.field_type.is_relation() && def.relation.is_some() && models.relation(def).is_none()
}

/// What is wrong with the field back that a key names, in the relation's model: it isn't
/// there, or it is another than a plain one of that type to this model that the row keeps.
fn wrong_back(
    models: &Models<'_>,
    number: ModelNo,
    member: &Member<'_>,
    key: &Option<Word>,
    field_type: FieldType,
) -> Option<Wrong>
    ensures { Tells (IsBackWrong (record { models = models.now; number = number; member = member_of member.now }) key.now field_type) result }
{
    let name = key.as_ref()?;
    let target = models.relation(member.def)?;
    match models.model(target).find(name.as_str()) {
        None => Some(Wrong::Field),
        Some(back) if leads_back(models, number, back, field_type) => None,
        Some(_) => Some(Wrong::Inverse),
    }
}

/// Whether a field is a plain one of this type to this model, and no mirror itself.
fn leads_back(
    models: &Models<'_>,
    number: ModelNo,
    back: &Member<'_>,
    field_type: FieldType,
) -> bool
    ensures { IsTrue result ↔ LeadsBack models.now number field_type (member_of back.now) }
{
    is_plain(back)
        && back.def.field_type == field_type
        && models.relation(back.def) == Some(number)
        && back.def.mirror.is_none()
}
