//! What may be wrong with the keys of a model as a whole: its parent field, its unique sets,
//! its order, and the number of its fields.

ghost use Rattle.std.specs.Prelude.{◌≡◌, ◌≢◌, ◌≤◌, ◌↔◌, [], All, Any, IfOk, IsSome, IsSomeAnd, IsTrue, Some};
ghost use Rattle.ob_registry.specs.Faults.{IsParentField, is_mirror, is_plain, is_plain_kept, names_of_terms, orders_rows};
ghost use Rattle.ob_definition.specs.Findings.{Adds, Tells};
ghost use Rattle.ob_definition.specs.Members.{members_of, model_at, named};
ghost use Rattle.ob_registry.specs.ModelFields.{member_of, named_in};
ghost use Rattle.ob_definition.specs.Orders.{terms_of};
ghost use Rattle.ob_registry.specs.Telling.{AreNamesWrong, AreSetFaults, IsKeyFault, IsOrderFault, IsOrderWrong, IsParentFault, IsParentWrong, IsSetWrong};

use crate::model::{Member, Model, Role};
use crate::models::Models;
use ob_base::limits::MAX_FIELDS;
use ob_base::{ModelNo, NoMemory};
use ob_definition::{
    FieldDef, First, GivenOrder, OrderEntry, UniqueSet, Wrong, is_computed, is_set, order_entries,
};
use std::alloc::Global;

/// Finds what is wrong with a model as a whole.
pub(crate) fn model_faults(
    alloc: Global,
    models: &Models<'_>,
    number: ModelNo,
    first: &mut First,
) -> Result<(), NoMemory>
    requires { IsSome (model_at models.now number.0) }
    ensures { IfOk result (λ _. IsSomeAnd (model_at models.now number.0)
        (λ g. Adds (IsKeyFault models.now number g) first.old first.new)) }
{
    let model = models.model(number);
    let has_many = model.named > MAX_FIELDS;
    first.at_entry(last_entry(model), has_many.then_some(Wrong::Limit))?;
    parent_faults(models, number, first)?;
    set_faults(model, first)?;
    order_faults(alloc, model, first)?;
    Ok(())
}

/// Finds what is wrong with a model's parent field.
fn parent_faults(models: &Models<'_>, number: ModelNo, first: &mut First) -> Result<(), NoMemory>
    requires { IsSome (model_at models.now number.0) }
    ensures { IfOk result (λ _. IsSomeAnd (model_at models.now number.0)
        (λ g. Adds (IsParentFault models.now number g) first.old first.new)) }
{
    let gathered = models.model(number).gathered;
    if let Some(parent) = gathered.parent {
        first.at_entry(gathered.entry, wrong_parent(models, number, parent))?;
    }
    Ok(())
}

/// Finds what is wrong with a model's unique sets.
fn set_faults(model: &Model<'_>, first: &mut First) -> Result<(), NoMemory>
    ensures { IfOk result (λ _. Adds
        (AreSetFaults (named_in model.now.named model.now.members.items) model.now.gathered.now.unique)
        first.old first.new) }
{
    let gathered = model.gathered;
    for set in gathered.unique.iter() {
        first.at_entry(set.entry, wrong_set(model, set))?;
    }
    Ok(())
}

/// Finds what is wrong with a model's order.
fn order_faults(alloc: Global, model: &Model<'_>, first: &mut First) -> Result<(), NoMemory>
    ensures { IfOk result (λ _. Adds
        (IsOrderFault (named_in model.now.named model.now.members.items) model.now.gathered.now.order)
        first.old first.new) }
{
    let gathered = model.gathered;
    match gathered.order {
        Some(order) => first.at_entry(order.entry, wrong_order(alloc, model, order)?),
        None => Ok(()),
    }
}

/// The last entry that gives a model a field with a name.
fn last_entry(model: &Model<'_>) -> u32
    ensures last { All (λ m. m.entry ≤ result) (named_in model.now.named model.now.members.items) }
    ensures among { named_in model.now.named model.now.members.items ≢ []
        → Any (λ m. m.entry ≡ result) (named_in model.now.named model.now.members.items) }
{
    let mut last = 0;
    for member in model.members[..model.named].iter() {
        last = last.max(member.entry);
    }
    last
}

/// What is wrong with the field that makes a model's rows a tree.
fn wrong_parent(models: &Models<'_>, number: ModelNo, name: &str) -> Option<Wrong>
    requires { IsSome (model_at models.now number.0) }
    ensures { IsSomeAnd (model_at models.now number.0)
        (λ g. Tells (IsParentWrong models.now number (named (members_of models.now g) name.now)) result) }
{
    match models.model(number).find(name) {
        None => Some(Wrong::Field),
        Some(member) if leads_to(models, number, member) => None,
        Some(_) => Some(Wrong::Kind),
    }
}

/// Whether a field is a plain many2one to rows of this model.
pub(crate) fn leads_to(models: &Models<'_>, number: ModelNo, member: &Member<'_>) -> bool
    ensures { IsTrue result ↔ IsParentField models.now (Some number) (member_of member.now) }
{
    is_plain(member)
        && member.def.field_type.is_many2one()
        && models.relation(member.def) == Some(number)
}

/// Whether calls give a field's value in the model's own rows.
pub(crate) fn is_plain(member: &Member<'_>) -> bool
    ensures { result ≡ is_plain (member_of member.now) }
{
    matches!(member.role, Role::Own) && !is_computed(member.def) && member.def.name.as_str() != "id"
}

/// Whether a row keeps a plain field.
fn is_plain_kept(member: &Member<'_>) -> bool
    ensures { result ≡ is_plain_kept (member_of member.now) }
{
    is_plain(member) && !member.def.field_type.is_one2many() && !is_mirror(member.def)
}

/// Whether a field repeats the rows of another. Without that type the key is a fault of the field.
fn is_mirror(def: &FieldDef) -> bool
    ensures { result ≡ is_mirror def.now }
{
    def.field_type.is_many2many() && def.mirror.is_some()
}

/// What is wrong with a set of fields that no two rows share.
fn wrong_set(model: &Model<'_>, set: &UniqueSet<'_>) -> Option<Wrong>
    ensures { Tells (IsSetWrong (named_in model.now.named model.now.members.items) set.now.names.now) result }
{
    let mut is_kept = !set.names.is_empty();
    for name in set.names {
        let member = match model.find(name.as_str()) {
            Some(member) => member,
            None => return Some(Wrong::Field),
        };
        is_kept = is_kept && is_plain_kept(member);
    }
    if is_kept { None } else { Some(Wrong::Kind) }
}

/// What is wrong with an order.
fn wrong_order(
    alloc: Global,
    model: &Model<'_>,
    order: GivenOrder<'_>,
) -> Result<Option<Wrong>, NoMemory>
    ensures { IfOk result
        (Tells (IsOrderWrong (named_in model.now.named model.now.members.items) order.entry.text.now)) }
{
    let Some(entries) = order_entries(alloc, order.text)? else {
        return Ok(Some(Wrong::Kind));
    };
    Ok(wrong_entries(model, entries.as_slice()))
}

/// What is wrong with the entries of an order.
fn wrong_entries(model: &Model<'_>, entries: &[OrderEntry<'_>]) -> Option<Wrong>
    ensures { Tells (AreNamesWrong (named_in model.now.named model.now.members.items)
        (λ m. orders_rows m.def) (names_of_terms (terms_of entries.now))) result }
{
    let mut is_ordered = true;
    for entry in entries {
        let member = match model.find(entry.name) {
            Some(member) => member,
            None => return Some(Wrong::Field),
        };
        is_ordered = is_ordered && orders_rows(member.def);
    }
    if is_ordered { None } else { Some(Wrong::Kind) }
}

/// Whether rows can be ordered by a field: it is no list, and a computed one is kept. A
/// delegated field goes by its parent's.
fn orders_rows(def: &FieldDef) -> bool
    ensures { result ≡ orders_rows def.now }
{
    !def.field_type.is_list() && (!is_computed(def) || is_set(def.store))
}
