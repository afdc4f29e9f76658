//! The registry of models against which nothing stands: its models, each with its fields by
//! number. What a field is made of stands in `field_building`.

ghost use Rattle.std.specs.List.{AllZip};
ghost use Rattle.std.specs.Prelude.{◌≡◌, ◌++◌, All, IfOk, Some, length, map};
ghost use Rattle.ob_base.specs.declared.id.ModelNo.{ModelNo};
ghost use Rattle.ob_registry.specs.Building.{AreFieldsOf, AreNumbers, ArePlaced, AreResolved, HasNativeDefault, HasNativeDefaults, IsResolved, parent_found};
ghost use Rattle.ob_schema.specs.Built.{IsModelOf, given_terms};
ghost use Rattle.ob_definition.specs.ByName.{given_order, sets_of};
ghost use Rattle.ob_registry.specs.Faults.{HasUnknown, names_of_terms};
ghost use Rattle.ob_definition.specs.Gathered.{Gathered};
ghost use Rattle.ob_registry.specs.Graphs.{AreFormulas, HaveStrata};
ghost use Rattle.ob_definition.specs.Members.{links_of, model_number, number_named};
ghost use Rattle.ob_registry.specs.ModelFields.{named_in};
ghost use Rattle.ob_registry.specs.Modelling.{IsModelled};
ghost use Rattle.ob_schema.specs.Models.{IsRegistry};
ghost use Rattle.ob_registry.specs.RegistryOf.{IsRegistryOf};

use crate::field_building::field_info;
use crate::formulas::DraftFormula;
use crate::model::Model;
use crate::models::Models;
use crate::strata::Formulas;
use ob_base::{FieldNo, NoMemory, Sequence, Word};
use ob_definition::{GivenOrder, Inherits, UniqueSet, order_entries};
use ob_schema::{FieldInfo, ModelInfo, OrderTerm, ParentInfo, Schema};
use std::alloc::Global;

/// The registry of models, with their formulas.
pub(crate) fn registry(
    alloc: Global,
    models: &Models<'_>,
    formulas: Formulas,
) -> Result<Schema, NoMemory>
    requires resolved { AreResolved models.now }
    requires formulas { AreFormulas models.now formulas.items }
    requires strata { HaveStrata models.now formulas.items }
    ensures built { IfOk result (AllZip (IsModelOf models.now) models.now) }
    ensures sound { IfOk result IsRegistry }
{
    let infos = infos_of(alloc, models, formulas)?;
    Schema::from_models(alloc, infos)
}

/// The models of the registry by number, with their formulas.
fn infos_of(
    alloc: Global,
    models: &Models<'_>,
    formulas: Formulas,
) -> Result<Sequence<ModelInfo>, NoMemory>
    requires resolved { AreResolved models.now }
    requires formulas { AreFormulas models.now formulas.items }
    requires strata { HaveStrata models.now formulas.items }
    ensures of { IfOk result (AllZip (IsModelOf models.now) models.now) }
    ensures places { IfOk result (IsRegistryOf models.now) }
{
    let list = models.list.as_slice();
    let mut infos = Sequence::new(alloc);
    let mut place = 0;
    for own in formulas {
        let model = &list[place];
        infos.push(model_info(alloc, models, model, own)?)?;
        place += 1;
    }
    Ok(infos)
}

/// A model of the registry.
fn model_info(
    alloc: Global,
    models: &Models<'_>,
    model: &Model<'_>,
    formulas: Vec<Option<DraftFormula>>,
) -> Result<ModelInfo, NoMemory>
    requires { length formulas.items ≡ length model.now.members.items }
    ensures native { IfOk result HasNativeDefaults }
    ensures of { IfOk result (λ info. (g : Gathered) (number : ModelNo)
        → ArePlaced models.now model.now formulas.items g number
        → model_number models.now g.name ≡ Some number
        → IsModelled models.now g model.now → IsResolved models.now g
        → IsModelOf models.now g info) }
{
    let gathered = model.gathered;
    let (fields, hidden) = fields_of(alloc, models, model, formulas)?;
    Ok(ModelInfo {
        name: Word::from_text(alloc, gathered.name)?,
        fields,
        hidden,
        inherits: parents_of(alloc, models, model)?,
        parent: match gathered.parent {
            Some(name) => model.number(name),
            None => None,
        },
        unique: unique_sets(alloc, model, gathered.unique.as_slice())?,
        order: order_of(alloc, model, gathered.order)?,
        managed: gathered.managed,
    })
}

/// The fields of a model by number: the named ones, and the hidden ones behind them.
fn fields_of(
    alloc: Global,
    models: &Models<'_>,
    model: &Model<'_>,
    formulas: Vec<Option<DraftFormula>>,
) -> Result<(Sequence<FieldInfo>, Sequence<FieldInfo>), NoMemory>
    requires { length formulas.items ≡ length model.now.members.items }
    ensures named { IfOk result (λ both. length both.0 ≡ model.now.named) }
    ensures all { IfOk result (λ both. length (both.0 ++ both.1) ≡ length model.now.members.items) }
    ensures fields { IfOk result (λ both. (g : Gathered) (number : ModelNo)
        → ArePlaced models.now model.now formulas.items g number
        → AreFieldsOf models.now model.now g number (both.0 ++ both.1)) }
    ensures native { IfOk result (λ both. All HasNativeDefault (both.0 ++ both.1)) }
{
    let mut fields = Sequence::new(alloc);
    let mut hidden = Sequence::new(alloc);
    let mut place = 0;
    for formula in formulas {
        let member = &model.members[place];
        let info = field_info(alloc, models, model, member, formula)?;
        if place < model.named {
            fields.push(info)?;
        } else {
            hidden.push(info)?;
        }
        place += 1;
    }
    Ok((fields, hidden))
}

/// The parents of a model.
fn parents_of(
    alloc: Global,
    models: &Models<'_>,
    model: &Model<'_>,
) -> Result<Sequence<ParentInfo>, NoMemory>
    ensures links { IfOk result (λ parents. (g : Gathered) → IsModelled models.now g model.now
        → map (λ i. Some i.link) parents
        ≡ map (λ i. number_named models.now g i.link) (links_of models.now g)) }
    ensures models { IfOk result (λ parents. (g : Gathered) → IsModelled models.now g model.now
        → map (λ i. Some i.model) parents
        ≡ map (λ i. model_number models.now i.model) (links_of models.now g)) }
{
    let mut parents = Sequence::new(alloc);
    for link in model.links {
        if let Some(parent) = parent_of(models, model, link.parent) {
            parents.push(parent)?;
        }
    }
    Ok(parents)
}

/// The parent to which a link leads, where its field and its model are there.
fn parent_of(models: &Models<'_>, model: &Model<'_>, link: &Inherits) -> Option<ParentInfo>
    ensures { result ≡ parent_found models.now (named_in model.now.named model.now.members.items) link.now }
{
    let field = model.number(link.link.as_str())?;
    let target = models.number(link.model.as_str())?;
    Some(ParentInfo {
        link: field,
        model: target,
    })
}

/// The sets of fields that no two rows share.
fn unique_sets(
    alloc: Global,
    model: &Model<'_>,
    sets: &[UniqueSet<'_>],
) -> Result<Sequence<Sequence<FieldNo>>, NoMemory>
    ensures { IfOk result (AllZip
        (λ u. AreNumbers (named_in model.now.named model.now.members.items) u.names) (sets_of sets.now)) }
{
    let mut unique = Sequence::new(alloc);
    for set in sets {
        unique.push(numbers(alloc, model, set.names)?)?;
    }
    Ok(unique)
}

/// The numbers of fields by name.
fn numbers(alloc: Global, model: &Model<'_>, names: &[Word]) -> Result<Sequence<FieldNo>, NoMemory>
    ensures { IfOk result
        (AreNumbers (named_in model.now.named model.now.members.items) names.now) }
{
    let mut numbers = Sequence::new(alloc);
    for name in names {
        if let Some(number) = model.number(name.as_str()) {
            numbers.push(number)?;
        }
    }
    Ok(numbers)
}

/// The terms of a model's order; none where it isn't given.
fn order_of(
    alloc: Global,
    model: &Model<'_>,
    order: Option<GivenOrder<'_>>,
) -> Result<Sequence<OrderTerm>, NoMemory>
    ensures fields { IfOk result (λ terms. AreNumbers
        (named_in model.now.named model.now.members.items)
        (names_of_terms (given_terms (given_order order.entry))) (map (λ t. t.field) terms)) }
    ensures directions { IfOk result (λ terms.
        (HasUnknown (named_in model.now.named model.now.members.items)
        (names_of_terms (given_terms (given_order order.entry))) → ⊥)
        → map (λ t. t.descending) terms
        ≡ map (λ t. t.descending) (given_terms (given_order order.entry))) }
{
    let mut terms = Sequence::new(alloc);
    let text = match order {
        Some(order) => order.text,
        None => return Ok(terms),
    };
    let Some(entries) = order_entries(alloc, text)? else {
        return Ok(terms);
    };
    for entry in entries.as_slice() {
        if let Some(field) = model.number(entry.name) {
            let descending = entry.descending;
            terms.push(OrderTerm { field, descending })?;
        }
    }
    Ok(terms)
}
