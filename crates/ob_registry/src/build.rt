//! The registry from definitions, or the first thing that stands against them.

ghost use Rattle.std.specs.List.{AllZip};
ghost use Rattle.std.specs.Prelude.{◌≡◌, ◌≢◌, ◌<◌, ◌≤◌, IfOk, IfErr, IsSome, IsSomeAnd, None, OnOk, Some, length, ◌++◌};
ghost use Rattle.ob_schema.specs.Built.{IsBuilt, IsModelOf};
ghost use Rattle.ob_registry.specs.Faults.{IsFaultless, IsFirst};
ghost use Rattle.ob_definition.specs.Findings.{Adds};
ghost use Rattle.ob_definition.specs.Gathered.{AreWellNamed};
ghost use Rattle.ob_definition.specs.Making.{IsMade};
ghost use Rattle.ob_definition.specs.Ranking.{rank};
ghost use Rattle.ob_definition.specs.Members.{automatic_defs, is_delegated, model_at, hidden_members, members_of};
ghost use Rattle.ob_registry.specs.ModelFields.{max_numbers, member_of, members_in};
ghost use Rattle.ob_registry.specs.Graphs.{AreFormulas, HaveStrata};
ghost use Rattle.ob_registry.specs.Resolving.{AreFew, AreModelFaults, AreResolvingFaults, IsEntered};
ghost use Rattle.ob_schema.specs.Models.{IsRegistry};
ghost use Rattle.ob_registry.specs.Telling.{AreFormulaFaults, AreKeyFaults, AreMemberFaults, AreFaultsOf, AreModelFormulas, IsFormulaOf};

use crate::building::registry;
use crate::field_faults::field_faults;
use crate::formulas::{DraftFormula, formula_of};
use crate::model::{Member, Role};
use crate::model_faults::model_faults;
use crate::models::{MAX_NUMBERS, Models, models_of, number_of_place};
use crate::strata::{Formulas, stratify};
use ob_base::{ModelNo, NoMemory};
use ob_definition::{
    FieldDef, First, Gathering, Made, ModelDef, SchemaFault, automatic_fields, gather, made_fields,
};
use ob_schema::Schema;
use std::alloc::Global;

/// The registry of these definitions, whose models are numbered from 1 in the order of
/// the entries that make them. A model's fields, automatic and delegated ones among them,
/// are numbered from 1 in byte order of their names; its checks follow by name, then
/// `locked`. Where definitions are faulty the first fault is told: by entry, then field
/// by bytes, then variant as listed. Of more than 65,535 models nothing is made, for
/// want of numbers.
pub fn build_schema(alloc: Global, defs: &[ModelDef]) -> Result<Schema, SchemaFault>
    ensures built { IfOk result (λ schema. IsBuilt defs.now schema) }
    ensures sound { IfOk result IsRegistry }
    ensures faultless { OnOk result (IsFaultless defs.now) }
    ensures fault { IfErr result
        (λ why. why ≢ SchemaFault.NoMemory → IsFirst defs.now why) }
    ensures entry { IfErr result
        (λ why. why ≢ SchemaFault.NoMemory → (rank why).entry < length defs.now) }
{
    let mut first = First::new(alloc);
    let gathering = gather(alloc, defs, &mut first)?;
    if gathering.models().len() > MAX_NUMBERS {
        return Err(SchemaFault::NoMemory);
    }
    registry_of(alloc, &gathering, first)
}

/// The registry of models that were gathered, or the first thing that was found by then or
/// stands against these.
fn registry_of(
    alloc: Global,
    gathering: &Gathering<'_>,
    mut first: First,
) -> Result<Schema, SchemaFault>
    requires few { length gathering.now ≤ max_numbers }
    requires named { AreWellNamed gathering.now }
    requires limits { first ≡ None → AreFew gathering.now }
    ensures built { IfOk result (AllZip (IsModelOf gathering.now) gathering.now) }
    ensures sound { IfOk result IsRegistry }
    ensures faultless { OnOk result (Adds (AreModelFaults gathering.now) first None) }
    ensures fault { IfErr result (λ why. why ≢ SchemaFault.NoMemory
        → Adds (AreModelFaults gathering.now) first (Some why)) }
{
    let automatic = automatic_fields(alloc)?;
    let made = made_fields(alloc, gathering, &mut first)?;
    registry_with(
        alloc,
        gathering,
        automatic.as_slice(),
        made.as_slice(),
        first,
    )
}

/// The registry of models with the fields that are made for them, or the first thing that was
/// found by then or stands against all their fields.
fn registry_with<'a>(
    alloc: Global,
    gathering: &'a Gathering<'a>,
    automatic: &'a [FieldDef],
    made: &'a [Made<'a>],
    mut first: First,
) -> Result<Schema, SchemaFault>
    requires few { length gathering.now ≤ max_numbers }
    requires named { AreWellNamed gathering.now }
    requires automatic { automatic.now ≡ automatic_defs }
    requires made { AllZip (IsMade gathering.now) gathering.now made.now }
    requires entered { first ≡ None → IsEntered gathering.now }
    ensures built { IfOk result (AllZip (IsModelOf gathering.now) gathering.now) }
    ensures sound { IfOk result IsRegistry }
    ensures faultless { OnOk result (Adds (AreResolvingFaults gathering.now) first None) }
    ensures fault { IfErr result (λ why. why ≢ SchemaFault.NoMemory
        → Adds (AreResolvingFaults gathering.now) first (Some why)) }
{
    let models = models_of(alloc, gathering, automatic, made)?;
    let formulas = resolve(alloc, &models, &mut first)?;
    match first.into_fault() {
        Some(fault) => Err(fault),
        None => Ok(registry(alloc, &models, formulas)?),
    }
}

/// Finds what is wrong with keys, with expressions and with how fields read one another. The
/// formulas of all fields have their strata where nothing is found.
fn resolve(alloc: Global, models: &Models<'_>, first: &mut First) -> Result<Formulas, NoMemory>
    ensures formulas { IfOk result (λ formulas. AreFormulas models.now formulas.items) }
    ensures strata { IfOk result
        (λ formulas. first.new ≡ None → HaveStrata models.now formulas.items) }
    ensures faults { IfOk result
        (λ _. Adds (AreResolvingFaults models.now) first.old first.new) }
{
    key_faults(alloc, models, first)?;
    let mut formulas = formulas_of(alloc, models, first)?;
    stratify(alloc, models, &mut formulas, first)?;
    Ok(formulas)
}

/// Finds what is wrong with the keys of models and of their fields.
fn key_faults(alloc: Global, models: &Models<'_>, first: &mut First) -> Result<(), NoMemory>
    ensures { IfOk result (λ _. Adds (AreKeyFaults models.now) first.old first.new) }
{
    for place in 0..models.list.len() {
        let number = ModelNo(number_of_place(place));
        model_faults(alloc, models, number, first)?;
        member_faults(models, number, first)?;
    }
    Ok(())
}

/// Finds what is wrong with the keys of a model's fields that aren't delegated.
fn member_faults(models: &Models<'_>, number: ModelNo, first: &mut First) -> Result<(), NoMemory>
    requires { IsSome (model_at models.now number.0) }
    ensures { IfOk result (λ _. IsSomeAnd (model_at models.now number.0)
        (λ g. Adds (AreMemberFaults models.now number g) first.old first.new)) }
{
    let model = models.model(number);
    for member in model.members.iter() {
        if !is_delegated(member) {
            field_faults(models, number, member, first)?;
        }
    }
    Ok(())
}

/// Whether a field stands in the row to which a link leads.
fn is_delegated(member: &Member<'_>) -> bool
    ensures { result ≡ is_delegated (member_of member.now).role }
{
    matches!(member.role, Role::Delegated(..))
}

/// The formulas of the fields of each model, and what is wrong with them.
fn formulas_of(alloc: Global, models: &Models<'_>, first: &mut First) -> Result<Formulas, NoMemory>
    ensures formulas { IfOk result (λ formulas. AreFormulas models.now formulas.items) }
    ensures faults { IfOk result (λ _. Adds (AreFormulaFaults models.now) first.old first.new) }
{
    let mut formulas = Vec::new(alloc);
    for place in 0..models.list.len() {
        let number = ModelNo(number_of_place(place));
        formulas.push(model_formulas(alloc, models, number, first)?)?;
    }
    Ok(formulas)
}

/// The formulas of the fields of one model.
fn model_formulas(
    alloc: Global,
    models: &Models<'_>,
    number: ModelNo,
    first: &mut First,
) -> Result<Vec<Option<DraftFormula>>, NoMemory>
    requires { IsSome (model_at models.now number.0) }
    ensures formulas { IfOk result (λ formulas. IsSomeAnd (model_at models.now number.0)
        (λ g. AreModelFormulas models.now number g formulas.items)) }
    ensures faults { IfOk result (λ _. IsSomeAnd (model_at models.now number.0)
        (λ g. Adds (AreFaultsOf models.now number (members_of models.now g ++ hidden_members g)) first.old first.new)) }
{
    let members = models.model(number).members.as_slice();
    formulas_in(alloc, models, number, members, first)
}

/// The formulas of fields of a model.
fn formulas_in(
    alloc: Global,
    models: &Models<'_>,
    number: ModelNo,
    members: &[Member<'_>],
    first: &mut First,
) -> Result<Vec<Option<DraftFormula>>, NoMemory>
    requires { IsSome (model_at models.now number.0) }
    ensures formulas { IfOk result (λ formulas. AllZip
        (λ m formula. IsFormulaOf (record { models = models.now; number = number; member = member_of m }) formula)
        members.now formulas.items) }
    ensures faults { IfOk result
        (λ _. Adds (AreFaultsOf models.now number (members_in members.now)) first.old first.new) }
{
    let mut formulas = Vec::new(alloc);
    for member in members {
        formulas.push(formula_of(alloc, models, number, member, first)?)?;
    }
    Ok(formulas)
}
