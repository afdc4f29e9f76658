//! Paths from a model as steps: those that an expression reads, and those that definitions
//! declare. A delegated name stands for two steps, its link and the parent's field.

ghost use Rattle.std.specs.Prelude.{◌≡◌, ◌++◌, IfOk, IsSome, IsSomeAnd, Some};
ghost use Rattle.ob_definition.specs.Members.{members_of, model_at, named};
ghost use Rattle.ob_registry.specs.ModelFields.{member_of};
ghost use Rattle.ob_schema.specs.Paths.{has_value, path_from, steps_of_route, steps_through, targets_of};
ghost use Rattle.ob_registry.specs.Telling.{texts_in, told_path};

use crate::model::{Member, Role};
use crate::models::Models;
use ob_base::{ModelNo, NoMemory, Sequence};
use ob_definition::{FieldDef, Wrong, is_computed, is_set};
use ob_schema::{Path, Step};
use std::alloc::Global;

/// The steps of a path that an expression reads from rows of a model.
pub(crate) fn steps_along(
    alloc: Global,
    number: ModelNo,
    path: &ob_expr::Path,
) -> Result<Path, NoMemory>
    ensures { IfOk result (λ made. made.steps ≡ steps_of_route number path.now) }
{
    let mut steps = Sequence::new(alloc);
    let mut model = number;
    for link in path.links() {
        steps.push(Step {
            model,
            field: link.field,
        })?;
        model = link.target;
    }
    steps.push(Step {
        model,
        field: path.field(),
    })?;
    Ok(Path { steps })
}

/// The steps of a path that is declared in a model, or what is wrong with it: a name is no
/// field; a field before the last is no plain relation; or the last is computed and not kept.
pub(crate) fn path_of(
    alloc: Global,
    models: &Models<'_>,
    number: ModelNo,
    names: &[&str],
) -> Result<Result<Path, Wrong>, NoMemory>
    requires { IsSome (model_at models.now number.0) }
    ensures { IfOk result (λ told. told ≡ told_path (path_from models.now number (texts_in names.now))) }
{
    let mut steps = Sequence::new(alloc);
    let mut model = number;
    let mut rest = names;
    while let [name, behind @ ..] = rest {
        let Some(member) = models.model(model).find(name) else {
            return Ok(Err(Wrong::Field));
        };
        add_steps(models, model, member, &mut steps)?;
        if behind.is_empty() {
            return Ok(if has_value(member.def) {
                Ok(Path { steps })
            } else {
                Err(Wrong::Path)
            });
        }
        match targets_of(models, member) {
            Some(target) => model = target,
            None => return Ok(Err(Wrong::Path)),
        }
        rest = behind;
    }
    Ok(Err(Wrong::Field))
}

/// Whether a field has a value in each row: a computed one only where it is kept.
pub(crate) fn has_value(def: &FieldDef) -> bool
    ensures { result ≡ has_value def.now }
{
    !is_computed(def) || is_set(def.store)
}

/// Adds the step through a named field of a model, or the two of a delegated one.
fn add_steps(
    models: &Models<'_>,
    number: ModelNo,
    member: &Member<'_>,
    steps: &mut Sequence<Step>,
) -> Result<(), NoMemory>
    requires { IsSomeAnd (model_at models.now number.0)
        (λ g. named (members_of models.now g) member.now.def.now.name ≡ Some (member_of member.now)) }
    ensures { IfOk result (λ _. IsSomeAnd (model_at models.now number.0)
        (λ g. steps.new ≡ steps.old ++ steps_through models.now number g member.now.def.now.name (member_of member.now).role)) }
{
    let model = models.model(number);
    if let Role::Delegated(link) = member.role {
        if let Some(delegation) = models.delegation(model, link, member.def) {
            steps.push(Step {
                model: number,
                field: delegation.link,
            })?;
            return steps.push(Step {
                model: delegation.model,
                field: delegation.field,
            });
        }
    }
    match model.number(member.def.name.as_str()) {
        Some(field) => steps.push(Step {
            model: number,
            field,
        }),
        None => Ok(()),
    }
}

/// The model whose rows a plain relation names, also one that is delegated.
fn targets_of(models: &Models<'_>, member: &Member<'_>) -> Option<ModelNo>
    ensures { result ≡ targets_of models.now member.now.def.now }
{
    if is_computed(member.def) {
        return None;
    }
    models.relation(member.def)
}
