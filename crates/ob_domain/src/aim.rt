//! The field that a criterion names. A dotted name goes through relations, a step each; the
//! order in which steps are judged stands in `specs/Aims`.

ghost use Rattle.std.specs.Prelude.{◌≡◌, IfOk, IfSome, map};
ghost use Rattle.ob_schema.specs.Models.{HasField, HasModel};
ghost use Rattle.ob_domain.specs.Aims.{aim_along, aim_of, link_at, stored_field, target_at};
ghost use Rattle.ob_domain.specs.Over.{AreLinks, end_of};
ghost use Rattle.ob_domain.specs.Places.{IsResult};

use crate::fault::Unfit;
use ob_base::limits::MAX_DOTTED_STEPS;
use ob_base::{ModelNo, Sequence};
use ob_expr::Link;
use ob_schema::{Schema, Step};
use std::alloc::Global;

/// A field, and the relations through which its rows are reached.
#[derive(Debug, Drop)]
pub struct Aim {
    pub links: Sequence<Link>,
    pub field: Step,
}

/// What a name aims at from a model.
pub(crate) fn aim_of(
    alloc: Global,
    schema: &Schema,
    model: ModelNo,
    name: &str,
) -> Result<Aim, Unfit>
    requires { HasModel schema.now model }
    ensures aim { IsResult (λ aim. aim) result (aim_of schema.now model name.now) }
    ensures there { IfOk result (λ aim. HasField schema.now aim.field.model aim.field.field) }
    ensures links { IfOk result (λ aim. AreLinks schema.now model aim.links) }
    ensures end { IfOk result (λ aim. end_of model aim.links ≡ aim.field.model) }
{
    let steps: Vec<&str> = name.split('.').collect(alloc)?;
    if steps.len() > MAX_DOTTED_STEPS {
        return Err(Unfit::Field);
    }
    aim_along(alloc, schema, model, steps.as_slice())
}

/// What steps aim at from a model.
fn aim_along(alloc: Global, schema: &Schema, model: ModelNo, steps: &[&str]) -> Result<Aim, Unfit>
    requires { HasModel schema.now model }
    ensures aim { IsResult (λ aim. aim) result (aim_along schema.now model (map (λ step. step.now) steps.now)) }
    ensures there { IfOk result (λ aim. HasField schema.now aim.field.model aim.field.field) }
    ensures links { IfOk result (λ aim. AreLinks schema.now model aim.links) }
    ensures end { IfOk result (λ aim. end_of model aim.links ≡ aim.field.model) }
{
    let [before @ .., last] = steps else {
        return Err(Unfit::Field);
    };
    let mut links = Sequence::new(alloc);
    let mut model = model;
    for name in before {
        let link = link_at(schema, stored_field(schema, model, name)?)?;
        links.push(link)?;
        model = link.target;
    }
    let field = stored_field(schema, model, last)?;
    Ok(Aim { links, field })
}

/// The field of a name of a model, which has a value in each row.
fn stored_field(schema: &Schema, model: ModelNo, name: &str) -> Result<Step, Unfit>
    requires { HasModel schema.now model }
    ensures field { IsResult (λ step. step) result (stored_field schema.now model name.now) }
    ensures own { IfOk result (λ step. step.model ≡ model) }
    ensures there { IfOk result (λ step. HasField schema.now step.model step.field) }
{
    let Some(field) = schema.field(model, name) else {
        return Err(Unfit::Field);
    };
    if !schema.info(model, field).store {
        return Err(Unfit::NotStored);
    }
    Ok(Step { model, field })
}

/// The link that a relation is.
pub(crate) fn link_at(schema: &Schema, at: Step) -> Result<Link, Unfit>
    requires { HasField schema.now at.model at.field }
    ensures link { IsResult (λ link. link) result (link_at schema.now at) }
    ensures there { IfOk result (λ link. HasModel schema.now link.target) }
    ensures own { IfOk result (λ link. link.field ≡ at.field) }
{
    match target_of(schema, at) {
        Some(target) => Ok(Link {
            field: at.field,
            target,
        }),
        None => Err(Unfit::Operator),
    }
}

/// The model whose rows a relation names. The registry has each such model.
pub(crate) fn target_of(schema: &Schema, at: Step) -> Option<ModelNo>
    requires { HasField schema.now at.model at.field }
    ensures target { result ≡ target_at schema.now at }
    ensures there { IfSome result (HasModel schema.now) }
{
    // What is known of a model says that its relations lead to models.
    let _model = schema.model_info(at.model);
    schema.info(at.model, at.field).relation
}
