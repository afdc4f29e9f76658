//! The relations that rows of a registry keep: by which fields rows name others. Which relations
//! take rows with those that they name stands here.

ghost use Rattle.std.specs.Prelude.{◌≡◌, ◌≤◌, ◌↔◌, ◌⊎◌, Contains, IfOk, IsSome};
ghost use Rattle.ob_base.specs.declared.id.FieldNo.{FieldNo};
ghost use Rattle.ob_rows.specs.Relations.{IsRelation, is_cascade, relation_of};
ghost use Rattle.ob_rows.specs.declared.relations.KeptRelation.{KeptRelation};
ghost use Rattle.ob_schema.specs.Models.{field_at};

use ob_base::limits::MAX_MODELS;
use ob_base::{FieldNo, ModelNo, NoMemory};
use ob_schema::{FieldInfo, OnDelete, Schema};
use std::alloc::Global;

/// A relation whose values stand in rows of a model, and the model whose rows it names.
#[derive(Clone, Copy, Debug, PartialEq, Eq)]
pub struct KeptRelation {
    pub model: ModelNo,
    pub field: FieldNo,
    pub target: ModelNo,
    /// Whether a row goes with the one that it names.
    pub cascades: bool,
}

/// The relations of all models of a registry whose values rows keep.
pub fn kept_relations(alloc: Global, schema: &Schema) -> Result<Vec<KeptRelation>, NoMemory>
    ensures { IfOk result (λ relations. (r : KeptRelation) → Contains relations.items r ↔ IsRelation schema.now r) }
{
    schema.parts_fit_together();
    let mut relations = Vec::new(alloc);
    for place in 0..MAX_MODELS as u16 {
        add_model(schema, ModelNo(place + 1), &mut relations)?;
    }
    Ok(relations)
}

/// Adds those of a model, where there is one.
fn add_model(
    schema: &Schema,
    model: ModelNo,
    relations: &mut Vec<KeptRelation>,
) -> Result<(), NoMemory>
    ensures { IfOk result (λ _. (r : KeptRelation)
        → Contains relations.new.items r ↔ (Contains relations.old.items r ⊎ ((r.model ≡ model) × IsRelation schema.now r))) }
{
    let count = last_field(schema, model);
    for place in 0..count {
        add_field(schema, model, FieldNo(place + 1), relations)?;
    }
    Ok(())
}

/// The number of the last field of a model; 0 where there is no such model.
fn last_field(schema: &Schema, model: ModelNo) -> u16
    ensures { (field : FieldNo) → IsSome (field_at schema.now model field) → field.0 ≤ result }
{
    let Some(info) = schema.find_model(model) else {
        return 0;
    };
    schema.parts_fit_together();
    (info.fields.len() + info.hidden.len()) as u16
}

/// Adds the one that a field keeps, where it keeps one.
fn add_field(
    schema: &Schema,
    model: ModelNo,
    field: FieldNo,
    relations: &mut Vec<KeptRelation>,
) -> Result<(), NoMemory>
    ensures { IfOk result (λ _. (r : KeptRelation)
        → Contains relations.new.items r ↔ (Contains relations.old.items r ⊎ ((r.model ≡ model) × (r.field ≡ field) × IsRelation schema.now r))) }
{
    let Some(info) = schema.find_field(model, field) else {
        return Ok(());
    };
    let Some(relation) = relation_of(model, field, info) else {
        return Ok(());
    };
    relations.push(relation)?;
    Ok(())
}

/// The relation that a field keeps, where it keeps one.
fn relation_of(model: ModelNo, field: FieldNo, info: &FieldInfo) -> Option<KeptRelation>
    ensures { result ≡ relation_of model field info.now }
{
    if !info.is_plain_kept() {
        return None;
    }
    let target = info.relation?;
    Some(KeptRelation {
        model,
        field,
        target,
        cascades: info.field_type.is_many2one() && is_cascade(info.ondelete),
    })
}

/// Whether a row goes with the one that its many2one names.
fn is_cascade(action: OnDelete) -> bool
    ensures { result ≡ is_cascade action }
{
    matches!(action, OnDelete::Cascade)
}
