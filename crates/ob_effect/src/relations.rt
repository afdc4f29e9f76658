//! The relations that rows of a registry keep: by which fields rows name others, and what becomes
//! of a row whose relation names one that goes.

ghost use Rattle.std.specs.Prelude.{All, IfOk, IfSome, OnOk};
ghost use Rattle.ob_effect.specs.Relations.{IsRelation, KeepsRelation};

use ob_base::limits::MAX_MODELS;
use ob_base::{FieldNo, ModelNo, NoMemory};
use ob_schema::{FieldInfo, OnDelete, Schema};
use std::alloc::Global;

/// A relation whose values stand in rows of a model, and the model whose rows it names.
#[derive(Clone, Copy, Debug, PartialEq, Eq)]
pub struct KeptRelation {
    pub model: ModelNo,
    pub field: FieldNo,
    pub target: ModelNo,
    /// What becomes of a row with the one that its many2one names; none of a list.
    pub action: Option<OnDelete>,
}

/// The relations of a registry.
pub fn kept_relations(alloc: Global, schema: &Schema) -> Result<Vec<KeptRelation>, NoMemory>
    ensures { IfOk result (λ relations. All (IsRelation schema.now) relations.items) }
{
    let mut relations = Vec::new(alloc);
    for place in 0..MAX_MODELS as u16 {
        add_model(schema, ModelNo(place + 1), &mut relations)?;
    }
    Ok(relations)
}

/// Adds those of a model, where there is one.
fn add_model(
    schema: &Schema,
    model: ModelNo,
    relations: &mut Vec<KeptRelation>,
) -> Result<(), NoMemory>
    ensures { OnOk result (All (IsRelation schema.now) relations.old.items → All (IsRelation schema.now) relations.new.items) }
{
    let Some(info) = schema.find_model(model) else {
        return Ok(());
    };
    // The law of registries: a model has fewer fields than there are numbers.
    schema.parts_fit_together();
    let count = info.fields.len() as u16;
    for place in 0..count {
        add_field(schema, model, FieldNo(place + 1), relations)?;
    }
    Ok(())
}

/// Adds the one that a field keeps, where it keeps one.
fn add_field(
    schema: &Schema,
    model: ModelNo,
    field: FieldNo,
    relations: &mut Vec<KeptRelation>,
) -> Result<(), NoMemory>
    ensures { OnOk result (All (IsRelation schema.now) relations.old.items → All (IsRelation schema.now) relations.new.items) }
{
    let Some(info) = schema.find_field(model, field) else {
        return Ok(());
    };
    // The law of registries, by which a relation is to a model.
    schema.parts_fit_together();
    if let Some(relation) = relation_of(model, field, info) {
        relations.push(relation)?;
    }
    Ok(())
}

/// The relation that a field keeps, where it keeps one.
fn relation_of(model: ModelNo, field: FieldNo, info: &FieldInfo) -> Option<KeptRelation>
    ensures { IfSome result (KeepsRelation model field info.now) }
{
    if !info.is_plain_kept() {
        return None;
    }
    let target = info.relation?;
    Some(KeptRelation {
        model,
        field,
        target,
        action: action_of(info),
    })
}

/// What becomes of a row with the one that its many2one names.
fn action_of(info: &FieldInfo) -> Option<OnDelete> {
    if info.field_type.is_many2one() {
        Some(info.ondelete)
    } else {
        None
    }
}
