//! Of which models a create makes rows so far, and of which a write changes them. What a call of a
//! further model needs is proved before its condition goes.

ghost use Rattle.std.specs.Prelude.{◌≡◌, IfSome, bytes_eq, codes, false};
ghost use Rattle.std.specs.List.{list_any};
ghost use Rattle.std.specs.Option.{option_map_or};
ghost use Rattle.ob_rows.specs.Creatable as spec;
ghost use Rattle.ob_schema.specs.Models.{HasModel, model_at};

use ob_base::ModelNo;
use ob_schema::{ModelInfo, Schema};

/// Whether a create makes rows of a model: it isn't managed, and rows of its parents may be made
/// and changed with its own.
pub fn is_creatable(schema: &Schema, model: ModelNo) -> bool
    requires model { HasModel schema.now model }
    ensures stated { IfSome (model_at schema.now model) (λ info. result ≡ spec.is_creatable schema.now info) }
{
    let info = schema.model_info(model);
    !info.managed && has_open_parents(schema, info)
}

/// Whether a write changes rows of a model: they may be changed, and those of its parents with
/// them.
pub fn is_writable(schema: &Schema, model: ModelNo) -> bool
    requires model { HasModel schema.now model }
    ensures stated { IfSome (model_at schema.now model) (λ info. result ≡ spec.is_writable schema.now info) }
{
    let info = schema.model_info(model);
    is_changeable(info) && has_open_parents(schema, info)
}

/// Whether rows of a model's parents may be made and changed with its own.
fn has_open_parents(schema: &Schema, info: &ModelInfo) -> bool
    ensures { result ≡ spec.has_open_parents schema.now info.now }
{
    info.inherits
        .as_slice()
        .iter()
        .all(|parent| is_open_model(schema, parent.model))
}

/// Whether rows of the model of a number may be made and changed, its fixed fields aside.
fn is_open_model(schema: &Schema, model: ModelNo) -> bool
    ensures { result ≡ option_map_or spec.is_open (model_at schema.now model) false }
{
    match schema.find_model(model) {
        Some(info) => is_open(info),
        None => false,
    }
}

/// Whether rows of a model may be changed: they are open to that, and no field is fixed.
fn is_changeable(info: &ModelInfo) -> bool
    ensures { result ≡ spec.is_changeable info.now }
{
    is_open(info) && !has_fixed(info)
}

/// Whether rows of a model may be made and changed, its fixed fields aside: it isn't managed, and
/// no condition locks its rows.
fn is_open(info: &ModelInfo) -> bool
    ensures { result ≡ spec.is_open info.now }
{
    !info.managed && !is_lockable(info)
}

/// Whether a condition locks rows of a model.
fn is_lockable(info: &ModelInfo) -> bool
    ensures { result ≡ list_any (λ field. bytes_eq field.name (codes "locked")) info.now.hidden }
{
    info.hidden
        .as_slice()
        .iter()
        .any(|field| field.name.as_str() == "locked")
}

/// Whether a field of a model is fixed.
fn has_fixed(info: &ModelInfo) -> bool
    ensures { result ≡ list_any (λ field. field.fixed) info.now.fields }
{
    info.fields.as_slice().iter().any(|field| field.fixed)
}
