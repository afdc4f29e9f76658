//! The registry of models, and its look-ups. Contracts see the list of its models; the
//! index by name may be changed here at will.

ghost use Rattle.std.specs.Prelude.{◌≡◌, ◌≤◌, List, All, IfOk, IfSome, option_map, Some, length, map};
ghost use Rattle.ob_base.specs.Limits.{max_fields, max_models, max_name_bytes};
ghost use Rattle.ob_schema.specs.Built.{numbered};
ghost use Rattle.ob_schema.specs.Models.{AreInOrder, HasField, HasModel, IsComputedBy, IsModel, IsRegistry, field_at, field_named, model_at, model_named, stratum_of};
ghost use Rattle.ob_schema.specs.NameIndex.{IsIndexOf};
ghost use Rattle.ob_schema.specs.ReadCells.{MeansByReadCells};
ghost use Rattle.ob_schema.specs.declared.info.Formula.{Formula};
ghost use Rattle.ob_schema.specs.declared.info.ModelInfo.{ModelInfo};
ghost use Rattle.ob_schema.specs.declared.info.Step.{Step};

use crate::info::{FieldInfo, ModelInfo, Origin};
use ob_base::{FieldNo, ModelNo, NoMemory, Sequence};
use std::alloc::Global;
use std::collections::BTreeMap;
use std::marker::Model;

/// Models by number, each with its fields by number.
#[derive(Debug, Drop)]
pub struct Schema {
    models: Sequence<ModelInfo>,
    /// The number of the first model of each name.
    index: BTreeMap<String, ModelNo>,
}

impl Model for Schema {
    ghost use Rattle.std.specs.Prelude.{List};
    ghost use Rattle.ob_schema.specs.Models.{IsRegistry};
    ghost use Rattle.ob_schema.specs.NameIndex.{IsIndexOf};
    ghost use Rattle.ob_schema.specs.declared.info.ModelInfo.{ModelInfo};
    ghost use Rattle.ob_expr.specs.contracts.typed.Typed as typed;
    ghost use Rattle.std.specs.Coded.{codes};

    ghost coded = { Prim.hlevel (codes, typed.the_row.coded) };

    ghost Value = { List ModelInfo };

    ghost view = { λ s. s.models };

    ghost invariant = { λ s. IsRegistry s.models × IsIndexOf s.index s.models };
}

impl Schema {
    /// The registry of these models, numbered from 1 in their order. Of two models with
    /// one name the first has it.
    pub fn from_models(alloc: Global, models: Sequence<ModelInfo>) -> Result<Schema, NoMemory>
        requires { IsRegistry models }
        ensures { IfOk result (λ schema. schema ≡ models) }
    {
        let index = index_of(alloc, models.as_slice())?;
        Ok(Schema { models, index })
    }

    /// The law of every registry: all that is known of one.
    pub fn parts_fit_together(&self)
        ensures { IsRegistry self.now }
    {
        let _ = &self.models;
    }

    /// The model of this name.
    pub fn model(&self, name: &str) -> Option<ModelNo>
        ensures named { result ≡ model_named self.now name.now }
        ensures there { IfSome result (HasModel self.now) }
    {
        self.index.get(name).copied()
    }

    /// The field of this name of a model.
    pub fn field(&self, model: ModelNo, name: &str) -> Option<FieldNo>
        requires { HasModel self.now model }
        ensures named { IfSome (model_at self.now model)
            (λ info. result ≡ field_named info.fields name.now) }
        ensures there { IfSome result (HasField self.now model) }
    {
        let info = &self.models.as_slice()[model.0 as usize - 1];
        field_number(info.fields.as_slice(), name)
    }

    /// The model of a number, where there is one.
    pub fn find_model(&self, model: ModelNo) -> Option<&ModelInfo>
        ensures { option_map (λ info. info.now) result ≡ model_at self.now model }
    {
        numbered(self.models.as_slice(), model.0)
    }

    /// The field of a number of a model, a hidden one too, where there are both.
    pub fn find_field(&self, model: ModelNo, field: FieldNo) -> Option<&FieldInfo>
        ensures { option_map (λ info. info.now) result ≡ field_at self.now model field }
    {
        let info = self.find_model(model)?;
        let named = info.fields.as_slice();
        let place = usize::from(field.0).checked_sub(1)?;
        match place.checked_sub(named.len()) {
            None => named.get(place),
            Some(behind) => info.hidden.as_slice().get(behind),
        }
    }

    /// A model.
    pub fn model_info(&self, model: ModelNo) -> &ModelInfo
        requires { HasModel self.now model }
        ensures at { model_at self.now model ≡ Some result.now }
        // Its formulas and defaults fit its fields.
        ensures fit { IsModel self.now model result.now }
    {
        &self.models.as_slice()[model.0 as usize - 1]
    }

    /// The fields of a model.
    pub fn fields(&self, model: ModelNo) -> &[FieldInfo]
        requires { HasModel self.now model }
        ensures same { option_map (λ info. info.fields) (model_at self.now model)
            ≡ Some result.now }
        ensures few { length result.now ≤ max_fields }
        ensures short { All (λ field. length field.name ≤ max_name_bytes) result.now }
    {
        self.models.as_slice()[model.0 as usize - 1]
            .fields
            .as_slice()
    }

    /// A field of a model, a hidden one too.
    pub fn info(&self, model: ModelNo, field: FieldNo) -> &FieldInfo
        requires { HasField self.now model field }
        ensures { field_at self.now model field ≡ Some result.now }
    {
        match self.find_field(model, field) {
            Some(info) => info,
            None => unreachable!(),
        }
    }

    /// The stratum of a field of a model: 0 of one that isn't computed.
    pub fn stratum(&self, model: ModelNo, field: FieldNo) -> u16
        requires { HasField self.now model field }
        ensures { option_map stratum_of (field_at self.now model field) ≡ Some result }
    {
        match &self.info(model, field).origin {
            Origin::Computed(formula) => formula.stratum,
            _ => 0,
        }
    }
}

/// What a formula of a registry means in a row depends on the cells along its declared paths
/// alone.
pub fn meaning_by_declared_paths()
    ensures { (models : List ModelInfo) → IsRegistry models → (at : Step) (formula : Formula)
        → IsComputedBy models at formula → MeansByReadCells at.model formula }
{}

/// What has this number, counted from 1.
fn numbered<T>(items: &[T], number: u16) -> Option<&T>
    ensures { option_map (λ item. item.now) result ≡ numbered items.now number }
{
    items.get(usize::from(number).checked_sub(1)?)
}

/// The number of the first model of each name.
fn index_of(alloc: Global, models: &[ModelInfo]) -> Result<BTreeMap<String, ModelNo>, NoMemory>
    requires { length models.now ≤ max_models }
    ensures { IfOk result (λ index. IsIndexOf index models.now) }
{
    let mut index = BTreeMap::new(alloc);
    for (i, model) in models.iter().enumerate() {
        let name = model.name.as_str();
        if !index.contains_key(name) {
            index.insert(String::from_str(alloc, name)?, ModelNo(i as u16 + 1))?;
        }
    }
    Ok(index)
}

/// The number of the field of a name, among fields in byte order of their names.
fn field_number(fields: &[FieldInfo], name: &str) -> Option<FieldNo>
    requires few { length fields.now ≤ max_fields }
    requires ordered { AreInOrder (map (λ field. field.name) fields.now) }
    ensures { result ≡ field_named fields.now name.now }
{
    let at = fields
        .binary_search_by(|field| field.name.as_str().cmp(name))
        .ok()?;
    Some(FieldNo(at as u16 + 1))
}
