//! What the value of a preset row gives to a field of its model: a value as calls give it, or
//! rows that stand before it. A further kind of field is read here; what each takes stands in
//! `specs/Preset`, and where a value is wrong in `specs/RowFaults`.

ghost use Rattle.std.specs.Prelude.{◌≡◌, ◌+◌, IfOk, IfSome, Some, false, map, option_and_then, option_map, position};
ghost use Rattle.std.specs.Str.{bytes_eq};
ghost use Rattle.serde_json.specs.View.{view as json_view};
ghost use Rattle.toml.specs.Data.{get};
ghost use Rattle.toml.specs.View.{view};
ghost use Rattle.ob_definition.specs.Types.{is_relation};
ghost use Rattle.ob_module.specs.Forms as forms;
ghost use Rattle.ob_load.specs.Preset as spec;
ghost use Rattle.ob_load.specs.RowFaults as fits;
ghost use Rattle.ob_load.specs.Rooms.{IsPlainHeld};
ghost use Rattle.ob_schema.specs.Fields.{Holds};
ghost use Rattle.ob_schema.specs.Models.{field_at};

use crate::scope::Scope;
use ob_base::{FieldNo, ModelNo, NoMemory, Sequence, Value, Word};
use ob_codec::{CodecFault, Input, Json, from_json};
use ob_module::{Form, Keys, ListOf, Wrong, found, is_reference, str_at, unless};
use ob_schema::{FieldInfo, FieldType, PresetValue, Schema};
use std::alloc::Global;
use std::collections::BTreeSet;
use toml::{Table, Value as Toml};

/// Where a row stands: its module, and the rows that it may name.
#[derive(Clone, Copy)]
pub(crate) struct RowScope<'s> {
    pub(crate) scope: Scope<'s>,
    /// How many rows all groups have.
    pub(crate) first: usize,
    /// The rows behind these so far, by their full names, with their models.
    pub(crate) refs: &'s [(Word, ModelNo)],
}

impl RowScope<'_> {
    /// Where the value at a field of a model breaks the field's form first.
    fn wrong_value(
        &self,
        model: ModelNo,
        number: FieldNo,
        field: &FieldInfo,
        value: &Toml,
    ) -> Result<Option<Wrong>, NoMemory>
        requires { field_at self.now.scope.schema.now model number ≡ Some field.now }
        ensures { IfOk result (λ found. found ≡ fits.value_fits self.now.scope.schema.now self.now.scope.groups.now self.now.first self.now.refs.now field.now (view value.now)) }
    {
        if takes_rows(field) {
            let items = NamesRow { rows: *self, field };
            ListOf { items }.wrong(self.scope.alloc, value)
        } else {
            let fits = self.given(model, number, field, value)?.is_some();
            Ok(unless(self.scope.alloc, fits))
        }
    }

    /// What a table of values gives to a field of a model, under its name.
    pub(crate) fn value_in(
        &self,
        model: ModelNo,
        number: FieldNo,
        field: &FieldInfo,
        values: &Toml,
    ) -> Result<Option<PresetValue>, NoMemory>
        requires { field_at self.now.scope.schema.now model number ≡ Some field.now }
        ensures given { IfOk result (λ v. v ≡ option_and_then (spec.given self.now.scope.schema.now self.now.scope.groups.now self.now.first self.now.refs.now field.now) (get field.now.name (view values.now))) }
        ensures held { IfOk result (λ v. IfSome v (IsPlainHeld field.now)) }
    {
        match found(values, field.name.as_str()) {
            Some(value) => self.given(model, number, field, value),
            None => Ok(None),
        }
    }

    /// What a value gives to a field of a model, where it is of the field's form.
    fn given(
        &self,
        model: ModelNo,
        number: FieldNo,
        field: &FieldInfo,
        value: &Toml,
    ) -> Result<Option<PresetValue>, NoMemory>
        requires { field_at self.now.scope.schema.now model number ≡ Some field.now }
        ensures given { IfOk result (λ v. v ≡ spec.given self.now.scope.schema.now self.now.scope.groups.now self.now.first self.now.refs.now field.now (view value.now)) }
        ensures held { IfOk result (λ v. IfSome v (IsPlainHeld field.now)) }
    {
        match field.field_type {
            FieldType::Many2one => self.row_given(field, value),
            FieldType::Many2many => self.rows_given(field, value),
            FieldType::One2many => Ok(None),
            _ => self.plain_given(model, number, field, value),
        }
    }

    /// The value that a text, an integer or a flag gives to a field that is no relation.
    fn plain_given(
        &self,
        model: ModelNo,
        number: FieldNo,
        field: &FieldInfo,
        value: &Toml,
    ) -> Result<Option<PresetValue>, NoMemory>
        requires field { field_at self.now.scope.schema.now model number ≡ Some field.now }
        requires plain { is_relation field.now.field_type ≡ false }
        ensures given { IfOk result (λ v. v ≡ option_map PresetValue.Plain (spec.scalar field.now (view value.now))) }
        ensures held { IfOk result (λ v. IfSome v (IsPlainHeld field.now)) }
    {
        match scalar(
            self.scope.alloc,
            self.scope.schema,
            model,
            number,
            field,
            value,
        )? {
            Some(value) => Ok(Some(PresetValue::Plain(value))),
            None => Ok(None),
        }
    }

    /// The row that a reference gives to a many2one.
    fn row_given(&self, field: &FieldInfo, value: &Toml) -> Result<Option<PresetValue>, NoMemory>
        ensures given { IfOk result (λ v. v ≡ option_map PresetValue.Row (spec.reference self.now.scope.schema.now self.now.scope.groups.now self.now.first self.now.refs.now field.now (view value.now))) }
        ensures held { IfOk result (λ v. IfSome v (IsPlainHeld field.now)) }
    {
        match self.reference(field, value)? {
            Some(row) => Ok(Some(PresetValue::Row(row))),
            None => Ok(None),
        }
    }

    /// The rows that a list gives to a many2many that is no mirror.
    fn rows_given(&self, field: &FieldInfo, value: &Toml) -> Result<Option<PresetValue>, NoMemory>
        ensures given { IfOk result (λ v. v ≡ spec.rows_given self.now.scope.schema.now self.now.scope.groups.now self.now.first self.now.refs.now field.now (view value.now)) }
        ensures held { IfOk result (λ v. IfSome v (IsPlainHeld field.now)) }
    {
        let Toml::Array(items) = value else {
            return Ok(None);
        };
        if field.mirror.is_some() {
            return Ok(None);
        }
        let rows = self.references(field, items.as_slice())?;
        Ok(Some(PresetValue::Rows(listed(self.scope.alloc, &rows)?)))
    }

    /// The rows that references name, each once; what names none is passed over.
    fn references(&self, field: &FieldInfo, items: &[Toml]) -> Result<BTreeSet<u32>, NoMemory>
        ensures { IfOk result (λ rows. rows.keys ≡ spec.rising (spec.references self.now.scope.schema.now self.now.scope.groups.now self.now.first self.now.refs.now field.now (map view items.now))) }
    {
        let mut rows = BTreeSet::new(self.scope.alloc);
        for item in items {
            if let Some(row) = self.reference(field, item)? {
                rows.insert(row)?;
            }
        }
        Ok(rows)
    }

    /// The number of the row that a reference names, where the field leads to its model.
    fn reference(&self, field: &FieldInfo, value: &Toml) -> Result<Option<u32>, NoMemory>
        ensures { IfOk result (λ row. row ≡ spec.reference self.now.scope.schema.now self.now.scope.groups.now self.now.first self.now.refs.now field.now (view value.now)) }
    {
        if !is_reference(self.scope.alloc, value)? {
            return Ok(None);
        }
        match str_at(value, "ref") {
            Some(name) => Ok(self.target_named(field, name)),
            None => Ok(None),
        }
    }

    /// The number of the row of a name, where the field leads to its model.
    fn target_named(&self, field: &FieldInfo, name: &str) -> Option<u32>
        ensures { result ≡ option_and_then (spec.target_of field.now)
            (spec.row_named self.now.scope.schema.now self.now.scope.groups.now self.now.first self.now.refs.now name.now) }
    {
        let (row, model) = self.row_named(name)?;
        if is_to(field, model) { Some(row) } else { None }
    }

    /// The number and the model of the row of a name.
    fn row_named(&self, name: &str) -> Option<(u32, ModelNo)>
        ensures { result ≡ spec.row_named self.now.scope.schema.now self.now.scope.groups.now self.now.first self.now.refs.now name.now }
    {
        match ref_named(self.refs, name) {
            Some((place, model)) => in_32_bits(self.first, place, model),
            None => {
                let (place, model) = self.group_row_named(name)?;
                in_32_bits(0, place, model)
            }
        }
    }

    /// The number and the model of the row of a group.
    fn group_row_named(&self, name: &str) -> Option<(usize, ModelNo)>
        ensures { result ≡ spec.group_row_named self.now.scope.schema.now self.now.scope.groups.now name.now }
    {
        let model = self.scope.schema.model("res.groups")?;
        let place = place_of(self.scope.groups, name)?;
        Some((place, model))
    }
}

/// The row of a name among these, with its place.
fn ref_named(refs: &[(Word, ModelNo)], name: &str) -> Option<(usize, ModelNo)>
    ensures { result ≡ spec.ref_named refs.now name.now }
{
    let place = refs.iter().position(|own| own.0.as_str() == name)?;
    Some((place, refs[place].1))
}

/// A row behind so many, where its number has 32 bits.
fn in_32_bits(first: usize, place: usize, model: ModelNo) -> Option<(u32, ModelNo)>
    ensures { result ≡ spec.in_32_bits (first + place, model) }
{
    let number = first.checked_add(place)?;
    if number <= u32::MAX as usize {
        Some((number as u32, model))
    } else {
        None
    }
}

/// Whether a field leads to rows of a model.
fn is_to(field: &FieldInfo, model: ModelNo) -> bool
    ensures { result ≡ spec.is_to field.now model }
{
    match field.relation {
        Some(own) => own.0 == model.0,
        None => false,
    }
}

/// Whether a list of rows is given to a field.
fn takes_rows(field: &FieldInfo) -> bool
    ensures { result ≡ fits.takes_rows field.now }
{
    field.field_type.is_many2many() && field.mirror.is_none()
}

/// Numbers that rise, as a list.
fn listed(alloc: Global, rows: &BTreeSet<u32>) -> Result<Sequence<u32>, NoMemory>
    ensures { IfOk result (λ list. list ≡ rows.now.keys) }
{
    let mut list = Sequence::new(alloc);
    for row in rows {
        list.push(*row)?;
    }
    Ok(list)
}

/// The value that a text, an integer or a flag is of a field that is no relation.
fn scalar(
    alloc: Global,
    schema: &Schema,
    model: ModelNo,
    number: FieldNo,
    field: &FieldInfo,
    value: &Toml,
) -> Result<Option<Value>, NoMemory>
    requires field { field_at schema.now model number ≡ Some field.now }
    requires plain { is_relation field.now.field_type ≡ false }
    ensures given { IfOk result (λ v. v ≡ spec.scalar field.now (view value.now)) }
    ensures held { IfOk result (λ v. IfSome v (Holds field.now)) }
{
    let Some(json) = json_of(alloc, value)? else {
        return Ok(None);
    };
    match from_json(alloc, schema, model, number, &json) {
        Ok(Input::Plain(value)) => Ok(Some(value)),
        Ok(Input::Commands(_)) => Ok(None),
        Err(CodecFault::NoMemory) => Err(NoMemory),
        Err(_) => Ok(None),
    }
}

/// The JSON of a text, an integer or a flag.
fn json_of(alloc: Global, value: &Toml) -> Result<Option<Json>, NoMemory>
    ensures { IfOk result (λ json. option_map json_view json ≡ spec.json_of (view value.now)) }
{
    match value {
        Toml::String(text) => Ok(Some(Json::try_from_str(alloc, text.as_str())?)),
        Toml::Integer(number) => Ok(Some(Json::from(*number))),
        Toml::Boolean(flag) => Ok(Some(Json::Bool(*flag))),
        _ => Ok(None),
    }
}

/// The field of a name of a model, with its number; conditions are no fields.
fn field_of<'s>(schema: &'s Schema, model: ModelNo, name: &str) -> Option<(FieldNo, &'s FieldInfo)>
    ensures found { option_map (λ p. p.1.now) result ≡ spec.field_of schema.now model name.now }
    ensures at { IfSome result (λ p. field_at schema.now model p.0 ≡ Some p.1.now) }
{
    schema.find_model(model)?;
    let number = schema.field(model, name)?;
    Some((number, schema.info(model, number)))
}

/// The place of a name among these.
fn place_of(names: &[Word], name: &str) -> Option<usize>
    ensures { result ≡ position (λ own. bytes_eq own name.now) names.now }
{
    names.iter().position(|own| own.as_str() == name)
}

/// A reference to a row to which a field leads.
#[derive(Clone, Copy)]
struct NamesRow<'r> {
    rows: RowScope<'r>,
    field: &'r FieldInfo,
}

impl Form for NamesRow<'_> {
    ghost wrong = { λ n. fits.names_row n.rows.scope.schema.now n.rows.scope.groups.now n.rows.first n.rows.refs.now n.field.now };

    fn wrong(&self, alloc: Global, value: &Toml) -> Result<Option<Wrong>, NoMemory> {
        let fits = self.rows.reference(self.field, value)?.is_some();
        Ok(unless(alloc, fits))
    }
}

/// The values of a row of a model, under the names of its fields.
#[derive(Clone, Copy)]
pub(crate) struct RowValues<'r> {
    pub(crate) rows: RowScope<'r>,
    pub(crate) model: ModelNo,
}

impl Keys for RowValues<'_> {
    ghost keys = { λ v. fits.value_keys v.rows.scope.schema.now v.rows.scope.groups.now v.rows.first v.rows.refs.now v.model };

    ghost missing = { λ _. forms.no_key };

    fn wrong(&self, alloc: Global, key: &str, value: &Toml) -> Result<Option<Wrong>, NoMemory> {
        match field_of(self.rows.scope.schema, self.model, key) {
            Some((number, field)) => self.rows.wrong_value(self.model, number, field, value),
            None => Ok(Some(Wrong::here(alloc))),
        }
    }

    fn missing(&self, _table: &Table) -> Option<&'static str> {
        None
    }
}
