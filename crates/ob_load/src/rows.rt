//! The rows of a module's table `row`, each where it fits: its model, its name, its values. A key
//! of this table is read here, and its meaning stands in `specs/Preset`.

ghost use Rattle.std.specs.Prelude.{◌≡◌, ◌++◌, ◌∷◌, [], ◌≤◌, IfErr, IfOk, IsSomeAnd, None, Some, codes, decimal, length, map, option_map};
ghost use Rattle.toml.specs.View.{table_view, view};
ghost use Rattle.ob_base.specs.Limits.{max_fields};
ghost use Rattle.ob_load.specs.Access as access;
ghost use Rattle.ob_load.specs.AccessFaults.{form_fault, in_entry};
ghost use Rattle.ob_load.specs.Preset as spec;
ghost use Rattle.ob_load.specs.RowFaults as fits;
ghost use Rattle.ob_load.specs.Rooms.{AreGivenTo, BringsOn, IsGivenRow, IsOfText, Tells};
ghost use Rattle.ob_schema.specs.Models.{HasModel, model_at};

use crate::entry::Entry;
use crate::fault::{LoadFault, ModuleFault};
use crate::scope::{Scope, full_name, is_among};
use crate::values::{RowScope, RowValues};
use ob_base::{FieldNo, ModelNo, NoMemory, Sequence, Word};
use ob_module::{AtKey, Form, TableOf, found, listed_at, word_at};
use ob_schema::{FieldInfo, PresetRow, PresetValue};
use std::alloc::Global;
use toml::{Table, Value};

/// The rows that modules bring, so far.
#[derive(Drop)]
pub(crate) struct Brought {
    /// How many rows all groups have.
    pub(crate) first: usize,
    /// The rows behind these so far, by their full names, with their models.
    pub(crate) refs: Sequence<(Word, ModelNo)>,
    /// The rows of all groups, and the rows so far.
    pub(crate) rows: Sequence<PresetRow>,
}

impl Brought {
    /// The rows of all groups.
    pub(crate) fn behind(alloc: Global, rows: Sequence<PresetRow>) -> Brought
        ensures { result ≡ record { first = length rows; refs = []; rows = rows } }
    {
        Brought {
            first: rows.len(),
            refs: Sequence::new(alloc),
            rows,
        }
    }

    /// Adds a row by its full name.
    fn add(&mut self, name: Word, row: PresetRow) -> Result<(), NoMemory>
        ensures { IfOk result (λ _. self.new ≡ record { first = self.old.first; refs = self.old.refs ++ (name, row.model) ∷ []; rows = self.old.rows ++ row ∷ [] }) }
    {
        self.refs.push((name, row.model))?;
        self.rows.push(row)
    }
}

impl Scope<'_> {
    /// Adds the rows of a document, where all of them fit.
    pub(crate) fn add_rows(
        &self,
        document: &Table,
        names: &mut Sequence<Word>,
        brought: &mut Brought,
    ) -> Result<(), LoadFault>
        ensures fits { IfOk result (λ _. fits.rows_fault self.now.schema.now self.now.groups.now brought.old.first self.now.owner.now brought.old.refs names.old (table_view document.now) ≡ None) }
        ensures named { IfOk result (λ _. names.new ≡ names.old ++ map (access.ref_name self.now.owner.now) (access.entries_of (codes "row") (table_view document.now))) }
        ensures brought { IfOk result (λ _. BringsOn self.now.schema.now self.now.groups.now self.now.owner.now (access.entries_of (codes "row") (table_view document.now)) brought.old brought.new) }
        ensures fault { Tells result (fits.rows_fault self.now.schema.now self.now.groups.now brought.old.first self.now.owner.now brought.old.refs names.old (table_view document.now)) }
        ensures read { IfErr result IsOfText }
    {
        let entries = listed_at(document, "row");
        for (number, value) in entries.iter().enumerate() {
            let entry = Entry {
                table: "row",
                number,
                value,
            };
            let rows = RowScope {
                scope: *self,
                first: brought.first,
                refs: brought.refs.as_slice(),
            };
            let row = rows.row_from(names.as_slice(), entry)?;
            let name = self.ref_name(value)?;
            names.push(name.try_clone(self.alloc)?)?;
            brought.add(name, row)?;
        }
        Ok(())
    }

    /// The full name of a row.
    fn ref_name(&self, entry: &Value) -> Result<Word, NoMemory>
        ensures { IfOk result (λ name. name ≡ access.ref_name self.now.owner.now (view entry.now)) }
    {
        full_name(self.alloc, self.owner, word_at(entry, "ref"))
    }

    /// Whether the full name of a row is none of those that are taken.
    fn test_ref(&self, taken: &[Word], entry: Entry<'_>) -> Result<(), LoadFault>
        ensures free { IfOk result (λ _. fits.ref_is_free taken.now self.now.owner.now (view entry.entry.value.now) ≡ None) }
        ensures fault { Tells result (form_fault self.now.owner.now (in_entry entry.entry.table.now entry.entry.number
            (fits.ref_is_free taken.now self.now.owner.now (view entry.entry.value.now)))) }
        ensures read { IfErr result IsOfText }
    {
        let name = self.ref_name(entry.value)?;
        if is_among(taken, name.as_str()) {
            return Err(self.refused_key(entry, "ref"));
        }
        Ok(())
    }
}

impl RowScope<'_> {
    /// The row of an entry, where it fits.
    fn row_from(&self, taken: &[Word], entry: Entry<'_>) -> Result<PresetRow, LoadFault>
        ensures fits { IfOk result (λ _. fits.row_fits self.now.scope.schema.now self.now.scope.groups.now self.now.first self.now.refs.now taken.now self.now.scope.owner.now (view entry.entry.value.now) ≡ None) }
        ensures made { IfOk result (λ row. row ≡ spec.row_from self.now.scope.schema.now self.now.scope.groups.now self.now.first self.now.refs.now self.now.scope.owner.now entry.entry.number (view entry.entry.value.now)) }
        ensures fit { IfOk result (IsGivenRow self.now.scope.schema.now self.now.scope.groups.now self.now.first self.now.refs.now) }
        ensures fault { Tells result (form_fault self.now.scope.owner.now (in_entry entry.entry.table.now entry.entry.number
            (fits.row_fits self.now.scope.schema.now self.now.scope.groups.now self.now.first self.now.refs.now taken.now self.now.scope.owner.now (view entry.entry.value.now)))) }
        ensures read { IfErr result IsOfText }
    {
        let model = self.scope.model_of(entry)?;
        self.scope.test_ref(taken, entry)?;
        self.test_values(model, entry)?;
        let row = self.row_of(model, entry)?;
        Ok(row)
    }

    /// Whether the values of an entry are of the forms of its model's fields.
    fn test_values(&self, model: ModelNo, entry: Entry<'_>) -> Result<(), LoadFault>
        ensures fits { IfOk result (λ _. fits.values_fit self.now.scope.schema.now self.now.scope.groups.now self.now.first self.now.refs.now model (view entry.entry.value.now) ≡ None) }
        ensures fault { Tells result (form_fault self.now.scope.owner.now (in_entry entry.entry.table.now entry.entry.number
            (fits.values_fit self.now.scope.schema.now self.now.scope.groups.now self.now.first self.now.refs.now model (view entry.entry.value.now)))) }
        ensures read { IfErr result IsOfText }
    {
        let values = AtKey {
            key: "values",
            form: TableOf {
                keys: RowValues { rows: *self, model },
            },
        };
        match values.wrong(self.scope.alloc, entry.value)? {
            Some(wrong) => Err(self.scope.refused(entry, wrong, ModuleFault::Form)),
            None => Ok(()),
        }
    }

    /// The row of an entry over a model.
    fn row_of(&self, model: ModelNo, entry: Entry<'_>) -> Result<PresetRow, NoMemory>
        requires { HasModel self.now.scope.schema.now model }
        ensures made { IfOk result (λ row. row ≡ record {
          «module» = self.now.scope.owner.now;
          place = codes "row." ++ decimal entry.entry.number;
          model = model;
          values = spec.values_of self.now.scope.schema.now self.now.scope.groups.now self.now.first self.now.refs.now model (view entry.entry.value.now);
        }) }
        ensures fit { IfOk result (IsGivenRow self.now.scope.schema.now self.now.scope.groups.now self.now.first self.now.refs.now) }
    {
        let alloc = self.scope.alloc;
        let number = entry.number;
        let values = self.values_of(model, entry.value)?;
        Ok(PresetRow {
            module: Word::from_text(alloc, self.scope.owner)?,
            place: Word::new(format!(in alloc; "row.{number}")?),
            model,
            values,
        })
    }

    /// What an entry gives to the fields of a model.
    fn values_of(
        &self,
        model: ModelNo,
        entry: &Value,
    ) -> Result<Sequence<(FieldNo, PresetValue)>, NoMemory>
        requires { HasModel self.now.scope.schema.now model }
        ensures given { IfOk result (λ values. values ≡ spec.values_of self.now.scope.schema.now self.now.scope.groups.now self.now.first self.now.refs.now model (view entry.now)) }
        ensures fit { IfOk result (λ values. IsSomeAnd (model_at self.now.scope.schema.now model)
            (λ info. AreGivenTo self.now.scope.schema.now self.now.scope.groups.now self.now.first self.now.refs.now info.fields values)) }
    {
        let own = self.scope.schema.fields(model);
        match found(entry, "values") {
            Some(values) => self.values_in(model, own, values),
            None => Ok(Sequence::new(self.scope.alloc)),
        }
    }

    /// What a table of values gives to these fields, which are those of a model.
    fn values_in(
        &self,
        model: ModelNo,
        fields: &[FieldInfo],
        values: &Value,
    ) -> Result<Sequence<(FieldNo, PresetValue)>, NoMemory>
        requires same { option_map (λ info. info.fields) (model_at self.now.scope.schema.now model) ≡ Some fields.now }
        requires few { length fields.now ≤ max_fields }
        ensures given { IfOk result (λ given. given ≡ spec.values_given self.now.scope.schema.now self.now.scope.groups.now self.now.first self.now.refs.now (view values.now) 1 fields.now) }
        ensures fit { IfOk result (AreGivenTo self.now.scope.schema.now self.now.scope.groups.now self.now.first self.now.refs.now fields.now) }
    {
        let mut given = Sequence::new(self.scope.alloc);
        for (place, field) in fields.iter().enumerate() {
            let number = FieldNo(place as u16 + 1);
            if let Some(value) = self.value_in(model, number, field, values)? {
                given.push((number, value))?;
            }
        }
        Ok(given)
    }
}
