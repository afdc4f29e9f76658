//! An entry of a module's table, and the parts of it that name something: its model, its
//! groups, its own name and its domain; each is found, or refused where it stands.

ghost use Rattle.std.specs.Prelude.{◌≡◌, ◌≢◌, ◌∷◌, [], codes, IfErr, IfOk, None, Ok, Err, Some, option_and_then};
ghost use Rattle.ob_base.specs.declared.place.PathStep.TheVariants.{Item, Key};
ghost use Rattle.ob_domain.specs.Over.{IsOver};
ghost use Rattle.ob_domain.specs.Trees.{tree_of_domain};
ghost use Rattle.ob_load.specs.Access as spec;
ghost use Rattle.ob_load.specs.AccessFaults as fits;
ghost use Rattle.ob_module.specs.Meaning.{text_at, word_at};
ghost use Rattle.ob_load.specs.Rooms.{IsOfText, Refuses, Tells};
ghost use Rattle.ob_schema.specs.Models.{HasModel, model_named};
ghost use Rattle.toml.specs.View.{view};

use crate::fault::{LoadFault, ModuleFault};
use crate::reading::refused_at;
use crate::scope::{GroupName, Scope, group_id, is_among};
use ob_base::limits::MAX_CHAR_BYTES;
use ob_base::{ModelNo, NoMemory, Place, RecId, Word};
use ob_domain::{Domain, DomainFault, Json, one_domain, read};
use ob_module::{AtKey, Form, ListOf, Wrong, str_at, word_at};
use ob_schema::Schema;
use std::alloc::Global;
use toml::Value;

/// An entry of a table, by its number there.
#[derive(Clone, Copy)]
pub(crate) struct Entry<'e> {
    pub(crate) table: &'static str,
    pub(crate) number: usize,
    pub(crate) value: &'e Value,
}

impl Scope<'_> {
    /// The model that an entry names, where there is one.
    pub(crate) fn model_of(&self, entry: Entry<'_>) -> Result<ModelNo, LoadFault>
        ensures named { IfOk result (λ model. model_named self.now.schema.now (word_at (codes "model") (view entry.entry.value.now)) ≡ Some model) }
        ensures there { IfOk result (HasModel self.now.schema.now) }
        ensures fault { Tells result (fits.form_fault self.now.owner.now (fits.in_entry entry.entry.table.now entry.entry.number
            (fits.model_is_there self.now.schema.now (view entry.entry.value.now)))) }
        ensures read { IfErr result IsOfText }
    {
        match self.schema.model(word_at(entry.value, "model")) {
            Some(model) => Ok(model),
            None => Err(self.refused_key(entry, "model")),
        }
    }

    /// The group that an access line names, if it names one, where there is that group.
    pub(crate) fn group_of(&self, entry: Entry<'_>) -> Result<Option<RecId>, LoadFault>
        ensures fits { IfOk result (λ _. fits.group_is_there self.now.groups.now (view entry.entry.value.now) ≡ None) }
        ensures found { IfOk result (λ group. group ≡ option_and_then (spec.group_id self.now.groups.now) (text_at (codes "group") (view entry.entry.value.now))) }
        ensures fault { Tells result (fits.form_fault self.now.owner.now (fits.in_entry entry.entry.table.now entry.entry.number
            (fits.group_is_there self.now.groups.now (view entry.entry.value.now)))) }
        ensures read { IfErr result IsOfText }
    {
        let Some(name) = str_at(entry.value, "group") else {
            return Ok(None);
        };
        match group_id(self.groups, name) {
            Some(id) => Ok(Some(id)),
            None => Err(self.refused_key(entry, "group")),
        }
    }

    /// Whether a list at a key of an entry names groups that there are; there need be none.
    pub(crate) fn test_groups(&self, entry: Entry<'_>, key: &'static str) -> Result<(), LoadFault>
        ensures fits { IfOk result (λ _. fits.groups_at key.now self.now.groups.now (view entry.entry.value.now) ≡ None) }
        ensures fault { Tells result (fits.form_fault self.now.owner.now (fits.in_entry entry.entry.table.now entry.entry.number
            (fits.groups_at key.now self.now.groups.now (view entry.entry.value.now)))) }
        ensures read { IfErr result IsOfText }
    {
        let groups = AtKey {
            key,
            form: ListOf {
                items: GroupName {
                    groups: self.groups,
                },
            },
        };
        match groups.wrong(self.alloc, entry.value)? {
            Some(wrong) => Err(self.refused(entry, wrong, ModuleFault::Form)),
            None => Ok(()),
        }
    }

    /// The full name of an entry, where it is none of those that are taken.
    pub(crate) fn free_name(&self, taken: &[Word], entry: Entry<'_>) -> Result<Word, LoadFault>
        ensures free { IfOk result (λ _. fits.name_is_free taken.now self.now.owner.now (view entry.entry.value.now) ≡ None) }
        ensures named { IfOk result (λ name. name ≡ spec.name_of self.now.owner.now (view entry.entry.value.now)) }
        ensures fault { Tells result (fits.form_fault self.now.owner.now (fits.in_entry entry.entry.table.now entry.entry.number
            (fits.name_is_free taken.now self.now.owner.now (view entry.entry.value.now)))) }
        ensures read { IfErr result IsOfText }
    {
        let name = self.name_of(entry.value)?;
        if is_among(taken, name.as_str()) {
            return Err(self.refused_key(entry, "name"));
        }
        Ok(name)
    }

    /// The full name of a group, where its row may have it and it is none of those that are
    /// taken.
    pub(crate) fn group_name(&self, taken: &[Word], entry: Entry<'_>) -> Result<Word, LoadFault>
        ensures fits { IfOk result (λ _. fits.name_fits taken.now self.now.owner.now (view entry.entry.value.now) ≡ None) }
        ensures named { IfOk result (λ name. name ≡ spec.name_of self.now.owner.now (view entry.entry.value.now)) }
        ensures fault { Tells result (fits.form_fault self.now.owner.now (fits.in_entry entry.entry.table.now entry.entry.number
            (fits.name_fits taken.now self.now.owner.now (view entry.entry.value.now)))) }
        ensures read { IfErr result IsOfText }
    {
        let name = self.name_of(entry.value)?;
        if name.as_str().len() > MAX_CHAR_BYTES {
            return Err(self.refused_key(entry, "name"));
        }
        self.free_name(taken, entry)
    }

    /// The domain of a rule over a model, where its text is one.
    pub(crate) fn domain_of(&self, model: ModelNo, entry: Entry<'_>) -> Result<Domain, LoadFault>
        requires { HasModel self.now.schema.now model }
        ensures told { IfOk result (λ domain. spec.domain_in self.now.schema.now model (word_at (codes "domain") (view entry.entry.value.now)) ≡ Ok (tree_of_domain domain)) }
        ensures over { IfOk result (λ domain. IsOver self.now.schema.now model (tree_of_domain domain)) }
        ensures fault { entry.entry.table.now ≡ codes "rule" → Tells result (fits.domain_fault self.now.owner.now entry.entry.number
            (spec.domain_in self.now.schema.now model (word_at (codes "domain") (view entry.entry.value.now)))) }
        ensures read { IfErr result IsOfText }
    {
        match domain_from(
            self.alloc,
            self.schema,
            model,
            word_at(entry.value, "domain"),
        ) {
            Ok(domain) => Ok(domain),
            Err(DomainFault::NoMemory) => Err(LoadFault::NoMemory),
            Err(fault) => {
                let whole = Wrong::here(self.alloc);
                Err(self.refused(entry, whole, ModuleFault::Domain(fault)))
            }
        }
    }

    /// What is told of a key of an entry that names nothing, or whose name is taken.
    pub(crate) fn refused_key(&self, entry: Entry<'_>, key: &str) -> LoadFault
        ensures told { Refuses (record { name = self.now.owner.now; place = Key entry.entry.table.now ∷ (Item entry.entry.number ∷ (Key key.now ∷ [])); fault = ModuleFault.Form }) result }
        ensures read { IsOfText result }
    {
        match Wrong::here(self.alloc).under_key(self.alloc, key) {
            Ok(wrong) => self.refused(entry, wrong, ModuleFault::Form),
            Err(NoMemory) => LoadFault::NoMemory,
        }
    }

    /// What is told of an entry in which something is wrong.
    pub(crate) fn refused(&self, entry: Entry<'_>, wrong: Wrong, fault: ModuleFault) -> LoadFault
        requires { fault ≢ ModuleFault.Absent }
        ensures told { Refuses (record { name = self.now.owner.now; place = Key entry.entry.table.now ∷ (Item entry.entry.number ∷ wrong); fault = fault }) result }
        ensures read { IsOfText result }
    {
        match entry_place(self.alloc, entry, wrong) {
            Ok(place) => refused_at(self.alloc, self.owner, place, fault),
            Err(NoMemory) => LoadFault::NoMemory,
        }
    }
}

/// The place of something in an entry, from the module on.
fn entry_place(alloc: Global, entry: Entry<'_>, wrong: Wrong) -> Result<Place, NoMemory>
    ensures { IfOk result (λ place. place ≡ Key entry.entry.table.now ∷ (Item entry.entry.number ∷ wrong)) }
{
    let wrong = wrong.under_item(entry.number as u64)?;
    wrong.under_key(alloc, entry.table)?.into_place(alloc)
}

/// The domain of a model that a text is, as JSON.
fn domain_from(
    alloc: Global,
    schema: &Schema,
    model: ModelNo,
    text: &str,
) -> Result<Domain, DomainFault>
    requires { HasModel schema.now model }
    ensures told { IfOk result (λ domain. spec.domain_in schema.now model text.now ≡ Ok (tree_of_domain domain)) }
    ensures over { IfOk result (λ domain. IsOver schema.now model (tree_of_domain domain)) }
    ensures fault { IfErr result (λ why. why ≢ DomainFault.NoMemory → spec.domain_in schema.now model text.now ≡ Err why) }
{
    one_domain();
    match Json::from_str(alloc, text) {
        Ok(json) => read(alloc, &json, schema, model),
        Err(error) if error.is_memory() => Err(DomainFault::NoMemory),
        Err(_) => Err(DomainFault::Shape(Place::whole(alloc))),
    }
}
