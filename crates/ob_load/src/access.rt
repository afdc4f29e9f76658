//! What a module declares of access: its groups, access lines and rules, each entry where it
//! fits. A key of these tables is read here, and its meaning stands in `specs/Access`.

ghost use Rattle.std.specs.Prelude.{◌≡◌, ◌≢◌, ◌∷◌, ◌++◌, [], codes, IfErr, IfOk, None, Ok, Some, length, map, option_map};
ghost use Rattle.ob_access.specs.Policies.{rule_data};
ghost use Rattle.ob_domain.specs.Over.{IsOver};
ghost use Rattle.ob_domain.specs.Trees.{tree_of_domain};
ghost use Rattle.ob_load.specs.Access as spec;
ghost use Rattle.ob_load.specs.AccessFaults as fits;
ghost use Rattle.ob_module.specs.Forms as forms;
ghost use Rattle.ob_module.specs.Meaning.{text_at, texts_at};
ghost use Rattle.ob_load.specs.Rooms.{GrowsBy, IsOfText, Tells};
ghost use Rattle.ob_schema.specs.Models.{HasModel};
ghost use Rattle.toml.specs.Data.{table};
ghost use Rattle.toml.specs.View.{table_view, view};

use crate::entry::Entry;
use crate::fault::{LoadFault, ModuleFault};
use crate::reading::refused_at;
use crate::scope::{GroupName, Scope, is_among};
use ob_access::{AccessLine, Group, Ops, Rule};
use ob_base::{NoMemory, RefList, Sequence, Word};
use ob_module::{AnyKey, AtKey, Form, ListOf, TableOf, Wrong, is_set, listed_at, member, texts_at};
use std::alloc::Global;
use toml::{Table, Value};

/// What modules declare of access, so far.
#[derive(Drop)]
pub(crate) struct Declared {
    /// The full names that are taken.
    pub(crate) names: Sequence<Word>,
    pub(crate) groups: Sequence<Group>,
    pub(crate) lines: Sequence<AccessLine>,
    pub(crate) rules: Sequence<Rule>,
}

impl Declared {
    /// Nothing yet.
    pub(crate) fn new(alloc: Global) -> Declared
        ensures { result ≡ record { names = []; groups = []; lines = []; rules = [] } }
    {
        Declared {
            names: Sequence::new(alloc),
            groups: Sequence::new(alloc),
            lines: Sequence::new(alloc),
            rules: Sequence::new(alloc),
        }
    }
}

impl Scope<'_> {
    /// Adds what a document declares, where all of it fits.
    pub(crate) fn add(&self, document: &Table, declared: &mut Declared) -> Result<(), LoadFault>
        ensures fits { IfOk result (λ _. fits.document_fault self.now.schema.now self.now.groups.now self.now.owner.now declared.old.names (table_view document.now) ≡ None) }
        ensures grows { IfOk result (λ _. let document = table_view document.now in let groups = self.now.groups.now in let owner = self.now.owner.now in
            GrowsBy self.now.schema.now (length self.now.groups.now) declared.old declared.new
            (map (spec.name_of owner) (spec.entries_of (codes "group") document) ++ map (spec.name_of owner) (spec.entries_of (codes "rule") document))
            (map (spec.group_from groups owner) (spec.entries_of (codes "group") document))
            (map (spec.line_from self.now.schema.now groups) (spec.entries_of (codes "access") document))
            (map (spec.rule_from self.now.schema.now groups owner) (spec.entries_of (codes "rule") document))) }
        ensures fault { Tells result (fits.document_fault self.now.schema.now self.now.groups.now self.now.owner.now declared.old.names (table_view document.now)) }
        ensures read { IfErr result IsOfText }
    {
        self.test_fields(document)?;
        self.add_groups(document, declared)?;
        self.add_lines(document, declared)?;
        self.add_rules(document, declared)
    }

    /// Whether the fields of a document's models name groups that there are.
    fn test_fields(&self, document: &Table) -> Result<(), LoadFault>
        ensures fits { IfOk result (λ _. fits.models_fit self.now.groups.now (table_view document.now) ≡ None) }
        ensures fault { Tells result (fits.form_fault self.now.owner.now (fits.models_fit self.now.groups.now (table_view document.now))) }
        ensures read { IfErr result IsOfText }
    {
        let groups = AtKey {
            key: "groups",
            form: ListOf {
                items: GroupName {
                    groups: self.groups,
                },
            },
        };
        let fields = TableOf {
            keys: AnyKey { values: groups },
        };
        let models = ListOf {
            items: AtKey {
                key: "field",
                form: fields,
            },
        };
        match wrong_models(self.alloc, &models, document)? {
            Some(wrong) => {
                let place = wrong.into_place(self.alloc)?;
                Err(refused_at(self.alloc, self.owner, place, ModuleFault::Form))
            }
            None => Ok(()),
        }
    }

    /// Adds the groups of a document.
    fn add_groups(&self, document: &Table, declared: &mut Declared) -> Result<(), LoadFault>
        ensures fits { IfOk result (λ _. fits.first_fault (fits.group_fault self.now.groups.now self.now.owner.now declared.old.names)
            [] (spec.entries_of (codes "group") (table_view document.now)) ≡ None) }
        ensures grows { IfOk result (λ _. let entries = spec.entries_of (codes "group") (table_view document.now) in
            GrowsBy self.now.schema.now (length self.now.groups.now) declared.old declared.new (map (spec.name_of self.now.owner.now) entries)
            (map (spec.group_from self.now.groups.now self.now.owner.now) entries) [] []) }
        ensures fault { Tells result (fits.first_fault (fits.group_fault self.now.groups.now self.now.owner.now declared.old.names)
            [] (spec.entries_of (codes "group") (table_view document.now))) }
        ensures read { IfErr result IsOfText }
    {
        let entries = listed_at(document, "group");
        for (number, value) in entries.iter().enumerate() {
            let entry = Entry {
                table: "group",
                number,
                value,
            };
            let group = self.group_from(declared.names.as_slice(), entry)?;
            declared.names.push(group.name.try_clone(self.alloc)?)?;
            declared.groups.push(group)?;
        }
        Ok(())
    }

    /// Adds the access lines of a document.
    fn add_lines(&self, document: &Table, declared: &mut Declared) -> Result<(), LoadFault>
        ensures fits { IfOk result (λ _. fits.first_fault (fits.line_fault self.now.schema.now self.now.groups.now self.now.owner.now)
            [] (spec.entries_of (codes "access") (table_view document.now)) ≡ None) }
        ensures grows { IfOk result (λ _. let entries = spec.entries_of (codes "access") (table_view document.now) in
            GrowsBy self.now.schema.now (length self.now.groups.now) declared.old declared.new [] [] (map (spec.line_from self.now.schema.now self.now.groups.now) entries) []) }
        ensures fault { Tells result (fits.first_fault (fits.line_fault self.now.schema.now self.now.groups.now self.now.owner.now)
            [] (spec.entries_of (codes "access") (table_view document.now))) }
        ensures read { IfErr result IsOfText }
    {
        let entries = listed_at(document, "access");
        for (number, value) in entries.iter().enumerate() {
            let entry = Entry {
                table: "access",
                number,
                value,
            };
            declared.lines.push(self.line_from(entry)?)?;
        }
        Ok(())
    }

    /// Adds the rules of a document.
    fn add_rules(&self, document: &Table, declared: &mut Declared) -> Result<(), LoadFault>
        ensures fits { IfOk result (λ _. fits.first_fault (fits.rule_fault self.now.schema.now self.now.groups.now self.now.owner.now declared.old.names)
            [] (spec.entries_of (codes "rule") (table_view document.now)) ≡ None) }
        ensures grows { IfOk result (λ _. let entries = spec.entries_of (codes "rule") (table_view document.now) in
            GrowsBy self.now.schema.now (length self.now.groups.now) declared.old declared.new (map (spec.name_of self.now.owner.now) entries) [] []
            (map (spec.rule_from self.now.schema.now self.now.groups.now self.now.owner.now) entries)) }
        ensures fault { Tells result (fits.first_fault (fits.rule_fault self.now.schema.now self.now.groups.now self.now.owner.now declared.old.names)
            [] (spec.entries_of (codes "rule") (table_view document.now))) }
        ensures read { IfErr result IsOfText }
    {
        let entries = listed_at(document, "rule");
        for (number, value) in entries.iter().enumerate() {
            let entry = Entry {
                table: "rule",
                number,
                value,
            };
            let rule = self.rule_from(declared.names.as_slice(), entry)?;
            declared.names.push(rule.name.try_clone(self.alloc)?)?;
            declared.rules.push(rule)?;
        }
        Ok(())
    }

    /// The group of an entry.
    fn group_from(&self, taken: &[Word], entry: Entry<'_>) -> Result<Group, LoadFault>
        ensures fits { IfOk result (λ _. fits.group_fits self.now.groups.now taken.now self.now.owner.now (view entry.entry.value.now) ≡ None) }
        ensures made { IfOk result (λ group. group ≡ spec.group_from self.now.groups.now self.now.owner.now (view entry.entry.value.now)) }
        ensures fault { Tells result (fits.form_fault self.now.owner.now (fits.in_entry entry.entry.table.now entry.entry.number
            (fits.group_fits self.now.groups.now taken.now self.now.owner.now (view entry.entry.value.now)))) }
        ensures read { IfErr result IsOfText }
    {
        self.test_groups(entry, "implies")?;
        let name = self.group_name(taken, entry)?;
        let implies = match self.groups_listed(entry.value, "implies")? {
            Some(implies) => implies,
            None => RefList::new(self.alloc),
        };
        Ok(Group { name, implies })
    }

    /// The access line of an entry.
    fn line_from(&self, entry: Entry<'_>) -> Result<AccessLine, LoadFault>
        ensures fits { IfOk result (λ _. fits.line_fits self.now.schema.now self.now.groups.now (view entry.entry.value.now) ≡ None) }
        ensures there { IfOk result (λ line. HasModel self.now.schema.now line.model) }
        ensures made { IfOk result (λ line. line ≡ spec.line_from self.now.schema.now self.now.groups.now (view entry.entry.value.now)) }
        ensures fault { Tells result (fits.form_fault self.now.owner.now (fits.in_entry entry.entry.table.now entry.entry.number
            (fits.line_fits self.now.schema.now self.now.groups.now (view entry.entry.value.now)))) }
        ensures read { IfErr result IsOfText }
    {
        let model = self.model_of(entry)?;
        let group = self.group_of(entry)?;
        let ops = granted_ops(entry.value);
        Ok(AccessLine { model, group, ops })
    }

    /// The rule of an entry.
    fn rule_from(&self, taken: &[Word], entry: Entry<'_>) -> Result<Rule, LoadFault>
        requires { entry.table.now ≡ codes "rule" }
        ensures fits { IfOk result (λ _. fits.rule_misfit self.now.schema.now self.now.groups.now self.now.owner.now taken.now entry.entry.number (view entry.entry.value.now) ≡ None) }
        ensures made { IfOk result (λ rule. rule_data rule ≡ spec.rule_from self.now.schema.now self.now.groups.now self.now.owner.now (view entry.entry.value.now)) }
        ensures there { IfOk result (λ rule. HasModel self.now.schema.now rule.model) }
        ensures over { IfOk result (λ rule. IsOver self.now.schema.now rule.model (tree_of_domain rule.domain)) }
        ensures fault { Tells result (fits.rule_misfit self.now.schema.now self.now.groups.now self.now.owner.now taken.now entry.entry.number (view entry.entry.value.now)) }
        ensures read { IfErr result IsOfText }
    {
        let model = self.model_of(entry)?;
        let domain = self.domain_of(model, entry)?;
        self.test_groups(entry, "groups")?;
        let name = self.free_name(taken, entry)?;
        Ok(Rule {
            name,
            model,
            groups: self.groups_listed(entry.value, "groups")?,
            ops: asked_ops(self.alloc, entry.value)?,
            domain,
        })
    }

    /// The ids of the groups in a list at a key, where there is one.
    fn groups_listed(&self, entry: &Value, key: &str) -> Result<Option<RefList>, NoMemory>
        ensures { IfOk result (λ ids. ids ≡ option_map (spec.group_ids self.now.groups.now) (texts_at key.now (view entry.now))) }
    {
        match texts_at(self.alloc, entry, key)? {
            Some(names) => Ok(Some(self.group_ids(names.as_slice())?)),
            None => Ok(None),
        }
    }
}

/// The operations that an access line grants.
fn granted_ops(entry: &Value) -> Ops
    ensures { result ≡ spec.granted_ops (view entry.now) }
{
    Ops {
        read: is_set(entry, "read"),
        create: is_set(entry, "create"),
        write: is_set(entry, "write"),
        unlink: is_set(entry, "unlink"),
    }
}

/// The operations for which a rule is asked.
fn asked_ops(alloc: Global, entry: &Value) -> Result<Ops, NoMemory>
    ensures { IfOk result (λ ops. ops ≡ spec.asked_ops (view entry.now)) }
{
    match texts_at(alloc, entry, "ops")? {
        Some(names) => Ok(ops_named(names.as_slice())),
        None => Ok(Ops::ALL),
    }
}

/// The operations of these names.
fn ops_named(names: &[Word]) -> Ops
    ensures { result ≡ spec.ops_named names.now }
{
    Ops {
        read: is_among(names, "read"),
        create: is_among(names, "create"),
        write: is_among(names, "write"),
        unlink: is_among(names, "unlink"),
    }
}

/// Where the models of a document break a form first.
fn wrong_models<F: Form>(
    alloc: Global,
    form: &F,
    document: &Table,
) -> Result<Option<Wrong>, NoMemory>
    ensures { IfOk result (λ found. found ≡ forms.at_key (codes "model") (F.wrong form.now) (table (table_view document.now))) }
{
    let Some(models) = member(document, "model") else {
        return Ok(None);
    };
    match form.wrong(alloc, models)? {
        Some(wrong) => Ok(Some(wrong.under_key(alloc, "model")?)),
        None => Ok(None),
    }
}
