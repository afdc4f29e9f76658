//! The policy that modules declare over their registry, and the rows that they bring, in the
//! order in which they are taken; or the first name or value of theirs that doesn't fit.

ghost use Rattle.std.specs.Prelude.{◌≡◌, ◌++◌, List, IfErr, IfOk, None, codes, length, map};
ghost use Rattle.ob_access.specs.Policies.{IsPolicyOver};
ghost use Rattle.ob_load.specs.Access as spec;
ghost use Rattle.ob_load.specs.Preset.{declared_preset};
ghost use Rattle.ob_module.specs.Modules.{Module, numbered};
ghost use Rattle.ob_load.specs.Rooms.{BringsOn, GrowsBy, IsOfText, Tells};
ghost use Rattle.ob_module.specs.Rooms.{modules_in};
ghost use Rattle.ob_load.specs.RowFaults.{modules_fault, whole_fault};
ghost use Rattle.ob_schema.specs.Presets.{IsPreset};
ghost use Rattle.toml.specs.View.{table_view};

use crate::access::Declared;
use crate::fault::LoadFault;
use crate::preset::group_rows;
use crate::rows::Brought;
use crate::scope::{Scope, full_name};
use ob_access::Policy;
use ob_base::{NoMemory, Sequence, Word};
use ob_module::{Modules, listed_at, word_at};
use ob_schema::{Preset, Schema};
use std::alloc::Global;
use toml::Table;

/// The policy that modules declare over the registry of their models, and the rows that a new
/// store gets.
pub(crate) fn meaning_of(
    alloc: Global,
    schema: &Schema,
    modules: &Modules,
    taken: &[usize],
) -> Result<(Policy, Preset), LoadFault>
    requires { (all : List Module) × numbered (modules_in modules.now) taken.now all }
    ensures fits { IfOk result (λ _. (all : List Module) → numbered (modules_in modules.now) taken.now all → modules_fault schema.now all ≡ None) }
    ensures declared { IfOk result (λ meant. (all : List Module) → numbered (modules_in modules.now) taken.now all → meant.0 ≡ spec.declared_policy schema.now all) }
    ensures brought { IfOk result (λ meant. (all : List Module) → numbered (modules_in modules.now) taken.now all → meant.1.rows ≡ declared_preset schema.now all) }
    ensures over { IfOk result (λ meant. IsPolicyOver schema.now meant.0) }
    ensures preset { IfOk result (λ meant. IsPreset schema.now meant.1.rows) }
    ensures fault { (all : List Module) → numbered (modules_in modules.now) taken.now all → Tells result (modules_fault schema.now all) }
    ensures read { IfErr result IsOfText }
{
    let mut groups = Sequence::new(alloc);
    let mut declared = Declared::new(alloc);
    let rows = group_rows(alloc, schema, modules, taken)?;
    let mut brought = Brought::behind(alloc, rows);
    for number in taken {
        let owner = modules.name(*number);
        let document = modules.document(*number);
        add_group_names(alloc, owner, document, &mut groups)?;
        let scope = Scope {
            alloc,
            schema,
            owner,
            groups: groups.as_slice(),
        };
        scope.add_module(document, &mut declared, &mut brought)?;
    }
    let preset = Preset { rows: brought.rows };
    let policy = Policy::new(
        alloc,
        schema,
        declared.groups,
        declared.lines,
        declared.rules,
    )?;
    Ok((policy, preset))
}

impl Scope<'_> {
    /// Adds what a document declares of access and the rows that it brings, where all fits.
    fn add_module(
        &self,
        document: &Table,
        declared: &mut Declared,
        brought: &mut Brought,
    ) -> Result<(), LoadFault>
        ensures fits { IfOk result (λ _. whole_fault self.now.schema.now self.now.groups.now brought.old.first self.now.owner.now brought.old.refs declared.old.names (table_view document.now) ≡ None) }
        ensures grows { IfOk result (λ _. let document = table_view document.now in let groups = self.now.groups.now in let owner = self.now.owner.now in
            GrowsBy self.now.schema.now (length self.now.groups.now) declared.old declared.new
            (map (spec.name_of owner) (spec.entries_of (codes "group") document) ++ map (spec.name_of owner) (spec.entries_of (codes "rule") document)
            ++ map (spec.ref_name owner) (spec.entries_of (codes "row") document))
            (map (spec.group_from groups owner) (spec.entries_of (codes "group") document))
            (map (spec.line_from self.now.schema.now groups) (spec.entries_of (codes "access") document))
            (map (spec.rule_from self.now.schema.now groups owner) (spec.entries_of (codes "rule") document))) }
        ensures brings { IfOk result (λ _. BringsOn self.now.schema.now self.now.groups.now self.now.owner.now (spec.entries_of (codes "row") (table_view document.now)) brought.old brought.new) }
        ensures fault { Tells result (whole_fault self.now.schema.now self.now.groups.now brought.old.first self.now.owner.now brought.old.refs declared.old.names (table_view document.now)) }
        ensures read { IfErr result IsOfText }
    {
        self.add(document, declared)?;
        self.add_rows(document, &mut declared.names, brought)
    }
}

/// Adds the full names of the groups of a module.
fn add_group_names(
    alloc: Global,
    owner: &str,
    document: &Table,
    names: &mut Sequence<Word>,
) -> Result<(), NoMemory>
    ensures { IfOk result (λ _. names.new ≡ names.old ++ map (spec.name_of owner.now) (spec.entries_of (codes "group") (table_view document.now))) }
{
    for entry in listed_at(document, "group") {
        names.push(full_name(alloc, owner, word_at(entry, "name"))?)?;
    }
    Ok(())
}
