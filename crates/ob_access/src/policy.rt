//! What modules declare of access, and the policy that is made of it over a registry.
//! Contracts see plain data (`specs/Policies`); the indexes here may change at will.

ghost use Rattle.std.specs.Prelude.{◌≡◌, IfOk, map, option_map};
ghost use Rattle.ob_access.specs.Policies.{IsPolicyOver, field_access, group_named, groups_named, policy_of};
ghost use Rattle.ob_schema.specs.Models.{fields_of};

use crate::index::{Index, index_of_lines, index_of_rules};
use crate::ops::Ops;
use ob_base::{ModelNo, NoMemory, RecId, RefList, Sequence, Word};
use ob_domain::Domain;
use ob_schema::{FieldInfo, ModelInfo, Schema};
use std::alloc::Global;
use std::marker::Model;

/// A group of users, by its full name. The k-th group of a policy has the id k.
#[derive(Debug, Drop)]
pub struct Group {
    pub name: Word,
    /// Whoever is in the group is in these too.
    pub implies: RefList,
}

/// Operations on a model's rows that are granted to a group, or to every user.
#[derive(Clone, Copy, Debug, PartialEq, Eq)]
pub struct AccessLine {
    pub model: ModelNo,
    pub group: Option<RecId>,
    pub ops: Ops,
}

/// A record rule: what rows of a model are to meet where some operations are asked of them.
#[derive(Debug, Drop)]
pub struct Rule {
    /// The full name.
    pub name: Word,
    pub model: ModelNo,
    /// The groups to whose users it applies: without a list it is global, with an empty one it
    /// applies to nobody.
    pub groups: Option<RefList>,
    pub ops: Ops,
    pub domain: Domain,
}

/// Who may use a field.
#[derive(Debug, Drop)]
pub(crate) struct FieldAccess {
    /// The groups whose users may; without a list everybody.
    pub groups: Option<Sequence<RecId>>,
    pub secret: bool,
}

/// Groups, access lines and rules, and who may use each field of a registry.
#[derive(Drop)]
pub struct Policy {
    pub(crate) groups: Sequence<Group>,
    pub(crate) accesses: Sequence<AccessLine>,
    pub(crate) rules: Sequence<Rule>,
    pub(crate) fields: Sequence<Sequence<FieldAccess>>,
    /// To whom the lines of a model for an operation grant it, in load order.
    pub(crate) lines: Index<Option<RecId>>,
    /// The places of a model's rules for an operation, in load order.
    pub(crate) places: Index<usize>,
}

impl Model for Policy {
    ghost use Rattle.std.specs.Prelude.{map};
    ghost use Rattle.std.specs.Coded.{codes};
    ghost use Rattle.ob_domain.specs.contracts.term.Test as test;
    ghost use Rattle.ob_access.specs.Coding.{tree_code};
    ghost use Rattle.ob_access.specs.Index.{IsIndexed};
    ghost use Rattle.ob_access.specs.Policies.{PolicyData, rule_data};

    ghost Value = { PolicyData };

    ghost coded = { Prim.hlevel (codes, tree_code (Prim.hlevel (codes, test.the_row.coded))) };

    ghost view = { λ p. record { groups = p.groups; accesses = p.accesses; rules = map rule_data p.rules; fields = p.fields } };

    ghost invariant = { λ p. IsIndexed p.groups p.accesses p.rules p.lines p.places };
}

impl Policy {
    /// The policy of these groups, lines and rules, in load order, over a registry. A name
    /// in a field's groups that is no group's name grants nobody.
    pub fn new(
        alloc: Global,
        schema: &Schema,
        groups: Sequence<Group>,
        accesses: Sequence<AccessLine>,
        rules: Sequence<Rule>,
    ) -> Result<Policy, NoMemory>
        requires { IsPolicyOver schema.now (policy_of schema.now groups accesses rules) }
        ensures made { IfOk result (λ policy. policy ≡ policy_of schema.now groups accesses rules) }
        ensures over { IfOk result (IsPolicyOver schema.now) }
    {
        let fields = fields_of_models(alloc, schema, groups.as_slice())?;
        let lines = index_of_lines(alloc, accesses.as_slice())?;
        let places = index_of_rules(alloc, rules.as_slice())?;
        Ok(Policy {
            groups,
            accesses,
            rules,
            fields,
            lines,
            places,
        })
    }
}

/// Who may use each field of each model.
fn fields_of_models(
    alloc: Global,
    schema: &Schema,
    groups: &[Group],
) -> Result<Sequence<Sequence<FieldAccess>>, NoMemory>
    ensures { IfOk result (λ fields. fields ≡ map (λ info. map (field_access groups.now) (fields_of info)) schema.now) }
{
    schema.parts_fit_together();
    let mut fields = Sequence::new(alloc);
    for number in 1..=u16::MAX {
        let Some(info) = schema.find_model(ModelNo(number)) else {
            break;
        };
        fields.push(fields_of_model(alloc, info, groups)?)?;
    }
    Ok(fields)
}

/// Who may use each field of a model, the conditions of its rows behind the named ones.
fn fields_of_model(
    alloc: Global,
    info: &ModelInfo,
    groups: &[Group],
) -> Result<Sequence<FieldAccess>, NoMemory>
    ensures { IfOk result (λ fields. fields ≡ map (field_access groups.now) (fields_of info.now)) }
{
    let mut fields = Sequence::new(alloc);
    for field in info.fields.as_slice() {
        fields.push(field_access(alloc, field, groups)?)?;
    }
    for field in info.hidden.as_slice() {
        fields.push(field_access(alloc, field, groups)?)?;
    }
    Ok(fields)
}

/// Who may use a field.
fn field_access(alloc: Global, field: &FieldInfo, groups: &[Group]) -> Result<FieldAccess, NoMemory>
    ensures { IfOk result (λ access. access ≡ field_access groups.now field.now) }
{
    Ok(FieldAccess {
        groups: groups_named(alloc, field.groups.as_slice(), groups)?,
        secret: field.secret,
    })
}

/// The groups that names name, or none where there are no names.
fn groups_named(
    alloc: Global,
    names: &[Word],
    groups: &[Group],
) -> Result<Option<Sequence<RecId>>, NoMemory>
    ensures { IfOk result (λ ids. ids ≡ groups_named groups.now names.now) }
{
    if names.is_empty() {
        return Ok(None);
    }
    let mut ids = Sequence::new(alloc);
    for name in names {
        if let Some(id) = group_named(name.as_str(), groups) {
            ids.push(id)?;
        }
    }
    Ok(Some(ids))
}

/// The group of a name.
fn group_named(name: &str, groups: &[Group]) -> Option<RecId>
    ensures { result ≡ group_named groups.now name.now }
{
    let place = groups.iter().position(|group| group.name.as_str() == name)?;
    Some(RecId(place as u64 + 1))
}
