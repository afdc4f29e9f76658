//! A policy from JSON: `groups`, each `[NAME, IDS]` with what it implies; `accesses`, each
//! `[MODEL, GROUP, OPS]`; `rules`, each `[NAME, MODEL, GROUPS, OPS, DOMAIN]`. A group that is
//! null is every user, groups that are null are no groups; operations are a list of names.

ghost use Rattle.std.specs.Prelude.{All, IfSome};
ghost use Rattle.ob_domain.specs.Over.{IsOver};
ghost use Rattle.ob_domain.specs.Trees.{tree_of_domain};
ghost use Rattle.ob_access.specs.Policies.{IsPolicyOver};
ghost use Rattle.ob_schema.specs.Models.{HasModel};

use ob_access::{AccessLine, Group, Ops, Policy, Rule, fits};
use ob_base::{ModelNo, Op, RecId, RefList, Sequence};
use ob_domain::{Domain, DomainFault, Json, read};
use ob_schema::Schema;
use probe_parts::parts::{ids_of, items_of, list_part, text_of};
use probe_parts::told::Told;
use probe_parts::words::plain_word;
use std::alloc::Global;

/// The policy of an object over a registry.
pub(crate) fn policy(alloc: Global, told: &mut Told, schema: &Schema, json: &Json) -> Option<Policy>
    ensures { IfSome result (IsPolicyOver schema.now) }
{
    let groups = list_part(told, json, "groups");
    let groups = groups_from(alloc, told, groups);
    let accesses = list_part(told, json, "accesses");
    let accesses = accesses_from(alloc, told, schema, accesses);
    let rules = list_part(told, json, "rules");
    let rules = rules_from(alloc, told, schema, rules);
    if !fits(
        schema,
        groups.as_slice(),
        accesses.as_slice(),
        rules.as_slice(),
    ) {
        told.refuse();
        return None;
    }
    match Policy::new(alloc, schema, groups, accesses, rules) {
        Ok(policy) => Some(policy),
        Err(_) => {
            told.lack();
            None
        }
    }
}

/// The operation of a name.
pub(crate) fn op_of(json: &Json) -> Option<Op> {
    match json.as_str() {
        Some("read") => Some(Op::Read),
        Some("create") => Some(Op::Create),
        Some("write") => Some(Op::Write),
        Some("unlink") => Some(Op::Unlink),
        _ => None,
    }
}

/// The operations of a list of names.
fn ops_of(told: &mut Told, json: &Json) -> Ops {
    let mut ops = Ops {
        read: false,
        create: false,
        write: false,
        unlink: false,
    };
    for name in items_of(told, json) {
        add_op(told, &mut ops, name);
    }
    ops
}

/// Adds the operation of a name.
fn add_op(told: &mut Told, ops: &mut Ops, name: &Json) {
    match op_of(name) {
        Some(Op::Read) => ops.read = true,
        Some(Op::Create) => ops.create = true,
        Some(Op::Write) => ops.write = true,
        Some(Op::Unlink) => ops.unlink = true,
        None => told.refuse(),
    }
}

/// The groups of a list.
fn groups_from(alloc: Global, told: &mut Told, list: &[Json]) -> Sequence<Group> {
    let mut groups = Sequence::new(alloc);
    for json in list {
        add_group(alloc, told, &mut groups, json);
    }
    groups
}

/// Adds a group with those that it implies.
fn add_group(alloc: Global, told: &mut Told, groups: &mut Sequence<Group>, json: &Json) {
    let [name, implied] = items_of(told, json) else {
        return told.refuse();
    };
    let name = text_of(told, name);
    let name = plain_word(alloc, told, name);
    let implies = ids_of(alloc, told, implied);
    told.add(groups, Group { name, implies });
}

/// The access lines of a list.
fn accesses_from(
    alloc: Global,
    told: &mut Told,
    schema: &Schema,
    list: &[Json],
) -> Sequence<AccessLine> {
    let mut lines = Sequence::new(alloc);
    for json in list {
        add_access(told, schema, &mut lines, json);
    }
    lines
}

/// Adds an access line.
fn add_access(told: &mut Told, schema: &Schema, lines: &mut Sequence<AccessLine>, json: &Json) {
    let [model, group, names] = items_of(told, json) else {
        return told.refuse();
    };
    let model = model_of(told, schema, model);
    let group = match group.as_u64() {
        Some(id) => Some(RecId(id)),
        None => None,
    };
    let ops = ops_of(told, names);
    told.add(lines, AccessLine { model, group, ops });
}

/// The model of a name.
fn model_of(told: &mut Told, schema: &Schema, json: &Json) -> ModelNo {
    let name = text_of(told, json);
    told.found(schema.model(name), ModelNo(0))
}

/// The rules of a list, each with a domain of its model.
fn rules_from(alloc: Global, told: &mut Told, schema: &Schema, list: &[Json]) -> Sequence<Rule>
    ensures { All (λ rule. IsOver schema.now rule.model (tree_of_domain rule.domain)) result }
{
    let mut rules = Sequence::new(alloc);
    for json in list {
        let Some(rule) = rule_from(alloc, told, schema, json) else {
            continue;
        };
        if rules.push(rule).is_err() {
            told.lack();
            return Sequence::new(alloc);
        }
    }
    rules
}

/// A rule with a domain of its model; none where it is of another form.
fn rule_from(alloc: Global, told: &mut Told, schema: &Schema, json: &Json) -> Option<Rule>
    ensures { IfSome result (λ rule. IsOver schema.now rule.model (tree_of_domain rule.domain)) }
{
    let [name, model, groups, names, domain] = items_of(told, json) else {
        told.refuse();
        return None;
    };
    let model = model_in(told, schema, model)?;
    let domain = domain_from(alloc, told, schema, model, domain)?;
    let name = text_of(told, name);
    Some(Rule {
        name: plain_word(alloc, told, name),
        model,
        groups: groups_of(alloc, told, groups),
        ops: ops_of(told, names),
        domain,
    })
}

/// A model of the registry by its name.
fn model_in(told: &mut Told, schema: &Schema, json: &Json) -> Option<ModelNo>
    ensures { IfSome result (HasModel schema.now) }
{
    let model = match json {
        Json::String(name) => schema.model(name.as_str()),
        _ => None,
    };
    if model.is_none() {
        told.refuse();
    }
    model
}

/// A domain of a model; none where it is none.
fn domain_from(
    alloc: Global,
    told: &mut Told,
    schema: &Schema,
    model: ModelNo,
    json: &Json,
) -> Option<Domain>
    requires { HasModel schema.now model }
    ensures { IfSome result (λ domain. IsOver schema.now model (tree_of_domain domain)) }
{
    match read(alloc, json, schema, model) {
        Ok(domain) => Some(domain),
        Err(DomainFault::NoMemory) => {
            told.lack();
            None
        }
        Err(_) => {
            told.refuse();
            None
        }
    }
}

/// The groups to whose users a rule applies; without them it is global.
fn groups_of(alloc: Global, told: &mut Told, json: &Json) -> Option<RefList> {
    match json {
        Json::Null => None,
        _ => Some(ids_of(alloc, told, json)),
    }
}
