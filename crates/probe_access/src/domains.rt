//! Domains from a line: one JSON object with the `model`, the id of the `user`, the `rows` of
//! `row_facts`, the `domain` or some `domains`, and the definitions of other `models` than those
//! that stand here.

ghost use Rattle.std.specs.Prelude.{◌≡◌};
ghost use Rattle.ob_domain.specs.Over.{IsOver};
ghost use Rattle.ob_domain.specs.Trees.{tree_of_domain};
ghost use Rattle.ob_schema.specs.Models.{HasModel};

use crate::row_facts::RowFacts;
use crate::unanswered::Unanswered;
use ob_base::{ModelNo, RecId};
use ob_domain::{Domain, DomainFault, Json, holds, read};
use ob_schema::{Facts, Schema};
use probe_parts::definitions::schema_of;
use probe_parts::parts::{id_of, items_of, part, text_of, text_part};
use probe_parts::told::{Told, put_id};
use std::alloc::Global;

/// The models of a line that defines none (tools/probe.py and tools/probe_domain.py declare the
/// same): one with a field of each type, of which one is computed and kept, and a tree with
/// relations, of which a computed field isn't kept.
const MODELS: &str =
    "name=probe.row | at datetime | day date | done boolean | name char | note text | qty integer | state selection selection=draft:draft:done:done | square integer compute=qty\\s*\\sqty depends=qty store=yes | owner many2one relation=probe.row | tags many2many relation=probe.row | lines one2many relation=probe.row inverse=owner || name=probe.place parent=up | name char | size integer | twice integer compute=size\\s+\\ssize depends=size | up many2one relation=probe.place | near many2many relation=probe.place | row many2one relation=probe.row | rows many2many relation=probe.row";

/// Who asks for rows of which model.
#[derive(Clone, Copy)]
struct Caller {
    model: ModelNo,
    user: RecId,
}

/// Adds the ids of the rows that meet the domain of an object, or the fault; of several domains
/// each.
pub(crate) fn put_domain(alloc: Global, told: &mut Told, times: u32, json: &Json) {
    let models = match json.get("models") {
        Some(models) => text_of(told, models),
        None => MODELS,
    };
    if let Some(schema) = schema_of(alloc, told, models) {
        put_over(alloc, told, times, &schema, json);
    }
}

/// Adds what domains over a registry give.
fn put_over(alloc: Global, told: &mut Told, times: u32, schema: &Schema, json: &Json) {
    let name = text_part(told, json, "model");
    let user = part(told, json, "user");
    let user = id_of(told, user);
    let Some(model) = schema.model(name) else {
        return told.refuse();
    };
    let caller = Caller { model, user };
    let mut facts = RowFacts::of(alloc, told, schema, json);
    let ids = facts.ids(told, model);
    for _ in 1..times {
        let mut unread = Told::new(alloc);
        put_domains(alloc, &mut unread, &mut facts, caller, ids.as_slice(), json);
    }
    put_domains(alloc, told, &mut facts, caller, ids.as_slice(), json);
}

/// Adds what the domain of an object gives, or each of several.
fn put_domains(
    alloc: Global,
    told: &mut Told,
    facts: &mut RowFacts<'_>,
    caller: Caller,
    ids: &[RecId],
    json: &Json,
)
    requires { HasModel facts.old.schema.now caller.model }
    ensures { facts.new.schema.now ≡ facts.old.schema.now }
{
    match json.get("domains") {
        Some(domains) => {
            let domains = items_of(told, domains);
            put_each(alloc, told, facts, caller, ids, domains);
        }
        None => {
            let domain = part(told, json, "domain");
            put_asked(alloc, told, facts, caller, ids, domain);
        }
    }
}

/// Adds what each of some domains gives.
fn put_each(
    alloc: Global,
    told: &mut Told,
    facts: &mut RowFacts<'_>,
    caller: Caller,
    ids: &[RecId],
    domains: &[Json],
)
    requires { HasModel facts.old.schema.now caller.model }
    ensures { facts.new.schema.now ≡ facts.old.schema.now }
{
    let mut is_first = true;
    for domain in domains {
        told.put(if is_first { "" } else { " | " });
        put_asked(alloc, told, facts, caller, ids, domain);
        is_first = false;
    }
}

/// Adds what reading a domain and asking each of these rows gives.
fn put_asked(
    alloc: Global,
    told: &mut Told,
    facts: &mut RowFacts<'_>,
    caller: Caller,
    ids: &[RecId],
    json: &Json,
)
    requires { HasModel facts.old.schema.now caller.model }
    ensures { facts.new.schema.now ≡ facts.old.schema.now }
{
    match read(alloc, json, facts.schema(), caller.model) {
        Ok(domain) => put_meeting(alloc, told, facts, &domain, caller, ids),
        Err(DomainFault::NoMemory) => told.lack(),
        Err(fault) => told.put_shown(&fault),
    }
}

/// Adds the ids of those rows that meet a domain, and of those for which a question fails.
fn put_meeting(
    alloc: Global,
    told: &mut Told,
    facts: &mut RowFacts<'_>,
    domain: &Domain,
    caller: Caller,
    ids: &[RecId],
)
    requires model { HasModel facts.old.schema.now caller.model }
    requires over { IsOver facts.old.schema.now caller.model (tree_of_domain domain.now) }
    ensures { facts.new.schema.now ≡ facts.old.schema.now }
{
    let mut meets_none = true;
    for id in ids {
        let before = if meets_none { "" } else { " " };
        if put_one(alloc, told, facts, domain, caller, *id, before) {
            meets_none = false;
        }
    }
    if meets_none {
        told.put("none");
    }
}

/// Adds the id of a row, where it meets a domain or a question fails, and whether it was added.
fn put_one(
    alloc: Global,
    told: &mut Told,
    facts: &mut RowFacts<'_>,
    domain: &Domain,
    caller: Caller,
    id: RecId,
    before: &str,
) -> bool
    requires model { HasModel facts.old.schema.now caller.model }
    requires over { IsOver facts.old.schema.now caller.model (tree_of_domain domain.now) }
    ensures { facts.new.schema.now ≡ facts.old.schema.now }
{
    match meets(alloc, facts, domain, caller, id) {
        Ok(true) => put_id(told, before, id),
        Ok(false) => return false,
        Err(Unanswered::Failed) => {
            put_id(told, before, id);
            told.put(":failed");
        }
        Err(Unanswered::NoMemory) => told.lack(),
    }
    true
}

/// Whether a row is known and meets a domain.
fn meets(
    alloc: Global,
    facts: &mut RowFacts<'_>,
    domain: &Domain,
    caller: Caller,
    id: RecId,
) -> Result<bool, Unanswered>
    requires model { HasModel facts.old.schema.now caller.model }
    requires over { IsOver facts.old.schema.now caller.model (tree_of_domain domain.now) }
    ensures { facts.new.schema.now ≡ facts.old.schema.now }
{
    // One more: whether it is known.
    facts.left = facts.answered.saturating_add(1);
    let is_known = facts.known(caller.model, id)?;
    if !is_known {
        return Ok(false);
    }
    Ok(holds(alloc, domain, caller.user, caller.model, id, facts)?)
}
