//! Rights and admissions from a line: one JSON object with the definitions of its `models` as
//! a text of `probe_parts::definitions` and the policy of `policies`, or with both from modules
//! (`modules`), the `rows` of `row_facts`, and what is `asked`: questions of callers, each a list that begins with the caller's id and the
//! groups in which he is stated to be. What is told is a list with an answer to each.
//!
//! | behind the caller | answer |
//! |---|---|
//! | nothing | the ids of his groups |
//! | `MODEL, OP` | whether he has the right |
//! | `MODEL, FIELD, WRITING` | whether he has the right to read or write the field |
//! | `MODEL, ID, OP, "row"` | whether the row is admitted, and the rule that denies it, or null |

ghost use Rattle.std.specs.Prelude.{◌≡◌};
ghost use Rattle.ob_schema.specs.Models.{HasModel};
ghost use Rattle.ob_access.specs.Policies.{IsPolicyOver};

use crate::modules::loaded;
use crate::policies::{op_of, policy};
use crate::row_facts::RowFacts;
use crate::unanswered::Unanswered;
use ob_access::{GroupSet, Policy};
use ob_base::{ModelNo, Op, RecId, Word};
use ob_domain::Json;
use ob_schema::{Facts, Schema};
use probe_parts::definitions::schema_of;
use probe_parts::parts::{id_of, ids_of, items_of, list_part, text_of, text_part};
use probe_parts::told::{Told, put_list, put_text};
use std::alloc::Global;

/// A caller: his id and his groups.
#[derive(Clone, Copy)]
struct Caller<'g> {
    user: RecId,
    groups: &'g GroupSet,
}

/// Adds the answers to what an object asks by the policy of its modules, or what stands against
/// these.
pub(crate) fn put_declared(alloc: Global, told: &mut Told, times: u32, json: &Json) {
    if let Some(loaded) = loaded(alloc, told, json) {
        put_by(alloc, told, times, &loaded.schema, &loaded.policy, json);
    }
}

/// Adds the answers to what an object asks.
pub(crate) fn put_access(alloc: Global, told: &mut Told, times: u32, json: &Json) {
    let models = text_part(told, json, "models");
    if let Some(schema) = schema_of(alloc, told, models) {
        put_over(alloc, told, times, &schema, json);
    }
}

/// Adds the answers over a registry.
fn put_over(alloc: Global, told: &mut Told, times: u32, schema: &Schema, json: &Json) {
    if let Some(policy) = policy(alloc, told, schema, json) {
        put_by(alloc, told, times, schema, &policy, json);
    }
}

/// Adds the answers by a policy, or that a question failed.
fn put_by(alloc: Global, told: &mut Told, times: u32, schema: &Schema, policy: &Policy, json: &Json)
    requires { IsPolicyOver schema.now policy.now }
{
    let asked = list_part(told, json, "asked");
    let mut facts = RowFacts::of(alloc, told, schema, json);
    for _ in 1..times {
        let mut unread = Told::new(alloc);
        put_all(alloc, &mut unread, schema, policy, &mut facts, asked);
    }
    put_all(alloc, told, schema, policy, &mut facts, asked);
    if facts.has_failed {
        told.tell_instead(alloc, "failed");
    }
}

/// Adds the answers to some questions, up to one that fails.
fn put_all(
    alloc: Global,
    told: &mut Told,
    schema: &Schema,
    policy: &Policy,
    facts: &mut RowFacts<'_>,
    asked: &[Json],
)
    requires over { IsPolicyOver schema.now policy.now }
    requires facts { facts.old.schema.now ≡ schema.now }
    ensures { facts.new.schema.now ≡ facts.old.schema.now }
{
    told.put("[");
    let mut is_first = true;
    for question in asked {
        if told.is_malformed() || facts.has_failed {
            return;
        }
        told.put(if is_first { "" } else { "," });
        put_answer(alloc, told, schema, policy, facts, question);
        is_first = false;
    }
    told.put("]");
}

/// Adds the answer to a question.
fn put_answer(
    alloc: Global,
    told: &mut Told,
    schema: &Schema,
    policy: &Policy,
    facts: &mut RowFacts<'_>,
    question: &Json,
)
    requires over { IsPolicyOver schema.now policy.now }
    requires facts { facts.old.schema.now ≡ schema.now }
    ensures { facts.new.schema.now ≡ facts.old.schema.now }
{
    let [user, stated, parts @ ..] = items_of(told, question) else {
        return told.refuse();
    };
    let user = id_of(told, user);
    let stated = ids_of(alloc, told, stated);
    match policy.groups_of(alloc, &stated) {
        Ok(groups) => {
            let caller = Caller {
                user,
                groups: &groups,
            };
            put_to(alloc, told, schema, policy, facts, caller, parts);
        }
        Err(_) => told.lack(),
    }
}

/// Adds the answer to a caller.
fn put_to(
    alloc: Global,
    told: &mut Told,
    schema: &Schema,
    policy: &Policy,
    facts: &mut RowFacts<'_>,
    caller: Caller<'_>,
    parts: &[Json],
)
    requires over { IsPolicyOver schema.now policy.now }
    requires facts { facts.old.schema.now ≡ schema.now }
    ensures { facts.new.schema.now ≡ facts.old.schema.now }
{
    let [model, parts @ ..] = parts else {
        return put_list(told, caller.groups.as_slice());
    };
    let name = text_of(told, model);
    let Some(model) = schema.model(name) else {
        return told.refuse();
    };
    if let [id, op, _] = parts {
        let id = id_of(told, id);
        let op = told.found(op_of(op), Op::Read);
        put_row(alloc, told, policy, facts, caller, op, model, id);
    } else {
        let has = has_right(schema, policy, caller, model, parts);
        let has = told.found(has, false);
        told.put(if has { "true" } else { "false" });
    }
}

/// Whether a caller has a right, or one on a field, by what stands behind the model; none where
/// that is of another form.
fn has_right(
    schema: &Schema,
    policy: &Policy,
    caller: Caller<'_>,
    model: ModelNo,
    parts: &[Json],
) -> Option<bool>
    requires { HasModel schema.now model }
{
    match parts {
        [op] => Some(policy.right(caller.groups, caller.user, model, op_of(op)?)),
        [Json::String(name), Json::Bool(writing)] => {
            let field = schema.field(model, name.as_str())?;
            Some(policy.field_right(caller.groups, caller.user, model, field, *writing))
        }
        _ => None,
    }
}

/// Adds whether a row is admitted, and the rule that denies it; a row that isn't known is no case.
fn put_row(
    alloc: Global,
    told: &mut Told,
    policy: &Policy,
    facts: &mut RowFacts<'_>,
    caller: Caller<'_>,
    op: Op,
    model: ModelNo,
    id: RecId,
)
    requires model { HasModel facts.old.schema.now model }
    requires over { IsPolicyOver facts.old.schema.now policy.now }
    ensures { facts.new.schema.now ≡ facts.old.schema.now }
{
    match admission(alloc, policy, facts, caller, op, model, id) {
        Ok(Some((admitted, denier))) => put_admission(alloc, told, admitted, denier.as_ref()),
        Ok(None) => told.refuse(),
        Err(Unanswered::NoMemory) => told.lack(),
        Err(Unanswered::Failed) => facts.has_failed = true,
    }
}

/// Whether a row is admitted, and the name of the rule that denies it; none where the row isn't
/// known.
fn admission(
    alloc: Global,
    policy: &Policy,
    facts: &mut RowFacts<'_>,
    caller: Caller<'_>,
    op: Op,
    model: ModelNo,
    id: RecId,
) -> Result<Option<(bool, Option<Word>)>, Unanswered>
    requires model { HasModel facts.old.schema.now model }
    requires over { IsPolicyOver facts.old.schema.now policy.now }
    ensures { facts.new.schema.now ≡ facts.old.schema.now }
{
    // One more: whether it is known.
    facts.left = facts.answered.saturating_add(1);
    let is_known = facts.known(model, id)?;
    if !is_known {
        return Ok(None);
    }
    let admitted = policy.admits(alloc, caller.groups, caller.user, op, model, id, facts)?;
    facts.left = facts.answered;
    let denier = policy.denier(alloc, caller.groups, caller.user, op, model, id, facts)?;
    Ok(Some((admitted, denier)))
}

/// Adds whether a row is admitted, and the name of the rule that denies it.
fn put_admission(alloc: Global, told: &mut Told, admitted: bool, denier: Option<&Word>) {
    told.put(if admitted { "[true," } else { "[false," });
    match denier {
        Some(name) => put_text(alloc, told, name.as_str()),
        None => told.put("null"),
    }
    told.put("]");
}
