//! What a caller who changes rows is asked for: the policy by which he is judged, and his groups,
//! which are found once a call; whether he may do what a call does to rows of a model, and give
//! values to its fields; and which rule denies him a row. Each question is answered from what the
//! engine settled last, whatever is staged.

ghost use Rattle.std.specs.Prelude.{◌≡◌, [], true, IfErr, IfOk, IfSome};
ghost use Rattle.ob_access.specs.Policies.{IsPolicyOver};
ghost use Rattle.ob_access.specs.Users.{AreGroupsBy};
ghost use Rattle.ob_cache.specs.Calls.{Refuses};
ghost use Rattle.ob_cache.specs.Telling.{TellsFacts};
ghost use Rattle.ob_effect.specs.Effect.{Asks};
ghost use Rattle.ob_effect.specs.Rights.{IsDeniedBy, may, may_give};
ghost use Rattle.ob_io.specs.Cause.{Rose};
ghost use Rattle.ob_schema.specs.Facts.{OfAllTold};

use ob_access::{GroupSet, Policy, Users};
use ob_base::{FieldNo, ModelNo, Op, RecId, RefList, Refusal, RowKey, Word};
use ob_cache::{Engine, ReadFault};
use ob_domain::HoldFault;
use ob_io::Keeper;
use std::alloc::Global;

/// Who calls: the policy, his groups, and his id.
#[derive(Clone, Copy)]
pub struct Caller<'c> {
    pub policy: &'c Policy,
    pub groups: &'c GroupSet,
    pub user: RecId,
}

/// Whether he may do this to rows of a model.
pub fn may(by: &Caller<'_>, op: Op, model: ModelNo) -> bool
    ensures { result ≡ may by.now op model }
{
    by.policy.right(by.groups, by.user, model, op)
}

/// Whether he may give values to a field.
pub fn may_give(by: &Caller<'_>, model: ModelNo, field: FieldNo) -> bool
    ensures { result ≡ may_give by.now model field }
{
    by.policy
        .field_right(by.groups, by.user, model, field, true)
}

/// The groups of a user; none where the registry has no model of users.
pub fn groups_of<K: Keeper>(
    alloc: Global,
    engine: &mut Engine<'_, K>,
    policy: &Policy,
    user: RecId,
) -> Result<GroupSet, Refusal>
    requires { IsPolicyOver engine.old.held.models policy.now }
    ensures groups { IfOk result (λ groups. OfAllTold (TellsFacts (K.kept engine.old.keeper.now) engine.old.held)
        (λ told. AreGroupsBy engine.old.held.models policy.now told user groups)) }
    ensures causes { IfErr result (Refuses (Rose (K.faults engine.old.keeper.now) (K.faults engine.new.keeper.now)) (λ _. ⊥)) }
    ensures asked { Asks K.Keeper engine.old engine.new }
{
    let Some(users) = Users::of(engine.schema()) else {
        return no_groups(alloc, policy);
    };
    // The law that questions behind one another are one question.
    engine.questions_are_questions();
    match policy.groups_of_user(alloc, &users, engine, user) {
        Ok(groups) => Ok(groups),
        Err(HoldFault::Fact(ReadFault::Missing)) => no_groups(alloc, policy),
        Err(HoldFault::Fact(ReadFault::Keeper)) => Err(Refusal::Keeper),
        Err(HoldFault::Fact(ReadFault::NoMemory)) => Err(Refusal::NoMemory),
        Err(HoldFault::NoMemory) => Err(Refusal::NoMemory),
    }
}

/// No groups.
fn no_groups(alloc: Global, policy: &Policy) -> Result<GroupSet, Refusal>
    ensures groups { IfOk result (λ groups. groups ≡ []) }
    ensures causes { IfErr result (λ why. why ≡ Refusal.NoMemory) }
{
    match policy.groups_of(alloc, &RefList::new(alloc)) {
        Ok(groups) => Ok(groups),
        Err(_) => Err(Refusal::NoMemory),
    }
}

/// The rule that denies him a row, by its full name, where one does. The row is one that was there
/// when edits were settled last.
pub fn denier<K: Keeper>(
    alloc: Global,
    engine: &mut Engine<'_, K>,
    by: &Caller<'_>,
    op: Op,
    row: RowKey,
) -> Result<Option<Word>, Refusal>
    requires over { IsPolicyOver engine.old.held.models by.now.policy.now }
    requires known { OfAllTold (TellsFacts (K.kept engine.old.keeper.now) engine.old.held) (λ told. told.knows row.model row.id ≡ true) }
    ensures denied { IfOk result (λ name. IfSome name (λ rule. OfAllTold (TellsFacts (K.kept engine.old.keeper.now) engine.old.held) (IsDeniedBy by.now op row rule))) }
    ensures causes { IfErr result (Refuses (Rose (K.faults engine.old.keeper.now) (K.faults engine.new.keeper.now)) (λ _. ⊥)) }
    ensures asked { Asks K.Keeper engine.old engine.new }
{
    // The law that questions behind one another are one question.
    engine.questions_are_questions();
    match by
        .policy
        .denier(alloc, by.groups, by.user, op, row.model, row.id, engine)
    {
        Ok(rule) => Ok(rule),
        // Nothing is told of rows: then no rule is told to deny one.
        Err(HoldFault::Fact(ReadFault::Missing)) => Ok(None),
        Err(HoldFault::Fact(ReadFault::Keeper)) => Err(Refusal::Keeper),
        Err(HoldFault::Fact(ReadFault::NoMemory)) => Err(Refusal::NoMemory),
        Err(HoldFault::NoMemory) => Err(Refusal::NoMemory),
    }
}
