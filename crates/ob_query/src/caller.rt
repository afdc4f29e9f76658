//! Who calls: the policy by which he is judged, and his groups, which are found once a call. What
//! he may read is asked here, and whether he may ask what a call asks.

ghost use Rattle.std.specs.Prelude.{◌≡◌, [], IfErr, IfOk};
ghost use Rattle.ob_access.specs.Policies.{IsPolicyOver};
ghost use Rattle.ob_access.specs.Users.{AreGroupsOf};
ghost use Rattle.ob_cache.specs.Calls.{HasTables, KeeperRose, Refuses, models_at, standpoint};
ghost use Rattle.ob_query.specs.Callers.{IsAnswered, IsGranted, fields_named, first_denied, may_read, may_read_field};
ghost use Rattle.ob_query.specs.SearchQuestions.{OnlyAsked};
ghost use Rattle.ob_schema.specs.Tables.{Tables};

use crate::naming::{Naming, first_where};
use ob_access::{GroupSet, Policy, Users};
use ob_base::{ModelNo, Op, RecId, RefList, Refusal};
use ob_cache::{Engine, ReadFault};
use ob_domain::HoldFault;
use ob_io::{KeepFault, Keeper};
use ob_schema::Step;
use std::alloc::Global;

/// Who calls: the policy, his groups, and his id.
#[derive(Clone, Copy)]
pub struct Caller<'c> {
    pub policy: &'c Policy,
    pub groups: &'c GroupSet,
    pub user: RecId,
}

/// Whether he may read the rows of a model.
pub fn may_read(by: &Caller<'_>, model: ModelNo) -> bool
    ensures { result ≡ may_read by.now model }
{
    by.policy.right(by.groups, by.user, model, Op::Read)
}

/// Whether he may read a field.
pub fn may_read_field(by: &Caller<'_>, field: Step) -> bool
    ensures { result ≡ may_read_field by.now field }
{
    by.policy
        .field_right(by.groups, by.user, field.model, field.field, false)
}

/// Whether he may ask what a call asks: he may read the model's rows, and each field that
/// arguments name. Refused is the first that he may not.
pub fn granted(by: &Caller<'_>, model: ModelNo, namings: &[Naming]) -> Result<(), Refusal>
    ensures { IsGranted by.now model (fields_named namings.now) result }
{
    if !may_read(by, model) {
        return Err(Refusal::Right(model, Op::Read));
    }
    match first_denied(by, namings) {
        Some(field) => Err(Refusal::FieldRight(field.model, field.field)),
        None => Ok(()),
    }
}

/// The first field that arguments name and that he may not read: of those by position, then of
/// those by name.
fn first_denied(by: &Caller<'_>, namings: &[Naming]) -> Option<Step>
    ensures { result ≡ first_denied by.now (fields_named namings.now) }
{
    match first_where(by, namings, true) {
        Some(field) => Some(field),
        None => first_where(by, namings, false),
    }
}

/// The groups of a user; none where the registry has no model of users.
pub fn groups_of<K: Keeper>(
    alloc: Global,
    engine: &mut Engine<'_, K>,
    policy: &Policy,
    user: RecId,
) -> Result<GroupSet, Refusal>
    requires { IsPolicyOver (models_at (standpoint K.Keeper engine.old)) policy.now }
    ensures groups { IfOk result (λ groups. (tables : Tables) → HasTables (standpoint K.Keeper engine.old) tables
        → AreGroupsOf (models_at (standpoint K.Keeper engine.old)) policy.now tables user groups) }
    ensures causes { IfErr result (Refuses (KeeperRose (standpoint K.Keeper engine.old) (standpoint K.Keeper engine.new)) (λ _. ⊥)) }
    ensures asked { OnlyAsked K.Keeper engine.old engine.new }
{
    let Some(users) = Users::of(engine.schema()) else {
        return no_groups(alloc, policy);
    };
    // The law that questions behind one another are one question.
    engine.questions_are_questions();
    match policy.groups_of_user(alloc, &users, engine, user) {
        Ok(groups) => Ok(groups),
        Err(HoldFault::Fact(ReadFault::Missing)) => no_groups(alloc, policy),
        Err(HoldFault::Fact(ReadFault::Keeper)) => Err(Refusal::Keeper),
        Err(HoldFault::Fact(ReadFault::NoMemory)) => Err(Refusal::NoMemory),
        Err(HoldFault::NoMemory) => Err(Refusal::NoMemory),
    }
}

/// No groups.
fn no_groups(alloc: Global, policy: &Policy) -> Result<GroupSet, Refusal>
    ensures groups { IfOk result (λ groups. groups ≡ []) }
    ensures causes { IfErr result (λ why. why ≡ Refusal.NoMemory) }
{
    Ok(policy.groups_of(alloc, &RefList::new(alloc))?)
}

/// An answer about rows, told apart. Where nothing is told of rows, `other` stands in for it: an
/// engine at rest whose keeper tells its rows tells of each that is known.
pub fn answered<T: Drop>(answer: Result<T, HoldFault<ReadFault>>, other: T) -> Result<T, KeepFault>
    ensures { IsAnswered answer other result }
{
    match answer {
        Ok(known) => Ok(known),
        Err(HoldFault::Fact(ReadFault::Missing)) => Ok(other),
        Err(HoldFault::Fact(ReadFault::Keeper)) => Err(KeepFault::Failed),
        Err(HoldFault::Fact(ReadFault::NoMemory)) => Err(KeepFault::NoMemory),
        Err(HoldFault::NoMemory) => Err(KeepFault::NoMemory),
    }
}
