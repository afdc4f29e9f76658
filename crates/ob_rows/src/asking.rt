//! What a caller who changes rows is asked for: the policy by which he is judged, and his groups,
//! which are found once a call; whether he may do what a call does to rows of a model, and give
//! values to its fields; and which of some rows rules deny him. Each question is answered from what
//! the engine settled last, whatever is staged: before a call from its tables, and once its edits
//! are settled from the tables after it.

ghost use Rattle.std.specs.Prelude.{◌≡◌, ◌≤◌, [], Contains, IfErr, IfOk, IfSome, OnOk, find, not, true};
ghost use Rattle.ob_access.specs.Policies.{IsPolicyOver};
ghost use Rattle.ob_access.specs.Users.{AreGroupsOf};
ghost use Rattle.ob_cache.specs.Calls.{Refuses};
ghost use Rattle.ob_cache.specs.Standing.{RestsAt, Stays};
ghost use Rattle.ob_cache.specs.Telling.{TellsFacts};
ghost use Rattle.ob_io.specs.Cause.{Rose};
ghost use Rattle.ob_rows.specs.AskingSteps.{AdmitsBy, AreKnown, DeniesBy, IsAnswered, TellsDenied, denied_rule, lesser, may_by, may_give};
ghost use Rattle.ob_rows.specs.Rights.{DeniesOne, rows_named};
ghost use Rattle.ob_schema.specs.Facts.{OfAllTold};
ghost use Rattle.ob_schema.specs.Tables.{Tables};

use ob_access::{GroupSet, Policy, Users};
use ob_base::{FieldNo, ModelNo, NoMemory, Op, RecId, RefList, Refusal, RowKey, Word};
use ob_cache::{Engine, ReadFault};
use ob_domain::HoldFault;
use ob_io::Keeper;
use std::alloc::Global;

/// Who calls: the policy by which he is judged, his groups (`groups_of`), and his id.
#[derive(Clone, Copy)]
pub struct Caller<'c> {
    pub policy: &'c Policy,
    pub groups: &'c GroupSet,
    pub user: RecId,
}

/// A row that rules deny a caller, and the full name of the rule.
#[derive(Drop)]
pub struct Denied {
    pub row: RowKey,
    pub rule: Word,
}

/// Whether a caller may do this to rows of a model, by the policy.
pub fn may(by: &Caller<'_>, op: Op, model: ModelNo) -> bool
    ensures { result ≡ may_by by.now (op, model) }
{
    by.policy.right(by.groups, by.user, model, op)
}

/// The first of some fields of a model that a caller may not give a value, in the order in which they
/// stand; none where he may give them all.
pub fn first_unwritable(by: &Caller<'_>, model: ModelNo, fields: &[FieldNo]) -> Option<FieldNo>
    ensures { result ≡ find (λ field. not (may_give by.now model field)) fields.now }
{
    for field in fields {
        if !may_give(by, model, *field) {
            return Some(*field);
        }
    }
    None
}

/// Whether he may give a field a value.
fn may_give(by: &Caller<'_>, model: ModelNo, field: FieldNo) -> bool
    ensures { result ≡ may_give by.now model field }
{
    by.policy
        .field_right(by.groups, by.user, model, field, true)
}

/// The groups of a user, by the rows of users as the engine settled them last, whatever is staged;
/// none where the registry has no model of users. Refused only where the keeper fails or memory is wanting. The
/// engine stays as it was.
pub fn groups_of<K: Keeper>(
    alloc: Global,
    engine: &mut Engine<'_, K>,
    policy: &Policy,
    user: RecId,
) -> Result<GroupSet, Refusal>
    ensures groups { IfOk result (λ groups. (tables : Tables) → RestsAt (K.kept engine.old.keeper.now) engine.old.held tables
        → AreGroupsOf engine.old.held.models policy.now tables user groups) }
    ensures causes { IfErr result (Refuses (Rose (K.faults engine.old.keeper.now) (K.faults engine.new.keeper.now)) (λ _. ⊥)) }
    ensures same { Stays (K.kept engine.old.keeper.now) engine.old.held (K.kept engine.new.keeper.now) engine.new.held }
    ensures count { K.faults engine.old.keeper.now ≤ K.faults engine.new.keeper.now }
    ensures lender { engine.new.keeper.ghost_name ≡ engine.old.keeper.ghost_name }
{
    let none = no_groups(alloc, policy)?;
    let Some(users) = Users::of(engine.schema()) else {
        return Ok(none);
    };
    // The law that questions behind one another are one question.
    engine.questions_are_questions();
    let groups = policy.groups_of_user(alloc, &users, engine, user);
    answered(groups, none)
}

/// No groups.
fn no_groups(alloc: Global, policy: &Policy) -> Result<GroupSet, NoMemory>
    ensures { IfOk result (λ groups. groups ≡ []) }
{
    policy.groups_of(alloc, &RefList::new(alloc))
}

/// The rows of a model that have these ids, in the order of these. Each id is any number: whether a
/// row has it isn't asked.
pub fn rows_named(alloc: Global, model: ModelNo, ids: &[u64]) -> Result<Vec<RowKey>, NoMemory>
    ensures { IfOk result (λ rows. rows.items ≡ rows_named model ids.now) }
{
    let rows = ids.iter().map(|id| RowKey {
        model,
        id: RecId(*id),
    });
    Ok(rows.collect(alloc)?)
}

/// Tests that rules admit some rows to a caller for an operation, by what the engine settled last.
/// Refused is the least that one denies him, by model and id, with the full name of the rule; else a
/// fault of the keeper or want of memory. The caller sees to it that the policy is one over the
/// registry and that the rows are there. The engine stays as it was.
pub fn test_rules<K: Keeper>(
    alloc: Global,
    engine: &mut Engine<'_, K>,
    by: &Caller<'_>,
    op: Op,
    rows: &[RowKey],
) -> Result<(), Refusal>
    requires policy { IsPolicyOver engine.old.held.models by.now.policy.now }
    requires known { OfAllTold (TellsFacts (K.kept engine.old.keeper.now) engine.old.held) (AreKnown rows.now) }
    ensures admits { OnOk result (OfAllTold (TellsFacts (K.kept engine.old.keeper.now) engine.old.held) (λ told. AdmitsBy by.now told op rows.now)) }
    ensures denies { IfErr result (λ why. OfAllTold (TellsFacts (K.kept engine.old.keeper.now) engine.old.held)
        (λ told. Refuses (Rose (K.faults engine.old.keeper.now) (K.faults engine.new.keeper.now)) (DeniesBy by.now told op rows.now) why)) }
    ensures causes { IfErr result (Refuses (Rose (K.faults engine.old.keeper.now) (K.faults engine.new.keeper.now)) (DeniesOne op rows.now)) }
    ensures same { Stays (K.kept engine.old.keeper.now) engine.old.held (K.kept engine.new.keeper.now) engine.new.held }
    ensures count { K.faults engine.old.keeper.now ≤ K.faults engine.new.keeper.now }
    ensures lender { engine.new.keeper.ghost_name ≡ engine.old.keeper.ghost_name }
{
    match least_denied(alloc, engine, by, op, rows)? {
        Some(Denied { row, rule }) => Err(Refusal::Rule(row.model, op, row.id, Some(rule))),
        None => Ok(()),
    }
}

/// The least of some rows that a rule denies a caller for an operation, by model and id, and the
/// rule; none where rules admit them all. Asked is what the engine settled last. Refused only where
/// the keeper fails or memory is wanting. The caller sees to it that the policy is one over the
/// registry and that the rows are there. The engine stays as it was.
pub fn least_denied<K: Keeper>(
    alloc: Global,
    engine: &mut Engine<'_, K>,
    by: &Caller<'_>,
    op: Op,
    rows: &[RowKey],
) -> Result<Option<Denied>, Refusal>
    requires policy { IsPolicyOver engine.old.held.models by.now.policy.now }
    requires known { OfAllTold (TellsFacts (K.kept engine.old.keeper.now) engine.old.held) (AreKnown rows.now) }
    ensures told { IfOk result (λ denied. OfAllTold (TellsFacts (K.kept engine.old.keeper.now) engine.old.held) (λ told. TellsDenied by.now told op rows.now denied)) }
    ensures among { IfOk result (λ denied. IfSome denied (λ d. Contains rows.now d.row)) }
    ensures causes { IfErr result (Refuses (Rose (K.faults engine.old.keeper.now) (K.faults engine.new.keeper.now)) (λ _. ⊥)) }
    ensures same { Stays (K.kept engine.old.keeper.now) engine.old.held (K.kept engine.new.keeper.now) engine.new.held }
    ensures count { K.faults engine.old.keeper.now ≤ K.faults engine.new.keeper.now }
    ensures lender { engine.new.keeper.ghost_name ≡ engine.old.keeper.ghost_name }
{
    let mut least = None;
    for row in rows {
        let rule = denier_of(alloc, engine, by, op, *row)?;
        least = lesser(least, *row, rule);
    }
    Ok(least)
}

/// The rule that denies him a row that is there, where one does.
fn denier_of<K: Keeper>(
    alloc: Global,
    engine: &mut Engine<'_, K>,
    by: &Caller<'_>,
    op: Op,
    row: RowKey,
) -> Result<Option<Word>, Refusal>
    requires policy { IsPolicyOver engine.old.held.models by.now.policy.now }
    requires known { OfAllTold (TellsFacts (K.kept engine.old.keeper.now) engine.old.held) (λ told. told.knows row.model row.id ≡ true) }
    ensures told { IfOk result (λ rule. OfAllTold (TellsFacts (K.kept engine.old.keeper.now) engine.old.held) (λ told. rule ≡ denied_rule by.now told op row)) }
    ensures causes { IfErr result (Refuses (Rose (K.faults engine.old.keeper.now) (K.faults engine.new.keeper.now)) (λ _. ⊥)) }
    ensures same { Stays (K.kept engine.old.keeper.now) engine.old.held (K.kept engine.new.keeper.now) engine.new.held }
    ensures count { K.faults engine.old.keeper.now ≤ K.faults engine.new.keeper.now }
    ensures lender { engine.new.keeper.ghost_name ≡ engine.old.keeper.ghost_name }
{
    // The law that questions behind one another are one question.
    engine.questions_are_questions();
    let denier = by
        .policy
        .denier(alloc, by.groups, by.user, op, row.model, row.id, engine);
    answered(denier, None)
}

/// An answer about rows, told apart. Where nothing is told of rows, `other` stands in for it: an
/// engine whose keeper tells its rows tells of each that is known.
fn answered<T: Drop>(answer: Result<T, HoldFault<ReadFault>>, other: T) -> Result<T, Refusal>
    ensures { IsAnswered answer other result }
{
    match answer {
        Ok(known) => Ok(known),
        Err(HoldFault::Fact(ReadFault::Missing)) => Ok(other),
        Err(HoldFault::Fact(ReadFault::Keeper)) => Err(Refusal::Keeper),
        Err(HoldFault::Fact(ReadFault::NoMemory)) => Err(Refusal::NoMemory),
        Err(HoldFault::NoMemory) => Err(Refusal::NoMemory),
    }
}

/// The lesser of a denied row that came before, if any did, and another, where a rule denies it.
fn lesser(least: Option<Denied>, row: RowKey, rule: Option<Word>) -> Option<Denied>
    ensures { result ≡ lesser least row rule }
{
    let Some(rule) = rule else {
        return least;
    };
    match least {
        Some(first) if !row.cmp(&first.row).is_lt() => Some(first),
        _ => Some(Denied { row, rule }),
    }
}
