//! The groups of a user: those that are stated, and with each group the ones that it implies.

ghost use Rattle.std.specs.Prelude.{◌≡◌, ◌↔◌, ◌≤◌, ◌+◌, ◌++◌, ◌&&◌, ◌||◌, ◌==◌, ◌∷◌, [], ℕ, All, Contains, IfOk, if◌then◌else◌, length, not, option_map, true};
ghost use Rattle.ob_base.specs.declared.id.RecId.{RecId};
ghost use Rattle.ob_base.specs.Rising.{IsRising};
ghost use Rattle.ob_access.specs.Groups.{IsMember, has_group, has_some, implied_by};
ghost use Rattle.ob_access.specs.Finding.{IsUpTo, unfound};
ghost use Rattle.ob_access.specs.Policies.{IsGroup, group_at};

use crate::policy::{Group, Policy};
use ob_base::{NoMemory, RecId, RefList};
use std::alloc::Global;
use std::collections::BTreeSet;
use std::marker::Model;

/// Ids of groups, each above the one before it.
#[derive(Debug, Drop)]
pub struct GroupSet {
    ids: RefList,
}

impl Model for GroupSet {
    ghost use Rattle.std.specs.Prelude.{List};
    ghost use Rattle.ob_base.specs.declared.id.RecId.{RecId};

    ghost Value = { List RecId };

    ghost view = { λ g. g.ids };
}

impl GroupSet {
    /// The groups of these ids.
    fn of(ids: RefList) -> GroupSet
        ensures same { result ≡ ids }
        ensures rising { IsRising ids }
    {
        let _ = ids.as_slice();
        GroupSet { ids }
    }

    /// The ids.
    pub fn as_slice(&self) -> &[RecId]
        ensures same { result.now ≡ self.now }
        ensures rising { IsRising result.now }
    {
        self.ids.as_slice()
    }

    /// Whether a group is one of them.
    pub fn has(&self, id: RecId) -> bool
        ensures { result ≡ has_group self.now id }
    {
        self.as_slice().iter().any(|own| id.0 == own.0)
    }

    /// Whether some of these groups is one of them.
    pub(crate) fn has_some(&self, ids: &[RecId]) -> bool
        ensures { result ≡ has_some self.now ids.now }
    {
        ids.iter().any(|id| self.has(*id))
    }
}

impl Policy {
    /// The groups of a user who is stated to be in some: exactly those, and with each group
    /// the ones that it implies.
    pub fn groups_of(&self, alloc: Global, member: &RefList) -> Result<GroupSet, NoMemory>
        ensures members { IfOk result (λ groups. (id : RecId) → Contains groups id ↔ IsMember self.now.groups member.now id) }
        ensures rising { IfOk result IsRising }
    {
        let found = found_from(alloc, self.groups.as_slice(), member.as_slice())?;
        Ok(GroupSet::of(listed(alloc, &found)?))
    }
}

/// Some ids as a list.
fn listed(alloc: Global, found: &BTreeSet<RecId>) -> Result<RefList, NoMemory>
    ensures { IfOk result (λ ids. ids ≡ found.now.keys) }
{
    let mut ids = RefList::new(alloc);
    for id in found {
        ids.push(*id)?;
    }
    Ok(ids)
}

/// The stated groups, and with each group the ones that it implies.
fn found_from(
    alloc: Global,
    groups: &[Group],
    stated: &[RecId],
) -> Result<BTreeSet<RecId>, NoMemory>
    requires { All (λ group. All (IsGroup groups.now) group.implies) groups.now }
    ensures { IfOk result (λ found. (id : RecId) → (has_group found.keys id ≡ true) ↔ IsMember groups.now stated.now id) }
{
    let mut found = BTreeSet::new(alloc);
    let mut pending = Vec::new(alloc);
    add_new(&mut found, &mut pending, stated)?;
    while let Some(id) = pending.pop() {
        add_new(&mut found, &mut pending, implied_by(groups, id))?;
    }
    Ok(found)
}

/// Adds those of some groups that weren't found to the ones that were, and to those whose
/// implied groups are still to be found.
fn add_new(
    found: &mut BTreeSet<RecId>,
    pending: &mut Vec<RecId>,
    ids: &[RecId],
) -> Result<(), NoMemory>
    ensures found { IfOk result (λ _. (id : RecId) → has_group found.new.keys id ≡ (has_group found.old.keys id || has_group ids.now id)) }
    ensures pending { IfOk result (λ _. (id : RecId) → has_group pending.new.items id
        ≡ (has_group pending.old.items id || (has_group ids.now id && not (has_group found.old.keys id)))) }
    ensures fewer { IfOk result (λ _. (count : ℕ) → All (IsUpTo count) ids.now
        → unfound count found.new.keys + length pending.new.items ≤ unfound count found.old.keys + length pending.old.items) }
{
    for id in ids {
        add_if_new(found, pending, *id)?;
    }
    Ok(())
}

/// Does the same for one group.
fn add_if_new(
    found: &mut BTreeSet<RecId>,
    pending: &mut Vec<RecId>,
    id: RecId,
) -> Result<(), NoMemory>
    ensures found { IfOk result (λ _. (other : RecId) → has_group found.new.keys other ≡ (has_group found.old.keys other || (other.0 == id.0))) }
    ensures pending { IfOk result (λ _. pending.new.items ≡ pending.old.items ++ (if has_group found.old.keys id then [] else id ∷ [])) }
{
    if found.insert(id)? {
        pending.push(id)?;
    }
    Ok(())
}

/// The groups that a group implies; none where there is no such group.
fn implied_by(groups: &[Group], id: RecId) -> &[RecId]
    ensures { result.now ≡ implied_by groups.now id }
{
    match group_at(groups, id) {
        Some(group) => group.implies.as_slice(),
        None => &[],
    }
}

/// The group of an id.
pub(crate) fn group_at(groups: &[Group], id: RecId) -> Option<&Group>
    ensures { option_map (λ group. group.now) result ≡ group_at groups.now id }
{
    let place = id.0.checked_sub(1)?;
    groups.get(place as usize)
}
