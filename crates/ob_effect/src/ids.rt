//! The lists of ids that rows keep, with an id put in and with one taken out, in one pass over a
//! list. They rise, so the place of an id is searched for by halves. How a list is made may be
//! changed here: which ids it has, and that it rises, stays told by the clauses.

ghost use Rattle.std.specs.Prelude.{◌≡◌, ◌≢◌, ◌<◌, ◌≤◌, ◌++◌, ◌∷◌, ◌⊎◌, ◌↔◌, length, take, drop, All, Contains, IfOk, IsTrue, OnOk};
ghost use Rattle.ob_base.specs.Rising.{IsRising};
ghost use Rattle.ob_base.specs.declared.id.RecId.{RecId};

use ob_base::{NoMemory, RecId, RefList};
use std::alloc::Global;

/// A list with an id among its own: rows that are made come at its end, at no cost of the others.
pub(crate) fn with_id(alloc: Global, ids: RefList, id: RecId) -> Result<RefList, NoMemory>
    ensures rising { IfOk result IsRising }
    ensures members { IfOk result (λ list. (other : RecId) → Contains list other ↔ (Contains ids other ⊎ (other ≡ id))) }
{
    if is_past(&ids, id) {
        let mut list = ids;
        list.push(id)?;
        // What such a list is.
        let _ = list.as_slice();
        return Ok(list);
    }
    let (below, above) = around(ids.as_slice(), id);
    let mut list = RefList::new(alloc);
    push_each(&mut list, below)?;
    list.push(id)?;
    push_each(&mut list, above)?;
    // What such a list is.
    let _ = list.as_slice();
    Ok(list)
}

/// A list without an id.
pub(crate) fn without(alloc: Global, ids: &[RecId], id: RecId) -> Result<RefList, NoMemory>
    requires { IsRising ids.now }
    ensures rising { IfOk result IsRising }
    ensures members { IfOk result (λ list. (other : RecId) → Contains list other ↔ (Contains ids.now other × (other ≢ id))) }
{
    let (below, above) = around(ids, id);
    let mut left = RefList::new(alloc);
    push_each(&mut left, below)?;
    push_each(&mut left, above)?;
    // What such a list is.
    let _ = left.as_slice();
    Ok(left)
}

/// Whether an id is past all of a list, by its last one.
fn is_past(ids: &RefList, id: RecId) -> bool
    ensures { IsTrue result → All (λ before. before.0 < id.0) ids.now }
{
    match ids.as_slice().last() {
        Some(last) => last.0 < id.0,
        None => true,
    }
}

/// What of ids that rise is below an id, and what is above it.
fn around(ids: &[RecId], id: RecId) -> (&[RecId], &[RecId])
    requires { IsRising ids.now }
    ensures below { All (λ other. other.0 < id.0) result.0.now }
    ensures above { All (λ other. id.0 < other.0) result.1.now }
    ensures all { (ids.now ≡ result.0.now ++ result.1.now) ⊎ (ids.now ≡ result.0.now ++ id ∷ result.1.now) }
{
    let (below, rest) = ids.split_at(count_below(ids, id));
    match rest.split_first() {
        Some((first, above)) if *first == id => (below, above),
        _ => (below, rest),
    }
}

/// How many of ids that rise are below an id.
fn count_below(ids: &[RecId], id: RecId) -> usize
    requires { IsRising ids.now }
    ensures bound { result ≤ length ids.now }
    ensures below { All (λ other. other.0 < id.0) (take result ids.now) }
    ensures rest { All (λ other. id.0 ≤ other.0) (drop result ids.now) }
{
    ids.partition_point(|other| other.0 < id.0)
}

/// Puts ids that rise behind those of a list, which are below them.
fn push_each(list: &mut RefList, ids: &[RecId]) -> Result<(), NoMemory>
    requires { IsRising (list.old ++ ids.now) }
    ensures { OnOk result (list.new ≡ list.old ++ ids.now) }
{
    for id in ids {
        list.push(*id)?;
    }
    Ok(())
}
