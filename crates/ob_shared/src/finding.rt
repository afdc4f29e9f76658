//! What a tree tells of its entries: the value at a key, and the first entry from a bound on.

ghost use Rattle.std.specs.Prelude.{◌≡◌, filter};
ghost use Rattle.std.specs.List.{slice_get};
ghost use Rattle.std.specs.Map.{lookup};
ghost use Rattle.std.specs.Map.Iter.{deref_pair};
ghost use Rattle.std.specs.Option.{option_copied, option_map};
ghost use Rattle.std.specs.BTreeMap.{is_at};
ghost use Rattle.std.specs.BTreeMap.Range.{is_from_start, is_past_end};
ghost use Rattle.ob_shared.specs.Trees.{IsSearchTree, entries_in};

use crate::node::Tree;
use std::cmp::Ordering;
use std::ops::Bound;

/// The value at a key.
pub(crate) fn find<'t, K: Ord, V>(tree: &'t Tree<K, V>, key: &K) -> Option<&'t V>
    requires { IsSearchTree K.cmp tree.now }
    ensures { option_copied result ≡ lookup (is_at (K.cmp key.now)) (entries_in tree.now) }
{
    let Tree::Fork(root) = tree else {
        return None;
    };
    let node = root.as_ref();
    match key.cmp(&node.key) {
        Ordering::Less => find(&node.left, key),
        Ordering::Equal => Some(node.value.as_ref()),
        Ordering::Greater => find(&node.right, key),
    }
}

/// The first entry whose key is inside a start bound.
pub(crate) fn first_inside<'t, K: Ord, V>(
    tree: &'t Tree<K, V>,
    start: &Bound<K>,
) -> Option<(&'t K, &'t V)>
    requires { IsSearchTree K.cmp tree.now }
    ensures { option_map deref_pair result
        ≡ slice_get (filter (λ entry. is_from_start K.cmp start.now entry.0) (entries_in tree.now)) 0 }
{
    let Tree::Fork(root) = tree else {
        return None;
    };
    let node = root.as_ref();
    if !is_inside(start, &node.key) {
        return first_inside(&node.right, start);
    }
    match first_inside(&node.left, start) {
        None => Some((&node.key, node.value.as_ref())),
        Some(entry) => Some(entry),
    }
}

/// Whether a key is inside a start bound.
fn is_inside<K: Ord>(start: &Bound<K>, key: &K) -> bool
    ensures { result ≡ is_from_start K.cmp start.now key.now }
{
    match start {
        Bound::Included(low) => low.cmp(key).is_le(),
        Bound::Excluded(low) => low.cmp(key).is_lt(),
        Bound::Unbounded => true,
    }
}

/// Whether a key is outside an end bound.
pub(crate) fn is_past<K: Ord>(end: &Bound<K>, key: &K) -> bool
    ensures { result ≡ is_past_end K.cmp end.now key.now }
{
    match end {
        Bound::Included(high) => high.cmp(key).is_lt(),
        Bound::Excluded(high) => high.cmp(key).is_le(),
        Bound::Unbounded => false,
    }
}
