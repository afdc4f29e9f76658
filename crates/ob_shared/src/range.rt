//! The entries of a map between two bounds. Each step looks for the first one from the bound
//! at which the last step stopped, so that nothing of the tree is kept on the way.

ghost use Rattle.std.specs.Prelude.{◌≡◌, length};
ghost use Rattle.std.specs.Iterator.{at_most};
ghost use Rattle.std.specs.Map.Iter.{TakesFirst, deref_pair};
ghost use Rattle.std.specs.BTreeMap.Range.{entries_between};
ghost use Rattle.ob_shared.specs.Trees.{IsSearchTree, entries_in};

use crate::finding::{first_inside, is_past};
use crate::node::Tree;
use std::marker::Model;
use std::ops::Bound;

/// The entries of a map between two bounds, in the order of their keys. Contracts see the list
/// of those that are left.
#[derive(Drop)]
pub struct Range<'m, K: Ord, V> {
    root: &'m Tree<K, V>,
    start: Bound<K>,
    end: Bound<K>,
}

impl<'m, K: Ord, V> Model for Range<'m, K, V> {
    ghost use Rattle.std.specs.Prelude.{List};
    ghost use Rattle.std.specs.BTreeMap.Range.{entries_between};
    ghost use Rattle.ob_shared.specs.Trees.{IsSearchTree, entries_in};

    ghost Value = { List (K × V) };

    ghost view = { λ r. entries_between K.cmp r.start r.end (entries_in r.root.now) };

    ghost invariant = { λ r. IsSearchTree K.cmp r.root.now };
}

impl<'m, K: Ord + Copy, V> Range<'m, K, V> {
    pub(crate) fn new(root: &'m Tree<K, V>, start: Bound<K>, end: Bound<K>) -> Range<'m, K, V>
        requires { IsSearchTree K.cmp root.now }
        ensures { result ≡ entries_between K.cmp start end (entries_in root.now) }
    {
        Range { root, start, end }
    }
}

impl<'m, K: Ord + Copy, V> Iterator for Range<'m, K, V> {
    type Item = (&'m K, &'m V);

    ghost next_gives = { TakesFirst deref_pair };

    ghost remaining = { λ left. at_most (length left) };

    fn next(&mut self) -> Option<(&'m K, &'m V)> {
        let (key, value) = first_inside(self.root, &self.start)?;
        if is_past(&self.end, key) {
            return None;
        }
        self.start = Bound::Excluded(*key);
        Some((key, value))
    }
}
