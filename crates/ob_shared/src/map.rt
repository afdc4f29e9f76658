//! The map and its calls. Contracts see it as std's ordered map, by its entries in the order
//! of their keys, so that whatever is said and proved of a `BTreeMap` holds of it.

ghost use Rattle.std.specs.Prelude.{◌≡◌, IfOk, OnErr, OnOk, None, Some, is_some, option_map};
ghost use Rattle.std.specs.List.{slice_get};
ghost use Rattle.std.specs.Map.{remove_entry};
ghost use Rattle.std.specs.Map.Iter.{ShowsInOrder, deref_pair};
ghost use Rattle.std.specs.Option.{option_copied};
ghost use Rattle.std.specs.BTreeMap as tree;
ghost use Rattle.std.specs.BTreeMap.Range.{entries_between};

use crate::finding::{find, first_inside};
use crate::inserting::inserted;
use crate::node::Tree;
use crate::range::Range;
use crate::removing::removed;
use ob_base::NoMemory;
use std::alloc::Global;
use std::marker::Model;
use std::ops::Bound;
use std::rc::Rc;

/// A map in the order of its keys, whose copies share what they have in common.
#[derive(Drop)]
pub struct SharedMap<K: Ord, V> {
    alloc: Global,
    root: Tree<K, V>,
}

impl<K: Ord, V> Model for SharedMap<K, V> {
    ghost use Rattle.std.specs.BTreeMap as tree;
    ghost use Rattle.std_collections.specs.Layout.BTreeMap.{btree_map_code};
    ghost use Rattle.ob_shared.specs.Trees.{IsSearchTree, entries_in};
    ghost use Rattle.ob_shared.specs.Shown.{map_of};

    ghost Value = { tree.BTreeMap K V };

    ghost coded = { btree_map_code K.code V.code };

    ghost view = { λ m. map_of (entries_in m.root) };

    ghost invariant = { λ m. IsSearchTree K.cmp m.root };
}

impl<K: Ord + Copy, V: Drop> SharedMap<K, V> {
    /// The map without entries. It takes no memory.
    pub fn new(alloc: Global) -> SharedMap<K, V>
        ensures empty { tree.IsEmpty result }
        ensures ordered { tree.IsOrdered K.cmp result }
    {
        SharedMap {
            alloc,
            root: Tree::Leaf,
        }
    }

    /// The same map again, in one step.
    pub fn try_clone(&self) -> Result<SharedMap<K, V>, NoMemory>
        ensures { IfOk result (λ copy. copy ≡ self.now) }
    {
        Ok(SharedMap {
            alloc: self.alloc,
            root: self.root.share()?,
        })
    }

    /// The value at a key.
    pub fn get(&self, key: &K) -> Option<&V>
        ensures value { option_copied result ≡ tree.get K.cmp self.now key.now }
        ensures ordered { tree.IsOrdered K.cmp self.now }
    {
        find(&self.root, key)
    }

    /// Whether the map has a key.
    pub fn contains_key(&self, key: &K) -> bool
        ensures { result ≡ is_some (tree.get K.cmp self.now key.now) }
    {
        find(&self.root, key).is_some()
    }

    /// The first entry whose key isn't below a key.
    pub fn first_from(&self, key: &K) -> Option<(&K, &V)>
        ensures { option_map deref_pair result
            ≡ slice_get (entries_between K.cmp (Bound.Included key.now) Bound.Unbounded self.now.entries) 0 }
    {
        first_inside(&self.root, &Bound::Included(*key))
    }

    /// The first entry whose key is above a key.
    pub fn first_above(&self, key: &K) -> Option<(&K, &V)>
        ensures { option_map deref_pair result
            ≡ slice_get (entries_between K.cmp (Bound.Excluded key.now) Bound.Unbounded self.now.entries) 0 }
    {
        first_inside(&self.root, &Bound::Excluded(*key))
    }

    /// Puts a value at a key: an equal key stays and takes the value. Other copies of the map
    /// stay as they are.
    pub fn insert(&mut self, key: K, value: V) -> Result<(), NoMemory>
        ensures entries { OnOk result (self.new.entries ≡ tree.insert_entry K.cmp self.old.entries key value) }
        ensures updates { OnOk result (tree.Updates K.cmp self.old self.new key (Some value)) }
        ensures err { OnErr result (self.new ≡ self.old) }
        ensures ordered { tree.IsOrdered K.cmp self.new }
        ensures was_ordered { tree.IsOrdered K.cmp self.old }
    {
        let value = Rc::new(self.alloc, value)?;
        self.root = inserted(self.alloc, &self.root, key, value)?;
        Ok(())
    }

    /// Takes a key out, if it is there. Other copies of the map stay as they are.
    pub fn remove(&mut self, key: &K) -> Result<(), NoMemory>
        ensures entries { OnOk result (self.new.entries ≡ remove_entry (tree.is_at (K.cmp key.now)) self.old.entries) }
        ensures updates { OnOk result (tree.Updates K.cmp self.old self.new key.now None) }
        ensures err { OnErr result (self.new ≡ self.old) }
        ensures ordered { tree.IsOrdered K.cmp self.new }
        ensures was_ordered { tree.IsOrdered K.cmp self.old }
    {
        if find(&self.root, key).is_none() {
            return Ok(());
        }
        self.root = removed(self.alloc, &self.root, key)?;
        Ok(())
    }

    /// The entries whose keys are between two bounds, in order.
    pub fn range(&self, start: Bound<K>, end: Bound<K>) -> Range<'_, K, V>
        ensures between { result ≡ entries_between K.cmp start end self.now.entries }
        ensures runs { ShowsInOrder (deref_pair {K = K} {X = V}) }
        ensures ordered { tree.IsOrdered K.cmp self.now }
    {
        Range::new(&self.root, start, end)
    }

    /// The entries, in order.
    pub fn iter(&self) -> Range<'_, K, V>
        ensures rest { result ≡ self.now.entries }
        ensures runs { ShowsInOrder (deref_pair {K = K} {X = V}) }
        ensures ordered { tree.IsOrdered K.cmp self.now }
    {
        Range::new(&self.root, Bound::Unbounded, Bound::Unbounded)
    }
}
