//! What a tree is with an entry taken out.

ghost use Rattle.std.specs.Prelude.{◌≡◌, ◌++◌, IfOk, Some, drop};
ghost use Rattle.std.specs.List.{slice_get};
ghost use Rattle.std.specs.Map.{remove_entry};
ghost use Rattle.std.specs.BTreeMap.{is_at};
ghost use Rattle.ob_shared.specs.Trees.{IsSearchTree, entries_at, entries_in, entry_of};

use crate::node::{Node, Tree, balanced};
use ob_base::NoMemory;
use std::alloc::Global;
use std::cmp::Ordering;

/// The tree without a key.
pub(crate) fn removed<K: Ord + Copy, V: Drop>(
    alloc: Global,
    tree: &Tree<K, V>,
    key: &K,
) -> Result<Tree<K, V>, NoMemory>
    requires { IsSearchTree K.cmp tree.now }
    ensures { IfOk result (λ made. entries_in made ≡ remove_entry (is_at (K.cmp key.now)) (entries_in tree.now)) }
{
    let Tree::Fork(root) = tree else {
        return Ok(Tree::Leaf);
    };
    let node = root.as_ref();
    match key.cmp(&node.key) {
        Ordering::Less => {
            let left = removed(alloc, &node.left, key)?;
            balanced(alloc, left, node, node.right.share()?)
        }
        Ordering::Equal => joined(alloc, &node.left, &node.right),
        Ordering::Greater => {
            let right = removed(alloc, &node.right, key)?;
            balanced(alloc, node.left.share()?, node, right)
        }
    }
}

/// The two sides of a node as one tree.
fn joined<K: Copy, V: Drop>(
    alloc: Global,
    left: &Tree<K, V>,
    right: &Tree<K, V>,
) -> Result<Tree<K, V>, NoMemory>
    ensures { IfOk result (λ made. entries_in made ≡ entries_in left.now ++ entries_in right.now) }
{
    let Tree::Fork(root) = right else {
        return left.share();
    };
    let node = root.as_ref();
    let rest = without_first(alloc, node)?;
    balanced(alloc, left.share()?, first(node), rest)
}

/// The node of the first entry.
fn first<K, V>(node: &Node<K, V>) -> &Node<K, V>
    ensures { slice_get (entries_at node.now) 0 ≡ Some (entry_of result.now) }
{
    match &node.left {
        Tree::Leaf => node,
        Tree::Fork(left) => first(left),
    }
}

/// The entries but the first.
fn without_first<K: Copy, V: Drop>(alloc: Global, node: &Node<K, V>) -> Result<Tree<K, V>, NoMemory>
    ensures { IfOk result (λ made. entries_in made ≡ drop 1 (entries_at node.now)) }
{
    let Tree::Fork(first) = &node.left else {
        return node.right.share();
    };
    let left = without_first(alloc, first)?;
    balanced(alloc, left, node, node.right.share()?)
}
