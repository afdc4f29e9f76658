//! What a tree is with an entry put in. Change the order in which keys are compared only
//! together with `finding` and `removing`.

ghost use Rattle.std.specs.Prelude.{◌≡◌, IfOk};
ghost use Rattle.std.specs.BTreeMap.{insert_entry};
ghost use Rattle.ob_shared.specs.Trees.{IsSearchTree, entries_in};

use crate::node::{Tree, balanced, fork};
use ob_base::NoMemory;
use std::alloc::Global;
use std::cmp::Ordering;
use std::rc::Rc;

/// The tree with a value at a key: an equal key stays and takes the value.
pub(crate) fn inserted<K: Ord + Copy, V: Drop>(
    alloc: Global,
    tree: &Tree<K, V>,
    key: K,
    value: Rc<V>,
) -> Result<Tree<K, V>, NoMemory>
    requires { IsSearchTree K.cmp tree.now }
    ensures { IfOk result (λ made. entries_in made ≡ insert_entry K.cmp (entries_in tree.now) key value.value) }
{
    let Tree::Fork(root) = tree else {
        return fork(alloc, Tree::Leaf, key, value, Tree::Leaf);
    };
    let node = root.as_ref();
    match key.cmp(&node.key) {
        Ordering::Less => {
            let left = inserted(alloc, &node.left, key, value)?;
            balanced(alloc, left, node, node.right.share()?)
        }
        Ordering::Equal => fork(
            alloc,
            node.left.share()?,
            node.key,
            value,
            node.right.share()?,
        ),
        Ordering::Greater => {
            let right = inserted(alloc, &node.right, key, value)?;
            balanced(alloc, node.left.share()?, node, right)
        }
    }
}
