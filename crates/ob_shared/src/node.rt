//! The tree behind a map, and how its nodes are made. A node never changes: an edit makes new
//! ones and shares the others. How high the sides are is a matter of speed alone, so no
//! contract speaks of it, and the way of balancing may change at will.

ghost use Rattle.std.specs.Prelude.{◌≡◌, ◌∷◌, ◌++◌, IfOk};
ghost use Rattle.ob_shared.specs.Trees.{entries_at, entries_in, entry_of};

use ob_base::NoMemory;
use std::alloc::Global;
use std::rc::Rc;

/// A search tree. Trees share the nodes that they have in common.
#[cycle(tree)]
#[derive(Drop)]
pub(crate) enum Tree<K, V> {
    Leaf,
    Fork(Rc<Node<K, V>>),
}

/// An entry between those before it and those after it. The value stands apart, since nodes
/// that are made anew share it with the old ones.
#[cycle(tree)]
#[derive(Drop)]
pub(crate) struct Node<K, V> {
    pub(crate) key: K,
    pub(crate) value: Rc<V>,
    height: u8,
    pub(crate) left: Tree<K, V>,
    pub(crate) right: Tree<K, V>,
}

impl<K, V> Tree<K, V> {
    /// How many nodes the longest way down has.
    fn height(&self) -> u8 {
        match self {
            Tree::Leaf => 0,
            Tree::Fork(node) => node.height,
        }
    }
}

impl<K: Drop, V: Drop> Tree<K, V> {
    /// The same tree once more.
    pub(crate) fn share(&self) -> Result<Tree<K, V>, NoMemory>
        ensures { IfOk result (λ copy. entries_in copy ≡ entries_in self.now) }
    {
        match self {
            Tree::Leaf => Ok(Tree::Leaf),
            Tree::Fork(node) => Ok(Tree::Fork(node.clone()?)),
        }
    }
}

/// A tree of a left side, an entry and a right side.
pub(crate) fn fork<K: Drop, V: Drop>(
    alloc: Global,
    left: Tree<K, V>,
    key: K,
    value: Rc<V>,
    right: Tree<K, V>,
) -> Result<Tree<K, V>, NoMemory>
    ensures { IfOk result (λ tree. entries_in tree ≡ entries_in left ++ (key, value.value) ∷ entries_in right) }
{
    let node = Node {
        height: left.height().max(right.height()).saturating_add(1),
        key,
        value,
        left,
        right,
    };
    Ok(Tree::Fork(Rc::new(alloc, node)?))
}

/// A tree of two sides and a node's entry between them.
fn between<K: Copy, V: Drop>(
    alloc: Global,
    left: Tree<K, V>,
    middle: &Node<K, V>,
    right: Tree<K, V>,
) -> Result<Tree<K, V>, NoMemory>
    ensures { IfOk result (λ tree. entries_in tree ≡ entries_in left ++ entry_of middle.now ∷ entries_in right) }
{
    fork(alloc, left, middle.key, middle.value.clone()?, right)
}

/// The same, where one side may be two levels higher than the other: then it lends the other
/// one of its own sides.
pub(crate) fn balanced<K: Copy, V: Drop>(
    alloc: Global,
    left: Tree<K, V>,
    middle: &Node<K, V>,
    right: Tree<K, V>,
) -> Result<Tree<K, V>, NoMemory>
    ensures { IfOk result (λ tree. entries_in tree ≡ entries_in left ++ entry_of middle.now ∷ entries_in right) }
{
    if left.height() > right.height().saturating_add(1) {
        return leaning_left(alloc, &left, middle, right);
    }
    if right.height() > left.height().saturating_add(1) {
        return leaning_right(alloc, left, middle, &right);
    }
    between(alloc, left, middle, right)
}

/// `balanced`, where the left side is too high.
fn leaning_left<K: Copy, V: Drop>(
    alloc: Global,
    left: &Tree<K, V>,
    middle: &Node<K, V>,
    right: Tree<K, V>,
) -> Result<Tree<K, V>, NoMemory>
    ensures { IfOk result (λ tree. entries_in tree ≡ entries_in left.now ++ entry_of middle.now ∷ entries_in right) }
{
    let Tree::Fork(outer) = left else {
        return between(alloc, Tree::Leaf, middle, right);
    };
    match &outer.right {
        Tree::Fork(inner) if inner.height > outer.left.height() => {
            turned_right_twice(alloc, outer, inner, middle, right)
        }
        _ => turned_right(alloc, outer, middle, right),
    }
}

/// Moves the right side of `outer` over to the right.
fn turned_right<K: Copy, V: Drop>(
    alloc: Global,
    outer: &Node<K, V>,
    middle: &Node<K, V>,
    right: Tree<K, V>,
) -> Result<Tree<K, V>, NoMemory>
    ensures { IfOk result (λ tree. entries_in tree ≡ entries_at outer.now ++ entry_of middle.now ∷ entries_in right) }
{
    let high = between(alloc, outer.right.share()?, middle, right)?;
    between(alloc, outer.left.share()?, outer, high)
}

/// Parts `inner`, the right side of `outer`, between left and right.
fn turned_right_twice<K: Copy, V: Drop>(
    alloc: Global,
    outer: &Node<K, V>,
    inner: &Node<K, V>,
    middle: &Node<K, V>,
    right: Tree<K, V>,
) -> Result<Tree<K, V>, NoMemory>
    requires { entries_in outer.now.right ≡ entries_at inner.now }
    ensures { IfOk result (λ tree. entries_in tree ≡ entries_at outer.now ++ entry_of middle.now ∷ entries_in right) }
{
    let high = between(alloc, inner.right.share()?, middle, right)?;
    let low = between(alloc, outer.left.share()?, outer, inner.left.share()?)?;
    between(alloc, low, inner, high)
}

/// `balanced`, where the right side is too high.
fn leaning_right<K: Copy, V: Drop>(
    alloc: Global,
    left: Tree<K, V>,
    middle: &Node<K, V>,
    right: &Tree<K, V>,
) -> Result<Tree<K, V>, NoMemory>
    ensures { IfOk result (λ tree. entries_in tree ≡ entries_in left ++ entry_of middle.now ∷ entries_in right.now) }
{
    let Tree::Fork(outer) = right else {
        return between(alloc, left, middle, Tree::Leaf);
    };
    match &outer.left {
        Tree::Fork(inner) if inner.height > outer.right.height() => {
            turned_left_twice(alloc, left, middle, inner, outer)
        }
        _ => turned_left(alloc, left, middle, outer),
    }
}

/// Moves the left side of `outer` over to the left.
fn turned_left<K: Copy, V: Drop>(
    alloc: Global,
    left: Tree<K, V>,
    middle: &Node<K, V>,
    outer: &Node<K, V>,
) -> Result<Tree<K, V>, NoMemory>
    ensures { IfOk result (λ tree. entries_in tree ≡ entries_in left ++ entry_of middle.now ∷ entries_at outer.now) }
{
    let low = between(alloc, left, middle, outer.left.share()?)?;
    between(alloc, low, outer, outer.right.share()?)
}

/// Parts `inner`, the left side of `outer`, between left and right.
fn turned_left_twice<K: Copy, V: Drop>(
    alloc: Global,
    left: Tree<K, V>,
    middle: &Node<K, V>,
    inner: &Node<K, V>,
    outer: &Node<K, V>,
) -> Result<Tree<K, V>, NoMemory>
    requires { entries_in outer.now.left ≡ entries_at inner.now }
    ensures { IfOk result (λ tree. entries_in tree ≡ entries_in left ++ entry_of middle.now ∷ entries_at outer.now) }
{
    let low = between(alloc, left, middle, inner.left.share()?)?;
    let high = between(alloc, inner.right.share()?, outer, outer.right.share()?)?;
    between(alloc, low, inner, high)
}
