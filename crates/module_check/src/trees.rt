//! Trees of names, which share what they have in common: a name that is put copies the nodes on its way, and nothing else.
//!
//! They are kept balanced as in Arne Andersson's "Balanced Search Trees Made Simple" (1993). A node without a tree before it has
//! the level 1, and any other node has one level more than the tree before it. The tree behind a node has its level or one less,
//! and the tree behind that one has less than the node.

ghost use Rattle.std.specs.Prelude.{◌≡◌, ◌<◌, ◌∷◌, [], List, IfOk, MatchOption};
ghost use Rattle.erl_syntax.specs.Bindings.{Bound};
ghost use Rattle.erl_syntax.specs.Scopes.{Found, IsKnown};
ghost use Rattle.module_check.specs.Nodes.{Tree, Forks, TreeOf, Grown};

use erl_syntax::Span;
use std::alloc::AllocError;
use std::cmp::Ordering;

/// A name with its place, and the trees of the names before and behind it in their order.
#[derive(Clone, Copy)]
pub(crate) struct Node<'a> {
    pub name: &'a [u8],
    pub at: Span,
    /// The numbers of the roots, counted from 1, or 0 where a tree is empty.
    pub left: usize,
    pub right: usize,
    pub level: u32,
}

/// The node at the root of a tree, where the tree isn't empty.
fn node_at<'a>(nodes: &[Node<'a>], root: usize) -> Option<Node<'a>>
    ensures tree { (ts : List Bound) → Tree nodes.now root ts → MatchOption result (ts ≡ []) (λ n. Forks nodes.now n ts) }
    ensures within { MatchOption result (Unit {0}) (λ n. (n.left < root) × (n.right < root)) }
{
    let place = root.checked_sub(1)?;
    let node = nodes.get(place)?;
    Some(Node {
        left: node.left.min(place),
        right: node.right.min(place),
        ..*node
    })
}

/// The level of a tree, 0 where it is empty.
fn level_of(nodes: &[Node], root: usize) -> u32 {
    match node_at(nodes, root) {
        Some(node) => node.level,
        None => 0,
    }
}

/// The place of the name among those known at the root.
pub(crate) fn find(nodes: &[Node], last: usize, name: &[u8]) -> Option<Span>
    ensures { (bs : List Bound) → TreeOf nodes.now last bs → MatchOption result (IsKnown bs name.now → ⊥) (λ at. Found bs name.now at) }
{
    let mut rest = last;
    while let Some(node) = node_at(nodes, rest) {
        match name.cmp(node.name) {
            Ordering::Less => rest = node.left,
            Ordering::Equal => return Some(node.at),
            Ordering::Greater => rest = node.right,
        }
    }
    None
}

/// Adds a node, and answers its number.
fn add<'a>(nodes: &mut Vec<Node<'a>>, node: Node<'a>) -> Result<usize, AllocError>
    ensures grown { IfOk result (λ root. Grown nodes.old.items nodes.new.items) }
    ensures tree { IfOk result (λ root. (ts : List Bound) → Forks nodes.old.items node.entry ts → Tree nodes.new.items root ts) }
{
    nodes.push(node)?;
    Ok(nodes.len())
}

/// The node, turned where the tree before it has its level.
fn skew<'a>(nodes: &mut Vec<Node<'a>>, node: Node<'a>) -> Result<Node<'a>, AllocError>
    ensures grown { IfOk result (λ turned. Grown nodes.old.items nodes.new.items) }
    ensures same { IfOk result (λ turned. (ts : List Bound) → Forks nodes.old.items node.entry ts → Forks nodes.new.items turned ts) }
{
    let Some(left) = node_at(nodes, node.left) else {
        return Ok(node);
    };
    if left.level != node.level {
        return Ok(node);
    }
    let lowered = Node {
        left: left.right,
        ..node
    };
    let right = add(nodes, lowered)?;
    Ok(Node { right, ..left })
}

/// The node, turned where the tree behind the one behind it has its level.
fn split<'a>(nodes: &mut Vec<Node<'a>>, node: Node<'a>) -> Result<Node<'a>, AllocError>
    ensures grown { IfOk result (λ turned. Grown nodes.old.items nodes.new.items) }
    ensures same { IfOk result (λ turned. (ts : List Bound) → Forks nodes.old.items node.entry ts → Forks nodes.new.items turned ts) }
{
    let Some(right) = node_at(nodes, node.right) else {
        return Ok(node);
    };
    if level_of(nodes, right.right) != node.level {
        return Ok(node);
    }
    let lowered = Node {
        right: right.left,
        ..node
    };
    let left = add(nodes, lowered)?;
    Ok(Node {
        left,
        level: node.level.saturating_add(1),
        ..right
    })
}

/// Adds a node, balanced, and answers the root.
fn balance<'a>(nodes: &mut Vec<Node<'a>>, node: Node<'a>) -> Result<usize, AllocError>
    ensures grown { IfOk result (λ root. Grown nodes.old.items nodes.new.items) }
    ensures tree { IfOk result (λ root. (ts : List Bound) → Forks nodes.old.items node.entry ts → Tree nodes.new.items root ts) }
{
    let skewed = skew(nodes, node)?;
    let turned = split(nodes, skewed)?;
    add(nodes, turned)
}

/// Puts a name in front of those known at a root, and answers the new root.
pub(crate) fn put<'a>(
    nodes: &mut Vec<Node<'a>>,
    before: usize,
    name: &'a [u8],
    at: Span,
) -> Result<usize, AllocError>
    ensures grown { IfOk result (λ last. Grown nodes.old.items nodes.new.items) }
    ensures put { IfOk result (λ last. (bs : List Bound) → TreeOf nodes.old.items before bs → TreeOf nodes.new.items last (record { name = name.entry.now; at = at } ∷ bs)) }
{
    let Some(node) = node_at(nodes, before) else {
        let leaf = Node {
            name,
            at,
            left: 0,
            right: 0,
            level: 1,
        };
        return add(nodes, leaf);
    };
    match name.cmp(node.name) {
        Ordering::Less => {
            let left = put(nodes, node.left, name, at)?;
            balance(nodes, Node { left, ..node })
        }
        Ordering::Equal => add(nodes, Node { name, at, ..node }),
        Ordering::Greater => {
            let right = put(nodes, node.right, name, at)?;
            balance(nodes, Node { right, ..node })
        }
    }
}
