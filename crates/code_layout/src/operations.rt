//! What becomes of parts that are laid out.

ghost use Rattle.std.specs.Prelude.{◌≡◌, ◌≢◌, ◌∷◌, [], List, map, length, IfOk, MatchResult, option_map};
ghost use Rattle.term_value.specs.Read.{Read, listed, operation};
ghost use Rattle.term_value.specs.Tree as t;
ghost use Rattle.code_tree.specs.Reading.{form_of, tree_of, trees_of};
ghost use Rattle.code_layout.specs.Layout.{first_of};

use code_tree::{Form, Primitive, Tree};
use erl_syntax::{Listed, Op};
use shares::Held;
use std::alloc::{AllocError, Global};

/// The parts open from the left, and then the form acts on their values.
pub(crate) fn all(form: Form, parts: Vec<Tree>) -> Tree
    ensures { tree_of result ≡ t.All (form_of form) (trees_of parts.items) }
{
    Tree::All(form, Listed::of(parts))
}

/// The parts, where they are two.
fn pair(mut parts: Vec<Tree>) -> Result<(Tree, Tree), Vec<Tree>>
    ensures { MatchResult result (λ two. parts.items ≡ two.0 ∷ two.1 ∷ []) (λ others. others.items ≡ parts.items × (length parts.items ≢ 2)) }
{
    if parts.len() != 2 {
        return Err(parts);
    }
    let Some(second) = parts.pop() else {
        return Err(parts);
    };
    let Some(first) = parts.pop() else {
        return Err(parts);
    };
    Ok((first, second))
}

fn and_also(alloc: Global, parts: Vec<Tree>) -> Result<Tree, AllocError>
    ensures { IfOk result (λ tree. (reads : List Read) → map tree_of parts.items ≡ map (λ q. q.tree) reads → tree_of tree ≡ operation Op.AndAlso reads) }
{
    match pair(parts) {
        Ok((first, second)) => Ok(Tree::AndAlso(
            Held::new(alloc, first)?,
            Held::new(alloc, second)?,
        )),
        Err(parts) => Ok(all(Form::Table(Primitive::Operator(Op::AndAlso)), parts)),
    }
}

fn or_else(alloc: Global, parts: Vec<Tree>) -> Result<Tree, AllocError>
    ensures { IfOk result (λ tree. (reads : List Read) → map tree_of parts.items ≡ map (λ q. q.tree) reads → tree_of tree ≡ operation Op.OrElse reads) }
{
    match pair(parts) {
        Ok((first, second)) => Ok(Tree::OrElse(
            Held::new(alloc, first)?,
            Held::new(alloc, second)?,
        )),
        Err(parts) => Ok(all(Form::Table(Primitive::Operator(Op::OrElse)), parts)),
    }
}

/// An operator between parts.
pub(crate) fn operation(alloc: Global, op: Op, parts: Vec<Tree>) -> Result<Tree, AllocError>
    ensures { IfOk result (λ tree. (reads : List Read) → map tree_of parts.items ≡ map (λ q. q.tree) reads → tree_of tree ≡ operation op reads) }
{
    match op {
        Op::Send => Ok(all(Form::Send, parts)),
        Op::AndAlso => and_also(alloc, parts),
        Op::OrElse => or_else(alloc, parts),
        _ => Ok(all(Form::Table(Primitive::Operator(op)), parts)),
    }
}

/// A list of items, or of items on a tail, which is evaluated last.
pub(crate) fn list(mut items: Vec<Tree>, tail: Option<Tree>) -> Result<Tree, AllocError>
    ensures { IfOk result (λ tree. (reads tails : List Read) → map tree_of items.items ≡ map (λ q. q.tree) reads → option_map tree_of tail ≡ first_of tails → tree_of tree ≡ listed reads tails) }
{
    match tail {
        None => Ok(all(Form::Table(Primitive::List), items)),
        Some(last) => {
            items.push(last)?;
            Ok(all(Form::Table(Primitive::ListOn), items))
        }
    }
}
