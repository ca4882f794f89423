ghost use Rattle.std.specs.Prelude.{◌≡◌, map, option_map, length, IfOk};
ghost use Rattle.term_value.specs.Value.{VList};
ghost use Rattle.term_value.specs.BuiltIns.{integers};
ghost use Rattle.term_value.specs.Tree as t;
ghost use Rattle.term_value.specs.Read.{trees, only, clauses, call, operation};
ghost use Rattle.code_tree.specs.Reading.{form_of, tree_of, clauses_of};
ghost use Rattle.code_layout.specs.Layout.{reading_of, expr_tree, first_tree};
ghost use Rattle.code_layout.specs.Readings.{expr_read, alt_read, branch_read};

use crate::clauses::{alternatives, branches};
use crate::laying::Laying;
use crate::literals::{atom, integer, string};
use crate::operations::{all, list, operation};
use crate::qualifiers::{comprehension, qualifiers};
use crate::segments::bit_expression;
use code_tree::{Clause, Collected, Form, Primitive, Tree};
use erl_syntax::{Alt, Branch, Expr, Listed, Op};
use shares::Held;
use std::alloc::{AllocError, Global};

/// The number of the atom `ok`.
const OK: u32 = 13;

/// An expression.
#[cycle(lay)]
pub(crate) fn expression(laying: &Laying, expr: &Expr) -> Result<Tree, AllocError>
    ensures { IfOk result (λ tree. tree_of tree ≡ expr_tree laying.now expr.now) }
{
    match expr {
        Expr::Var { at, .. } => Ok(Tree::Variable(laying.number(*at))),
        Expr::Wild { .. } => Ok(Tree::Value(atom(OK))),
        Expr::Int { value, .. } => Ok(Tree::Value(integer(*value))),
        Expr::Char { value, .. } => Ok(Tree::Value(integer(i128::from(*value)))),
        Expr::Atom { atom: number, .. } => Ok(Tree::Value(atom(*number))),
        Expr::ModuleName { .. } => Ok(Tree::Value(atom(laying.own_name()))),
        Expr::Str { chars, .. } => text(laying.alloc, chars.items()),
        Expr::Tuple { items, .. } => strict(laying, Form::Table(Primitive::Tuple), items.items()),
        Expr::List { items, tail, .. } => {
            let trees = expressions(laying, items.items())?;
            let last = first(laying, tail.items())?;
            list(trees, last)
        }
        Expr::Bits { segments, .. } => bit_expression(laying, segments.items()),
        Expr::ListFor { row, quals, .. } => {
            let tree = only(laying, row.items())?;
            let found = qualifiers(laying, quals.items())?;
            comprehension(laying.alloc, Collected::Items, tree, found)
        }
        Expr::BitsFor { row, quals, .. } => {
            let tree = only(laying, row.items())?;
            let found = qualifiers(laying, quals.items())?;
            comprehension(laying.alloc, Collected::Bits, tree, found)
        }
        Expr::Call {
            module,
            name,
            args,
            ..
        } => call(laying, args.items(), module.items(), *name),
        Expr::Case { value, alts, .. } => {
            let tree = only(laying, value.items())?;
            let clauses = alternatives(laying, alts.items())?;
            case(laying.alloc, tree, clauses)
        }
        Expr::Receive { alts, .. } => receive(laying, alts.items()),
        Expr::If { branches, .. } => choice(laying, branches.items()),
        Expr::Unary { op, part, .. } => {
            strict(laying, Form::Table(Primitive::Prefix(*op)), part.items())
        }
        Expr::Binary { op, parts, .. } => binary(laying, *op, parts.items()),
    }
}

/// A string.
fn text(alloc: Global, characters: &[u32]) -> Result<Tree, AllocError>
    ensures { IfOk result (λ tree. tree_of tree ≡ t.Val (VList (integers characters.now))) }
{
    let term = string(alloc, characters)?;
    Ok(Tree::Value(term))
}

/// Parts that open from the left before the form acts on their values.
#[cycle(lay)]
fn strict(laying: &Laying, form: Form, parts: &[Expr]) -> Result<Tree, AllocError>
    ensures { IfOk result (λ tree. tree_of tree ≡ t.All (form_of form) (trees (map (expr_read (reading_of laying.now)) parts.now))) }
{
    let trees = expressions(laying, parts)?;
    Ok(all(form, trees))
}

#[cycle(lay)]
fn call(laying: &Laying, args: &[Expr], home: &[Expr], name: u32) -> Result<Tree, AllocError>
    ensures { IfOk result (λ tree. tree_of tree ≡ call (reading_of laying.now) (map (expr_read (reading_of laying.now)) home.now) name (map (expr_read (reading_of laying.now)) args.now)) }
{
    let form = laying.called(home, name, args.len())?;
    strict(laying, form, args)
}

fn case(alloc: Global, value: Tree, clauses: Listed<Clause>) -> Result<Tree, AllocError>
    ensures { IfOk result (λ tree. tree_of tree ≡ t.First (tree_of value) (t.Alts (clauses_of clauses))) }
{
    Ok(Tree::Case(Held::new(alloc, value)?, clauses))
}

#[cycle(lay)]
fn receive(laying: &Laying, alts: &[Alt]) -> Result<Tree, AllocError>
    ensures { IfOk result (λ tree. tree_of tree ≡ t.Receive (clauses (map (alt_read (reading_of laying.now)) alts.now))) }
{
    let clauses = alternatives(laying, alts)?;
    Ok(Tree::Receive(clauses))
}

#[cycle(lay)]
fn choice(laying: &Laying, reads: &[Branch]) -> Result<Tree, AllocError>
    ensures { IfOk result (λ tree. tree_of tree ≡ t.Choose (clauses (map (branch_read (reading_of laying.now)) reads.now))) }
{
    let clauses = branches(laying, reads)?;
    Ok(Tree::If(clauses))
}

#[cycle(lay)]
fn binary(laying: &Laying, op: Op, parts: &[Expr]) -> Result<Tree, AllocError>
    ensures { IfOk result (λ tree. tree_of tree ≡ operation op (map (expr_read (reading_of laying.now)) parts.now)) }
{
    let trees = expressions(laying, parts)?;
    operation(laying.alloc, op, trees)
}

/// Expressions, in their order.
#[cycle(lay)]
fn expressions(laying: &Laying, exprs: &[Expr]) -> Result<Vec<Tree>, AllocError>
    ensures { IfOk result (λ trees. map tree_of trees.items ≡ map (expr_tree laying.now) exprs.now) }
{
    let mut trees = Vec::new(laying.alloc);
    for expr in exprs {
        let tree = expression(laying, expr)?;
        trees.push(tree)?;
    }
    Ok(trees)
}

/// The first expression, where there is one.
#[cycle(lay)]
fn first(laying: &Laying, exprs: &[Expr]) -> Result<Option<Tree>, AllocError>
    ensures { IfOk result (λ found. option_map tree_of found ≡ first_tree laying.now exprs.now) }
{
    for expr in exprs {
        return Ok(Some(expression(laying, expr)?));
    }
    Ok(None)
}

/// The one expression.
#[cycle(lay)]
pub(crate) fn only(laying: &Laying, exprs: &[Expr]) -> Result<Tree, AllocError>
    ensures { IfOk result (λ tree. tree_of tree ≡ only (map (expr_read (reading_of laying.now)) exprs.now)) }
{
    match first(laying, exprs)? {
        Some(tree) => Ok(tree),
        None => Ok(Tree::Value(atom(OK))),
    }
}
