//! Expressions that open.
ghost use Rattle.std.specs.Prelude.{IfOk};
ghost use Rattle.plain_moves.specs.Moving.{IsMove};
ghost use Rattle.plain_moves.specs.Worlds.{world_of};
ghost use Rattle.code_match.specs.Binds.{bounds};
ghost use Rattle.code_tree.specs.PlainTerms.{value};
ghost use Rattle.code_tree.specs.Reading.{clauses_of, form_of, tree_of, trees_of};
ghost use Rattle.term_value.specs.PutIn.{put_in};
ghost use Rattle.term_value.specs.Step.{World};
ghost use Rattle.term_value.specs.Tree as t;

use crate::acting::act;
use crate::choices::goes_with;
use crate::focus::{Focus, Open, Stop};
use crate::frame::{Frame, Part};
use crate::moves::Move;
use crate::reasons::{BADARG, IF_CLAUSE};
use crate::scene::Scene;
use crate::values::Values;
use code_match::{Bindings, chosen};
use code_tree::{Clause, Form, PlainTerm, Tree};
use shares::Share;
use std::alloc::AllocError;

pub(crate) fn open_literal<'a>(term: &PlainTerm) -> Result<Move<'a>, AllocError>
    ensures { (w : World) → IfOk result (λ made. IsMove w (t.Val (value term.now)) made) }
{
    Ok(Move::Becomes(Focus::Value(term.share()?)))
}

pub(crate) fn open_variable<'a>(variable: u32, bindings: &Bindings) -> Result<Move<'a>, AllocError>
    ensures { (w : World) → IfOk result (λ made. IsMove w (put_in (bounds bindings.now) (t.Var variable)) made) }
{
    match bindings.get(variable) {
        Some(term) => Ok(Move::Becomes(Focus::Value(PlainTerm::of(term.share()?)))),
        None => Ok(Move::Falls(0, Stop::Atom(BADARG))),
    }
}

/// A form with its parts: the first opens, or the form acts where it has none.
pub(crate) fn open_form<'a>(
    scene: &Scene<'a>,
    form: &'a Form,
    parts: &'a [Tree],
    bindings: Bindings,
) -> Result<Move<'a>, AllocError>
    ensures { IfOk result (λ made. IsMove (world_of scene.now) (put_in (bounds bindings) (t.All (form_of form.now) (trees_of parts.now))) made) }
{
    let values = Values::new(scene.alloc);
    match parts.split_first() {
        None => act(scene, form, values),
        Some((first, waiting)) => {
            let part = Part {
                form,
                values,
                waiting,
                bindings: bindings.again()?,
            };
            Ok(Move::Enters(Frame::Part(part), Open::Tree(first, bindings)))
        }
    }
}

pub(crate) fn open_case<'a>(
    first: &'a Tree,
    clauses: &'a [Clause],
    bindings: Bindings,
) -> Result<Move<'a>, AllocError>
    ensures { (w : World) → IfOk result (λ made. IsMove w (put_in (bounds bindings) (t.First (tree_of first.now) (t.Alts (clauses_of clauses.now)))) made) }
{
    let frame = Frame::Case(clauses, bindings.again()?);
    Ok(Move::Enters(frame, Open::Tree(first, bindings)))
}

pub(crate) fn open_and_also<'a>(
    first: &'a Tree,
    second: &'a Tree,
    bindings: Bindings,
) -> Result<Move<'a>, AllocError>
    ensures { (w : World) → IfOk result (λ made. IsMove w (put_in (bounds bindings) (t.First (tree_of first.now) (t.AndAlso (tree_of second.now)))) made) }
{
    let frame = Frame::AndAlso(second, bindings.again()?);
    Ok(Move::Enters(frame, Open::Tree(first, bindings)))
}

pub(crate) fn open_or_else<'a>(
    first: &'a Tree,
    second: &'a Tree,
    bindings: Bindings,
) -> Result<Move<'a>, AllocError>
    ensures { (w : World) → IfOk result (λ made. IsMove w (put_in (bounds bindings) (t.First (tree_of first.now) (t.OrElse (tree_of second.now)))) made) }
{
    let frame = Frame::OrElse(second, bindings.again()?);
    Ok(Move::Enters(frame, Open::Tree(first, bindings)))
}

pub(crate) fn open_if<'a>(
    scene: &Scene<'a>,
    clauses: &'a [Clause],
    bindings: &Bindings,
) -> Result<Move<'a>, AllocError>
    ensures { IfOk result (λ made. IsMove (world_of scene.now) (put_in (bounds bindings.now) (t.Choose (clauses_of clauses.now))) made) }
{
    let choice = chosen(&scene.caller(), clauses, &[], bindings)?;
    Ok(goes_with(0, Stop::Atom(IF_CLAUSE), choice))
}

pub(crate) fn open_receive<'a>(clauses: &'a [Clause], bindings: Bindings) -> Move<'a>
    ensures { (w : World) → IsMove w (put_in (bounds bindings) (t.Receive (clauses_of clauses.now))) result }
{
    Move::Becomes(Focus::Receives(clauses, bindings))
}
