//! Values of the parts of expressions.
ghost use Rattle.std.specs.Prelude.{IfOk, map, reverse};
ghost use Rattle.plain_moves.specs.Moving.{IsMove};
ghost use Rattle.plain_moves.specs.Worlds.{world_of};
ghost use Rattle.code_match.specs.Binds.{bounds};
ghost use Rattle.code_tree.specs.PlainTerms.{value};
ghost use Rattle.code_tree.specs.Reading.{clauses_of, form_of, tree_of, trees_of};
ghost use Rattle.term_layers.specs.Environments as e;
ghost use Rattle.term_layers.specs.Layers.{wrap};
ghost use Rattle.term_value.specs.Step.{World};
ghost use Rattle.term_value.specs.Tree as t;

use crate::acting::act;
use crate::choices::goes_with;
use crate::focus::{Focus, Open, Stop};
use crate::frame::{Frame, Part};
use crate::moves::Move;
use crate::reasons::{BADARG, CASE_CLAUSE};
use crate::scene::Scene;
use crate::truths::truth;
use code_match::{Bindings, chosen};
use code_tree::{Clause, PlainTerm, Tree};
use shares::Share;
use std::alloc::AllocError;

/// The value of a part of a form: the next part opens, or the form acts.
pub(crate) fn give_part<'a>(
    scene: &Scene<'a>,
    part: Part<'a>,
    term: PlainTerm,
) -> Result<Move<'a>, AllocError>
    ensures { IfOk result (λ made. IsMove (world_of scene.now) (wrap (e.layer_of (e.PartIn (form_of part.entry.form.now) (reverse (map value part.entry.values)) (trees_of part.entry.waiting.now) (bounds part.entry.bindings))) (t.Val (value term))) made) }
{
    let Part {
        form,
        mut values,
        waiting,
        bindings,
    } = part;
    values.push(term)?;
    match waiting.split_first() {
        None => act(scene, form, values),
        Some((next, waiting)) => {
            let part = Part {
                form,
                values,
                waiting,
                bindings: bindings.again()?,
            };
            Ok(Move::Enters(Frame::Part(part), Open::Tree(next, bindings)))
        }
    }
}

/// The value that a `case` looks at.
pub(crate) fn give_case<'a>(
    scene: &Scene<'a>,
    clauses: &'a [Clause],
    bindings: &Bindings,
    term: PlainTerm,
) -> Result<Move<'a>, AllocError>
    ensures { IfOk result (λ made. IsMove (world_of scene.now) (wrap (e.layer_of (e.BeforeIn (t.Alts (clauses_of clauses.now)) (bounds bindings.now))) (t.Val (value term))) made) }
{
    let values = [term.term().share()?];
    let choice = chosen(&scene.caller(), clauses, &values, bindings)?;
    Ok(goes_with(0, Stop::Of(CASE_CLAUSE, term), choice))
}

/// The value of the first part of an `andalso`.
pub(crate) fn give_and_also<'a>(second: &'a Tree, bindings: Bindings, term: PlainTerm) -> Move<'a>
    ensures { (w : World) → IsMove w (wrap (e.layer_of (e.BeforeIn (t.AndAlso (tree_of second.now)) (bounds bindings))) (t.Val (value term))) result }
{
    match truth(&term) {
        Some(true) => Move::Goes(0, Focus::Goes(Open::Tree(second, bindings))),
        Some(false) => Move::Goes(0, Focus::Value(term)),
        None => Move::Falls(0, Stop::Of(BADARG, term)),
    }
}

/// The value of the first part of an `orelse`.
pub(crate) fn give_or_else<'a>(second: &'a Tree, bindings: Bindings, term: PlainTerm) -> Move<'a>
    ensures { (w : World) → IsMove w (wrap (e.layer_of (e.BeforeIn (t.OrElse (tree_of second.now)) (bounds bindings))) (t.Val (value term))) result }
{
    match truth(&term) {
        Some(false) => Move::Goes(0, Focus::Goes(Open::Tree(second, bindings))),
        Some(true) => Move::Goes(0, Focus::Value(term)),
        None => Move::Falls(0, Stop::Of(BADARG, term)),
    }
}
