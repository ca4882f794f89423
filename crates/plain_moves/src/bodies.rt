//! Bodies.
ghost use Rattle.std.specs.Prelude.{IfOk, [], ◌∷◌};
ghost use Rattle.plain_moves.specs.Moving.{IsMove};
ghost use Rattle.plain_moves.specs.Worlds.{world_of};
ghost use Rattle.code_match.specs.Binds.{bounds};
ghost use Rattle.code_tree.specs.PlainTerms.{value};
ghost use Rattle.code_tree.specs.Reading.{body_of, patterns_of};
ghost use Rattle.term_layers.specs.Environments as e;
ghost use Rattle.term_layers.specs.Layers.{wrap};
ghost use Rattle.term_value.specs.PutIn.{put_in};
ghost use Rattle.term_value.specs.Step.{World};
ghost use Rattle.term_value.specs.Tree as t;

use crate::focus::{Focus, Open, Stop};
use crate::frame::Frame;
use crate::moves::Move;
use crate::reasons::{BADMATCH, OK};
use crate::scene::Scene;
use code_match::{Bindings, Matched, all_matched};
use code_tree::{Line, Pattern, PlainTerm};
use std::alloc::AllocError;
use term_value::Term;

/// A body with items: the first opens.
pub(crate) fn open_body<'a>(lines: &'a [Line], bindings: Bindings) -> Result<Move<'a>, AllocError>
    ensures { (w : World) → IfOk result (λ made. IsMove w (put_in (bounds bindings) (body_of lines.now)) made) }
{
    match lines.split_first() {
        None => Ok(Move::Becomes(Focus::Value(PlainTerm::of(Term::Atom(OK))))),
        Some((line, rest)) => open_line(line, rest, bindings),
    }
}

// An item before others, or the last.
fn open_line<'a>(
    line: &'a Line,
    rest: &'a [Line],
    bindings: Bindings,
) -> Result<Move<'a>, AllocError>
    ensures { (w : World) → IfOk result (λ made. IsMove w (put_in (bounds bindings) (body_of (line.now ∷ rest.now))) made) }
{
    if rest.is_empty() {
        open_last(line, bindings)
    } else {
        let frame = Frame::Then(line.patterns.items(), rest, bindings.again()?);
        Ok(Move::Enters(frame, Open::Tree(&line.value, bindings)))
    }
}

// The last item.
fn open_last<'a>(line: &'a Line, bindings: Bindings) -> Result<Move<'a>, AllocError>
    ensures { (w : World) → IfOk result (λ made. IsMove w (put_in (bounds bindings) (body_of (line.now ∷ []))) made) }
{
    let patterns = line.patterns.items();
    if patterns.is_empty() {
        Ok(Move::Becomes(Focus::Goes(Open::Tree(&line.value, bindings))))
    } else {
        let frame = Frame::Last(patterns, bindings.again()?);
        Ok(Move::Enters(frame, Open::Tree(&line.value, bindings)))
    }
}

/// The value of an item before others.
pub(crate) fn give_then<'a>(
    scene: &Scene<'a>,
    patterns: &'a [Pattern],
    rest: &'a [Line],
    bindings: Bindings,
    term: PlainTerm,
) -> Result<Move<'a>, AllocError>
    ensures { IfOk result (λ made. IsMove (world_of scene.now) (wrap (e.layer_of (e.BeforeIn (t.Then (patterns_of patterns.now) (body_of rest.now)) (bounds bindings))) (t.Val (value term))) made) }
{
    match all_matched(&scene.caller(), patterns, term.term(), bindings)? {
        Matched::Yes(bindings) => Ok(Move::Goes(0, Focus::Goes(Open::Body(rest, bindings)))),
        Matched::No => Ok(Move::Falls(0, Stop::Of(BADMATCH, term))),
        Matched::Limit => Ok(Move::Falls(0, Stop::Limit)),
    }
}

/// The value of a last item with patterns.
pub(crate) fn give_last<'a>(
    scene: &Scene<'a>,
    patterns: &'a [Pattern],
    bindings: Bindings,
    term: PlainTerm,
) -> Result<Move<'a>, AllocError>
    ensures { IfOk result (λ made. IsMove (world_of scene.now) (wrap (e.layer_of (e.BeforeIn (t.Last (patterns_of patterns.now)) (bounds bindings))) (t.Val (value term))) made) }
{
    match all_matched(&scene.caller(), patterns, term.term(), bindings)? {
        Matched::Yes(_) => Ok(Move::Goes(0, Focus::Value(term))),
        Matched::No => Ok(Move::Falls(0, Stop::Of(BADMATCH, term))),
        Matched::Limit => Ok(Move::Falls(0, Stop::Limit)),
    }
}
