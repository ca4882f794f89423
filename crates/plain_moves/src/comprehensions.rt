//! Comprehensions.
ghost use Rattle.std.specs.Prelude.{◌≡◌, List, [], ◌∷◌, IfOk, map};
ghost use Rattle.plain_moves.specs.Moving.{IsMove};
ghost use Rattle.plain_moves.specs.Reading.{levels_of, quals_of};
ghost use Rattle.plain_moves.specs.Worlds.{world_of};
ghost use Rattle.code_match.specs.Binds.{bounds};
ghost use Rattle.code_rows.specs.Gathering.{got_of};
ghost use Rattle.code_rows.specs.Remaining.{rows_left, IsBefore};
ghost use Rattle.code_tree.specs.PlainTerms.{value};
ghost use Rattle.code_tree.specs.Reading.{generator_of, nothing_of, qualifier_of, qualifiers, qualifiers_of, tree_of};
ghost use Rattle.term_layers.specs.Environments as e;
ghost use Rattle.term_layers.specs.Layers.{wrap};
ghost use Rattle.term_value.specs.PutIn.{in_quals, put_in};
ghost use Rattle.term_value.specs.Step as step;
ghost use Rattle.term_value.specs.Tree as t;

use crate::focus::{Focus, Further, Gathering, Level, Open, Stop};
use crate::frame::Frame;
use crate::moves::Move;
use crate::reasons::{BAD_FILTER, BAD_GENERATOR, BADARG};
use crate::scene::Scene;
use crate::stack::Stack;
use crate::truths::truth;
use code_match::Bindings;
use code_rows::{Collecting, Gathered, RowFound, Rows};
use code_tree::{Collected, Generator, PlainTerm, Qualifier, Tree};
use std::alloc::AllocError;

/// A comprehension opens.
pub(crate) fn open_comprehension<'a>(
    scene: &Scene<'a>,
    kind: Collected,
    qualifiers: &'a [Qualifier],
    row: &'a Tree,
    bindings: Bindings,
) -> Result<Move<'a>, AllocError>
    ensures { IfOk result (λ made. IsMove (world_of scene.now) (put_in (bounds bindings) (t.Gather (nothing_of kind) (qualifiers_of qualifiers.now row.now) t.bottom)) made) }
{
    let gathering = Gathering {
        got: Gathered::new(scene.alloc, kind)?,
        levels: Stack::new(scene.alloc),
    };
    let further = Further {
        qualifiers,
        row,
        bindings,
    };
    Ok(Move::Becomes(Focus::Goes(Open::Qualifiers(gathering, further))))
}

/// The next row of a comprehension.
pub(crate) fn open_rows<'a>(
    scene: &Scene<'a>,
    gathering: Gathering<'a>,
) -> Result<Move<'a>, AllocError>
    ensures { IfOk result (λ made. IsMove (world_of scene.now) (e.tree_in (e.Gathers (got_of gathering.entry.got) [] t.turn (levels_of (step.setting (world_of scene.now)) gathering.entry.levels))) made) }
{
    let Gathering { got, mut levels } = gathering;
    match levels.pop() {
        None => finish(scene, got),
        Some(level) => next_row(scene, Gathering { got, levels }, level),
    }
}

// No row waits.
fn finish<'a>(scene: &Scene<'a>, got: Gathered) -> Result<Move<'a>, AllocError>
    ensures { IfOk result (λ made. IsMove (world_of scene.now) (t.Gather (got_of got) t.turn t.bottom) made) }
{
    let term = got.finish(scene.alloc)?;
    Ok(Move::Goes(0, Focus::Value(term)))
}

// The next row of the innermost generator.
fn next_row<'a>(
    scene: &Scene<'a>,
    outer: Gathering<'a>,
    level: Level<'a>,
) -> Result<Move<'a>, AllocError>
    ensures { IfOk result (λ made. IsMove (world_of scene.now) (e.tree_in (e.Gathers (got_of outer.entry.got) [] t.turn (levels_of (step.setting (world_of scene.now)) (level.entry ∷ outer.entry.levels)))) made) }
{
    let Level {
        bindings,
        mut rows,
        qualifiers,
        row,
    } = level;
    let found = rows.next(&scene.caller(), &bindings)?;
    let behind = Level {
        bindings,
        rows,
        qualifiers,
        row,
    };
    after_row(outer, behind, found)
}

// What is found in front of the rows that are left.
#[tactic(auto, using(crate::proofs::Gathers::row_at_limit, crate::proofs::Gathers::rows_ended))]
fn after_row<'a>(
    outer: Gathering<'a>,
    level: Level<'a>,
    found: RowFound,
) -> Result<Move<'a>, AllocError>
    ensures { (w : step.World) (before : List t.Row) → IsBefore (bounds level.entry.bindings) found (rows_left (step.setting w) (bounds level.entry.bindings) level.entry.rows) before
        → IfOk result (λ made. IsMove w (e.tree_in (e.Gathers (got_of outer.entry.got) [] t.turn (e.level_under (bounds level.entry.bindings) before (qualifiers_of level.entry.qualifiers.now level.entry.row.now) (levels_of (step.setting w) outer.entry.levels)))) made) }
{
    match found {
        RowFound::Found(bindings) => found_row(outer, level, bindings),
        RowFound::Skipped => skipped_row(outer, level),
        RowFound::Limit => Ok(Move::Falls(1, Stop::Limit)),
        RowFound::Ended => Ok(Move::Goes(0, Focus::Goes(Open::Rows(outer)))),
    }
}

#[tactic(auto, using(crate::proofs::Gathers::row_found))]
fn found_row<'a>(
    outer: Gathering<'a>,
    level: Level<'a>,
    bindings: Bindings,
) -> Result<Move<'a>, AllocError>
    ensures { (w : step.World) (before : List t.Row) → IsBefore (bounds level.entry.bindings) (RowFound.Found bindings) (rows_left (step.setting w) (bounds level.entry.bindings) level.entry.rows) before
        → IfOk result (λ made. IsMove w (e.tree_in (e.Gathers (got_of outer.entry.got) [] t.turn (e.level_under (bounds level.entry.bindings) before (qualifiers_of level.entry.qualifiers.now level.entry.row.now) (levels_of (step.setting w) outer.entry.levels)))) made) }
{
    let further = Further {
        qualifiers: level.qualifiers,
        row: level.row,
        bindings,
    };
    match with_level(outer, level) {
        Ok(gathering) => Ok(Move::Goes(1, Focus::Goes(Open::Qualifiers(gathering, further)))),
        Err(error) => Err(error),
    }
}

#[tactic(auto, using(crate::proofs::Gathers::row_skipped))]
fn skipped_row<'a>(outer: Gathering<'a>, level: Level<'a>) -> Result<Move<'a>, AllocError>
    ensures { (w : step.World) (before : List t.Row) → IsBefore (bounds level.entry.bindings) RowFound.Skipped (rows_left (step.setting w) (bounds level.entry.bindings) level.entry.rows) before
        → IfOk result (λ made. IsMove w (e.tree_in (e.Gathers (got_of outer.entry.got) [] t.turn (e.level_under (bounds level.entry.bindings) before (qualifiers_of level.entry.qualifiers.now level.entry.row.now) (levels_of (step.setting w) outer.entry.levels)))) made) }
{
    match with_level(outer, level) {
        Ok(gathering) => Ok(Move::Goes(1, Focus::Goes(Open::Rows(gathering)))),
        Err(error) => Err(error),
    }
}

fn with_level<'a>(gathering: Gathering<'a>, level: Level<'a>) -> Result<Gathering<'a>, AllocError>
    ensures got { IfOk result (λ made. made.got ≡ gathering.entry.got) }
    ensures levels { IfOk result (λ made. made.levels ≡ level.entry ∷ gathering.entry.levels) }
{
    let Gathering { got, mut levels } = gathering;
    levels.push(level)?;
    Ok(Gathering { got, levels })
}

/// What follows in a comprehension.
pub(crate) fn open_qualifiers<'a>(
    scene: &Scene<'a>,
    gathering: Gathering<'a>,
    further: Further<'a>,
) -> Result<Move<'a>, AllocError>
    ensures { IfOk result (λ made. IsMove (world_of scene.now) (e.tree_in (e.Gathers (got_of gathering.entry.got) (bounds further.entry.bindings) (quals_of further.entry) (levels_of (step.setting (world_of scene.now)) gathering.entry.levels))) made) }
{
    match further.qualifiers.split_first() {
        None => Ok(Move::Enters(
            Frame::Giving(gathering),
            Open::Tree(further.row, further.bindings),
        )),
        Some((qualifier, rest)) => {
            let bindings = further.bindings.again()?;
            let behind = Further {
                qualifiers: rest,
                row: further.row,
                bindings: further.bindings,
            };
            Ok(open_qualifier(gathering, qualifier, behind, bindings))
        }
    }
}

// A qualifier, and what follows behind it in the same bindings.
fn open_qualifier<'a>(
    gathering: Gathering<'a>,
    qualifier: &'a Qualifier,
    behind: Further<'a>,
    bindings: Bindings,
) -> Move<'a>
    requires { bindings ≡ behind.bindings }
    ensures { (w : step.World) → IsMove w (t.Gather (got_of gathering.entry.got) (in_quals (bounds bindings) (qualifiers (qualifier_of qualifier.now ∷ map qualifier_of behind.entry.qualifiers.now) (tree_of behind.entry.row.now))) (e.levels_of (levels_of (step.setting w) gathering.entry.levels))) result }
{
    match qualifier {
        Qualifier::Generates(source, generator) => Move::Enters(
            Frame::Drawing(gathering, generator, behind),
            Open::Tree(source, bindings),
        ),
        Qualifier::Filters(filter) => Move::Enters(
            Frame::Testing(gathering, behind),
            Open::Tree(filter, bindings),
        ),
    }
}

/// A row's value.
#[tactic(auto, using(crate::proofs::Gathers::row_given))]
pub(crate) fn give_row<'a>(
    scene: &Scene<'a>,
    gathering: Gathering<'a>,
    term: PlainTerm,
) -> Result<Move<'a>, AllocError>
    ensures { IfOk result (λ made. IsMove (world_of scene.now) (wrap (e.layer_of (e.GivingIn (got_of gathering.entry.got) (levels_of (step.setting (world_of scene.now)) gathering.entry.levels))) (t.Val (value term))) made) }
{
    let Gathering { mut got, levels } = gathering;
    match got.collect(term)? {
        Collecting::Goes { .. } => Ok(Move::Goes(
            0,
            Focus::Goes(Open::Rows(Gathering { got, levels })),
        )),
        Collecting::Limit => Ok(Move::Falls(0, Stop::Limit)),
        Collecting::BadArg => Ok(Move::Falls(0, Stop::Atom(BADARG))),
    }
}

/// The value of a generator's source.
#[tactic(auto, using(crate::proofs::Gathers::source_given))]
pub(crate) fn give_source<'a>(
    scene: &Scene<'a>,
    gathering: Gathering<'a>,
    generator: &'a Generator,
    further: Further<'a>,
    term: PlainTerm,
) -> Result<Move<'a>, AllocError>
    ensures { IfOk result (λ made. IsMove (world_of scene.now) (wrap (e.layer_of (e.DrawingIn (got_of gathering.entry.got) (generator_of generator.now) (quals_of further.entry) (bounds further.entry.bindings) (levels_of (step.setting (world_of scene.now)) gathering.entry.levels))) (t.Val (value term))) made) }
{
    match Rows::of(generator, term) {
        Ok(rows) => {
            let Gathering { got, mut levels } = gathering;
            levels.push(Level {
                bindings: further.bindings,
                rows,
                qualifiers: further.qualifiers,
                row: further.row,
            })?;
            Ok(Move::Goes(0, Focus::Goes(Open::Rows(Gathering { got, levels }))))
        }
        Err(back) => Ok(Move::Falls(0, Stop::Of(BAD_GENERATOR, back))),
    }
}

/// The value of a filter.
#[tactic(auto, using(crate::proofs::Gathers::test_given))]
pub(crate) fn give_test<'a>(
    scene: &Scene<'a>,
    gathering: Gathering<'a>,
    further: Further<'a>,
    term: PlainTerm,
) -> Result<Move<'a>, AllocError>
    ensures { IfOk result (λ made. IsMove (world_of scene.now) (wrap (e.layer_of (e.TestingIn (got_of gathering.entry.got) (quals_of further.entry) (bounds further.entry.bindings) (levels_of (step.setting (world_of scene.now)) gathering.entry.levels))) (t.Val (value term))) made) }
{
    match truth(&term) {
        Some(true) => Ok(Move::Goes(0, Focus::Goes(Open::Qualifiers(gathering, further)))),
        Some(false) => Ok(Move::Goes(0, Focus::Goes(Open::Rows(gathering)))),
        None => Ok(Move::Falls(0, Stop::Of(BAD_FILTER, term))),
    }
}
