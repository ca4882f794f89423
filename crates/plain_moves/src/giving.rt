//! What a frame does with the value of the part that stood in it.
ghost use Rattle.std.specs.Prelude.{IfOk};
ghost use Rattle.plain_moves.specs.Moving.{IsMove};
ghost use Rattle.plain_moves.specs.Reading.{layer};
ghost use Rattle.plain_moves.specs.Worlds.{world_of};
ghost use Rattle.code_tree.specs.PlainTerms.{value};
ghost use Rattle.term_layers.specs.Layers.{wrap};
ghost use Rattle.term_value.specs.Step as step;
ghost use Rattle.term_value.specs.Tree.{Val};

use crate::bodies::{give_last, give_then};
use crate::comprehensions::{give_row, give_source, give_test};
use crate::frame::Frame;
use crate::moves::Move;
use crate::operands::{give_and_also, give_case, give_or_else, give_part};
use crate::scene::Scene;
use code_tree::PlainTerm;
use std::alloc::AllocError;

/// What a frame does with the value of the part that stood in it.
pub fn give<'a>(
    scene: &Scene<'a>,
    frame: Frame<'a>,
    term: PlainTerm,
) -> Result<Move<'a>, AllocError>
    ensures { IfOk result (λ made. IsMove (world_of scene.now) (wrap (layer (step.setting (world_of scene.now)) frame.entry) (Val (value term))) made) }
{
    match frame {
        Frame::Part(part) => give_part(scene, part, term),
        Frame::Then(patterns, rest, bindings) => {
            give_then(scene, patterns, rest, bindings, term)
        }
        Frame::Last(patterns, bindings) => give_last(scene, patterns, bindings, term),
        Frame::Case(clauses, bindings) => give_case(scene, clauses, &bindings, term),
        Frame::AndAlso(second, bindings) => Ok(give_and_also(second, bindings, term)),
        Frame::OrElse(second, bindings) => Ok(give_or_else(second, bindings, term)),
        Frame::Giving(gathering) => give_row(scene, gathering, term),
        Frame::Drawing(gathering, generator, further) => {
            give_source(scene, gathering, generator, further, term)
        }
        Frame::Testing(gathering, further) => give_test(scene, gathering, further, term),
    }
}
