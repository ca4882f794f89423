//! Calls of functions of the module.
ghost use Rattle.std.specs.Prelude.{◌≡◌, ℕ, IfOk, slice_get};
ghost use Rattle.code_tree.specs.Reading.{function_of, module_meant};
ghost use Rattle.plain_moves.specs.Moving.{IsMove};
ghost use Rattle.plain_moves.specs.Reading.{call_tree};
ghost use Rattle.plain_moves.specs.Worlds.{world_of};

use crate::choices::goes_with;
use crate::focus::Stop;
use crate::moves::Move;
use crate::reasons::{FUNCTION_CLAUSE, UNDEF};
use crate::scene::Scene;
use crate::values::Values;
use code_match::{Bindings, chosen};
use code_tree::Function;
use std::alloc::AllocError;

/// A call of the function at this place of the module.
pub(crate) fn call<'a>(
    scene: &Scene<'a>,
    function: u32,
    arguments: Values,
) -> Result<Move<'a>, AllocError>
    ensures { IfOk result (λ made. IsMove (world_of scene.now) (call_tree function arguments) made) }
{
    match scene.code.functions.items().get(function as usize) {
        Some(function) => enter(scene, function, &arguments),
        None => Ok(Move::Falls(1, Stop::Atom(UNDEF))),
    }
}

// A call of this function.
fn enter<'a>(
    scene: &Scene<'a>,
    function: &'a Function,
    arguments: &Values,
) -> Result<Move<'a>, AllocError>
    ensures { (place : ℕ) → slice_get (module_meant scene.now.code.now).functions place ≡ Some (function_of function.now) → IfOk result (λ made. IsMove (world_of scene.now) (call_tree place arguments.now) made) }
{
    let choice = chosen(
        &scene.caller(),
        function.clauses.items(),
        arguments.terms(),
        &Bindings::new(),
    )?;
    Ok(goes_with(1, Stop::Atom(FUNCTION_CLAUSE), choice))
}
