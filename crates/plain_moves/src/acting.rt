//! What a form does with the values of all its parts.
ghost use Rattle.std.specs.Prelude.{IfOk, map};
ghost use Rattle.plain_moves.specs.Moving.{IsMove};
ghost use Rattle.plain_moves.specs.Worlds.{world_of};
ghost use Rattle.code_tree.specs.PlainTerms.{value, IsShort, AnyAtom};
ghost use Rattle.code_tree.specs.Reading.{form_of, prim_of};
ghost use Rattle.term_value.specs.Terms.{value_of, IsOver};
ghost use Rattle.bit_store.specs.Stores.{itself};
ghost use Rattle.term_value.specs.Machine.{value_trees};
ghost use Rattle.term_value.specs.Step.{World};
ghost use Rattle.term_value.specs.Tree as t;
ghost use Rattle.term_value.specs.Value.{row};

use crate::focus::{Focus, Open, Stop, Visible};
use crate::moves::Move;
use crate::reasons::{BADARG, raised};
use crate::scene::Scene;
use crate::values::{PlainCells, Values};
use bit_store::Window;
use code_match::primitive;
use code_tree::{Form, PlainTerm, Primitive};
use expr_eval::EvalFault;
use shares::Share;
use std::alloc::AllocError;
use term_value::Term;

/// A form with the values of all its parts.
pub(crate) fn act<'a>(
    scene: &Scene<'a>,
    form: &Form,
    values: Values,
) -> Result<Move<'a>, AllocError>
    ensures { IfOk result (λ made. IsMove (world_of scene.now) (t.All (form_of form.now) (value_trees (row (map value values)))) made) }
{
    match form {
        Form::Table(what) => compute(scene, what, values),
        Form::Call(function) => Ok(Move::Becomes(Focus::Goes(Open::Call(*function, values)))),
        Form::Send => send(&values),
        Form::Display => display(&values),
        Form::Spawn => spawn(&values),
    }
}

fn compute<'a>(scene: &Scene<'a>, what: &Primitive, values: Values) -> Result<Move<'a>, AllocError>
    ensures { IfOk result (λ made. IsMove (world_of scene.now) (t.All (t.Table (prim_of what.now)) (value_trees (row (map value values)))) made) }
{
    match primitive(&scene.caller(), what, values.into_terms()) {
        Ok(term) => Ok(Move::Goes(0, Focus::Value(PlainTerm::of(term)))),
        Err(EvalFault::Raised(reason)) => Ok(Move::Falls(0, raised(reason))),
        Err(EvalFault::Limit) => Ok(Move::Falls(0, Stop::Limit)),
        Err(EvalFault::NoMemory) => Err(AllocError),
    }
}

fn send<'a>(values: &Values) -> Result<Move<'a>, AllocError>
    ensures { (w : World) → IfOk result (λ made. IsMove w (t.All t.Send (value_trees (row (map value values.now)))) made) }
{
    match values.terms() {
        [to, message] => send_to(to, message),
        _ => Ok(Move::Falls(0, Stop::Atom(BADARG))),
    }
}

// A message to a process; what is no pid has none.
fn send_to<'a>(to: &Term<Window>, message: &Term<Window>) -> Result<Move<'a>, AllocError>
    requires { IsOver IsShort AnyAtom message.now }
    ensures { (w : World) → IfOk result (λ made. IsMove w (t.All t.Send (t.and (t.Val (value_of itself to.now)) (t.and (t.Val (value_of itself message.now)) t.end))) made) }
{
    match to {
        Term::Pid(to) => {
            let message = PlainTerm::of(message.share()?);
            Ok(Move::Becomes(Focus::Asks(Visible::Send(*to, message))))
        }
        _ => Ok(Move::Falls(0, Stop::Atom(BADARG))),
    }
}

fn display<'a>(values: &Values) -> Result<Move<'a>, AllocError>
    ensures { (w : World) → IfOk result (λ made. IsMove w (t.All t.Display (value_trees (row (map value values.now)))) made) }
{
    match values.terms() {
        [term] => {
            let term = PlainTerm::of(term.share()?);
            Ok(Move::Becomes(Focus::Asks(Visible::Show(term))))
        }
        _ => Ok(Move::Falls(0, Stop::Atom(BADARG))),
    }
}

fn spawn<'a>(values: &Values) -> Result<Move<'a>, AllocError>
    ensures { (w : World) → IfOk result (λ made. IsMove w (t.All t.Spawn (value_trees (row (map value values.now)))) made) }
{
    match values.terms() {
        [home, name, arguments] => start(home, name, arguments),
        _ => Ok(Move::Falls(0, Stop::Atom(BADARG))),
    }
}

// A process that begins with this function of this module, where both are atoms and the arguments a list.
fn start<'a>(
    home: &Term<Window>,
    name: &Term<Window>,
    arguments: &Term<Window>,
) -> Result<Move<'a>, AllocError>
    requires { IsOver IsShort AnyAtom arguments.now }
    ensures { (w : World) → IfOk result (λ made. IsMove w (t.All t.Spawn (t.and (t.Val (value_of itself home.now)) (t.and (t.Val (value_of itself name.now)) (t.and (t.Val (value_of itself arguments.now)) t.end)))) made) }
{
    match (home, name, arguments) {
        (Term::Atom(home), Term::Atom(name), Term::List(arguments)) => {
            let arguments = PlainCells::of(arguments.again()?);
            Ok(Move::Becomes(Focus::Asks(Visible::Start(*home, *name, arguments))))
        }
        _ => Ok(Move::Falls(0, Stop::Atom(BADARG))),
    }
}
