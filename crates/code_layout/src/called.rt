//! What a call is of.

ghost use Rattle.std.specs.Prelude.{◌≡◌, ◌&&◌, ℕ, List, map, bytes_eq, IfOk};
ghost use Rattle.std.specs.List.{find};
ghost use Rattle.erl_syntax.specs.BuiltIns.{is_bare, home_of};
ghost use Rattle.erl_syntax.specs.declared.built_in.TheConstants.{BUILT_INS};
ghost use Rattle.erl_syntax.specs.declared.expr.Expr.{out-Expr};
ghost use Rattle.term_value.specs.Calls.{is_named, called, form_or_call, form_of as built_in_form};
ghost use Rattle.term_value.specs.Read.{called_module};
ghost use Rattle.code_tree.specs.Reading.{form_of};
ghost use Rattle.code_layout.specs.Layout.{reading_of};
ghost use Rattle.code_layout.specs.Readings.{expr_read, home_in};

use crate::laying::Laying;
use code_tree::{Form, Primitive};
use erl_syntax::{BUILT_INS, BuiltIn, Expr};
use std::alloc::AllocError;

/// What becomes of the arguments of a built-in function: a display and a spawn are visible acts.
fn built_in_form(built_in: BuiltIn) -> Form
    ensures { form_of result ≡ built_in_form built_in }
{
    match built_in {
        BuiltIn::Display => Form::Display,
        BuiltIn::Spawn => Form::Spawn,
        _ => Form::Table(Primitive::BuiltIn(built_in)),
    }
}

/// Whether a built-in function has this name and number of arguments.
fn is_named(name: &[u8], arity: usize, built_in: BuiltIn) -> bool
    ensures { result ≡ is_named name.now arity built_in }
{
    built_in.name() == name && built_in.arity() == arity
}

/// The built-in function with this name and number of arguments that may be called without a module.
fn bare(name: &[u8], arity: usize) -> Option<BuiltIn>
    ensures { result ≡ find (λ f. is_bare f && is_named name.now arity f) BUILT_INS }
{
    BUILT_INS.iter().copied().find(|built_in| built_in.is_bare()
        && is_named(name, arity, *built_in))
}

/// The built-in function of the module of these characters with this name and number of arguments.
fn at_home(home: &[u8], name: &[u8], arity: usize) -> Option<BuiltIn>
    ensures { result ≡ find (λ f. bytes_eq (home_of f) home.now && is_named name.now arity f) BUILT_INS }
{
    BUILT_INS.iter().copied().find(|built_in| built_in.home() == home
        && is_named(name, arity, *built_in))
}

impl<'a> Laying<'a> {
    /// The UTF-8 bytes of an atom's name.
    #[tactic(auto, unfolding(crate::specs::Layout::reading_of))]
    fn characters(&self, atom: u32) -> &[u8]
        ensures { result.now ≡ (reading_of self.now).names atom }
    {
        self.names.characters(atom)
    }

    /// The place of the function with this name and number of arguments.
    #[tactic(auto, unfolding(crate::specs::Layout::reading_of))]
    fn place(&self, name: u32, arity: usize) -> Result<u32, AllocError>
        ensures { IfOk result (λ place. place ≡ (reading_of self.now).place name arity) }
    {
        self.names.place(name, arity)
    }

    /// The UTF-8 bytes of an atom before the colon of a call. There are none where something else stands there.
    fn home(&self, expr: &Expr) -> &[u8]
        ensures { result.now ≡ home_in (reading_of self.now) (out-Expr expr.now) }
    {
        match expr {
            Expr::Atom { atom, .. } => self.characters(*atom),
            _ => &[],
        }
    }

    /// The built-in function that is called with this before the colon, or with nothing before it.
    fn built_in(&self, home: &[Expr], name: u32, arity: usize) -> Option<BuiltIn>
        ensures { let r = reading_of self.now in (place : ℕ) → form_or_call result place ≡ called (called_module r (map (expr_read r) home.now)) (r.names name) arity place }
    {
        let name = self.characters(name);
        match home.first() {
            None => bare(name, arity),
            Some(expr) => at_home(self.home(expr), name, arity),
        }
    }

    /// What becomes of the arguments of a call.
    pub fn called(&self, home: &[Expr], name: u32, arity: usize) -> Result<Form, AllocError>
        ensures { let r = reading_of self.now in IfOk result (λ form. form_of form ≡ called (called_module r (map (expr_read r) home.now)) (r.names name) arity (r.place name arity)) }
    {
        match self.built_in(home, name, arity) {
            Some(built_in) => Ok(built_in_form(built_in)),
            None => Ok(Form::Call(self.place(name, arity)?)),
        }
    }
}
