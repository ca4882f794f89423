ghost use Rattle.std.specs.Prelude.{◌≡◌, MatchBool, MatchOption};
ghost use Rattle.std.specs.List.{Contains};
ghost use Rattle.erl_syntax.specs.BuiltIns.{name_of, arity_of, Is};
ghost use Rattle.erl_syntax.specs.declared.built_in.BuiltIn.{BuiltIn};

use erl_syntax::{BUILT_INS, BuiltIn};

/// Whether this is the function's name and number of arguments.
fn is_called(built_in: BuiltIn, name: &[u8], arity: usize) -> bool
    ensures { MatchBool result (Is name.now arity built_in) (Is name.now arity built_in → ⊥) }
{
    built_in.arity() == arity && built_in.name() == name
}

/// The first of these with this name and number of arguments.
fn among(all: &[BuiltIn], name: &[u8], arity: usize) -> Option<BuiltIn>
    ensures { MatchOption result ((b : BuiltIn) → Contains all.now b → Is name.now arity b → ⊥) (Is name.now arity) }
{
    all.iter()
        .copied()
        .find(|built_in| is_called(*built_in, name, arity))
}

/// The built-in function with a name of these characters and with this number of arguments.
pub fn built_in(name: &[u8], arity: usize) -> Option<BuiltIn>
    ensures { MatchOption result ((b : BuiltIn) → Is name.now arity b → ⊥) (Is name.now arity) }
{
    among(&BUILT_INS, name, arity)
}
