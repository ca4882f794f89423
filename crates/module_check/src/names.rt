ghost use Rattle.std.specs.Prelude.{◌≡◌, MatchBool};
ghost use Rattle.erl_syntax.specs.Checking.{HasFunction, IsExported, IsBefore};

use erl_syntax::{Module, Span};

/// Whether the module has a function of this name and number of arguments.
pub fn has_function(tree: &Module, name: u32, arity: usize) -> bool
    ensures { MatchBool result (HasFunction tree.now name arity) (HasFunction tree.now name arity → ⊥) }
{
    let functions = tree.functions.items();
    functions.iter().any(|function| function.name == name && function.arity as usize == arity)
}

/// Whether the module exports this name with this number of arguments.
pub fn is_exported(tree: &Module, name: u32, arity: usize) -> bool
    ensures { MatchBool result (IsExported tree.now name arity) (IsExported tree.now name arity → ⊥) }
{
    let exports = tree.exports.items();
    exports.iter().any(|export| export.name == name && export.arity == arity as i128)
}

/// Whether a place stands before another in the text.
pub fn is_before(place: Span, other: Span) -> bool
    ensures { MatchBool result (IsBefore place other) (IsBefore place other → ⊥) }
{
    place.line < other.line || place.line == other.line && place.column < other.column
}
