//! Laws of accepted modules and of the numbers of variables, each the contract of a function.
ghost use Rattle.std.specs.Prelude.{◌≡◌, ℕ, List};
ghost use Rattle.std.specs.List.{Contains};
ghost use Rattle.erl_syntax.specs.Scopes.{Scope, Found};
ghost use Rattle.erl_syntax.specs.Checking.{IsAccepted, IsRead, IsNumbered, AreNumbered};
ghost use Rattle.erl_syntax.specs.declared.span.Span.{Span};
ghost use Rattle.erl_syntax.specs.declared.module.Module.{Module};
ghost use Rattle.erl_syntax.specs.declared.module.Function.{Function};
ghost use Rattle.erl_syntax.specs.declared.checking.VarUse.{VarUse};

/// The variables of a function have one list.
pub fn one_list_of_uses()
    ensures { (f : Function) (us vs : List VarUse) → IsNumbered f us → IsNumbered f vs → us ≡ vs }
{}

/// Those of the functions of a module have one numbering.
pub fn one_numbering()
    ensures { (fs : List Function) (us vs : List (List VarUse)) → AreNumbered fs us → AreNumbered fs vs → us ≡ vs }
{}

/// In an accepted module each variable that is read has a value where it stands.
pub fn reads_have_values()
    ensures { (m : Module) (f : Function) (s : Scope) (at : Span) (name : List ℕ) → IsAccepted m → Contains m.functions f → IsRead f s at name →
        (bound_at : Span) × Found s.known name bound_at }
{}
