//! The calls in the guards and sizes of an accepted module.
ghost use Rattle.size_laws.specs.SizeForms.{GuardCallsAreBuiltIn};

/// In an accepted module a call in a guard, or in a size of a pattern, is read as a call of a built-in function for guards.
pub fn guard_calls_are_built_in()
    ensures { GuardCallsAreBuiltIn }
{}
