//! The calls in the guards of an accepted module.
ghost use Rattle.scope_laws.specs.Accepted.{GuardCallsArePrimitive};

/// In an accepted module a call in a guard, or in a size of a pattern, is of a built-in function for guards.
pub fn guard_calls_are_primitive()
    ensures { GuardCallsArePrimitive }
{}
