//! Where the variables of an accepted module are known.
ghost use Rattle.scope_laws.specs.Accepted.{AcceptedIsScoped, MachinesAreScoped, NoneMeetsUnbound};

/// An accepted module that a text spells is scoped.
pub fn accepted_is_scoped()
    ensures { AcceptedIsScoped }
{}

/// So is its machine, whatever legal order it follows from its start.
pub fn machines_are_scoped()
    ensures { MachinesAreScoped }
{}

/// No process of it ever meets a variable without its value.
pub fn none_meets_unbound()
    ensures { NoneMeetsUnbound }
{}
