//! The literals of a module that was read, and what its runs make.
ghost use Rattle.module_laws.specs.Literals.{LiteralsAreBounded, MachinesAreBounded, RunsAreBounded};

/// Each literal of a module that a text spells is within the bounds.
pub fn literals_are_bounded()
    ensures { LiteralsAreBounded }
{}

/// Contractions in a module that a text spells keep each value within the bounds.
pub fn runs_are_bounded()
    ensures { RunsAreBounded }
{}

/// Whatever legal order the machine of such a module follows, each value, each message and each argument is within the bounds.
pub fn machines_are_bounded()
    ensures { MachinesAreBounded }
{}
