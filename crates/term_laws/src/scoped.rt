//! Which variables an expression may have, and that none is ever without its value.
ghost use Rattle.term_laws.specs.Scoped.{GuardsHaveValues, KnownHasValue, MatchNames, NextStaysScoped, NoneUnbound, OpenHasValue, OrdersStayScoped, PutStaysScoped, RunStaysScoped, ShapeIsScoped, SizesHaveValues, TestsHaveNone};

/// What is scoped goes on to what is scoped, in a module whose functions are.
pub fn next_stays_scoped()
    ensures { NextStaysScoped }
{}

/// The same of many contractions.
pub fn run_stays_scoped()
    ensures { RunStaysScoped }
{}

/// The copying machine of a scoped module begins scoped, and each order leads from a scoped state to a scoped one.
pub fn orders_stay_scoped()
    ensures { OrdersStayScoped }
{}

/// In a scoped expression no variable is open.
pub fn none_unbound()
    ensures { NoneUnbound }
{}

/// In an environment that has all variables which are known, each open variable has a value.
pub fn known_has_value()
    ensures { KnownHasValue }
{}

/// An open variable of what is scoped, with an environment's values put in, has its value there.
pub fn open_has_value()
    ensures { OpenHasValue }
{}

/// With the values of all known variables put in, nothing more has to be known.
pub fn put_stays_scoped()
    ensures { PutStaysScoped }
{}

/// A match gives values to the variables of its pattern, and to no others.
pub fn match_names()
    ensures { MatchNames }
{}

/// A guard, or a size in a pattern, that is scoped with nothing known has no variable.
pub fn tests_have_none()
    ensures { TestsHaveNone }
{}

/// A guard is scoped once what its patterns bound is put in.
pub fn guards_have_values()
    ensures { GuardsHaveValues }
{}

/// The size of a pattern's segment is scoped once the values of all known variables are put in, and behind the segment its own
/// variable has a value too.
pub fn sizes_have_values()
    ensures { SizesHaveValues }
{}

/// Where a bit pattern is scoped, its shape is.
pub fn shape_is_scoped()
    ensures { ShapeIsScoped }
{}
