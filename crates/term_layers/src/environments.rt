//! A machine with environments does what the expression does.
ghost use Rattle.term_layers.specs.Environments.{ChosenIsPicked, GivesAlike, OpensAlike};

/// The clause that is chosen in an environment is picked of the clauses with the environment's values put in.
pub fn chosen_is_picked()
    ensures { ChosenIsPicked }
{}

/// An open part does in an environment what it does with the environment's values put in.
pub fn opens_alike()
    ensures { OpensAlike }
{}

/// A frame does with a value what its layer does.
pub fn gives_alike()
    ensures { GivesAlike }
{}
