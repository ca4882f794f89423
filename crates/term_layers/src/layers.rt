//! An expression is its open part within layers.
ghost use Rattle.term_layers.specs.Layers.{FormActs, NextUnder, RunsUnder, StepUnder};
ghost use Rattle.term_layers.specs.Turns.{GivingNext, OpeningNext};

/// A value of the open part goes to the innermost layer, and whatever else is next in the open part is next in the whole.
pub fn step_under()
    ensures { StepUnder }
{}

/// A form whose parts all have values acts on them.
pub fn form_acts()
    ensures { FormActs }
{}

/// While the open part has no value, what is next for the local state of the open part is next for that of the whole.
pub fn next_under()
    ensures { NextUnder }
{}

/// A run of the open part is a run of the whole.
pub fn runs_under()
    ensures { RunsUnder }
{}

/// The turn of an open part tells what the part is, or what is next in it.
pub fn opening_next()
    ensures { OpeningNext }
{}

/// The turn of a layer with a value in it tells what the two are, or what is next in them.
pub fn giving_next()
    ensures { GivingNext }
{}
