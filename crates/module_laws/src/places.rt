//! Where the tokens of a text, and the variables of a module that was read, stand.
ghost use Rattle.module_laws.specs.Places.{TokensRise, WordsRise};
ghost use Rattle.module_laws.specs.Variables.{VariablesRise};

/// Each token of a text stands before those behind it, so no two stand at one place.
pub fn tokens_rise()
    ensures { TokensRise }
{}

/// The same of the words that the grammar sees.
pub fn words_rise()
    ensures { WordsRise }
{}

/// In each function of a module that a text spells, no two variables stand at one place.
pub fn variables_rise()
    ensures { VariablesRise }
{}
