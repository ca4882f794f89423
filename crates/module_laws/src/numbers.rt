//! The numbers of a function's variables.
ghost use Rattle.module_laws.specs.Numbers.{NumbersAreOfPlaces, NumbersDiffer};

/// What is looked up at a variable's place is the number of the place at which it gets its value.
pub fn numbers_are_of_places()
    ensures { NumbersAreOfPlaces }
{}

/// Variables that get their values at different places have different numbers.
pub fn numbers_differ()
    ensures { NumbersDiffer }
{}
