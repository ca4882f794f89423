//! What stands in the sizes of an accepted module.
ghost use Rattle.size_laws.specs.SizeForms.{FormsAdmitMore, SizeFormsAreTests, SizesHaveForm, ValuesKeepForm, ValuesKeepSizes};

/// In an accepted module that a text spells each size in a pattern is made of integers, atoms, variables, operators, `andalso`,
/// `orelse` and calls of built-in functions for guards.
pub fn sizes_have_form()
    ensures { SizesHaveForm }
{}

/// What has the form of a size with some values has it with more.
pub fn forms_admit_more()
    ensures { FormsAdmitMore }
{}

/// A size keeps its form where values are put in for its variables.
pub fn put_in_keeps()
    ensures { ValuesKeepForm }
{}

/// So do the sizes of the patterns in an expression.
pub fn put_in_keeps_sizes()
    ensures { ValuesKeepSizes }
{}

/// What has the form of a size is a guard expression.
pub fn size_forms_are_tests()
    ensures { SizeFormsAreTests }
{}
