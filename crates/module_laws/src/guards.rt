//! The guards of a module that was read, and the sizes in its patterns.
ghost use Rattle.module_laws.specs.GuardForms.{GuardsHaveForm};

/// In a module that a text spells each guard, and each size in a pattern, has the form of a guard expression: no `!`, `case`, `if`,
/// `receive` and no comprehension stands in it.
pub fn guards_have_form()
    ensures { GuardsHaveForm }
{}
