//! A cursor in place of a list of rows.
ghost use Rattle.term_layers.specs.Cursors.{BitCursor, EnoughLooks, ListCursor};

/// The first item of a list gives the first row, and the items behind it the others.
pub fn list_cursor()
    ensures { ListCursor }
{}

/// The front of bits gives the first row, and what is left behind it the others.
pub fn bit_cursor()
    ensures { BitCursor }
{}

/// Looking for rows as often as there are bits is often enough: any larger number gives the same rows.
pub fn enough_looks()
    ensures { EnoughLooks }
{}
