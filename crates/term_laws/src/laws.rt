//! Laws of encoding and decoding, of calls, of guards, of local states, of orders, of outcomes and of the order of terms, each
//! the contract of a function.
ghost use Rattle.term_laws.specs.CallLaws.{CallsAreRead};
ghost use Rattle.term_value.specs.ReadsBack.{CharacterReadsBack};
ghost use Rattle.term_laws.specs.GuardLaws.{GuardsContract};
ghost use Rattle.term_value.specs.Parcel.{ParcelStarts};
ghost use Rattle.term_laws.specs.Laws.{AskReached, CompleteIsLast, CostIsPaid, EachAsks, EqualIsSame, FreeShrinks, IntegerReadsBack, LegalIsShort, NamesByCharacters, OrderIsTotal, OutcomeReports};

/// An integer within its bits and the bound is read back from its encoding, whatever bits follow.
pub fn integer_reads_back()
    ensures { IntegerReadsBack }
{}

/// A character is read back from its encoding, whatever bits follow.
pub fn character_reads_back()
    ensures { CharacterReadsBack }
{}

/// Each local state of a process leads to one ask, at one cost, and by one number of bits that are made.
pub fn each_asks()
    ensures { EachAsks }
{}

/// What a state asks for that a run reaches is the one ask of the state before.
pub fn ask_reached()
    ensures { AskReached }
{}

/// A contraction without cost makes the expression smaller.
pub fn free_shrinks()
    ensures { FreeShrinks }
{}

/// What contractions cost is what is no longer left.
pub fn cost_is_paid()
    ensures { CostIsPaid }
{}

/// No entry is legal after a complete order.
pub fn complete_is_last()
    ensures { CompleteIsLast }
{}

/// The value that a spawn hands over starts the process that its call starts.
pub fn parcel_starts()
    ensures { ParcelStarts }
{}

/// A legal order has at most so many entries as the reductions allow.
pub fn legal_is_short()
    ensures { LegalIsShort }
{}

/// The text of an outcome is the report of the machine that came to it.
pub fn outcome_reports()
    ensures { OutcomeReports }
{}

/// The order of terms is total.
pub fn order_is_total()
    ensures { OrderIsTotal }
{}

/// Equal values over a table of atoms, each with a name of its own, are the same.
pub fn equal_is_same()
    ensures { EqualIsSame }
{}

/// The order of names by their bytes in UTF-8 is that by their characters' numbers.
pub fn names_by_characters()
    ensures { NamesByCharacters }
{}

/// A call that is checked as a call of a built-in function or of a function of its module is read as a call of just that.
pub fn calls_are_read()
    ensures { CallsAreRead }
{}

/// A guard expression has the result that its contractions come to, and they cost nothing.
pub fn guards_contract()
    ensures { GuardsContract }
{}
