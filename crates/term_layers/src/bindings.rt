//! Values put in for variables, and bindings beside a pattern.
ghost use Rattle.term_layers.specs.Bindings.{AllMatchUnder, EachMatchUnder, MatchUnder, PickUnder, PutNothing, PutTwice, RowsUnder, SegmentsUnder};

/// Values put in, and others into what comes of it, are all put in at once.
pub fn put_twice()
    ensures { PutTwice }
{}

/// An expression with nothing put in is the same.
pub fn put_nothing()
    ensures { PutNothing }
{}

/// A match under bindings is the match of the pattern with their values put in.
pub fn match_under()
    ensures { MatchUnder }
{}

/// The same of patterns, each against its value.
pub fn each_match_under()
    ensures { EachMatchUnder }
{}

/// The same of patterns, all against one value.
pub fn all_match_under()
    ensures { AllMatchUnder }
{}

/// The same of the segments of a bit pattern.
pub fn segments_under()
    ensures { SegmentsUnder }
{}

/// The clause that is picked under bindings is picked of the clauses with their values put in.
pub fn pick_under()
    ensures { PickUnder }
{}

/// The rows under bindings are those of the generator with their values put in, each behind the bindings.
pub fn rows_under()
    ensures { RowsUnder }
{}
