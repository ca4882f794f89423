//! Laws of building and matching, each the contract of a function without code.
#![tactic(auto)]

ghost use Rattle.match_laws.specs.Laws.{BuiltIsRead, BuiltReadsBack, InRangeIsKept};

/// A bitstring that was built of segments of fixed sizes is matched by a pattern of the same segments, which binds its variables to
/// exactly the values that the segments keep.
pub fn built_is_read()
    ensures { BuiltIsRead }
{}

/// A segment keeps a value in its range.
pub fn in_range_is_kept()
    ensures { InRangeIsKept }
{}

/// A bitstring that was built of values in their segments' ranges is matched by a pattern of the same segments, which binds its
/// variables to exactly these values.
pub fn built_reads_back()
    ensures { BuiltReadsBack }
{}
