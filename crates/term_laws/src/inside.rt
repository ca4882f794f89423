// Laws of what every value in a process or a machine keeps, each the contract of a function.
ghost use Rattle.term_laws.specs.Inside.{BoundsAreKept, OrdersKeepBounds, StartIsBounded};

/// Contractions keep each value, with all that stands in it, within the bounds.
pub fn bounds_are_kept()
    ensures { BoundsAreKept }
{}

/// Legal orders keep each value, each message and each argument within the bounds.
pub fn orders_keep_bounds()
    ensures { OrdersKeepBounds }
{}

/// A machine at its start has no other values than its module's literals.
pub fn start_is_bounded()
    ensures { StartIsBounded }
{}
