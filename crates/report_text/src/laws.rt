// Laws of the texts of orders, each the contract of a function that does nothing.
ghost use Rattle.report_text.specs.Laws.{EntryIsLine, OneOrder, OrderOrFault};

/// A text that spells an order has no line that is no entry, and one line is the first that is none. So the answers of
/// `read_order` come exactly where they are due.
pub fn order_or_fault()
    ensures { OrderOrFault }
{}

/// A text spells at most one order.
pub fn one_order()
    ensures { OneOrder }
{}

/// An entry in range is one line.
pub fn entry_is_line()
    ensures { EntryIsLine }
{}
