/// How a command ended. A program's exit status is the variant's place in this list, from 0.
#[derive(Clone, Copy, Debug, PartialEq, Eq)]
pub enum Status {
    /// The defined answer: the order and then the report are written whole.
    Done,
    /// The text has no module that is accepted. The report is one line, `LINE:COLUMN: CAUSE`.
    Refused,
    /// The words have no form of a command. Nothing is written.
    Usage,
    /// A source failed. Nothing is written.
    ReadFault,
    /// The report sink failed. A prefix of the report is written.
    ReportFault,
    /// The order sink failed. A prefix of the order is written, and nothing of the report.
    OrderFault,
    /// Memory was wanting. Nothing is written.
    NoMemory,
    /// The order that was read isn't an order of the module.
    BadOrder,
}
