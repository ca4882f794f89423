ghost use Rattle.std.specs.Prelude.{◌≡◌, Err};

use term_value::Term;

/// Why an evaluation is ended (Erlang Reference Manual, "Errors and Error Handling", Exit Reasons).
#[derive(Drop)]
pub enum Reason<R> {
    BadArg,
    BadArith,
    /// `{badarg,V}`
    BadArgOf(Term<R>),
    /// `{badmatch,V}`
    BadMatch(Term<R>),
    /// `{case_clause,V}`
    CaseClause(Term<R>),
    IfClause,
    FunctionClause,
    /// `{bad_generator,V}`
    BadGenerator(Term<R>),
    /// `{bad_filter,V}`
    BadFilter(Term<R>),
    Undef,
    Reductions,
    /// Any other term, as of `exit/1` and `error/1`.
    Other(Term<R>),
}

/// Why an evaluation has no value.
#[derive(Drop)]
pub enum EvalFault<R> {
    Raised(Reason<R>),
    /// A bound is passed: `system_limit`, which no guard hides.
    Limit,
    NoMemory,
}

/// A value, or why there is none.
pub type Answer<R> = Result<Term<R>, EvalFault<R>>;

pub(crate) fn bad_argument<R>() -> Answer<R>
    ensures { result ≡ Err (EvalFault.Raised Reason.BadArg) }
{
    Err(EvalFault::Raised(Reason::BadArg))
}
