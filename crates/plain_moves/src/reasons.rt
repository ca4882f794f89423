ghost use Rattle.std.specs.Prelude.{◌≡◌};
ghost use Rattle.term_value.specs.Result.{Raise};
ghost use Rattle.bit_store.specs.Stores.{itself};
ghost use Rattle.code_tree.specs.PlainTerms.{IsShort};
ghost use Rattle.expr_eval.specs.Answers.{reason_of, HasReason};
ghost use Rattle.plain_moves.specs.Reading.{stop_of};

use crate::focus::Stop;
use bit_store::Window;
use code_tree::PlainTerm;
use expr_eval::Reason;

// The numbers of the atoms that reasons name, as they stand in each module's table of atoms.
pub(crate) const BADARG: u32 = 0;

pub(crate) const BADARITH: u32 = 1;

pub(crate) const BADMATCH: u32 = 2;

pub(crate) const CASE_CLAUSE: u32 = 3;

pub(crate) const IF_CLAUSE: u32 = 4;

pub(crate) const FUNCTION_CLAUSE: u32 = 5;

pub(crate) const BAD_GENERATOR: u32 = 6;

pub(crate) const BAD_FILTER: u32 = 7;

pub const UNDEF: u32 = 8;

pub(crate) const SYSTEM_LIMIT: u32 = 9;

pub const REDUCTIONS: u32 = 10;

pub(crate) const TRUE: u32 = 11;

pub(crate) const FALSE: u32 = 12;

pub(crate) const OK: u32 = 13;

pub(crate) const NORMAL: u32 = 14;

/// How an evaluation that raises ends.
pub(crate) fn raised(reason: Reason<Window>) -> Stop
    requires { HasReason IsShort reason }
    ensures { stop_of result ≡ Raise (reason_of itself reason) }
{
    match reason {
        Reason::BadArg => Stop::Atom(BADARG),
        Reason::BadArith => Stop::Atom(BADARITH),
        Reason::BadArgOf(term) => Stop::Of(BADARG, PlainTerm::of(term)),
        Reason::BadMatch(term) => Stop::Of(BADMATCH, PlainTerm::of(term)),
        Reason::CaseClause(term) => Stop::Of(CASE_CLAUSE, PlainTerm::of(term)),
        Reason::IfClause => Stop::Atom(IF_CLAUSE),
        Reason::FunctionClause => Stop::Atom(FUNCTION_CLAUSE),
        Reason::BadGenerator(term) => Stop::Of(BAD_GENERATOR, PlainTerm::of(term)),
        Reason::BadFilter(term) => Stop::Of(BAD_FILTER, PlainTerm::of(term)),
        Reason::Undef => Stop::Atom(UNDEF),
        Reason::Reductions => Stop::Atom(REDUCTIONS),
        Reason::Other(term) => Stop::Other(PlainTerm::of(term)),
    }
}
