//! The rows that a generator has still to give.

ghost use Rattle.std.specs.Prelude.{◌≡◌, List, [], Some, None, IfErr, IfOk, MatchResult};
ghost use Rattle.bit_store.specs.Stores.{itself};
ghost use Rattle.code_match.specs.Binds.{bounds};
ghost use Rattle.code_rows.specs.Remaining.{rows_left, IsBefore};
ghost use Rattle.code_rows.specs.declared.rows.Rows.TheVariants.{InList, InBits};
ghost use Rattle.code_tree.specs.PlainTerms.{value, IsShort, AnyAtom};
ghost use Rattle.code_tree.specs.Reading.{generator_of, pattern_of};
ghost use Rattle.expr_eval.specs.Answers.{setting};
ghost use Rattle.term_value.specs.PutIn.{in_generator, in_pattern};
ghost use Rattle.term_value.specs.Rows.{rows_of, list_rows};
ghost use Rattle.term_value.specs.Setting.{Setting};
ghost use Rattle.term_value.specs.Terms.{value_of, IsOver};
ghost use Rattle.term_value.specs.Tree.{Bound};
ghost use Rattle.term_value.specs.Value.{Values, more};

use crate::cursors::{BitRows, ListRows, PlainItems};
use bit_store::Window;
use code_match::{Bindings, Front, Matched, front, matched};
use code_tree::{Generator, Pattern, PlainTerm};
use expr_eval::Caller;
use std::alloc::AllocError;
use term_value::Term;

/// The rows that a generator has still to give, as a cursor over its source.
#[derive(Drop)]
pub enum Rows<'a> {
    InList(ListRows<'a>),
    InBits(BitRows<'a>),
}

/// The next row.
#[derive(Drop)]
pub enum RowFound {
    /// The bindings of the generator, and behind them those of the row.
    Found(Bindings),
    /// The pattern does not match here.
    Skipped,
    /// A bound is passed.
    Limit,
    /// No row is left.
    Ended,
}

impl<'a> Rows<'a> {
    /// All rows of a generator over its source. A source of another kind is handed back.
    pub fn of(generator: &'a Generator, source: PlainTerm) -> Result<Rows<'a>, PlainTerm>
        ensures is { (s : Setting) (bs : List Bound) → MatchResult result (λ rows. rows_of s (in_generator bs (generator_of generator.now)) (value source) ≡ Some (rows_left s bs rows)) (λ back. rows_of s (in_generator bs (generator_of generator.now)) (value source) ≡ None) }
        ensures back { IfErr result (λ back. back ≡ source) }
    {
        match generator {
            Generator::InList(pattern) => match source.into_term() {
                Term::List(items) => Ok(Rows::InList(ListRows {
                    pattern,
                    rest: PlainItems::of(items),
                })),
                other => Err(PlainTerm::of(other)),
            },
            Generator::InBits(segments, shape) => match source.into_term() {
                Term::Bits(rest) => Ok(Rows::InBits(BitRows {
                    segments: segments.items(),
                    shape: shape.items(),
                    rest,
                })),
                other => Err(PlainTerm::of(other)),
            },
        }
    }

    /// The next row, under the bindings in which the generator stands.
    pub fn next(&mut self, caller: &Caller<'_>, bindings: &Bindings) -> Result<RowFound, AllocError>
        ensures { IfOk result (λ found. IsBefore (bounds bindings.now) found
            (rows_left (setting caller.now.names.now caller.now.pid) (bounds bindings.now) self.new)
            (rows_left (setting caller.now.names.now caller.now.pid) (bounds bindings.now) self.old)) }
    {
        match self {
            Rows::InList(rows) => next_item(rows, caller, bindings),
            Rows::InBits(rows) => next_bits(rows, caller, bindings),
        }
    }
}

// The row of the first item, which goes.
fn next_item(
    rows: &mut ListRows<'_>,
    caller: &Caller<'_>,
    bindings: &Bindings,
) -> Result<RowFound, AllocError>
    ensures { IfOk result (λ found. IsBefore (bounds bindings.now) found
        (rows_left (setting caller.now.names.now caller.now.pid) (bounds bindings.now) (InList rows.new))
        (rows_left (setting caller.now.names.now caller.now.pid) (bounds bindings.now) (InList rows.old))) }
{
    let Some((item, others)) = rows.rest.split() else {
        return Ok(RowFound::Ended);
    };
    let found = row_of_item(caller, rows.pattern, item, bindings)?;
    let rest = PlainItems::of(others.again()?);
    rows.rest = rest;
    Ok(found)
}

fn row_of_item(
    caller: &Caller<'_>,
    pattern: &Pattern,
    item: &Term<Window>,
    bindings: &Bindings,
) -> Result<RowFound, AllocError>
    requires { IsOver IsShort AnyAtom item.now }
    ensures { (rest : Values) → IfOk result (λ found. IsBefore (bounds bindings.now) found
        (list_rows (setting caller.now.names.now caller.now.pid) (in_pattern (bounds bindings.now) (pattern_of pattern.now)) [] rest)
        (list_rows (setting caller.now.names.now caller.now.pid) (in_pattern (bounds bindings.now) (pattern_of pattern.now)) [] (more (value_of itself item.now) rest))) }
{
    match matched(caller, pattern, item, bindings.again()?)? {
        Matched::Yes(all) => Ok(RowFound::Found(all)),
        Matched::No => Ok(RowFound::Skipped),
        Matched::Limit => Ok(RowFound::Limit),
    }
}

// The row that stands in front of the bits; those that it takes go.
fn next_bits(
    rows: &mut BitRows<'_>,
    caller: &Caller<'_>,
    bindings: &Bindings,
) -> Result<RowFound, AllocError>
    ensures { IfOk result (λ found. IsBefore (bounds bindings.now) found
        (rows_left (setting caller.now.names.now caller.now.pid) (bounds bindings.now) (InBits rows.new))
        (rows_left (setting caller.now.names.now caller.now.pid) (bounds bindings.now) (InBits rows.old))) }
{
    match front(caller, rows.segments, rows.shape, bindings, &rows.rest)? {
        Front::Found(all, rest) => {
            rows.rest = rest;
            Ok(RowFound::Found(all))
        }
        Front::Skipped(rest) => {
            rows.rest = rest;
            Ok(RowFound::Skipped)
        }
        Front::Ends => Ok(RowFound::Ended),
        Front::AtLimit => Ok(RowFound::Limit),
    }
}
