//! Patterns.

ghost use Rattle.std.specs.Prelude.{◌≡◌, IfOk, IfSome, None, Some, MatchOption};
ghost use Rattle.term_value.specs.Match as m;
ghost use Rattle.term_value.specs.Seen.{meanings, AreKnown};
ghost use Rattle.term_value.specs.Terms.{row, row_of, value_of, IsOver};
ghost use Rattle.term_value.specs.Tree as t;
ghost use Rattle.bit_store.specs.Stores.{itself};
ghost use Rattle.code_tree.specs.PlainTerms.{IsShort, AnyAtom};
ghost use Rattle.code_tree.specs.Reading.{pattern_of, patterns_of, segments_of};
ghost use Rattle.expr_eval.specs.Answers.{setting};
ghost use Rattle.code_match.specs.Binds.{bounds};
ghost use Rattle.code_match.specs.Matches.{match_of, taken_of, behind};

use crate::bindings::Bindings;
use crate::meeting::{met_value, met_variable};
use crate::outcome::{Matched, Taken};
use crate::segments::all_taken;
use bit_store::Window;
use code_tree::{Pattern, Segment};
use expr_eval::Caller;
use std::alloc::AllocError;
use term_value::{Cells, Term};

/// A pattern against a value, under bindings (Erlang Reference Manual, "Pattern Matching").
#[cycle(matching)]
pub fn matched(
    caller: &Caller<'_>,
    pattern: &Pattern,
    value: &Term<Window>,
    bindings: Bindings,
) -> Result<Matched, AllocError>
    requires { IsOver IsShort AnyAtom value.now }
    ensures { IfOk result (λ found. match_of found ≡ m.matched (setting caller.now.names.now caller.now.pid) (pattern_of pattern.now) (value_of itself value.now) (bounds bindings)) }
{
    match pattern {
        Pattern::Anything => Ok(Matched::Yes(bindings)),
        Pattern::Variable(variable) => met_variable(caller, *variable, value, bindings),
        Pattern::Value(literal) => Ok(met_value(caller, literal, value, bindings)),
        Pattern::Tuple(patterns) => tuple_matched(caller, patterns.items(), value, bindings),
        Pattern::List(patterns) => list_matched(caller, patterns.items(), value, bindings),
        Pattern::ListOn(patterns, tail) => {
            let (begun, rest) = list_begun(caller, patterns.items(), value, bindings)?;
            tail_matched(caller, tail.get(), &rest, begun)
        }
        Pattern::Bits(segments) => bits_matched(caller, segments.items(), value, bindings),
        Pattern::Same(patterns) => all_matched(caller, patterns.items(), value, bindings),
    }
}

/// All patterns against one value, the first first.
#[cycle(matching)]
pub fn all_matched(
    caller: &Caller<'_>,
    patterns: &[Pattern],
    value: &Term<Window>,
    bindings: Bindings,
) -> Result<Matched, AllocError>
    requires { IsOver IsShort AnyAtom value.now }
    ensures { IfOk result (λ found. match_of found ≡ m.all_matched (setting caller.now.names.now caller.now.pid) (patterns_of patterns.now) (value_of itself value.now) (bounds bindings)) }
{
    let mut found = bindings;
    for pattern in patterns {
        match matched(caller, pattern, value, found)? {
            Matched::Yes(more) => found = more,
            Matched::No => return Ok(Matched::No),
            Matched::Limit => return Ok(Matched::Limit),
        }
    }
    Ok(Matched::Yes(found))
}

/// Each pattern against its value; the number of values is compared before any of them.
#[cycle(matching)]
#[tactic(auto, using(crate::proofs::Matching::as_many, crate::proofs::Matching::not_as_many))]
pub fn each_matched(
    caller: &Caller<'_>,
    patterns: &[Pattern],
    values: &[Term<Window>],
    bindings: Bindings,
) -> Result<Matched, AllocError>
    requires { AreKnown IsShort AnyAtom (row values.now) }
    ensures { IfOk result (λ found. match_of found ≡ m.if_match (m.as_many (patterns_of patterns.now) (meanings itself (row values.now)))
        (m.each_matched (setting caller.now.names.now caller.now.pid) (patterns_of patterns.now) (meanings itself (row values.now)) (bounds bindings))) }
{
    if patterns.len() != values.len() {
        return Ok(Matched::No);
    }
    let mut left = values;
    let mut found = bindings;
    for pattern in patterns {
        let Some((value, rest)) = left.split_first() else {
            return Ok(Matched::No);
        };
        match matched(caller, pattern, value, found)? {
            Matched::Yes(more) => found = more,
            Matched::No => return Ok(Matched::No),
            Matched::Limit => return Ok(Matched::Limit),
        }
        left = rest;
    }
    Ok(Matched::Yes(found))
}

#[cycle(matching)]
fn tuple_matched(
    caller: &Caller<'_>,
    patterns: &[Pattern],
    value: &Term<Window>,
    bindings: Bindings,
) -> Result<Matched, AllocError>
    requires { IsOver IsShort AnyAtom value.now }
    ensures { IfOk result (λ found. match_of found ≡ m.matched (setting caller.now.names.now caller.now.pid) (t.PTuple (patterns_of patterns.now)) (value_of itself value.now) (bounds bindings)) }
{
    match value {
        Term::Tuple(items) => each_matched(caller, patterns, items.get().items(), bindings),
        _ => Ok(Matched::No),
    }
}

#[cycle(matching)]
fn list_matched(
    caller: &Caller<'_>,
    patterns: &[Pattern],
    value: &Term<Window>,
    bindings: Bindings,
) -> Result<Matched, AllocError>
    requires { IsOver IsShort AnyAtom value.now }
    ensures { IfOk result (λ found. match_of found ≡ m.matched (setting caller.now.names.now caller.now.pid) (t.PList (patterns_of patterns.now)) (value_of itself value.now) (bounds bindings)) }
{
    match value {
        Term::List(items) => match behind(patterns, items) {
            Some(Cells::Empty) => items_matched(caller, patterns, items, bindings),
            Some(Cells::More(_)) => Ok(Matched::No),
            None => Ok(Matched::No),
        },
        _ => Ok(Matched::No),
    }
}

// The tail of a list, where its first items match.
#[cycle(matching)]
fn tail_matched(
    caller: &Caller<'_>,
    tail: &Pattern,
    rest: &Term<Window>,
    begun: Matched,
) -> Result<Matched, AllocError>
    requires { IsOver IsShort AnyAtom rest.now }
    ensures { IfOk result (λ found. match_of found ≡ m.then_match (match_of begun) (m.matched (setting caller.now.names.now caller.now.pid) (pattern_of tail.now) (value_of itself rest.now))) }
{
    match begun {
        Matched::Yes(found) => matched(caller, tail, rest, found),
        Matched::No => Ok(Matched::No),
        Matched::Limit => Ok(Matched::Limit),
    }
}

// The first items of a list, and the list of those behind them.
#[cycle(matching)]
fn list_begun(
    caller: &Caller<'_>,
    patterns: &[Pattern],
    value: &Term<Window>,
    bindings: Bindings,
) -> Result<(Matched, Term<Window>), AllocError>
    requires { IsOver IsShort AnyAtom value.now }
    ensures is { (p : t.Pattern) → IfOk result (λ begun. m.then_match (match_of begun.0) (m.matched (setting caller.now.names.now caller.now.pid) p (value_of itself begun.1)) ≡ m.matched (setting caller.now.names.now caller.now.pid) (t.PListOn (patterns_of patterns.now) p) (value_of itself value.now) (bounds bindings)) }
    ensures over { IfOk result (λ begun. IsOver IsShort AnyAtom begun.1) }
{
    let Term::List(items) = value else {
        return Ok((Matched::No, Term::List(Cells::Empty)));
    };
    let Some(rest) = behind(patterns, items) else {
        return Ok((Matched::No, Term::List(Cells::Empty)));
    };
    let begun = items_matched(caller, patterns, items, bindings)?;
    Ok((begun, Term::List(rest.again()?)))
}

// The items behind as many as the patterns; None where there are fewer.
fn behind<'a>(patterns: &[Pattern], items: &'a Cells<Window>) -> Option<&'a Cells<Window>>
    requires { AreKnown IsShort AnyAtom (row_of items.now) }
    ensures is { MatchOption result (behind (patterns_of patterns.now) (meanings itself (row_of items.now)) ≡ None) (λ rest. behind (patterns_of patterns.now) (meanings itself (row_of items.now)) ≡ Some (meanings itself (row_of rest.now))) }
    ensures over { IfSome result (λ rest. AreKnown IsShort AnyAtom (row_of rest.now)) }
{
    let mut left = items;
    for _ in patterns {
        match left.split() {
            Some((_, rest)) => left = rest,
            None => return None,
        }
    }
    Some(left)
}

// Each pattern against its item, of which there are enough.
#[cycle(matching)]
fn items_matched(
    caller: &Caller<'_>,
    patterns: &[Pattern],
    items: &Cells<Window>,
    bindings: Bindings,
) -> Result<Matched, AllocError>
    requires { AreKnown IsShort AnyAtom (row_of items.now) }
    ensures { IfOk result (λ found. match_of found ≡ m.front_matched (setting caller.now.names.now caller.now.pid) (patterns_of patterns.now) (λ v. m.Yes) (meanings itself (row_of items.now)) (bounds bindings)) }
{
    let mut left = items;
    let mut found = bindings;
    for pattern in patterns {
        let Some((item, rest)) = left.split() else {
            return Ok(Matched::No);
        };
        match matched(caller, pattern, item, found)? {
            Matched::Yes(more) => found = more,
            Matched::No => return Ok(Matched::No),
            Matched::Limit => return Ok(Matched::Limit),
        }
        left = rest;
    }
    Ok(Matched::Yes(found))
}

fn bits_matched(
    caller: &Caller<'_>,
    segments: &[Segment],
    value: &Term<Window>,
    bindings: Bindings,
) -> Result<Matched, AllocError>
    ensures { IfOk result (λ found. match_of found ≡ m.matched (setting caller.now.names.now caller.now.pid) (t.PBits (segments_of segments.now)) (value_of itself value.now) (bounds bindings)) }
{
    match value {
        Term::Bits(bits) => Ok(whole(all_taken(caller, segments, bindings, bits)?)),
        _ => Ok(Matched::No),
    }
}

// No bits may remain.
fn whole(taken: Taken) -> Matched
    ensures { match_of result ≡ m.whole (taken_of taken) }
{
    match taken {
        Taken::Yes(bindings, rest) => {
            if rest.len() == 0 {
                Matched::Yes(bindings)
            } else {
                Matched::No
            }
        }
        Taken::No => Matched::No,
        Taken::Limit => Matched::Limit,
    }
}
