ghost use Rattle.std.specs.Prelude.{◌≡◌, ◌≢◌, ◌≤◌, ◌<◌, ◌^◌, false, IsTrue, length, IfOk, MatchOption};
ghost use Rattle.erl_syntax.specs.Names.{Names};
ghost use Rattle.erl_syntax.specs.declared.segment.Spec.{Spec};
ghost use Rattle.pattern_read.specs.Reading.{Gives, closed};
ghost use Rattle.pattern_read.specs.WantedPatterns.{UnitAt, goes_typed, segment_type_in, spec_in};

use crate::cursor::Cursor;
use crate::fault::{Cause, Fault};
use erl_syntax::{Expr, Listed, Segment, Span, Spec, TokenKind};
use std::alloc::Global;

/// Whether the bytes are the same.
fn same(chars: &[u8], word: &[u8]) -> bool
    ensures yes { IsTrue result → chars.now ≡ word.now }
    ensures no { result ≡ false → chars.now ≢ word.now }
{
    chars == word
}

/// What a word of a segment's type stands for, where it has no number behind it (Erlang Reference Manual, "Bit Syntax Expressions").
fn named(chars: &[u8]) -> Option<Spec>
    ensures { MatchOption result ((sp : Spec) → Names chars.now sp → ⊥) (λ sp. Names chars.now sp) }
{
    if same(chars, b"integer") {
        return Some(Spec::Integer);
    }
    if same(chars, b"binary") {
        return Some(Spec::Binary);
    }
    if same(chars, b"bytes") {
        return Some(Spec::Binary);
    }
    if same(chars, b"bitstring") {
        return Some(Spec::Bitstring);
    }
    if same(chars, b"bits") {
        return Some(Spec::Bitstring);
    }
    if same(chars, b"utf8") {
        return Some(Spec::Utf8);
    }
    if same(chars, b"utf16") {
        return Some(Spec::Utf16);
    }
    if same(chars, b"utf32") {
        return Some(Spec::Utf32);
    }
    if same(chars, b"float") {
        return Some(Spec::Float);
    }
    if same(chars, b"signed") {
        return Some(Spec::Signed);
    }
    if same(chars, b"unsigned") {
        return Some(Spec::Unsigned);
    }
    if same(chars, b"big") {
        return Some(Spec::Big);
    }
    if same(chars, b"little") {
        return Some(Spec::Little);
    }
    if same(chars, b"native") {
        return Some(Spec::Native);
    }
    None
}

/// `unit` at that place, with its number behind it.
fn unit(cursor: &Cursor, at: usize) -> Result<(Spec, usize), Fault>
    requires unit { UnitAt cursor.now at }
    requires within { at < length cursor.now.words }
    requires short { length cursor.now.words < 2 ^ 64 }
    ensures reads { Gives closed spec_in cursor.now at result }
    ensures further { IfOk result (λ r. at < r.1 × (r.1 ≤ length cursor.now.words)) }
{
    if !cursor.is(at + 1, TokenKind::Colon) {
        return Err(Fault::Refused(at + 1, Cause::Syntax));
    }
    let Some(numbered) = cursor.token(at + 2) else {
        return Err(Fault::Refused(at + 2, Cause::Syntax));
    };
    if numbered.token.kind == TokenKind::Integer {
        Ok((Spec::Unit(numbered.integer()), at + 3))
    } else {
        Err(Fault::Refused(at + 2, Cause::Syntax))
    }
}

/// A word of a segment's type; behind `unit` stands its number.
pub fn spec(alloc: Global, cursor: &Cursor, at: usize) -> Result<(Spec, usize), Fault>
    requires { at ≤ length cursor.now.words }
    ensures reads { Gives closed spec_in cursor.now at result }
    ensures further { IfOk result (λ r. at < r.1 × (r.1 ≤ length cursor.now.words)) }
{
    if !cursor.is(at, TokenKind::Atom) {
        return Err(Fault::Refused(at, Cause::Syntax));
    }
    let chars = cursor.atom_characters(alloc, at)?;
    if same(chars.bytes(), b"unit") {
        return unit(cursor, at);
    }
    match named(chars.bytes()) {
        Some(spec) => Ok((spec, at + 1)),
        None => Err(Fault::Refused(at, Cause::UnknownSegmentType)),
    }
}

/// What stands behind a segment's value and size: the words of its type, if any.
pub fn segment_type(
    alloc: Global,
    cursor: &Cursor,
    at: usize,
    place: Span,
    value: Expr,
    size: Option<Expr>,
) -> Result<(Segment, usize), Fault>
    requires { at ≤ length cursor.now.words }
    ensures reads { Gives goes_typed (segment_type_in place value size) cursor.now at result }
    ensures further { IfOk result (λ r. at ≤ r.1 × (r.1 ≤ length cursor.now.words)) }
{
    let mut specs = Vec::new(alloc);
    if !cursor.is(at, TokenKind::Slash) {
        return Ok((
            Segment {
                at: place,
                value,
                size,
                specs: Listed::of(specs),
            },
            at,
        ));
    }
    let mut next = at + 1;
    loop {
        let (spec, after) = spec(alloc, cursor, next)?;
        specs.push(spec)?;
        if !cursor.is(after, TokenKind::Minus) {
            return Ok((
                Segment {
                    at: place,
                    value,
                    size,
                    specs: Listed::of(specs),
                },
                after,
            ));
        }
        next = after + 1;
    }
}
