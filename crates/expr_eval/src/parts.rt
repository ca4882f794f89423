//! Parts of binaries, for which no bit is moved.

ghost use Rattle.std.specs.Prelude.{◌≡◌, ◌+◌, ◌*◌, ◌≤◌, Bool, List, [], ◌∷◌, length, take, drop, IfOk};
ghost use Rattle.term_value.specs.Bounds.{within};
ghost use Rattle.term_value.specs.BuiltIns.{binary_part as part_of, binary_part_of as pair_part_of, split_binary as split_of};
ghost use Rattle.term_value.specs.Primitives.{bounded_result};
ghost use Rattle.term_value.specs.Result.{Gives};
ghost use Rattle.term_value.specs.Seen.{STuple, SBits, end, then};
ghost use Rattle.term_value.specs.Value.{VBits};
ghost use Rattle.term_value.specs.Terms.{value_of};
ghost use Rattle.expr_eval.specs.Answers.{IsEvaluated, HasAnswer, IsAnswerWith};
ghost use Rattle.expr_eval.specs.Kinds.{HasBits};
ghost use Rattle.expr_eval.specs.Ranges.{range_of, wanted, front_of, halves, pair_of};

use crate::reason::{Answer, EvalFault, bad_argument};
use crate::rows::tuple_answer;
use bit_store::Store;
use std::alloc::{AllocError, Global};
use term_value::Term;

/// Bytes of a binary.
#[derive(Clone, Copy, Drop)]
struct ByteRange {
    first: u32,
    count: u32,
}

/// `binary_part/3`
pub(crate) fn binary_part<R, S: Store<R>>(
    store: &S,
    binary: &Term<R>,
    start: &Term<R>,
    len: &Term<R>,
) -> Answer<R>
    requires { HasBits (S.has store.now) binary.now }
    ensures is { IsEvaluated (S.shown store.now) result (bounded_result (part_of (value_of (S.shown store.now) binary.now) (value_of (S.shown store.now) start.now) (value_of (S.shown store.now) len.now))) }
    ensures known { HasAnswer (S.has store.now) result }
{
    match binary {
        Term::Bits(of) => match wanted_range(store.look(of).len(), start, len) {
            Some(range) => cut(store, of, range),
            None => bad_argument(),
        },
        _ => bad_argument(),
    }
}

/// `binary_part/2`: the position and the length stand in a tuple.
pub(crate) fn binary_part_of<R, S: Store<R>>(
    store: &S,
    binary: &Term<R>,
    range: &Term<R>,
) -> Answer<R>
    requires { HasBits (S.has store.now) binary.now }
    ensures is { IsEvaluated (S.shown store.now) result (bounded_result (pair_part_of (value_of (S.shown store.now) binary.now) (value_of (S.shown store.now) range.now))) }
    ensures known { HasAnswer (S.has store.now) result }
{
    match range {
        Term::Tuple(items) => match items.get().items() {
            [] => bad_argument(),
            [_] => bad_argument(),
            [start, len] => binary_part(store, binary, start, len),
            _ => bad_argument(),
        },
        _ => bad_argument(),
    }
}

/// `split_binary/2`: the first bytes and the rest, each a part that is shared.
pub(crate) fn split_binary<R: Drop, S: Store<R>>(
    alloc: Global,
    store: &S,
    binary: &Term<R>,
    count: &Term<R>,
) -> Answer<R>
    requires { HasBits (S.has store.now) binary.now }
    ensures is { IsEvaluated (S.shown store.now) result (bounded_result (split_of (value_of (S.shown store.now) binary.now) (value_of (S.shown store.now) count.now))) }
    ensures known { HasAnswer (S.has store.now) result }
{
    match binary {
        Term::Bits(of) => match front_bytes(store.look(of).len(), count) {
            Some(bytes) => split(alloc, store, of, bytes),
            None => bad_argument(),
        },
        _ => bad_argument(),
    }
}

fn front_bytes<R>(bits: u32, count: &Term<R>) -> Option<u32>
    ensures { (shown : R → List Bool) → result ≡ front_of bits (value_of shown count.now) }
{
    match count {
        Term::Int(count) => match byte_range(bits, 0, *count) {
            Some(range) => Some(range.count),
            None => None,
        },
        _ => None,
    }
}

fn split<R: Drop, S: Store<R>>(alloc: Global, store: &S, of: &R, bytes: u32) -> Answer<R>
    requires valid { S.has store.now of.now }
    requires inside { 8 * bytes ≤ length (S.shown store.now of.now) }
    ensures is { IsEvaluated (S.shown store.now) result (within (halves (8 * bytes) (S.shown store.now of.now))) }
    ensures known { HasAnswer (S.has store.now) result }
{
    let bits = 8 * bytes;
    match store.part(of, 0, bits) {
        Ok(front) => match store.part(of, bits, store.look(of).len() - bits) {
            Ok(back) => pair(alloc, front, back),
            Err(_) => Err(EvalFault::NoMemory),
        },
        Err(_) => Err(EvalFault::NoMemory),
    }
}

fn pair<R: Drop>(alloc: Global, front: R, back: R) -> Answer<R>
    ensures is { (shown : R → List Bool) → IsEvaluated shown result (within (pair_of (shown front) (shown back))) }
    ensures kept { IsAnswerWith (STuple (then (SBits front) (then (SBits back) end))) result }
{
    match both(alloc, Term::Bits(front), Term::Bits(back)) {
        Ok(items) => tuple_answer(alloc, items),
        Err(_) => Err(EvalFault::NoMemory),
    }
}

fn both<R: Drop>(alloc: Global, first: Term<R>, second: Term<R>) -> Result<Vec<Term<R>>, AllocError>
    ensures { IfOk result (λ items. items.items ≡ first ∷ second ∷ []) }
{
    let mut items = Vec::new(alloc);
    items.push(first)?;
    items.push(second)?;
    Ok(items)
}

fn cut<R, S: Store<R>>(store: &S, of: &R, range: ByteRange) -> Answer<R>
    requires valid { S.has store.now of.now }
    requires inside { 8 * range.first + 8 * range.count ≤ length (S.shown store.now of.now) }
    ensures is { IsEvaluated (S.shown store.now) result (bounded_result (Gives (VBits (take (8 * range.count) (drop (8 * range.first) (S.shown store.now of.now)))))) }
    ensures known { HasAnswer (S.has store.now) result }
{
    match store.part(of, 8 * range.first, 8 * range.count) {
        Ok(part) => Ok(Term::Bits(part)),
        Err(_) => Err(EvalFault::NoMemory),
    }
}

fn wanted_range<R>(bits: u32, start: &Term<R>, len: &Term<R>) -> Option<ByteRange>
    ensures { (shown : R → List Bool) → result ≡ wanted bits (value_of shown start.now) (value_of shown len.now) }
{
    match start {
        Term::Int(start) => match len {
            Term::Int(len) => byte_range(bits, *start, *len),
            _ => None,
        },
        _ => None,
    }
}

// The bytes from a byte on, or those before it where `len` is negative, of a bitstring of so many bits.
fn byte_range(bits: u32, start: i128, len: i128) -> Option<ByteRange>
    ensures { result ≡ range_of bits start len }
{
    let total = (bits / 8) as i128;
    if bits % 8 != 0 || start < 0 || start > total {
        return None;
    }
    if len < 0 {
        if len < -start {
            return None;
        }
        return Some(ByteRange {
            first: (start + len) as u32,
            count: (-len) as u32,
        });
    }
    if len > total - start {
        return None;
    }
    Some(ByteRange {
        first: start as u32,
        count: len as u32,
    })
}
