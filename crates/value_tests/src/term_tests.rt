ghost use Rattle.std.specs.Prelude.{◌≡◌, ◌≤◌, ◌*◌, ◌<◌, length, slice_index_or, []};

use bits_value::{Bits, Frozen};
use erl_syntax::{Op, Text};
use report_text::{entry_is_line, one_order};
use std::alloc::{AllocError, Global};
use std::cmp::Ordering;
use std::test::Fail;
use term_laws::{
    calls_are_read, character_reads_back, complete_is_last, each_asks, equal_is_same, free_shrinks,
    guards_contract, integer_reads_back, legal_is_short, names_by_characters, order_is_total,
    outcome_reports,
};
use term_value::{
    Arith, Cells, Look, Term, arith, compare, depth, list_of, show, tuple_of, weight,
};

/// Atoms by a table of names, and bitstrings that are their own references.
#[derive(Drop)]
struct Names {
    names: Vec<Text>,
}

impl Look<Frozen> for Names {
    ghost shown = { λ names bits. bits };

    ghost named = { λ names number. slice_index_or names.names.items number [] };

    ghost has = { λ names bits. Unit {0} };

    ghost knows = { λ names number. Unit {0} };

    fn bits<'a>(&'a self, of: &'a Frozen) -> Bits<'a> {
        of.bits()
    }

    fn atom(&self, number: u32) -> &[u8] {
        match self.names.get(number as usize) {
            Some(name) => name.bytes(),
            None => b"",
        }
    }
}

fn bits(alloc: Global, bytes: &[u8], len: u32) -> Result<Term<Frozen>, AllocError>
    requires { len ≤ 8 * length bytes.now }
{
    Ok(Term::Bits(Frozen::of(bytes.to_vec(alloc)?, len)))
}

fn tuple(alloc: Global, items: Vec<Term<Frozen>>) -> Result<Term<Frozen>, AllocError> {
    Ok(tuple_of(alloc, items)?.unwrap_or(Term::List(Cells::Empty)))
}

fn listed(alloc: Global, items: Vec<Term<Frozen>>) -> Result<Term<Frozen>, AllocError> {
    Ok(list_of(alloc, items)?.unwrap_or(Term::List(Cells::Empty)))
}

fn text(bytes: &[u8], alloc: Global) -> Result<Text, AllocError> {
    Ok(Text::of(bytes.to_vec(alloc)?))
}

fn no_names(alloc: Global) -> Names {
    Names {
        names: Vec::new(alloc),
    }
}

#[test]
fn integers_and_pids_have_a_text(rt: HostRuntime) -> Result<(), Fail> {
    let alloc = rt.alloc();
    let items = vec![in alloc; Term::Int(i128::MIN), Term::Int(0), Term::Pid(3)]?;
    let term = listed(alloc, items)?;
    let shown = show(alloc, &no_names(alloc), &term)?;
    assert_eq!(rt;
        shown.bytes(),
        b"[-170141183460469231731687303715884105728,0,<0.3.0>]".as_slice()
    );
    Ok(())
}

#[test]
fn tuples_and_lists_stand_in_each_other(rt: HostRuntime) -> Result<(), Fail> {
    let alloc = rt.alloc();
    let inner = listed(alloc, vec![in alloc; tuple(alloc, Vec::new(alloc))?]?)?;
    let items = vec![in alloc; inner, Term::List(Cells::Empty), Term::Int(7)]?;
    let term = tuple(alloc, items)?;
    let shown = show(alloc, &no_names(alloc), &term)?;
    assert_eq!(rt; shown.bytes(), b"{[{}],[],7}".as_slice());
    Ok(())
}

#[test]
fn atoms_are_quoted_where_they_must(rt: HostRuntime) -> Result<(), Fail> {
    let alloc = rt.alloc();
    let names = vec![in alloc;
        text(b"a@B_1", alloc)?,
        text(b"receive", alloc)?,
        text(b"", alloc)?,
        text(b"A", alloc)?,
    ]?;
    let items = vec![in alloc; Term::Atom(0), Term::Atom(1), Term::Atom(2), Term::Atom(3)]?;
    let shown = show(alloc, &Names { names }, &listed(alloc, items)?)?;
    assert_eq!(rt; shown.bytes(), b"[a@B_1,'receive','','A']".as_slice());
    Ok(())
}

#[test]
fn characters_of_atoms_are_escaped_where_they_must(rt: HostRuntime) -> Result<(), Fail> {
    let alloc = rt.alloc();
    let names = vec![in alloc;
        text(b"it's \\", alloc)?,
        text(&[10, 31, 127], alloc)?,
        text(&[0xC5, 0xBC], alloc)?,
    ]?;
    let items = vec![in alloc; Term::Atom(0), Term::Atom(1), Term::Atom(2)]?;
    let shown = show(alloc, &Names { names }, &listed(alloc, items)?)?;
    assert_eq!(rt;
        shown.bytes(),
        b"['it\\'s \\\\','\\x{A}\\x{1F}\\x{7F}','\xC5\xBC']".as_slice()
    );
    Ok(())
}

#[test]
fn bitstrings_show_their_bytes_and_last_bits(rt: HostRuntime) -> Result<(), Fail> {
    let alloc = rt.alloc();
    let items = vec![in alloc;
        bits(alloc, b"", 0)?,
        bits(alloc, &[1, 255], 16)?,
        bits(alloc, &[0xA0], 3)?,
        bits(alloc, &[7, 0x80], 9)?,
    ]?;
    let shown = show(alloc, &no_names(alloc), &listed(alloc, items)?)?;
    assert_eq!(rt;
        shown.bytes(),
        b"[<<>>,<<1,255>>,<<5:3>>,<<7,1:1>>]".as_slice()
    );
    Ok(())
}

fn two(alloc: Global, first: i128, second: i128) -> Result<Vec<Term<Frozen>>, AllocError> {
    Ok(vec![in alloc; Term::Int(first), Term::Int(second)]?)
}

fn one(alloc: Global, first: i128) -> Result<Vec<Term<Frozen>>, AllocError> {
    Ok(vec![in alloc; Term::Int(first)]?)
}

fn push_tuples_and_lists(terms: &mut Vec<Term<Frozen>>, alloc: Global) -> Result<(), AllocError> {
    terms.push(tuple(alloc, one(alloc, 9)?)?)?;
    terms.push(tuple(alloc, two(alloc, 0, 0)?)?)?;
    terms.push(listed(alloc, one(alloc, 1)?)?)?;
    terms.push(listed(alloc, two(alloc, 1, 2)?)?)?;
    terms.push(listed(alloc, one(alloc, 2)?)?)?;
    Ok(())
}

fn push_bitstrings(terms: &mut Vec<Term<Frozen>>, alloc: Global) -> Result<(), AllocError> {
    terms.push(bits(alloc, &[0], 1)?)?;
    terms.push(bits(alloc, &[0], 8)?)?;
    terms.push(bits(alloc, &[0x80], 1)?)?;
    Ok(())
}

/// Values of each kind, each below the next.
fn sorted(alloc: Global) -> Result<Vec<Term<Frozen>>, AllocError> {
    let mut terms = vec![in alloc;
        Term::Int(-2),
        Term::Int(3),
        Term::Atom(0),
        Term::Atom(1),
        Term::Atom(2),
        Term::Pid(1),
        Term::Pid(2),
    ]?;
    push_tuples_and_lists(&mut terms, alloc)?;
    push_bitstrings(&mut terms, alloc)?;
    Ok(terms)
}

fn ordered(names: &Names, left: &Term<Frozen>, right: &Term<Frozen>) -> Ordering {
    compare(names, left, right)
}

/// How the value at this place compares with each.
fn compare_with_each(names: &Names, terms: &[Term<Frozen>], place: usize) -> bool
    requires { place < length terms.now }
{
    terms.iter().enumerate().all(|(index, term)| ordered(names, &terms[place], term)
        == place.cmp(&index))
}

#[test]
fn each_kind_is_below_the_next(rt: HostRuntime) -> Result<(), Fail> {
    let alloc = rt.alloc();
    let names = Names {
        names: vec![in alloc; text(b"a", alloc)?, text(b"aa", alloc)?, text(b"b", alloc)?]?,
    };
    let terms = sorted(alloc)?;
    for place in 0..terms.len() {
        assert_eq!(rt; compare_with_each(&names, &terms, place), true);
    }
    Ok(())
}

#[test]
fn arithmetic_has_bounds(rt: HostRuntime) {
    assert_eq!(rt; arith(Op::Add, i128::MAX, -1), Arith::Value(i128::MAX - 1));
    assert_eq!(rt; arith(Op::Add, i128::MAX, 1), Arith::Limit);
    assert_eq!(rt; arith(Op::Div, i128::MIN, -1), Arith::Limit);
    assert_eq!(rt; arith(Op::Rem, i128::MIN, -1), Arith::Value(0));
    assert_eq!(rt; arith(Op::Rem, -7, 2), Arith::Value(-1));
    assert_eq!(rt; arith(Op::Div, 1, 0), Arith::BadArith);
}

#[test]
fn shifts_have_bounds(rt: HostRuntime) {
    assert_eq!(rt; arith(Op::Bsl, -1, 127), Arith::Value(i128::MIN));
    assert_eq!(rt; arith(Op::Bsl, 1, 127), Arith::Limit);
    assert_eq!(rt; arith(Op::Bsl, 0, i128::MAX), Arith::Value(0));
    assert_eq!(rt; arith(Op::Bsr, -7, 1), Arith::Value(-4));
    assert_eq!(rt; arith(Op::Bsr, 1, i128::MIN), Arith::Limit);
}

#[test]
fn terms_have_a_weight_and_a_depth(rt: HostRuntime) -> Result<(), Fail> {
    let alloc = rt.alloc();
    let items = vec![in alloc; listed(alloc, two(alloc, 1, 2)?)?, Term::Int(3)]?;
    let term = tuple(alloc, items)?;
    assert_eq!(rt; weight(&term), 5);
    assert_eq!(rt; depth(&term), 3);
    Ok(())
}

#[test]
fn laws_are_calls() {
    integer_reads_back();
    character_reads_back();
    legal_is_short();
    each_asks();
    free_shrinks();
    complete_is_last();
    order_is_total();
    equal_is_same();
    names_by_characters();
    one_order();
    entry_is_line();
    outcome_reports();
    calls_are_read();
    guards_contract();
}
