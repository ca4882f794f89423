use crate::fitting::fits;
use crate::given::{Given, are_bound, filled, program, window};
use crate::segments::{BINARY, BYTE, binds, given, literal, sizes};
use crate::slots::{SizeRule, Slots};
use bit_store::{PlainStore, Window};
use match_context::{Context, Matched, release, run};
use pattern_compile::PatSegment;
use std::alloc::Global;
use std::test::Fail;

/// What comes of a pattern, behind which bits may remain, and how many bits are left then.
fn tried(
    alloc: Global,
    pattern: &[PatSegment],
    bytes: &[u8],
    len: u32,
) -> Option<(Matched, u32, Slots<Window>)> {
    let mut store = PlainStore::new(alloc);
    let mut slots = filled(alloc, &mut store, &[SizeRule::ValueOf(0)], &[])?;
    let of = window(alloc, &mut store, bytes, len)?;
    let program = program(alloc, pattern, false)?;
    if !fits(alloc, &slots, program.ops.items()) {
        return None;
    }
    let mut context = Context::on(&mut store, of);
    if context.left() != len {
        return None;
    }
    let matched = run(&program, &store, &mut context, &mut slots);
    Some((matched, context.left(), slots))
}

#[test]
fn a_context_stands_behind_what_a_match_takes(rt: HostRuntime) -> Result<(), Fail> {
    let pattern = [sizes(0, BYTE, None), binds(1, BINARY, given(0))];
    let wanted = [(0, Given::Number(1)), (1, Given::Bits(&[9], 8))];
    match tried(rt.alloc(), &pattern, &[1, 9, 0x30], 20) {
        Some((matched, left, slots)) => {
            assert_eq!(rt; matched, Matched::Yes);
            assert_eq!(rt; left, 4);
            assert!(rt; are_bound(&slots, &wanted));
        }
        None => assert!(rt; false),
    }
    Ok(())
}

#[test]
fn a_context_stays_where_nothing_matches(rt: HostRuntime) -> Result<(), Fail> {
    let pattern = [
        sizes(0, BYTE, None),
        binds(1, BINARY, given(0)),
        literal(7, BYTE, None),
    ];
    match tried(rt.alloc(), &pattern, &[1, 9, 8], 24) {
        Some((matched, left, slots)) => {
            assert_eq!(rt; matched, Matched::No);
            assert_eq!(rt; left, 24);
            assert!(rt; are_bound(&slots, &[]));
        }
        None => assert!(rt; false),
    }
    Ok(())
}

#[test]
fn variables_of_a_program_are_released(rt: HostRuntime) -> Result<(), Fail> {
    let mut store = PlainStore::new(rt.alloc());
    let before = [(2, Given::Number(5))];
    let filled = filled(rt.alloc(), &mut store, &[], &before);
    let of = window(rt.alloc(), &mut store, &[7], 8);
    let program = program(rt.alloc(), &[binds(0, BYTE, None)], true);
    match (filled, of, program) {
        (Some(mut slots), Some(of), Some(program)) => {
            let fit = fits(rt.alloc(), &slots, program.ops.items());
            assert!(rt; fit);
            let mut context = Context::on(&mut store, of);
            let matched = run(&program, &store, &mut context, &mut slots);
            assert_eq!(rt; matched, Matched::Yes);
            assert!(rt; !are_bound(&slots, &before));
            release::<Window, PlainStore, Slots<Window>>(&program, &mut slots);
            assert!(rt; are_bound(&slots, &before));
        }
        _ => assert!(rt; false),
    }
    Ok(())
}
