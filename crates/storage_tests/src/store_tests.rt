ghost use Rattle.std.specs.Prelude.{IfOk};
ghost use Rattle.bit_store.specs.Stores.{Keeps};
ghost use Rattle.off_heap.specs.Cells.{Valid, shown};

use crate::given::{Fault, shows};
use bit_store::Store;
use bits_build::{Part, build};
use bits_value::{Endian, Sign, Steps};
use erl_syntax::{Kind, SizeUse, Typed};
use off_heap::{BitRef, Heap};
use shares::Share;
use std::alloc::Global;
use std::test::Fail;
use term_value::Term;

/// A segment without a written size.
fn typed(kind: Kind, size: SizeUse) -> Typed {
    Typed {
        kind,
        sign: Sign::Unsigned,
        endian: Endian::Big,
        size,
        unit: 1,
    }
}

/// What `<<N>>` is.
fn byte(alloc: Global, heap: &mut Heap, number: i128, steps: &mut Steps) -> Result<BitRef, Fault>
    ensures keeps { Keeps shown Valid heap.old.cells heap.new.cells }
    ensures valid { IfOk result (Valid heap.new.cells) }
{
    let byte = Part {
        typed: typed(Kind::Int, SizeUse::Default(8)),
        value: Term::Int(number),
        size: None,
    };
    Ok(build(alloc, heap, &[byte], steps)?)
}

/// What `<<A/bits,N>>` is.
fn with_byte(
    alloc: Global,
    heap: &mut Heap,
    front: &BitRef,
    number: i128,
    steps: &mut Steps,
) -> Result<BitRef, Fault>
    requires { Valid heap.old.cells front.now }
    ensures keeps { Keeps shown Valid heap.old.cells heap.new.cells }
    ensures valid { IfOk result (Valid heap.new.cells) }
{
    let front = Part {
        typed: typed(Kind::Bitstring, SizeUse::Whole),
        value: Term::Bits(front.share()?),
        size: None,
    };
    let byte = Part {
        typed: typed(Kind::Int, SizeUse::Default(8)),
        value: Term::Int(number),
        size: None,
    };
    Ok(build(alloc, heap, &[front, byte], steps)?)
}

#[test]
fn bit_expressions_append_in_place(rt: HostRuntime) -> Result<(), Fail> {
    let alloc = rt.alloc();
    let mut heap = Heap::new(alloc);
    let mut steps = Steps::new();
    let first = byte(alloc, &mut heap, 1, &mut steps)?;
    assert_eq!(rt; (steps.moved, heap.cells()), (0, 0));
    let second = with_byte(alloc, &mut heap, &first, 2, &mut steps)?;
    assert_eq!(rt; (steps.moved, heap.cells()), (16, 1));
    let third = with_byte(alloc, &mut heap, &second, 3, &mut steps)?;
    assert_eq!(rt; (steps.moved, heap.cells()), (24, 1));
    Store::still(&mut heap, &third);
    let fourth = with_byte(alloc, &mut heap, &third, 4, &mut steps)?;
    assert_eq!(rt; (steps.moved, heap.cells()), (56, 2));
    assert!(rt; heap.look(&fourth).len() == 32);
    let end = Store::part(&heap, &fourth, 16, 16)?;
    assert!(rt; shows(alloc, &heap, &fourth, (&[1, 2, 3, 4], 32)));
    assert!(rt; shows(alloc, &heap, &end, (&[3, 4], 16)));
    Ok(())
}
