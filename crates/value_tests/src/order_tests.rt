use erl_syntax::{Listed, Text};
use report_text::{OrderFault, order, order_or_fault, read_order, report};
use std::test::Fail;
use term_value::{Entry, Outcome};

const ENTRIES: &[Entry] = &[
    Entry::Sent { from: 1, to: 1_024 },
    Entry::Saw {
        pid: 2,
        count: 4_294_967_295,
    },
    Entry::Shown { pid: 10 },
    Entry::Started { pid: 1, child: 2 },
    Entry::Full { pid: 1 },
    Entry::Ended { pid: 1 },
    Entry::Stopped { pid: 2 },
    Entry::Gone {
        pid: 1,
        births: 0,
        drops: 18_446_744_073_709_551_615,
        moved: 7,
    },
];

const TEXT: &[u8] =
    b"sent 1 1024\nsaw 2 4294967295\nshown 10\nstarted 1 2\nfull 1\nended 1\nstopped 2\ngone 1 0 18446744073709551615 7\n";

// Texts, and the first line of each that is no entry.
const FAULTS: &[(&[u8], u64)] = &[
    (b"\n", 1),
    (b"shown 1", 1),
    (b"shown 1\nshown 1", 2),
    (b"saw 1 0\n", 1),
    (b"shown one\n", 1),
    (b"shown 01\n", 1),
    (b"shown 0\n", 1),
    (b"shown 1025\n", 1),
    (b"shown 1 \n", 1),
    (b"shown  1\n", 1),
    (b" shown 1\n", 1),
    (b"shown 1 2\n", 1),
    (b"shown +1\n", 1),
    (b"shown\n", 1),
    (b"Shown 1\n", 1),
    (b"saw 1 4294967296\n", 1),
    (b"gone 1 0 0\n", 1),
    (b"gone 1 0 0 0 0\n", 1),
    (b"gone 1 0 0 18446744073709551616\n", 1),
    (b"shown 1\n\xff 1\n", 2),
    (b"shown 1\nended 1\n\n", 3),
];

#[test]
fn orders(rt: HostRuntime) -> Result<(), Fail> {
    let alloc = rt.alloc();
    order_or_fault();
    let text = order(alloc, ENTRIES)?;
    assert_eq!(rt; text.as_slice(), TEXT);
    match read_order(alloc, TEXT) {
        Ok(entries) => assert_eq!(rt; entries.as_slice(), ENTRIES),
        Err(_) => assert!(rt; false),
    }
    for (text, line) in FAULTS {
        match read_order(alloc, text) {
            Ok(_) => assert!(rt; false, "at {line}"),
            Err(fault) => assert_eq!(rt; fault, OrderFault::NoEntry { line: *line }),
        }
    }
    Ok(())
}

#[test]
fn reports(rt: HostRuntime) -> Result<(), Fail> {
    let alloc = rt.alloc();
    let mut shown = Vec::new(alloc);
    shown.push(Text::of(Vec::from_slice(alloc, b"-7")?))?;
    shown.push(Text::of(Vec::from_slice(alloc, b"{a,<<1>>}")?))?;
    let mut ends = Vec::new(alloc);
    ends.push((2, None))?;
    ends.push((13, Some(Text::of(Vec::from_slice(alloc, b"badarg")?))))?;
    let outcome = Outcome {
        entries: Listed::of(Vec::new(alloc)),
        shown: Listed::of(shown),
        ends: Listed::of(ends),
    };
    let text = report(alloc, &outcome)?;
    let due: &[u8] = b"-7\n{a,<<1>>}\nwaiting <0.2.0>\nexit <0.13.0> badarg\n";
    assert_eq!(rt; text.as_slice(), due);
    Ok(())
}
