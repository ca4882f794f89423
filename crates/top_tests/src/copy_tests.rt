use crate::calling::{Answer, Held, NONE_FAILS, call, module};
use bits_top::Status;
use std::alloc::Global;
use std::process::Abort;
use std::sync::Wait;
use std::test::Fail;
use std::thread::Threads;

// Replays an order of the module of these forms, each of its processes with 1,000 reductions.
fn copy(
    rt: &(impl Abort + Threads + Wait + Sync),
    alloc: Global,
    forms: &str,
    order: &[u8],
) -> Result<Answer, Fail> {
    let text = module(alloc, forms)?;
    let held = Held {
        module: text.as_bytes(),
        order,
    };
    let answer = call(
        rt,
        alloc,
        &["copy", "m.erl", "o.txt", "1000"],
        held,
        NONE_FAILS,
    )?;
    assert_eq!(rt; answer.order.len(), 0);
    Ok(answer)
}

const EMPTY: &str = "main() -> erlang:display(<<>>).";

const WAITING: &str = "main() -> receive a -> ok end.";

const SENDERS: &str =
    "-export([s/2]).\nmain() -> spawn(m,s,[self(),a]), spawn(m,s,[self(),b]), receive X -> erlang:display(X) end, receive Y -> erlang:display(Y) end.\ns(P,V) -> P ! V.";

#[test]
fn an_order_decides_the_report(rt: HostRuntime) -> Result<(), Fail> {
    let alloc = rt.alloc();
    let rows: [(&str, &[u8], &[u8]); 5] = [
        (
            EMPTY,
            b"shown 1\nended 1\ngone 1 18446744073709551615 8 9\n",
            b"<<>>\n",
        ),
        (WAITING, b"stopped 1\ngone 1 0 0 0\n", b"waiting <0.1.0>\n"),
        (
            SENDERS,
            b"started 1 2\nstarted 1 3\nsent 3 1\nsent 2 1\nsaw 1 2\nshown 1\nshown 1\nended 1\nended 2\nended 3\ngone 1 0 0 0\ngone 2 0 0 0\ngone 3 0 0 0\n",
            b"b\na\n",
        ),
        (
            SENDERS,
            b"started 1 2\nstarted 1 3\nsent 2 1\nsaw 1 1\nshown 1\nended 2\nsent 3 1\ngone 2 0 0 0\nsaw 1 1\nended 3\nshown 1\nended 1\ngone 3 0 0 0\ngone 1 0 0 0\n",
            b"a\nb\n",
        ),
        (
            SENDERS,
            b"started 1 2\nsent 2 1\nstarted 1 3\nsaw 1 1\nsent 3 1\nshown 1\nsaw 1 1\nshown 1\nended 3\nended 2\nended 1\ngone 1 0 0 0\ngone 2 0 0 0\ngone 3 0 0 0\n",
            b"a\nb\n",
        ),
    ];
    for (forms, order, report) in rows {
        let answer = copy(&rt, alloc, forms, order)?;
        assert_eq!(rt; answer.status, Status::Done, "{forms}");
        assert_eq!(rt; answer.report.as_slice(), report, "{forms}");
    }
    Ok(())
}

#[test]
fn a_line_that_is_no_entry_is_told(rt: HostRuntime) -> Result<(), Fail> {
    let alloc = rt.alloc();
    let rows: [(&[u8], u32); 22] = [
        (b"shown one\n", 1),
        (b"saw 1 0\n", 1),
        (b"saw 1 4294967296\n", 1),
        (b"shown 01\n", 1),
        (b"shown +1\n", 1),
        (b"shown 0\n", 1),
        (b"shown 1025\n", 1),
        (b"shown 1 \n", 1),
        (b"shown  1\n", 1),
        (b" shown 1\n", 1),
        (b"shown\t1\n", 1),
        (b"shown 1\r\n", 1),
        (b"shown\n", 1),
        (b"shown 1 1\n", 1),
        (b"Shown 1\n", 1),
        (b"show 1\n", 1),
        (b"\n", 1),
        (b"shown 1\n\xff\n", 2),
        (b"shown 1\nended 1\n\0", 3),
        (b"shown 1\nended 1\ngone 1 0 0 0", 3),
        (b"shown 1\nended 1\ngone 1 18446744073709551616 0 0\n", 3),
        (b"ended 1\nended 1\nended 1\nended\n", 4),
    ];
    for (order, line) in rows {
        let answer = copy(&rt, alloc, EMPTY, order)?;
        let due = format!(in alloc; "order {line}: not an entry\n")?;
        assert_eq!(rt; answer.status, Status::BadOrder, "{due}");
        assert_eq!(rt; answer.report.as_slice(), due.as_bytes());
    }
    Ok(())
}

#[test]
fn an_entry_that_is_not_legal_is_told(rt: HostRuntime) -> Result<(), Fail> {
    let alloc = rt.alloc();
    let rows: [(&str, &[u8], u32); 17] = [
        (EMPTY, b"shown 2\n", 1),
        (EMPTY, b"sent 1 1\n", 1),
        (EMPTY, b"saw 1 1\n", 1),
        (EMPTY, b"started 1 2\n", 1),
        (EMPTY, b"full 1\n", 1),
        (EMPTY, b"ended 1\n", 1),
        (EMPTY, b"stopped 1\n", 1),
        (EMPTY, b"gone 1 0 0 0\n", 1),
        (EMPTY, b"shown 1\nshown 1\n", 2),
        (EMPTY, b"shown 1\nended 1\nended 1\n", 3),
        (EMPTY, b"shown 1\nended 1\ngone 1 0 0 0\nended 1\n", 4),
        (WAITING, b"saw 1 1\n", 1),
        (WAITING, b"ended 1\n", 1),
        (WAITING, b"stopped 1\nended 1\n", 2),
        (SENDERS, b"started 1 3\n", 1),
        (SENDERS, b"started 1 2\nstarted 1 3\nsent 3 1\nsaw 1 2\n", 4),
        (SENDERS, b"started 1 2\nsent 2 3\n", 2),
    ];
    for (forms, order, line) in rows {
        let answer = copy(&rt, alloc, forms, order)?;
        let due = format!(in alloc; "order {line}: not legal\n")?;
        assert_eq!(rt; answer.status, Status::BadOrder, "{due}");
        assert_eq!(rt; answer.report.as_slice(), due.as_bytes());
    }
    Ok(())
}

#[test]
fn an_order_that_stops_early_is_told(rt: HostRuntime) -> Result<(), Fail> {
    let alloc = rt.alloc();
    let rows: [(&str, &[u8]); 5] = [
        (EMPTY, b""),
        (EMPTY, b"shown 1\n"),
        (EMPTY, b"shown 1\nended 1\n"),
        (WAITING, b"stopped 1\n"),
        (
            SENDERS,
            b"started 1 2\nstarted 1 3\nsent 2 1\nsaw 1 1\nshown 1\nsent 3 1\nsaw 1 1\nshown 1\nended 1\ngone 1 0 0 0\n",
        ),
    ];
    for (forms, order) in rows {
        let answer = copy(&rt, alloc, forms, order)?;
        assert_eq!(rt; answer.status, Status::BadOrder);
        assert_eq!(rt; answer.report.as_slice(), b"order: incomplete\n".as_slice());
    }
    Ok(())
}
