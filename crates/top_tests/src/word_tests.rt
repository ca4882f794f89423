use crate::calling::{Fails, Held, NONE_FAILS, call, module};
use bits_top::Status;
use erl_syntax::LONGEST_TEXT;
use std::test::Fail;

const EMPTY: &str = "main() -> erlang:display(<<>>).";

const EMPTY_ORDER: &[u8] = b"shown 1\nended 1\ngone 1 0 0 0\n";

#[test]
fn other_words_touch_no_port(rt: HostRuntime) -> Result<(), Fail> {
    let alloc = rt.alloc();
    let rows: [&[&str]; 53] = [
        &[],
        &["run", "m.erl", "o.txt"],
        &["run", "m.erl", "o.txt", "2"],
        &["run", "m.erl", "o.txt", "2", "10", "3"],
        &["run", "m.erl", "o.txt", "0", "10"],
        &["run", "m.erl", "o.txt", "65", "10"],
        &["run", "m.erl", "o.txt", "01", "10"],
        &["run", "m.erl", "o.txt", "+1", "10"],
        &["run", "m.erl", "o.txt", "2", "0"],
        &["run", "m.erl", "o.txt", "2", "4000001"],
        &["run", "", "o.txt", "2", "10"],
        &["run", "m.erl", "", "2", "10"],
        &["Run", "m.erl", "o.txt", "2", "10"],
        &["check", ""],
        &["check", "m.erl", "o.txt"],
        &["copy", "m.erl", "o.txt"],
        &["copy", "m.erl", "10"],
        &["copy", "m.erl", "o.txt", "2", "10"],
        &["copy", "", "o.txt", "10"],
        &["copy", "m.erl", "", "10"],
        &["copy", "m.erl", "o.txt", "0"],
        &["copy", "m.erl", "o.txt", "4000001"],
        &["copy", "m.erl", "o.txt", "010"],
        &["Copy", "m.erl", "o.txt", "10"],
        &["gen"],
        &["gen", "1"],
        &["gen", "1", "1", "2"],
        &["Gen", "1", "1"],
        &["gen", "", "1"],
        &["gen", "4294967296", "1"],
        &["gen", "01", "1"],
        &["gen", "00", "1"],
        &["gen", "+1", "1"],
        &["gen", "-1", "1"],
        &["gen", "1 ", "1"],
        &["gen", "1", ""],
        &["gen", "1", "0"],
        &["gen", "1", "100001"],
        &["gen", "1", "01"],
        &["gen", "1", "1.0"],
        &["load"],
        &["load", "1", "1"],
        &["load", "1", "1", "2", "10"],
        &["Load", "1", "1", "2"],
        &["load", "4294967296", "1", "2"],
        &["load", "01", "1", "2"],
        &["load", "1", "0", "2"],
        &["load", "1", "100001", "2"],
        &["load", "1", "+1", "2"],
        &["load", "1", "1", "0"],
        &["load", "1", "1", "65"],
        &["load", "1", "1", "02"],
        &["load", "1", "1", ""],
    ];
    let text = module(alloc, EMPTY)?;
    let held = Held {
        module: text.as_bytes(),
        order: EMPTY_ORDER,
    };
    let fails = Fails {
        module: 1,
        order_in: 1,
        report: 1,
        order_out: 1,
    };
    for texts in rows {
        let answer = call(&rt, alloc, texts, held, fails)?;
        assert_eq!(rt; answer.status, Status::Usage);
        assert_eq!(rt; answer.report.len(), 0);
        assert_eq!(rt; answer.order.len(), 0);
        assert_eq!(rt; answer.reads_failed, 0);
    }
    Ok(())
}

#[test]
fn each_port_fails_in_turn(rt: HostRuntime) -> Result<(), Fail> {
    let alloc = rt.alloc();
    let run: &[&str] = &["run", "m.erl", "o.txt", "2", "1000"];
    let copy: &[&str] = &["copy", "m.erl", "o.txt", "1000"];
    let module_fails = Fails {
        module: 1,
        ..NONE_FAILS
    };
    let order_in_fails = Fails {
        order_in: 1,
        ..NONE_FAILS
    };
    let report_fails = Fails {
        report: 1,
        ..NONE_FAILS
    };
    let order_out_fails = Fails {
        order_out: 1,
        ..NONE_FAILS
    };
    let rows: [(&[&str], Fails, Status, &[u8]); 6] = [
        (run, module_fails, Status::ReadFault, b""),
        (run, order_out_fails, Status::OrderFault, b""),
        (run, report_fails, Status::ReportFault, EMPTY_ORDER),
        (copy, module_fails, Status::ReadFault, b""),
        (copy, order_in_fails, Status::ReadFault, b""),
        (copy, report_fails, Status::ReportFault, b""),
    ];
    let text = module(alloc, EMPTY)?;
    let held = Held {
        module: text.as_bytes(),
        order: EMPTY_ORDER,
    };
    for (words, fails, status, order) in rows {
        let answer = call(&rt, alloc, words, held, fails)?;
        assert_eq!(rt; answer.status, status);
        assert_eq!(rt; answer.report.len(), 0);
        assert_eq!(rt; answer.order.as_slice(), order);
    }
    Ok(())
}

#[test]
fn ports_that_a_command_does_not_use_may_fail(rt: HostRuntime) -> Result<(), Fail> {
    let alloc = rt.alloc();
    let run: &[&str] = &["run", "m.erl", "o.txt", "64", "4000000"];
    let copy: &[&str] = &["copy", "m.erl", "o.txt", "4000000"];
    let check: &[&str] = &["check", "m.erl"];
    let order_in_fails = Fails {
        order_in: 1,
        ..NONE_FAILS
    };
    let order_out_fails = Fails {
        order_out: 1,
        ..NONE_FAILS
    };
    let both_fail = Fails {
        order_in: 1,
        order_out: 1,
        ..NONE_FAILS
    };
    let rows: [(&[&str], Fails, &[u8], &[u8]); 3] = [
        (run, order_in_fails, b"<<>>\n", EMPTY_ORDER),
        (copy, order_out_fails, b"<<>>\n", b""),
        (check, both_fail, b"ok\n", b""),
    ];
    let text = module(alloc, EMPTY)?;
    let held = Held {
        module: text.as_bytes(),
        order: EMPTY_ORDER,
    };
    for (words, fails, report, order) in rows {
        let answer = call(&rt, alloc, words, held, fails)?;
        assert_eq!(rt; answer.status, Status::Done);
        assert_eq!(rt; answer.report.as_slice(), report);
        assert_eq!(rt; answer.order.as_slice(), order);
        assert_eq!(rt; answer.reads_failed, 0);
    }
    Ok(())
}

#[test]
fn a_text_is_refused_past_its_limit(rt: HostRuntime) -> Result<(), Fail> {
    let alloc = rt.alloc();
    let words = ["check", "m.erl"];
    let first = module(alloc, EMPTY)?;
    let mut text = Vec::from_slice(alloc, first.as_bytes())?;
    text.push(b'%')?;
    text.resize(LONGEST_TEXT, b'-')?;
    let held = Held {
        module: &text,
        order: b"",
    };
    let answer = call(&rt, alloc, &words, held, NONE_FAILS)?;
    assert_eq!(rt; answer.status, Status::Done);
    assert_eq!(rt; answer.report.as_slice(), b"ok\n".as_slice());
    text.push(b'\n')?;
    let held = Held {
        module: &text,
        order: b"",
    };
    let answer = call(&rt, alloc, &words, held, NONE_FAILS)?;
    assert_eq!(rt; answer.status, Status::Refused);
    assert_eq!(rt;
        answer.report.as_slice(),
        b"1:1: text too long\n".as_slice()
    );
    Ok(())
}

#[test]
fn a_text_is_refused_by_each_command(rt: HostRuntime) -> Result<(), Fail> {
    let alloc = rt.alloc();
    let commands: [&[&str]; 3] = [
        &["check", "m.erl"],
        &["run", "m.erl", "o.txt", "2", "1000"],
        &["copy", "m.erl", "o.txt", "1000"],
    ];
    let rows = [
        ("main() -> (X = 3).", "3:18: syntax\n"),
        ("main() -> 1.5.", "3:11: float\n"),
        ("main() -> X.", "3:11: unbound variable\n"),
        (
            "main() -> <<A/binary,B/binary>> = <<1>>, A.",
            "3:13: open segment not last\n",
        ),
    ];
    for (line, report) in rows {
        let text = module(alloc, line)?;
        let held = Held {
            module: text.as_bytes(),
            order: b"shown\n",
        };
        for words in commands {
            let answer = call(&rt, alloc, words, held, NONE_FAILS)?;
            assert_eq!(rt; answer.status, Status::Refused, "{line}");
            assert_eq!(rt; answer.report.as_slice(), report.as_bytes(), "{line}");
            assert_eq!(rt; answer.order.len(), 0, "{line}");
        }
    }
    Ok(())
}
