use crate::calling::{Answer, Fails, Held, NONE_FAILS, call};
use bits_top::Status;
use std::alloc::{AllocError, Global};
use std::process::Abort;
use std::sync::Wait;
use std::test::Fail;
use std::thread::Threads;

// `gen` and `load` read nothing: their sources fail at the first read.
const SOURCES_FAIL: Fails = Fails {
    module: 1,
    order_in: 1,
    report: 0,
    order_out: 0,
};

fn make(
    rt: &(impl Abort + Threads + Wait + Sync),
    alloc: Global,
    words: &[&str],
    fails: Fails,
) -> Result<Answer, Fail> {
    let held = Held {
        module: b"",
        order: b"",
    };
    call(rt, alloc, words, held, fails)
}

// The text that is due for a seed and a size.
fn due(alloc: Global, seed: &str, size: &str) -> Result<String, AllocError> {
    format!(in alloc;
        "-module(load).
-export([main/0,work/3]).
main() -> start(self(),8), gather(1,<<>>).
start(_,0) -> ok;
start(P,K) -> spawn(load,work,[P,K,{seed}]), start(P,K-1).
work(P,K,S) -> B = grow({size},(S+K) rem 251,<<>>), P ! {{K,B}}, P ! {{K,sum(B,0)}}.
grow(0,_,A) -> A;
grow(N,X,A) -> grow(N-1,(X*13+7) rem 251,<<A/binary,X>>).
sum(<<X,R/binary>>,T) -> sum(R,(T*31+X) rem 1000003);
sum(<<>>,T) -> T.
gather(9,A) -> erlang:display(byte_size(A)), erlang:display(sum(A,0));
gather(K,A) ->
    receive {{K,B}} when is_binary(B) ->
        receive {{K,T}} when is_integer(T) -> erlang:display({{K,byte_size(B),T}}) end,
        gather(K+1,<<A/binary,B/binary>>)
    end.
"
    )
}

#[test]
fn the_generated_text_has_both_numbers(rt: HostRuntime) -> Result<(), Fail> {
    let alloc = rt.alloc();
    let rows = [
        ("1", "1"),
        ("0", "17"),
        ("7", "500"),
        ("4294967295", "100000"),
    ];
    let fails = Fails {
        order_out: 1,
        ..SOURCES_FAIL
    };
    for (seed, size) in rows {
        let answer = make(&rt, alloc, &["gen", seed, size], fails)?;
        assert_eq!(rt; answer.status, Status::Done, "{seed} {size}");
        assert_eq!(rt;
            answer.report.as_slice(),
            due(alloc, seed, size)?.as_bytes()
        );
        assert_eq!(rt; answer.order.len(), 0);
        assert_eq!(rt; answer.reads_failed, 0);
    }
    Ok(())
}

const FIRST: &str =
    "{1,1,2}\n{2,1,3}\n{3,1,4}\n{4,1,5}\n{5,1,6}\n{6,1,7}\n{7,1,8}\n{8,1,9}\n8\n885786\n";

// What the generated text displays on Erlang/OTP 25.
#[test]
fn a_load_reports_its_sums_and_is_replayed(rt: HostRuntime) -> Result<(), Fail> {
    let alloc = rt.alloc();
    let rows = [
        ("1", "1", "2", FIRST),
        (
            "0",
            "17",
            "64",
            "{1,17,855967}\n{2,17,961100}\n{3,17,985202}\n{4,17,278049}\n{5,17,545232}\n{6,17,166924}\n{7,17,771472}\n{8,17,163252}\n136\n152289\n",
        ),
        (
            "4294967295",
            "3",
            "1",
            "{1,3,121355}\n{2,3,122888}\n{3,3,124170}\n{4,3,125452}\n{5,3,126985}\n{6,3,128267}\n{7,3,129549}\n{8,3,131082}\n24\n681238\n",
        ),
        (
            "7",
            "500",
            "4",
            "{1,500,908328}\n{2,500,778981}\n{3,500,179987}\n{4,500,792770}\n{5,500,270826}\n{6,500,103848}\n{7,500,435897}\n{8,500,868040}\n4000\n253033\n",
        ),
    ];
    for (seed, size, schedulers, report) in rows {
        let loaded = make(&rt, alloc, &["load", seed, size, schedulers], SOURCES_FAIL)?;
        assert_eq!(rt; loaded.status, Status::Done, "{seed} {size}");
        assert_eq!(rt; loaded.report.as_slice(), report.as_bytes());
        assert_eq!(rt; loaded.reads_failed, 0);
        let text = due(alloc, seed, size)?;
        let held = Held {
            module: text.as_bytes(),
            order: &loaded.order,
        };
        let words = ["copy", "load.erl", "load.order", "4000000"];
        let copied = call(&rt, alloc, &words, held, NONE_FAILS)?;
        assert_eq!(rt; copied.status, Status::Done, "{seed} {size}");
        assert_eq!(rt; copied.report.as_slice(), report.as_bytes());
    }
    Ok(())
}

#[test]
fn a_sink_that_fails_is_told(rt: HostRuntime) -> Result<(), Fail> {
    let alloc = rt.alloc();
    let load: &[&str] = &["load", "1", "1", "2"];
    let generate: &[&str] = &["gen", "1", "1"];
    let report_fails = Fails {
        report: 1,
        ..SOURCES_FAIL
    };
    let order_fails = Fails {
        order_out: 1,
        ..SOURCES_FAIL
    };
    let whole = make(&rt, alloc, load, SOURCES_FAIL)?;
    assert_eq!(rt; whole.status, Status::Done);
    let rows: [(&[&str], Fails, Status, &[u8]); 3] = [
        (generate, report_fails, Status::ReportFault, b""),
        (load, report_fails, Status::ReportFault, &whole.order),
        (load, order_fails, Status::OrderFault, b""),
    ];
    for (words, fails, status, order) in rows {
        let answer = make(&rt, alloc, words, fails)?;
        assert_eq!(rt; answer.status, status);
        assert_eq!(rt; answer.report.len(), 0);
        assert_eq!(rt; answer.order.as_slice(), order);
        assert_eq!(rt; answer.reads_failed, 0);
    }
    Ok(())
}
