use crate::run_tests::run_and_copy;
use std::test::Fail;

// Values, and what is displayed of each, as Erlang/OTP 25 has it, but for the numbers of pids and the bounds of integers.
const SHOWN: [(&str, &str); 25] = [
    ("0", "0"),
    ("-1", "-1"),
    (
        "170141183460469231731687303715884105727",
        "170141183460469231731687303715884105727",
    ),
    (
        "-170141183460469231731687303715884105727 - 1",
        "-170141183460469231731687303715884105728",
    ),
    ("$a", "97"),
    ("1 =:= 1", "true"),
    ("a", "a"),
    ("'A b'", "'A b'"),
    ("'if'", "'if'"),
    ("''", "''"),
    ("'it\\'s'", "'it\\'s'"),
    ("'\\x{1}'", "'\\x{1}'"),
    ("'é'", "'é'"),
    ("self()", "<0.1.0>"),
    ("spawn(m,f,[0])", "<0.2.0>"),
    ("{}", "{}"),
    ("{1,{a}}", "{1,{a}}"),
    ("[]", "[]"),
    ("[1,[a]]", "[1,[a]]"),
    ("\"aé\"", "[97,233]"),
    ("<<>>", "<<>>"),
    ("<<1,255>>", "<<1,255>>"),
    ("<<5:3>>", "<<5:3>>"),
    ("<<1,5:3>>", "<<1,5:3>>"),
    ("{[],<<>>,self()}", "{[],<<>>,<0.1.0>}"),
];

#[test]
fn values_of_each_kind_are_displayed(rt: HostRuntime) -> Result<(), Fail> {
    let alloc = rt.alloc();
    for (value, shown) in SHOWN {
        let forms = format!(in alloc;
            "-export([f/1]).\nmain() -> erlang:display(erlang:display({value})).\nf(X) -> X."
        )?;
        let report = format!(in alloc; "{shown}\ntrue\n")?;
        let _answer = run_and_copy(&rt, alloc, (&forms, "1000", &report))?;
    }
    Ok(())
}

// The arguments of `spawn`, and how the process ends that is started, as Erlang/OTP 25 has it; that a process runs functions of
// its own module alone is this language's own.
const STARTED: [(&str, &str); 11] = [
    ("m,f,[a]", "{got,a}"),
    ("?MODULE,f,[self()]", "{got,<0.1.0>}"),
    ("m,f,[<<5:3>>]", "{got,<<5:3>>}"),
    ("m,f,[]", "undef"),
    ("m,f,[a,b]", "undef"),
    ("m,g,[a]", "undef"),
    ("m,h,[a]", "undef"),
    ("n,f,[a]", "undef"),
    ("'',f,[a]", "undef"),
    ("erlang,display,[a]", "undef"),
    ("lists,reverse,[[]]", "undef"),
];

// The arguments of `spawn` for which it raises `badarg` in Erlang/OTP 25.
const NOT_STARTED: [&str; 30] = [
    "1,f,[a]",
    "-1,f,[a]",
    "self(),f,[a]",
    "{},f,[a]",
    "{m},f,[a]",
    "[],f,[a]",
    "\"m\",f,[a]",
    "<<>>,f,[a]",
    "<<\"m\">>,f,[a]",
    "<<1:1>>,f,[a]",
    "m,1,[a]",
    "m,-1,[a]",
    "m,self(),[a]",
    "m,{},[a]",
    "m,{m},[a]",
    "m,[],[a]",
    "m,\"m\",[a]",
    "m,<<>>,[a]",
    "m,<<\"m\">>,[a]",
    "m,<<1:1>>,[a]",
    "m,f,a",
    "m,f,1",
    "m,f,self()",
    "m,f,{a}",
    "m,f,<<>>",
    "m,f,<<\"a\">>",
    "m,f,<<1:1>>",
    "n,f,a",
    "1,2,3",
    "m,1,a",
];

#[test]
fn processes_start_with_arguments_of_the_right_kinds(rt: HostRuntime) -> Result<(), Fail> {
    let alloc = rt.alloc();
    for (arguments, reason) in STARTED {
        let forms = format!(in alloc;
            "-export([f/1]).\nmain() -> erlang:display(spawn({arguments})).\nf(X) -> exit({{got,X}}).\ng(X) -> X."
        )?;
        let report = format!(in alloc; "<0.2.0>\nexit <0.2.0> {reason}\n")?;
        let _answer = run_and_copy(&rt, alloc, (&forms, "1000", &report))?;
    }
    for arguments in NOT_STARTED {
        let forms = format!(in alloc;
            "-export([f/1]).\nmain() -> erlang:display(spawn({arguments})).\nf(X) -> X."
        )?;
        let report = "exit <0.1.0> badarg\n";
        let _answer = run_and_copy(&rt, alloc, (&forms, "1000", report))?;
    }
    Ok(())
}

// What has no messages: a send to it raises `badarg` in Erlang/OTP 25.
const NO_RECEIVER: [&str; 9] = [
    "a", "1", "-1", "{}", "{self()}", "[]", "[self()]", "<<>>", "<<1:1>>",
];

#[test]
fn messages_go_to_pids_alone(rt: HostRuntime) -> Result<(), Fail> {
    let alloc = rt.alloc();
    for receiver in NO_RECEIVER {
        let forms = format!(in alloc; "main() -> erlang:display({receiver} ! a).")?;
        let report = "exit <0.1.0> badarg\n";
        let _answer = run_and_copy(&rt, alloc, (&forms, "1000", report))?;
    }
    Ok(())
}

// Acts of a process whose one reduction its first call took: one that raises takes none. This language's own.
const WITHOUT_REDUCTIONS: [(&str, &str); 6] = [
    ("erlang:display(a)", "reductions"),
    ("spawn(m,main,[])", "reductions"),
    ("self() ! a", "reductions"),
    ("receive a -> ok end", "reductions"),
    ("spawn(1,main,[])", "badarg"),
    ("a ! a", "badarg"),
];

#[test]
fn an_act_takes_a_reduction_where_it_is_done(rt: HostRuntime) -> Result<(), Fail> {
    let alloc = rt.alloc();
    for (act, reason) in WITHOUT_REDUCTIONS {
        let forms = format!(in alloc; "main() -> {act}.")?;
        let report = format!(in alloc; "exit <0.1.0> {reason}\n")?;
        let _answer = run_and_copy(&rt, alloc, (&forms, "1", &report))?;
    }
    Ok(())
}
