use crate::calling::{Answer, Held, NONE_FAILS, call, module};
use bits_top::Status;
use std::alloc::Global;
use std::process::Abort;
use std::sync::Wait;
use std::test::Fail;
use std::thread::Threads;

// The forms of a module behind its first two lines, the reductions of each process, and the report that is due.
type Row = (&'static str, &'static str, &'static str);

// Runs a row's module, and replays the order of its run: both give the report that is due.
pub(crate) fn run_and_copy(
    rt: &(impl Abort + Threads + Wait + Sync),
    alloc: Global,
    row: (&str, &str, &str),
) -> Result<Answer, Fail> {
    let (forms, reductions, report) = row;
    let text = module(alloc, forms)?;
    let held = Held {
        module: text.as_bytes(),
        order: b"",
    };
    let words = ["run", "m.erl", "o.txt", "2", reductions];
    let ran = call(rt, alloc, &words, held, NONE_FAILS)?;
    assert_eq!(rt; ran.status, Status::Done, "{forms}");
    assert_eq!(rt; ran.report.as_slice(), report.as_bytes(), "{forms}");
    let held = Held {
        module: text.as_bytes(),
        order: &ran.order,
    };
    let words = ["copy", "m.erl", "o.txt", reductions];
    let copied = call(rt, alloc, &words, held, NONE_FAILS)?;
    assert_eq!(rt; copied.status, Status::Done, "{forms}");
    assert_eq!(rt; copied.report.as_slice(), report.as_bytes(), "{forms}");
    assert_eq!(rt; copied.order.len(), 0, "{forms}");
    Ok(ran)
}

const FIRST: &str = "main() -> <<A:4,B:12>> = <<18,52>>, erlang:display(A), erlang:display(B).";

#[test]
fn an_order_has_each_visible_act(rt: HostRuntime) -> Result<(), Fail> {
    let alloc = rt.alloc();
    let rows: [(Row, &str); 6] = [
        (
            (FIRST, "1000", "1\n564\n"),
            "shown 1\nshown 1\nended 1\ngone 1 0 0 0\n",
        ),
        (
            (FIRST, "2", "1\nexit <0.1.0> reductions\n"),
            "shown 1\nended 1\ngone 1 0 0 0\n",
        ),
        (
            (FIRST, "1", "exit <0.1.0> reductions\n"),
            "ended 1\ngone 1 0 0 0\n",
        ),
        (
            (
                "main() -> self() ! a, self() ! b, self() ! c, receive b -> erlang:display(b) end, receive X -> erlang:display(X) end, receive Y -> erlang:display(Y) end.",
                "1000",
                "b\na\nc\n",
            ),
            "sent 1 1\nsent 1 1\nsent 1 1\nsaw 1 3\nshown 1\nshown 1\nshown 1\nended 1\ngone 1 0 0 0\n",
        ),
        (
            ("main() -> main().", "10", "exit <0.1.0> reductions\n"),
            "ended 1\ngone 1 0 0 0\n",
        ),
        (
            (
                "main() -> receive a -> ok end.",
                "1000",
                "waiting <0.1.0>\n",
            ),
            "stopped 1\ngone 1 0 0 0\n",
        ),
    ];
    for (row, order) in rows {
        let answer = run_and_copy(&rt, alloc, row)?;
        assert_eq!(rt; answer.order.as_slice(), order.as_bytes());
    }
    Ok(())
}

#[test]
fn bits_are_built_and_matched(rt: HostRuntime) -> Result<(), Fail> {
    let alloc = rt.alloc();
    let rows: [Row; 14] = [
        (
            "main() -> erlang:display(<<1,2,3:4>>), erlang:display(<<257,(-1):4>>).",
            "1000",
            "<<1,2,3:4>>\n<<1,15:4>>\n",
        ),
        (
            "main() -> B = <<16#ABC:12/little>>, erlang:display(B), <<X:12/little>> = B, erlang:display(X).",
            "1000",
            "<<188,10:4>>\n2748\n",
        ),
        (
            "main() -> <<N,B:N/binary,R/bits>> = <<2,1,2,3:4>>, erlang:display({N,B,R}).",
            "1000",
            "{2,<<1,2>>,<<3:4>>}\n",
        ),
        (
            "main() -> S = -1, erlang:display(case <<7>> of <<_:S,_/bits>> -> a; _ -> b end), <<1:S>>.",
            "1000",
            "b\nexit <0.1.0> badarg\n",
        ),
        (
            "main() -> B = <<255,0:120>>, <<S:128/signed>> = B, erlang:display(S), <<_:128>> = B, erlang:display(ok), <<X:128>> = B, erlang:display(X).",
            "1000",
            "-1329227995784915872903807060280344576\nok\nexit <0.1.0> system_limit\n",
        ),
        (
            "main() -> p(<<69,0,0,24,0,1,64,0,64,17,0,0,10,0,0,1,10,0,0,2,1,2,3,4>>).\np(<<4:4,H:4,_:8,Len:16,Id:16,Fl:3,Off:13,Ttl,Pr,_:16,Src:32,Dst:4/binary,P:(Len-H*4)/binary>>) -> erlang:display({H,Len,Id,Fl,Off,Ttl,Pr,Src,Dst,P}).",
            "1000",
            "{5,24,1,2,0,64,17,167772161,<<10,0,0,2>>,<<1,2,3,4>>}\n",
        ),
        (
            "main() -> erlang:display(<<16#1F600/utf16>>), erlang:display(case <<16#C0,16#80>> of <<X/utf8>> -> X; _ -> none end).",
            "1000",
            "<<216,61,222,0>>\nnone\n",
        ),
        (
            "main() -> A = <<0>>, B = <<A/binary,1,2,3>>, C = <<B/binary,4,5,6>>, D = <<C/binary,7,8,9>>, E = <<B/binary,17>>, erlang:display({E,D}).",
            "1000",
            "{<<0,1,2,3,17>>,<<0,1,2,3,4,5,6,7,8,9>>}\n",
        ),
        (
            "main() -> X = <<7>>, A = <<X/bits,1:4>>, B = <<A/bits,5:4>>, C = <<A/bits,9:4>>, erlang:display({A,B,C}).",
            "1000",
            "{<<7,1:4>>,<<7,21>>,<<7,25>>}\n",
        ),
        (
            "main() -> A = <<0>>, B = <<A/binary,1>>, C = <<B/binary,B/binary>>, erlang:display(C).",
            "1000",
            "<<0,1,0,1>>\n",
        ),
        (
            "main() -> main(<<>>, 0).\nmain(A, 3) -> erlang:display(A); main(A, N) -> case A of <<_:4,_/bits>> -> ok; _ -> ok end, main(<<A/bits,N:4>>, N+1).",
            "1000",
            "<<1,2:4>>\n",
        ),
        (
            "main() -> erlang:display(walk(<<0:8000>>,0)).\nwalk(<<_,R/binary>>,N) -> walk(R,N+1); walk(<<>>,N) -> N.",
            "2000",
            "1000\n",
        ),
        (
            "main() -> erlang:display({<<\"é€\"/utf8>>,<<\"é€\">>}).",
            "1000",
            "{<<195,169,226,130,172>>,<<233,172>>}\n",
        ),
        (
            "main() -> <<A:16/signed-little,B:7,C:1>> = <<254,255,3>>, erlang:display([A,B,C]), <<A:8>> = <<1>>.",
            "1000",
            "[-2,1,1]\nexit <0.1.0> {badmatch,<<1>>}\n",
        ),
    ];
    for row in rows {
        let _answer = run_and_copy(&rt, alloc, row)?;
    }
    Ok(())
}

#[test]
fn rows_are_generated(rt: HostRuntime) -> Result<(), Fail> {
    let alloc = rt.alloc();
    let rows: [Row; 6] = [
        (
            "main() -> erlang:display([X || <<1,X>> <= <<1,2,3,4,1,6>>]).",
            "1000",
            "[2,6]\n",
        ),
        (
            "main() -> erlang:display(<< <<(X bxor 1)>> || <<X>> <= <<1,2,3:4>> >>).",
            "1000",
            "<<0,3>>\n",
        ),
        (
            "main() -> erlang:display([{X,Y} || X <- [1,2], Y <- [a,b]]).",
            "1000",
            "[{1,a},{1,b},{2,a},{2,b}]\n",
        ),
        (
            "main() -> erlang:display([X || X <- [1,2,3,4], X rem 2 =:= 0]), [X || X <- [1], a].",
            "1000",
            "[2,4]\nexit <0.1.0> {bad_filter,a}\n",
        ),
        (
            "main() -> [X || X <- a].",
            "1000",
            "exit <0.1.0> {bad_generator,a}\n",
        ),
        (
            "main() -> << (erlang:display(X)) || X <- [1,2] >>.",
            "1000",
            "1\nexit <0.1.0> badarg\n",
        ),
    ];
    for row in rows {
        let _answer = run_and_copy(&rt, alloc, row)?;
    }
    Ok(())
}

#[test]
fn terms_are_made_and_looked_at(rt: HostRuntime) -> Result<(), Fail> {
    let alloc = rt.alloc();
    let rows: [Row; 11] = [
        (
            "main() -> erlang:display({7 div -2,7 rem -2,-7 bsr 1,bnot 5}), 1 + a.",
            "1000",
            "{-3,1,-4,-6}\nexit <0.1.0> badarith\n",
        ),
        (
            "main() -> erlang:display([1 < a,a < self(),self() < {},{} < [],[] < <<>>]).",
            "1000",
            "[true,true,true,true,true]\n",
        ),
        (
            "main() -> erlang:display(true andalso 7), 1 andalso true.",
            "1000",
            "7\nexit <0.1.0> {badarg,1}\n",
        ),
        (
            "main() -> erlang:display(lists:reverse([1,2,3])), erlang:display(binary_to_list(<<1,2>>)), hd([]).",
            "1000",
            "[3,2,1]\n[1,2]\nexit <0.1.0> badarg\n",
        ),
        (
            "main() -> erlang:display(['A b','if',a1,\"ab\",$a]), exit({a,[1]}).",
            "1000",
            "['A b','if',a1,[97,98],97]\nexit <0.1.0> {a,[1]}\n",
        ),
        (
            "main() -> {a,X} = {b,1}, X.",
            "1000",
            "exit <0.1.0> {badmatch,{b,1}}\n",
        ),
        (
            "main() -> case {1,b} of {2,_} -> ok end.",
            "1000",
            "exit <0.1.0> {case_clause,{1,b}}\n",
        ),
        (
            "main() -> if 1 > 2 -> ok end.",
            "1000",
            "exit <0.1.0> if_clause\n",
        ),
        (
            "main() -> f(1).\nf(X) when X > 1; X < 1 -> ok.",
            "1000",
            "exit <0.1.0> function_clause\n",
        ),
        (
            "main() -> erlang:display(f(1)).\nf(X) when X bsl 127 > 0 -> a; f(_) -> b.",
            "1000",
            "exit <0.1.0> system_limit\n",
        ),
        ("main() -> exit(normal), erlang:display(1).", "1000", ""),
    ];
    for row in rows {
        let _answer = run_and_copy(&rt, alloc, row)?;
    }
    Ok(())
}

#[test]
fn processes_start_and_send(rt: HostRuntime) -> Result<(), Fail> {
    let alloc = rt.alloc();
    let rows: [Row; 5] = [
        (
            "-export([f/1]).\nmain() -> spawn(m,f,[1]), spawn(m,f,[1,2]).\nf(X) -> erlang:display(X).",
            "1000",
            "1\nexit <0.3.0> undef\n",
        ),
        (
            "-export([f/1]).\nmain() -> P = spawn(m,f,[self()]), receive {P,X} -> erlang:display(X) end.\nf(Q) -> Q ! {self(),<<1:1>>}.",
            "1000",
            "<<1:1>>\n",
        ),
        (
            "-export([idle/0,done/1]).\nmain() -> B = <<0:520>>, self() ! {B,B}, receive {X,Y} -> erlang:display(X =:= Y) end, P = spawn(m,idle,[]), Q = spawn(m,done,[self()]), receive gone -> ok end, Q ! B, P ! B.\nidle() -> receive never -> ok end.\ndone(M) -> M ! gone.",
            "1000",
            "true\nwaiting <0.2.0>\n",
        ),
        (
            "main() -> fill(300), drain(0).\nfill(0) -> ok; fill(N) -> self() ! <<N:520>>, fill(N-1).\ndrain(300) -> erlang:display(300); drain(K) -> receive <<_:520>> -> drain(K+1) end.",
            "2000",
            "300\n",
        ),
        (
            "-export([idle/0]).\nmain() -> spawn(m,idle,[]), main().\nidle() -> ok.",
            "100000",
            "exit <0.1.0> system_limit\n",
        ),
    ];
    for row in rows {
        let _answer = run_and_copy(&rt, alloc, row)?;
    }
    Ok(())
}
