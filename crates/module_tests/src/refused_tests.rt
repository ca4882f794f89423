use crate::saying::{each_form_says, each_says};
use std::test::Fail;

/// Variables without a value, and variables of a clause that has ended: forms of a module `m` behind its attributes, from line 3
/// on, with what the check says.
const VARIABLES: &[(&str, &str)] = &[
    ("main() -> X.", "3:11: unbound variable"),
    ("main() -> _X.", "3:11: unbound variable"),
    ("main() -> X = X.", "3:15: unbound variable"),
    ("main() when X -> ok.", "3:13: unbound variable"),
    (
        "main() -> case 1 of Y -> Y; 2 -> Y end.",
        "3:34: unbound variable",
    ),
    (
        "main() -> ok.\nf(X) -> X; f(_) -> X.",
        "4:20: unbound variable",
    ),
    ("main() -> [X || X <- []], X.", "3:27: unbound variable"),
    ("main() -> [X || X <- X].", "3:22: unbound variable"),
    ("main() -> [1 || X, X <- [1]].", "3:17: unbound variable"),
    (
        "main() -> [Y || X <- [1], case X of Y -> true end].",
        "3:12: unbound variable",
    ),
    (
        "main() -> X = 1, if X > Y -> 1 end.",
        "3:25: unbound variable",
    ),
    ("main() -> <<1:X>>.", "3:15: unbound variable"),
    ("main() -> <<N:N>> = <<1>>.", "3:15: unbound variable"),
    ("main() -> <<_:N, N>> = <<1>>.", "3:15: unbound variable"),
    (
        "main() -> ok.\nf({N, <<_:N/binary>>}) -> N.",
        "4:11: unbound variable",
    ),
    (
        "main() -> ok.\nf(N, <<_:N/binary>>) -> N.",
        "4:10: unbound variable",
    ),
    (
        "main() -> ok.\nf(<<N>> = <<_:N>>) -> N.",
        "4:15: unbound variable",
    ),
    (
        "main() -> <<N>> = <<_:N>> = <<1>>.",
        "3:23: unbound variable",
    ),
    ("main() -> <<_:N>> = <<N>> = <<1>>.", "ok"),
    (
        "main() -> [1 || {N, <<_:N>>} <- [1]].",
        "3:25: unbound variable",
    ),
    (
        "main() -> [1 || <<_:N, N>> <= <<1>>].",
        "3:21: unbound variable",
    ),
    (
        "main() -> case 1 of X -> ok; Y -> ok end, X.",
        "3:43: unsafe variable",
    ),
    ("main() -> receive Y -> Y end, Y.", "3:31: unsafe variable"),
    (
        "main() -> if true -> Y = 1 end, Y.",
        "3:33: unsafe variable",
    ),
    (
        "main() -> {case 1 of Y -> Y end, Y}.",
        "3:34: unsafe variable",
    ),
    (
        "main() -> case 1 of Y -> Y end, Y = 2.",
        "3:33: unsafe variable",
    ),
    (
        "main() -> case 1 of Y -> Y end, [1 || Y <- []].",
        "3:39: unsafe variable",
    ),
    (
        "main() -> case 1 of Y -> Y end, <<Y>> = <<1>>.",
        "3:35: unsafe variable",
    ),
    (
        "main() -> case 1 of X -> case 2 of Y -> Y end end, Y.",
        "3:52: unsafe variable",
    ),
    (
        "main() -> case 1 of X -> case 2 of Y -> Y end, Y end.",
        "3:48: unsafe variable",
    ),
    (
        "main() -> Y = case 1 of Y -> Y end, Y.",
        "3:37: unsafe variable",
    ),
    (
        "main() -> [1 || case 1 of Y -> Y end, Y].",
        "3:39: unsafe variable",
    ),
    ("main() -> receive X -> X end.", "ok"),
];

/// Calls of no function, and calls in guards. Such forms.
const CALLS: &[(&str, &str)] = &[
    ("main() -> f().", "3:11: undefined function"),
    ("main() -> m:f().", "3:11: undefined function"),
    ("main() -> ?MODULE:f().", "3:11: undefined function"),
    ("main() -> f(1).\nf() -> ok.", "3:11: undefined function"),
    ("main() -> m:f().\nf() -> ok.", "3:11: undefined function"),
    (
        "main() -> ?MODULE:f().\nf() -> ok.",
        "3:11: undefined function",
    ),
    ("main() -> n:main().", "3:11: undefined function"),
    ("main() -> erlang:main().", "3:11: undefined function"),
    ("main() -> {1, [f()]}.", "3:16: undefined function"),
    ("main() -> <<(f()):8>>.", "3:14: undefined function"),
    ("main() -> [1 || f()].", "3:17: undefined function"),
    ("main() -> <<_:(f())>> = <<1>>.", "3:16: undefined function"),
    ("main() when f() -> ok.\nf() -> ok.", "3:13: call in guard"),
    ("main() when m:main() -> ok.", "3:13: call in guard"),
    ("main() when ?MODULE:main() -> ok.", "3:13: call in guard"),
    ("main() when true; {main()} -> ok.", "3:20: call in guard"),
    (
        "main() when self() =:= exit(1) -> ok.",
        "3:24: call in guard",
    ),
    (
        "main() -> if erlang:display(1) -> 1 end.",
        "3:14: call in guard",
    ),
    (
        "main() -> case 1 of X when main() -> X end.",
        "3:28: call in guard",
    ),
    (
        "main() -> receive X when X, main() -> X end.",
        "3:29: call in guard",
    ),
    ("main() -> <<_:(main())>> = <<1>>.", "3:16: call in guard"),
    (
        "main() -> <<_:(abs(main()))>> = <<1>>.",
        "3:20: call in guard",
    ),
    (
        "main() -> [1 || <<_:(1 + main())>> <= <<1>>].",
        "3:26: call in guard",
    ),
];

/// Functions with a name twice or of two heads, and two faults of which one is first. Such forms.
const FUNCTIONS: &[(&str, &str)] = &[
    ("main() -> ok.\nmain() -> ok.", "4:1: function again"),
    (
        "main() -> ok.\nf() -> ok.\nmain() -> ok.",
        "5:1: function again",
    ),
    ("main() -> self().\nself() -> ok.", "4:1: function again"),
    (
        "main() -> abs(1).\n  abs(1) -> 1; abs(X) -> X.",
        "4:3: function again",
    ),
    ("main() -> ok; main(X) -> X.", "3:15: heads differ"),
    ("main() -> ok; f() -> ok.", "3:15: heads differ"),
    (
        "main() -> ok.\nf(_) -> ok;\nf(_, _) -> ok;\ng(_) -> ok.",
        "5:1: heads differ",
    ),
    (
        "main() -> ok.\nf(_) -> ok; f(_) -> 1; f() -> ok.",
        "4:24: heads differ",
    ),
    ("main() -> X, f().", "3:11: unbound variable"),
    ("main() -> f(X).", "3:11: undefined function"),
    ("main() -> <<A:B>> = C.", "3:15: unbound variable"),
    ("main() -> [X || _ <- Y].", "3:12: unbound variable"),
    ("main() -> ok; f() -> X.", "3:15: heads differ"),
    ("main() -> X; f() -> ok.", "3:11: unbound variable"),
    ("main() -> X.\nmain() -> ok.", "3:11: unbound variable"),
    (
        "main() when self() =:= 1 -> ok.\nself() -> ok.",
        "4:1: function again",
    ),
    (
        "main() -> case 1 of Y -> <<Y/float>> end, Y.",
        "3:28: float segment",
    ),
    (
        "main() -> case 1 of Y -> Y end, Y, <<1/float>>.",
        "3:33: unsafe variable",
    ),
    ("-module(n).\nmain() -> X.", "3:1: module again"),
    (
        "-export([f/0]).\nmain() -> m:f().",
        "3:10: exported function missing",
    ),
    (
        "main() -> m:f().\n-export([f/0]).",
        "3:11: undefined function",
    ),
    ("main() when f() -> ok.", "3:13: undefined function"),
    ("main() -> <<X/float>>.", "3:13: float segment"),
    ("main() -> <<X:8/utf8>>.", "3:13: size on utf"),
    (
        "main() -> case 1 of Y -> Y end, <<Y/unit:8>>.",
        "3:35: unit without size",
    ),
];

/// Faults behind characters of several bytes, and faults inside other parts. Such forms.
const PLACES: &[(&str, &str)] = &[
    ("main() ->\tX.", "3:11: unbound variable"),
    ("main() ->\r\n\tX.", "4:2: unbound variable"),
    ("main() ->\u{a0}X.", "3:11: unbound variable"),
    ("main() ->\u{85}X.", "3:11: unbound variable"),
    ("main() -> % \u{e9}\n  X.", "4:3: unbound variable"),
    ("main() -> \"\u{e9}\", X.", "3:16: unbound variable"),
    (
        "main() -> '\u{20ac}\u{1f600}', X.",
        "3:17: unbound variable",
    ),
    ("main() -> $\u{e9}, X.", "3:15: unbound variable"),
    ("main() -> \"a\n b\", X.", "4:6: unbound variable"),
    (
        "main() -> case case 1 of Y -> Y end of Y -> Y end.",
        "3:40: unsafe variable",
    ),
    (
        "main() -> [1 || _ <- [case 1 of Y -> Y end], Y].",
        "3:46: unsafe variable",
    ),
    (
        "main() -> [case 1 of Y -> Y end || X <- [1], Y].",
        "3:46: unsafe variable",
    ),
    ("main() -> [case 1 of Y -> Y end || Y <- [1]].", "ok"),
    (
        "main() -> <<(case 1 of Y -> 1 end):Y>>.",
        "3:36: unsafe variable",
    ),
    (
        "main() -> case 1 of Y -> 1 end + Y.",
        "3:34: unsafe variable",
    ),
    ("main() -> {Y, Z} = case 1 of Y -> {Y, Y} end, Z.", "ok"),
    (
        "main() -> <<\"a\"\n\"b\"/binary>>.",
        "3:13: string as binary",
    ),
    ("main() -> <<(\"ab\")/binary>>.", "3:13: string as binary"),
    ("main() -> <<((\"ab\")):1/bits>>.", "3:13: string as binary"),
    ("main() -> <<0, (1):3/utf8>>.", "3:16: size on utf"),
    (
        "main() -> <<- \"ab\"/binary, 1/float>>.",
        "3:28: float segment",
    ),
    ("main() -> <<<<1/float>>/bits>>.", "3:15: float segment"),
    ("main() -> <<1:<<1/float>>>>.", "3:17: float segment"),
    (
        "main() -> << <<1/float>> || true >>.",
        "3:16: float segment",
    ),
];

/// Calls named as a built-in function that is none. Such forms.
const BUILT_IN_FUNCTIONS: &[(&str, &str)] = &[
    ("main() -> display(1).", "3:11: undefined function"),
    ("main() -> reverse([]).", "3:11: undefined function"),
    ("main() -> erlang:reverse([]).", "3:11: undefined function"),
    ("main() -> lists:display(1).", "3:11: undefined function"),
    ("main() -> lists:abs(1).", "3:11: undefined function"),
    (
        "main() when erlang:display(1) -> ok.",
        "3:13: call in guard",
    ),
    (
        "main() when lists:reverse([]) -> ok.",
        "3:13: call in guard",
    ),
    ("main() -> abs().", "3:11: undefined function"),
    ("main() -> abs(1, 2).", "3:11: undefined function"),
    ("main() -> self(1).", "3:11: undefined function"),
    ("main() -> erlang:self(1).", "3:11: undefined function"),
    ("main() -> element({1}).", "3:11: undefined function"),
    ("main() -> binary_part(<<>>).", "3:11: undefined function"),
    ("main() -> spawn(m, main).", "3:11: undefined function"),
    ("main() -> erlang:display().", "3:11: undefined function"),
    (
        "main() -> lists:reverse([], []).",
        "3:11: undefined function",
    ),
    (
        "main() when is_atom(a, b) -> ok.",
        "3:13: undefined function",
    ),
];

/// Whole texts with what the check says.
const TEXTS: &[(&str, &str)] = &[
    ("-export([main/0]).\n-module(m).\nmain() -> ok.", "ok"),
    ("main() -> ok.\n-export([main/0]).\n-module(m).", "ok"),
    ("-module(m).%one\nmain()->ok.\n-export([main/0]).", "ok"),
    ("-'module'('m').\n-export(['main'/0]).\nmain() -> ok.", "ok"),
    (
        "% a module\n-module(lists).\n-export([main/0]).\nmain() -> lists:main(), lists:reverse([1]).",
        "ok",
    ),
    (
        "-module(erlang).\n-export([main/0]).\nmain() -> erlang:main(), erlang:self().",
        "ok",
    ),
    (
        "-module(m).\n-module(m).\n-export([main/0]).\nmain() -> ok.\n",
        "2:1: module again",
    ),
    (
        "-module(m).\n-export([main/0]).\n  - module(n).\nmain() -> ok.\n",
        "3:3: module again",
    ),
    (
        "-module(m).\n-export([main/0,g/1]).\nmain() -> ok.\n",
        "2:17: exported function missing",
    ),
    (
        "-module(m).\n-export([main/0,main/1]).\nmain() -> ok.\n",
        "2:17: exported function missing",
    ),
    (
        "-module(m).\n-export([main/0]).\n",
        "2:10: exported function missing",
    ),
    (
        "-module(m).\n-export([main/0,main/170141183460469231731687303715884105727]).\nmain() -> ok.\n",
        "2:17: exported function missing",
    ),
    ("-module(m).\nf() -> ok.\n", "3:1: no main/0"),
    ("-module(m).\nmain() -> ok.\n", "3:1: no main/0"),
    (
        "-module(m).\n-export([main/1]).\nmain(X) -> X.",
        "3:14: no main/0",
    ),
    (
        "-module(m).\n-export([]).\nmain() -> ok.   ",
        "3:17: no main/0",
    ),
    ("-module(m).", "1:12: no main/0"),
    (
        "-export([main/0]).\nmain() -> ok.\n",
        "3:1: no module attribute",
    ),
    (
        "-export([main/0]).\nmain() -> ?MODULE:main().",
        "2:26: no module attribute",
    ),
    ("", "1:1: no module attribute"),
    ("% nothing\n", "2:1: no module attribute"),
    ("f() -> ok.", "1:11: no module attribute"),
    (
        "g() -> m:g().\n-export([g/0]).\n",
        "1:8: undefined function",
    ),
    (
        "g() -> ?MODULE:g().\n-export([g/0]).\n",
        "3:1: no module attribute",
    ),
];

#[test]
fn variables_have_values_where_they_are_read(rt: HostRuntime) -> Result<(), Fail> {
    each_form_says(&rt, rt.alloc(), VARIABLES)
}

#[test]
fn calls_are_of_functions(rt: HostRuntime) -> Result<(), Fail> {
    each_form_says(&rt, rt.alloc(), CALLS)
}

#[test]
fn the_first_of_two_faults_is_told(rt: HostRuntime) -> Result<(), Fail> {
    each_form_says(&rt, rt.alloc(), FUNCTIONS)
}

#[test]
fn faults_are_told_at_their_places(rt: HostRuntime) -> Result<(), Fail> {
    each_form_says(&rt, rt.alloc(), PLACES)
}

#[test]
fn calls_of_built_in_functions_have_their_arguments(rt: HostRuntime) -> Result<(), Fail> {
    each_form_says(&rt, rt.alloc(), BUILT_IN_FUNCTIONS)
}

#[test]
fn the_first_fault_of_a_text_is_told(rt: HostRuntime) -> Result<(), Fail> {
    each_says(&rt, rt.alloc(), TEXTS)
}
