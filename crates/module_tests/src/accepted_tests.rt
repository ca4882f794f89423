use crate::saying::forms_say;
use std::alloc::Global;
use std::process::Abort;
use std::test::Fail;

/// Values, operators and lists. Each row has the forms of an accepted module `m`, behind its attributes.
const OPERANDS: &[&str] = &[
    "main() -> ok.",
    "main() -> 'Ok then'.",
    "main() -> 7.",
    "main() -> 16#fF.",
    "main() -> 1_000.",
    "main() -> $a.",
    "main() -> $\\n.",
    "main() -> \"a\nb\\s\".",
    "main() -> ?MODULE.",
    "main() -> ? MODULE.",
    "main() -> {}.",
    "main() -> {1, {2}}.",
    "main() -> (((1))).",
    "main() -> - + bnot 1.",
    "main() -> not true.",
    "main() -> 1 * 2 div 3 rem 4 band 5.",
    "main() -> 1 + 2 - 3 bor 4 bxor 5.",
    "main() -> 1 bsl 2 bsr -3.",
    "main() -> 1 == 2.",
    "main() -> 1 /= 2.",
    "main() -> 1 =< 2.",
    "main() -> 1 < 2.",
    "main() -> 1 >= 2.",
    "main() -> 1 > 2.",
    "main() -> a =:= b.",
    "main() -> a =/= b.",
    "main() -> true andalso false andalso 1.",
    "main() -> true orelse false orelse {}.",
    "main() -> self() ! self() ! 1.",
    "main() -> [].",
    "main() -> [1].",
    "main() -> [1 | []].",
    "main() -> [1, 2 | [3]].",
];

/// Comprehensions, bit expressions, and strings side by side.
const COMPREHENSIONS: &[&str] = &[
    "main() -> [X || X <- [1, 2]].",
    "main() -> [X || X <- [1], X > 0, true].",
    "main() -> [{X, Y} || X <- [1], Y <- [X]].",
    "main() -> [X || <<X>> <= <<1, 2>>].",
    "main() -> [1 || <<>> <= <<>>].",
    "main() -> [X || <<N, X:N/binary>> <= <<1, 2>>].",
    "main() -> [X || <<X>> <- [<<1>>]].",
    "main() -> [X || {ok, X} = _ <- [{ok, 1}]].",
    "main() -> [[Y || Y <- X] || X <- [[1]]].",
    "main() -> [X || X <- case 1 of Y -> [Y] end].",
    "main() -> [1 || 2].",
    "main() -> <<>>.",
    "main() -> <<1, 2>>.",
    "main() -> <<-1, +2, bnot 3, not 4>>.",
    "main() -> <<$a, a, \"bc\">>.",
    "main() -> <<(1 + 2):(3 + 4)>>.",
    "main() -> <<1:a>>.",
    "main() -> <<1:$a>>.",
    "main() -> <<1:\"a\">>.",
    "main() -> <<1:<<2>>>>.",
    "main() -> <<1:<< <<2>> || true >> >>.",
    "main() -> <<<<1>>/bits, << <<2>> || true >>/bits>>.",
    "main() -> << <<X>> || X <- [1] >>.",
    "main() -> << \"ab\" || X <- [1], X > 0 >>.",
    "main() -> << (X) || <<X:2/binary>> <= <<1, 2>>, <<_>> <= X >>.",
    "main() -> \"ab\" \"c\".",
    "main() -> \"ab\"\"c\"\"\".",
    "main() -> \"a\" % one\n\"b\"\n\n  \"c\".",
    "main() -> \"ab\" \"c\" = \"abc\".",
    "main() -> <<$a, a, \"bc\" \"d\">>.",
    "main() -> <<$a, \"bc\" \"d\">> = <<\"abcd\">>.",
    "main() -> <<\"ab\" \"c\":16/little>>.",
    "main() -> f(\"a\" \"b\").\nf(\"a\" \"b\") -> ok.",
    "main() when \"a\" \"b\" == [$a, $b] -> ok.",
];

/// Calls, bodies, `case`, `receive` and `if`.
const CALLS: &[&str] = &[
    "main() -> main().",
    "main() -> m:main().",
    "main() -> ?MODULE:main().",
    "main() -> 'm':'main'().",
    "main() -> f(1, {2}).\nf(X, Y) -> {X, Y}.",
    "main() -> f().\nf() -> f(1).\nf(X) -> f(X, X).\nf(_, _) -> f().",
    "main() -> 'an atom'(1).\n'an atom'(X) -> X.",
    "main() -> f(f(f(1))).\nf(X) -> X.",
    "-export([f/0, g/1]).\nmain() -> m:f().\nf() -> m:g(1).\ng(_) -> ok.",
    "main() -> display(1).\ndisplay(_) -> reverse(2).\nreverse(_) -> ok.",
    "main() -> erlang:self().\nself() -> ok.",
    "main() -> ok.\nlength(_) -> 1.",
    "main() -> abs(1, 2).\nabs(X, Y) -> {X, Y}.",
    "main() -> 1, 2, 3.",
    "main() -> X = 1, X.",
    "main() -> X = Y = 1, {X, Y}.",
    "main() -> X = Y = self() ! 1, {X, Y}.",
    "main() -> case 1 of 1 -> a; _ -> b end.",
    "main() -> case 1 of X when X > 0 -> X end.",
    "main() -> case 1 of X when X > 0, X < 9; X =:= 11 -> X; Y -> Y, Y end.",
    "main() -> case 1 of X = Y -> {X, Y} end.",
    "main() -> case case 1 of 1 -> 2 end of 2 -> 3 end.",
    "main() -> receive stop -> ok end.",
    "main() -> receive {X, _} when is_pid(X) -> X ! 1; _ -> 2 end.",
    "main() -> if true -> 1 end.",
    "main() -> X = 1, if X > 1, X < 3; X =:= 7 -> a; true -> b, c end.",
];

/// Patterns.
const PATTERNS: &[&str] = &[
    "main() -> {} = {}.",
    "main() -> {_, _} = {1, 2}.",
    "main() -> [] = [].",
    "main() -> [_ | _] = [1].",
    "main() -> [1, 2 | []] = [1, 2].",
    "main() -> [_, _] = [1, 2].",
    "main() -> 1 = 1.",
    "main() -> -1 = -1.",
    "main() -> +1 = 1.",
    "main() -> $a = $a.",
    "main() -> ok = ok.",
    "main() -> \"abc\" = \"abc\".",
    "main() -> ((_)) = 1.",
    "main() -> {X, X} = {1, 1}.",
    "main() -> {(1 = X), (Y = Z = 2)} = {1, 2}, {X, Y, Z}.",
    "main() -> <<>> = <<>>.",
    "main() -> <<_>> = <<1>>.",
    "main() -> <<X, X>> = <<1, 1>>.",
    "main() -> <<7, -1, +2>> = <<7, 255, 2>>.",
    "main() -> <<$a, \"bc\">> = <<\"abc\">>.",
    "main() -> <<X:4, Y:X, _/bits>> = <<0>>, Y.",
    "main() -> N = 8, <<X:N>> = <<1>>, X.",
    "main() -> <<N, X:(N * 8 - 1)>> = <<1>>, X.",
    "main() -> N = 8, <<_:(abs(N) + erlang:max(N, 1))>> = <<1>>.",
    "main() -> <<_:(a), _:($a), _:(?MODULE)>> = <<1>>.",
    "main() -> <<_:(true andalso not false orelse 1 =< 2)>> = <<1>>.",
    "main() -> <<X/utf8, Y/utf16, Z/utf32>> = <<>>, {X, Y, Z}.",
    "main() -> ok.\nf(<<X:2/binary, Y/bitstring>>) -> {X, Y}.",
];

/// Guards.
const GUARDS: &[&str] = &[
    "main() when true -> ok.",
    "main() when 1, a; {} -> ok.",
    "main() when {1} =:= {1} -> ok.",
    "main() when [1] =:= [1 | []] -> ok.",
    "main() when \"a\" == [$a] -> ok.",
    "main() when <<1:8, \"a\">> =:= <<(1 + 2):(3)/little>> -> ok.",
    "main() when ?MODULE == m -> ok.",
    "main() when - 1 < + 2 andalso not false orelse bnot 1 > 2 -> ok.",
    "main() when (hd(element(1, {[2]})) =:= erlang:hd([2])) -> ok.",
    "main() -> ok.\nf(X, Y) when X > Y; X =:= Y, true -> X; f(_, _) -> 0.",
    "main() -> if self() == self() -> ok end.",
    "main() -> receive X when byte_size(X) > 1 -> ok end.",
];

/// Forms and attributes, and variables that are not read.
const FORMS: &[&str] = &[
    "main() -> ok. % and no more",
    "main()->ok.%and no more",
    "main() -> ok.\nf(1) -> a; f(_) -> b.",
    "main() -> ok.\nf(X, X) -> X.",
    "-export([]).\nmain() -> ok.",
    "-export([f/1]).\nmain() -> ok.\nf(_) -> ok.",
    "-spec main() -> ok | #{a := 1} | fun().\nmain() -> ok.",
    "-spec.\nmain() -> ok.",
    "-type t() :: 1..2.\n-opaque u() :: t().\n-export_type([t/0]).\nmain() -> ok.",
    "-compile(export_all).\n-author(me).\n-vsn(1).\nmain() -> ok.",
    "-doc(\"main\").\n-moduledoc \"m\".\nmain() -> ok.",
    "-compile )))]]} end - .. when.\nmain() -> ok.",
    "-'spec' main() -> ok.\n- 'export'([main/00]).\nmain() -> ok.",
    "main() -> _ = 1, _ = 2.",
    "main() -> _X = 1, _X.",
];

/// Scopes of variables, and segments whose parts stand in brackets.
const SCOPES: &[&str] = &[
    "main() -> X = 1, case 2 of X -> X end, X.",
    "main() -> case 1 of 1 -> Y = 2, Y; _ -> Y = 3, Y end.",
    "main() -> case 1 of 1 -> case 2 of Y -> Y end; _ -> Y = 3, Y end.",
    "main() -> Y = case 1 of Y -> Y end.",
    "main() -> [case X of Y -> Y end || X <- [1]], Y = 2, Y.",
    "main() -> X = 1, [X || X <- [2]], X.",
    "main() -> [N || <<N>> <= <<1>>], N = 2, N.",
    "main() -> N = 8, [B || {N, <<B:N>>} <- [{1, <<2>>}]].",
    "main() -> N = 8, [B || <<N, B:N/binary>> <= <<1, 2>>].",
    "main() -> N = 8, [{B, N} || <<B:N, N>> <= <<1, 2>>].",
    "main() -> <<B:N/binary>> = N = 5, B.",
    "main() -> ok.\nf({N, <<N, B:N/binary>>}) -> B.",
    "main() -> ok.\nf(X) -> X; f(X) -> X.\ng(X) -> X.",
    "main() -> <<a, a/binary, a/utf8>>.",
    "main() -> <<(1), (f()):(f())/binary>>.\nf() -> 1.",
    "main() -> <<(\"ab\"), (\"ab\"):16/little>>.",
    "main() -> X = 1, <<-\"ab\", -X>>.",
    "main() -> erlang:display(1).",
    "main() -> lists:reverse([]).",
    "main() -> 'erlang':display('lists':reverse([])).",
];

/// Compares what the check says of each row's forms with `ok`.
fn are_accepted(rt: &impl Abort, alloc: Global, rows: &[&str]) -> Result<(), Fail> {
    for forms in rows {
        forms_say(rt, alloc, forms, "ok")?;
    }
    Ok(())
}

#[test]
fn operands_and_operators_are_accepted(rt: HostRuntime) -> Result<(), Fail> {
    are_accepted(&rt, rt.alloc(), OPERANDS)
}

#[test]
fn comprehensions_and_bit_expressions_are_accepted(rt: HostRuntime) -> Result<(), Fail> {
    are_accepted(&rt, rt.alloc(), COMPREHENSIONS)
}

#[test]
fn calls_and_branches_are_accepted(rt: HostRuntime) -> Result<(), Fail> {
    are_accepted(&rt, rt.alloc(), CALLS)
}

#[test]
fn patterns_are_accepted(rt: HostRuntime) -> Result<(), Fail> {
    are_accepted(&rt, rt.alloc(), PATTERNS)
}

#[test]
fn guards_are_accepted(rt: HostRuntime) -> Result<(), Fail> {
    are_accepted(&rt, rt.alloc(), GUARDS)
}

#[test]
fn forms_are_accepted(rt: HostRuntime) -> Result<(), Fail> {
    are_accepted(&rt, rt.alloc(), FORMS)
}

#[test]
fn scopes_are_accepted(rt: HostRuntime) -> Result<(), Fail> {
    are_accepted(&rt, rt.alloc(), SCOPES)
}
