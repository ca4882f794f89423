use crate::saying::{each_says, says};
use std::alloc::{AllocError, Global};
use std::process::Abort;
use std::test::Fail;

/// Items and qualifiers of which one is no pattern, or no expression.
const MATCHES_AND_COMPREHENSIONS: &[(&str, &str)] = &[
    ("main() -> f(X) = 3.", "1:16: syntax"),
    ("main() -> {_,1}.", "1:16: syntax"),
    ("main() -> (X = 3).", "1:18: syntax"),
    ("main() -> <<a>> = <<1>>.", "1:17: syntax"),
    ("main() -> <<-X>> = 1.", "1:18: syntax"),
    ("main() -> <<(1)>> = 1.", "1:19: syntax"),
    ("main() -> <<_>>.", "1:16: syntax"),
    ("main() -> {X = 1}.", "1:18: syntax"),
    ("main() -> {X = f(Y)}.", "1:17: syntax"),
    ("main() -> {f(X), Y = 1}.", "1:20: syntax"),
    ("main() -> {X + 1} = 2.", "1:19: syntax"),
    ("main() -> X + 1 = 2.", "1:17: syntax"),
    ("main() -> X = 1 = .", "1:19: syntax"),
    ("main() -> X = _.", "1:16: syntax"),
    ("main() -> _.", "1:12: syntax"),
    ("main() -> [1 || 2.", "1:18: syntax"),
    ("main() -> [1 || X <- .", "1:22: syntax"),
    ("main() -> [1 || {_} .", "1:21: syntax"),
    ("main() -> [1 || <<X>> = Y <= Z].", "1:27: syntax"),
    ("main() -> [X || <<X>> <- Y <- Z].", "1:28: syntax"),
    ("main() -> [X || {X} <= Y].", "1:21: syntax"),
    ("main() -> [X || X = Y].", "1:22: syntax"),
    ("main() -> [X || f(Y) <- Z].", "1:22: syntax"),
    ("main() -> [X || X <- Y, ].", "1:25: syntax"),
    ("main() -> [X, Y || Z].", "1:17: syntax"),
    ("main() -> [X | Y || Z].", "1:18: syntax"),
    ("main() -> [ || X].", "1:13: syntax"),
    ("main() -> <<1, 2 || X>>.", "1:18: syntax"),
    ("main() -> <<1:8 || X>>.", "1:17: syntax"),
    ("main() -> << -1 || X>>.", "1:17: syntax"),
    ("main() -> [X || X <- Y] = 2.", "1:25: syntax"),
];

/// Operators, brackets, block words and numbers of no expression.
const EXPRESSIONS: &[(&str, &str)] = &[
    ("main() -> 1 + .", "1:15: syntax"),
    ("main() -> 1 == 2 == 3.", "1:18: syntax"),
    ("main() -> 1 ++ 2.", "1:13: syntax"),
    ("main() -> 1 -- 2.", "1:13: syntax"),
    ("main() -> 1 / 2.", "1:13: syntax"),
    ("main() -> 1 and 2.", "1:13: syntax"),
    ("main() -> 1 xor 2.", "1:13: syntax"),
    ("main() -> A<:=B.", "1:13: syntax"),
    ("main() -> 1 + _.", "1:15: syntax"),
    ("main() -> X Y.", "1:13: syntax"),
    ("main() -> ().", "1:12: syntax"),
    ("main() -> (1].", "1:13: syntax"),
    ("main() -> {1,}.", "1:14: syntax"),
    ("main() -> [|1].", "1:12: syntax"),
    ("main() -> [1|2|3].", "1:15: syntax"),
    ("main() -> [1|2,3].", "1:15: syntax"),
    ("main() -> begin 1 end.", "1:11: syntax"),
    ("main() -> catch 1.", "1:11: syntax"),
    ("main() -> fun() -> 1 end.", "1:11: syntax"),
    ("main() -> try 1 of X -> X end.", "1:11: syntax"),
    ("main() -> #{}.", "1:11: syntax"),
    ("main() -> receive after 0 -> 1 end.", "1:19: syntax"),
    ("main() -> receive end.", "1:19: syntax"),
    ("main() -> case 1 of end.", "1:21: syntax"),
    ("main() -> case 1 of X end.", "1:23: syntax"),
    ("main() -> case 1 of X -> 1 en.", "1:28: syntax"),
    ("main() -> case X = 1 of Y -> Y end.", "1:18: syntax"),
    ("main() -> if end.", "1:14: syntax"),
    ("main() -> if _ -> 1 end.", "1:14: syntax"),
    ("main() -> maybe 1 end.", "1:17: syntax"),
    ("main() -> 16#f__f.", "1:15: syntax"),
    ("main() -> 2#12.", "1:14: syntax"),
    ("main() -> 1_6#f.", "1:14: syntax"),
];

/// Calls of no function, and strings side by side.
const CALLS_AND_STRINGS: &[(&str, &str)] = &[
    ("main() -> f(1,).", "1:15: syntax"),
    ("main() -> f(1.", "1:14: syntax"),
    ("main() -> f(_).", "1:13: syntax"),
    ("main() -> X().", "1:12: syntax"),
    ("main() -> X:f().", "1:12: syntax"),
    ("main() -> m:X().", "1:13: syntax"),
    ("main() -> m:f.", "1:14: syntax"),
    ("main() -> m:f:g().", "1:14: syntax"),
    ("main() -> f()().", "1:14: syntax"),
    ("main() -> ?X.", "1:12: syntax"),
    ("main() -> ?main.", "1:12: syntax"),
    ("main() -> ?MODULE().", "1:18: syntax"),
    ("-module(\"a\" \"b\").", "1:9: syntax"),
    ("main() -> \"a\" \"b\" 5.", "1:19: syntax"),
    ("main() -> \"a\"\n%one\n\"b\" 5.", "3:5: syntax"),
    ("main() -> f(\"a\") \"b\" \"c\".", "1:18: syntax"),
    ("main() -> X\n\"b\"\n\"c\".", "2:1: syntax"),
    ("main() -> \"a\" 'b' \"c\".", "1:15: syntax"),
    ("main() -> \"a\" \"b\"", "1:18: syntax"),
    ("main() -> \"a\" \"b.", "1:15: unclosed quote"),
];

/// Segments of no bit expression.
const BIT_EXPRESSIONS: &[(&str, &str)] = &[
    ("main() -> <<1,>>.", "1:15: syntax"),
    ("main() -> <<1:>>.", "1:15: syntax"),
    ("main() -> <<1:-1>>.", "1:15: syntax"),
    ("main() -> <<1/>>.", "1:15: syntax"),
    ("main() -> <<1/8>>.", "1:15: syntax"),
    ("main() -> <<1/X>>.", "1:15: syntax"),
    ("main() -> <<1/if>>.", "1:15: syntax"),
    ("main() -> <<1/unit>>.", "1:19: syntax"),
    ("main() -> <<1/unit:X>>.", "1:20: syntax"),
    ("main() -> <<1/integer->>.", "1:22: syntax"),
    ("main() -> <<1/integer- >>.", "1:24: syntax"),
    ("main() -> <<1 2>>.", "1:15: syntax"),
    ("main() -> <<f(1)>>.", "1:14: syntax"),
    ("main() -> <<1+2>>.", "1:14: syntax"),
    ("main() -> <<{1}>>.", "1:13: syntax"),
    ("main() -> <<- -1>>.", "1:15: syntax"),
];

/// Arguments of a head that are no patterns, and sizes in patterns.
const HEADS: &[(&str, &str)] = &[
    ("main(X Y) -> 1.", "1:8: syntax"),
    ("main(X,) -> 1.", "1:8: syntax"),
    ("main(f(X)) -> 1.", "1:7: syntax"),
    ("main(X + 1) -> 1.", "1:8: syntax"),
    ("main(-X) -> 1.", "1:7: syntax"),
    ("main(- -1) -> 1.", "1:8: syntax"),
    ("main(?MODULE) -> 1.", "1:6: syntax"),
    ("main(not true) -> 1.", "1:6: syntax"),
    ("main(()) -> 1.", "1:7: syntax"),
    ("main([X|Y|Z]) -> 1.", "1:10: syntax"),
    ("main({X = }) -> 1.", "1:11: syntax"),
    ("main(<<X:8/binary) -> 1.", "1:18: syntax"),
    ("main(<<a>>) -> 1.", "1:8: syntax"),
    ("main(<<(X)>>) -> 1.", "1:8: syntax"),
    ("main(<<-X>>) -> 1.", "1:9: syntax"),
    ("main(<<bnot 1>>) -> 1.", "1:8: syntax"),
    ("main(<<_:a>>) -> 1.", "1:10: syntax"),
    ("main(<<_:$a>>) -> 1.", "1:10: syntax"),
    ("main(<<_:-1>>) -> 1.", "1:10: syntax"),
    ("main(<<_:_>>) -> 1.", "1:10: syntax"),
    ("main(<<_:{}>>) -> 1.", "1:10: syntax"),
    ("main(<<_:({})>>) -> 1.", "1:11: syntax"),
    ("main(<<_:([])>>) -> 1.", "1:11: syntax"),
    ("main(<<_:(\"a\")>>) -> 1.", "1:11: syntax"),
    ("main(<<_:(<<>>)>>) -> 1.", "1:11: syntax"),
    ("main(<<_:(1 + {})>>) -> 1.", "1:15: syntax"),
    ("main(<<_:(f([]))>>) -> 1.", "1:13: syntax"),
    ("main(<<_:(X ! Y)>>) -> 1.", "1:13: syntax"),
    ("main(<<_:(case 1 of 1 -> 1 end)>>) -> 1.", "1:11: syntax"),
    ("main() -> [1 || <<_:([])>> <= X].", "1:22: syntax"),
];

/// Guards of which one test is no guard expression.
const GUARDS: &[(&str, &str)] = &[
    ("main() when -> 1.", "1:13: syntax"),
    ("main() when X ! Y -> 1.", "1:15: syntax"),
    ("main() when f() ! 1 -> 1.", "1:17: syntax"),
    ("main() when X = 1 -> 1.", "1:15: syntax"),
    ("main() when _ -> 1.", "1:13: syntax"),
    ("main() when case 1 of 1 -> 1 end -> 1.", "1:13: syntax"),
    ("main() when if 1 -> 1 end -> 1.", "1:13: syntax"),
    ("main() when (receive 1 -> 1 end) -> 1.", "1:14: syntax"),
    ("main() when [X || X <- Y] -> 1.", "1:16: syntax"),
    ("main() when << <<X>> || X <- Y >> -> 1.", "1:22: syntax"),
    ("main() when true, -> 1.", "1:19: syntax"),
    ("main() when true; -> 1.", "1:19: syntax"),
    ("main() -> if X ! 1 -> 2 end.", "1:16: syntax"),
    ("main() -> case 1 of X when X ! 1 -> 2 end.", "1:30: syntax"),
    ("main() -> receive X when {case 1 -> 2 end.", "1:27: syntax"),
];

/// Forms of no module, and texts that end inside a form.
const FORMS: &[(&str, &str)] = &[
    ("Main() -> ok.", "1:1: syntax"),
    ("main.", "1:5: syntax"),
    ("main( -> ok.", "1:7: syntax"),
    ("main() 1.", "1:8: syntax"),
    ("main() -> ok; main.", "1:19: syntax"),
    ("main() -> 1,.", "1:13: syntax"),
    ("main() -> 1;.", "1:13: syntax"),
    ("main() -> 1 . 2", "1:15: syntax"),
    ("main() -> 1 .. \n", "1:13: syntax"),
    ("- X.", "1:3: syntax"),
    ("-if(x).", "1:2: syntax"),
    ("-module(M).", "1:9: syntax"),
    ("-export(f/1).", "1:9: syntax"),
    ("-export([f]).", "1:11: syntax"),
    ("-export([f/X]).", "1:12: syntax"),
    ("-export([f/1,]).", "1:14: syntax"),
    ("-", "1:2: syntax"),
    ("-module(m)", "1:11: syntax"),
    ("-spec main() -> ok", "1:19: syntax"),
    ("main", "1:5: syntax"),
    ("main(", "1:6: syntax"),
    ("main() ->", "1:10: syntax"),
    ("main() -> 1", "1:12: syntax"),
    ("main() -> 1\n", "2:1: syntax"),
    ("main() -> 1 % one", "1:18: syntax"),
    ("main() -> case", "1:15: syntax"),
    ("main() -> <<", "1:13: syntax"),
    ("main() when true", "1:17: syntax"),
];

/// Attributes and segment types of names that are none.
const UNKNOWN_NAMES: &[(&str, &str)] = &[
    ("-foo(x).", "1:2: unknown attribute"),
    ("-foo", "1:2: unknown attribute"),
    ("-define(X, 1).", "1:2: unknown attribute"),
    ("-else.", "1:2: unknown attribute"),
    ("-record(r, {}).", "1:2: unknown attribute"),
    ("-'if'(x).", "1:2: unknown attribute"),
    ("- 'Module'(m).", "1:3: unknown attribute"),
    ("-exports([]).", "1:2: unknown attribute"),
    ("-module(m).\n-include(x).\n", "2:2: unknown attribute"),
    ("main() -> X.\n-on_load(f/0).\n", "2:2: unknown attribute"),
    ("main() -> <<1/foo>>.", "1:15: unknown segment type"),
    ("main() -> <<1/foo", "1:15: unknown segment type"),
    ("main() -> <<X/foo>> = 1.", "1:15: unknown segment type"),
    ("main() -> <<1/integer-foo>>.", "1:23: unknown segment type"),
    ("main() -> <<1/'Unit':8>>.", "1:15: unknown segment type"),
    ("main() -> <<1/units:8>>.", "1:15: unknown segment type"),
    (
        "main() -> <<1:8/unit:8-int>>.",
        "1:24: unknown segment type",
    ),
    ("main(<<X:8/foo>>) -> 1.", "1:12: unknown segment type"),
    (
        "main() -> [X || <<X/foo>> <= Y].",
        "1:21: unknown segment type",
    ),
    (
        "main() when <<1/foo>> == 1 -> ok.",
        "1:17: unknown segment type",
    ),
];

/// Faults of tokens beside faults of syntax.
const TOKENS: &[(&str, &str)] = &[
    ("main() -> $", "1:11: unexpected character"),
    ("main() -> \\.", "1:11: unexpected character"),
    ("main() -> 1.x", "1:12: unexpected character"),
    ("main() -> 16#1.5.", "1:15: unexpected character"),
    ("\u{feff}main() -> 1.", "1:1: unexpected character"),
    ("main() -> \"ab.", "1:11: unclosed quote"),
    ("main() -> 'a.\nb", "1:11: unclosed quote"),
    ("main() -> \"\\xg\".", "1:12: bad escape"),
    ("main() -> $\\x{}.", "1:12: bad escape"),
    ("main() -> 16#.", "1:11: bad number"),
    ("main() -> 37#1.", "1:11: bad number"),
    ("main() -> 1.5.", "1:11: float"),
    ("main() -> 1_0.5.", "1:11: float"),
    (
        "main() -> 170141183460469231731687303715884105728.",
        "1:11: integer too wide",
    ),
    (
        "main() -> 170141183460469231731687303715884105727",
        "1:50: syntax",
    ),
    ("main() -> ) 1.5.", "1:13: float"),
    ("-foo(\"x).", "1:6: unclosed quote"),
    ("main() -> X.\nf( -> 1.", "2:4: syntax"),
    ("-module(m).\n-module(m).\nmain() -> f(", "3:13: syntax"),
];

/// Brackets and block words: a front, a piece so many times and an end, with what the check says.
const BRACKETS: &[(&str, &str, u32, &str, &str)] = &[
    ("main() -> ", "(", 64, "1", "1:76: syntax"),
    ("main() -> ", "(", 64, "(", "1:75: too deep"),
    ("main() -> ", "[", 64, "[", "1:75: too deep"),
    ("main() -> ", "{", 64, "{", "1:75: too deep"),
    ("main() -> ", "<<", 64, "<<", "1:139: too deep"),
    ("main() -> ", "f(", 64, "f(", "1:140: too deep"),
    ("main() -> ", "(", 64, "case", "1:75: too deep"),
    ("main() -> ", "(", 64, "if", "1:75: too deep"),
    ("main() -> ", "case ", 64, "receive", "1:331: too deep"),
    ("main() -> ", "(", 64, "m:f()", "1:76: too deep"),
    ("main() -> ", "(", 64, "f)", "1:77: syntax"),
    ("main(", "(", 63, "1", "1:70: syntax"),
    ("main(", "(", 63, "(", "1:69: too deep"),
    ("main(", "{", 63, "{", "1:69: too deep"),
    ("main(", "<<", 63, "1", "1:8: syntax"),
    (
        "-module(m).\n-export([main/0]).\nmain() -> ",
        "(",
        64,
        "1)))))))))))))))))))))))))))))))))))))))))))))))))))))))))))))))).",
        "ok",
    ),
    (
        "-module(m).\n-export([main/0]).\nmain() -> ",
        "[",
        64,
        "1]]]]]]]]]]]]]]]]]]]]]]]]]]]]]]]]]]]]]]]]]]]]]]]]]]]]]]]]]]]]]]]].",
        "ok",
    ),
];

/// Trees of expressions and patterns, in the same form.
const TREES: &[(&str, &str, u32, &str, &str)] = &[
    ("main() -> ", "- ", 255, "1", "1:522: syntax"),
    ("main() -> ", "- ", 255, "- 1", "1:521: too deep"),
    ("main() -> ", "- ", 255, "1 + 1", "1:523: too deep"),
    ("main() -> ", "- ", 255, "f()", "1:524: syntax"),
    ("main() -> ", "- ", 255, "f(1)", "1:523: too deep"),
    ("main() -> ", "- ", 255, "m:f()", "1:522: too deep"),
    ("main() -> ", "- ", 255, "{}", "1:523: syntax"),
    ("main() -> ", "- ", 255, "{1}", "1:522: too deep"),
    ("main() -> ", "- ", 255, "[1]", "1:522: too deep"),
    ("main() -> ", "- ", 255, "<<1>>", "1:523: too deep"),
    ("main() -> ", "- ", 255, "case", "1:521: too deep"),
    ("main() -> ", "1!", 255, "1!", "1:522: too deep"),
    (
        "main() -> ",
        "1 orelse ",
        255,
        "1 orelse ",
        "1:2308: too deep",
    ),
    ("main() -> ", "1*", 255, "1*", "1:522: too deep"),
    ("main() -> ", "- ", 254, "<<1>>", "1:524: syntax"),
    ("main() -> ", "- ", 254, "<<-1>>", "1:521: too deep"),
    ("main() -> ", "- ", 254, "[1 || X <- Y]", "1:532: syntax"),
    (
        "main() -> ",
        "- ",
        254,
        "[1 || {X} <- Y]",
        "1:526: too deep",
    ),
    ("main() -> ", "- ", 254, "[1 || <<>> <= Y]", "1:535: syntax"),
    (
        "main() -> ",
        "- ",
        254,
        "[1 || <<X>> <= Y]",
        "1:527: too deep",
    ),
    (
        "main() -> ",
        "- ",
        254,
        "case 1 of -1 -> 1 end",
        "1:540: syntax",
    ),
    (
        "main() -> ",
        "- ",
        254,
        "case 1 of 2 -> -1 end",
        "1:537: too deep",
    ),
    (
        "main() -> ",
        "- ",
        254,
        "case 1 of {1} -> 1 end",
        "1:530: too deep",
    ),
    ("main() -> ", "- ", 254, "if {} -> 1 end", "1:533: syntax"),
    (
        "main() -> ",
        "- ",
        254,
        "if - 1 -> 1 end",
        "1:522: too deep",
    ),
    (
        "main() -> ",
        "- ",
        254,
        "case 1 of 1 -> -1 ) end.",
        "1:537: syntax",
    ),
    (
        "main() -> ",
        "- ",
        254,
        "case 1 of 1 -> -1, 2 end.",
        "1:536: too deep",
    ),
    (
        "main() -> ",
        "- ",
        254,
        "case 1 of 1 -> -1",
        "1:536: syntax",
    ),
    ("main() -> ", "- ", 254, "[1 || -1 )].", "1:528: syntax"),
    ("main() -> ", "- ", 254, "[1 || -1].", "1:527: too deep"),
    ("main() -> 1", "+1", 256, ".", "1:522: too deep"),
    (
        "-module(m).\n-export([main/0]).\nmain() -> ",
        "- ",
        255,
        "1.",
        "ok",
    ),
    (
        "-module(m).\n-export([main/0]).\nmain() -> ",
        "1+",
        255,
        "1.",
        "ok",
    ),
];

/// A text of this front, the piece so many times, and this end.
fn repeated(
    alloc: Global,
    front: &str,
    piece: &str,
    times: u32,
    end: &str,
) -> Result<String, AllocError> {
    let mut text = String::from_str(alloc, front)?;
    for _ in 0..times {
        text.push_str(piece)?;
    }
    text.push_str(end)?;
    Ok(text)
}

/// Compares what the check says of each text that is put together so.
fn each_depth_says(
    rt: &impl Abort,
    alloc: Global,
    rows: &[(&str, &str, u32, &str, &str)],
) -> Result<(), Fail> {
    for (front, piece, times, end, wanted) in rows {
        let text = repeated(alloc, front, piece, *times, end)?;
        says(rt, alloc, text.as_str(), wanted)?;
    }
    Ok(())
}

#[test]
fn a_match_and_a_comprehension_have_patterns_and_expressions(rt: HostRuntime) -> Result<(), Fail> {
    each_says(&rt, rt.alloc(), MATCHES_AND_COMPREHENSIONS)
}

#[test]
fn an_expression_is_one_of_the_grammar(rt: HostRuntime) -> Result<(), Fail> {
    each_says(&rt, rt.alloc(), EXPRESSIONS)
}

#[test]
fn a_call_names_a_function_and_strings_stand_side_by_side(rt: HostRuntime) -> Result<(), Fail> {
    each_says(&rt, rt.alloc(), CALLS_AND_STRINGS)
}

#[test]
fn a_segment_is_one_of_the_grammar(rt: HostRuntime) -> Result<(), Fail> {
    each_says(&rt, rt.alloc(), BIT_EXPRESSIONS)
}

#[test]
fn a_head_has_patterns(rt: HostRuntime) -> Result<(), Fail> {
    each_says(&rt, rt.alloc(), HEADS)
}

#[test]
fn a_guard_has_guard_expressions(rt: HostRuntime) -> Result<(), Fail> {
    each_says(&rt, rt.alloc(), GUARDS)
}

#[test]
fn a_form_is_one_of_the_grammar(rt: HostRuntime) -> Result<(), Fail> {
    each_says(&rt, rt.alloc(), FORMS)
}

#[test]
fn an_unknown_name_is_told(rt: HostRuntime) -> Result<(), Fail> {
    each_says(&rt, rt.alloc(), UNKNOWN_NAMES)
}

#[test]
fn faults_of_tokens_stand_in_their_order(rt: HostRuntime) -> Result<(), Fail> {
    each_says(&rt, rt.alloc(), TOKENS)
}

#[test]
fn brackets_lie_64_deep_at_most(rt: HostRuntime) -> Result<(), Fail> {
    each_depth_says(&rt, rt.alloc(), BRACKETS)
}

#[test]
fn trees_are_256_deep_at_most(rt: HostRuntime) -> Result<(), Fail> {
    each_depth_says(&rt, rt.alloc(), TREES)
}
