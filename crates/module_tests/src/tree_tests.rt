use clause_read::read_module;
use std::alloc::{AllocError, Global};
use std::test::Fail;

/// Bodies with their items as `{:?}` prints them, without places and without the names of lists.
const BODIES: [(&str, &str); 42] = [
    (
        "1+2*3",
        "[Item { patterns: [] }, value: Binary { op: Add, parts: [Int { value: 1 }, Binary { op: Mul, parts: [Int { value: 2 }, Int { value: 3 }] } }] } } }] }",
    ),
    (
        "1-2-3",
        "[Item { patterns: [] }, value: Binary { op: Sub, parts: [Binary { op: Sub, parts: [Int { value: 1 }, Int { value: 2 }] } }, Int { value: 3 }] } } }] }",
    ),
    (
        "(1+2)*3",
        "[Item { patterns: [] }, value: Binary { op: Mul, parts: [Binary { op: Add, parts: [Int { value: 1 }, Int { value: 2 }] } }, Int { value: 3 }] } } }] }",
    ),
    (
        "X ! Y ! Z",
        "[Item { patterns: [] }, value: Binary { op: Send, parts: [Var { name: Text { bytes: [88] } }, Binary { op: Send, parts: [Var { name: Text { bytes: [89] } }, Var { name: Text { bytes: [90] } }] } }] } } }] }",
    ),
    (
        "X orelse Y orelse Z",
        "[Item { patterns: [] }, value: Binary { op: OrElse, parts: [Var { name: Text { bytes: [88] } }, Binary { op: OrElse, parts: [Var { name: Text { bytes: [89] } }, Var { name: Text { bytes: [90] } }] } }] } } }] }",
    ),
    (
        "X andalso Y orelse Z",
        "[Item { patterns: [] }, value: Binary { op: OrElse, parts: [Binary { op: AndAlso, parts: [Var { name: Text { bytes: [88] } }, Var { name: Text { bytes: [89] } }] } }, Var { name: Text { bytes: [90] } }] } } }] }",
    ),
    (
        "1 == 2 orelse 3 =< 4",
        "[Item { patterns: [] }, value: Binary { op: OrElse, parts: [Binary { op: Eq, parts: [Int { value: 1 }, Int { value: 2 }] } }, Binary { op: Le, parts: [Int { value: 3 }, Int { value: 4 }] } }] } } }] }",
    ),
    (
        "- not bnot 1",
        "[Item { patterns: [] }, value: Unary { op: Minus, part: [Unary { op: Not, part: [Unary { op: Bnot, part: [Int { value: 1 }] } }] } }] } } }] }",
    ),
    (
        "1 div 2 rem 3 band 4",
        "[Item { patterns: [] }, value: Binary { op: Band, parts: [Binary { op: Rem, parts: [Binary { op: Div, parts: [Int { value: 1 }, Int { value: 2 }] } }, Int { value: 3 }] } }, Int { value: 4 }] } } }] }",
    ),
    (
        "1 bor 2 bxor 3 bsl 4 bsr 5",
        "[Item { patterns: [] }, value: Binary { op: Bsr, parts: [Binary { op: Bsl, parts: [Binary { op: Bxor, parts: [Binary { op: Bor, parts: [Int { value: 1 }, Int { value: 2 }] } }, Int { value: 3 }] } }, Int { value: 4 }] } }, Int { value: 5 }] } } }] }",
    ),
    (
        "1 /= 2",
        "[Item { patterns: [] }, value: Binary { op: Ne, parts: [Int { value: 1 }, Int { value: 2 }] } } }] }",
    ),
    (
        "1 < 2",
        "[Item { patterns: [] }, value: Binary { op: Lt, parts: [Int { value: 1 }, Int { value: 2 }] } } }] }",
    ),
    (
        "1 > 2",
        "[Item { patterns: [] }, value: Binary { op: Gt, parts: [Int { value: 1 }, Int { value: 2 }] } } }] }",
    ),
    (
        "1 >= 2",
        "[Item { patterns: [] }, value: Binary { op: Ge, parts: [Int { value: 1 }, Int { value: 2 }] } } }] }",
    ),
    (
        "1 =:= 2",
        "[Item { patterns: [] }, value: Binary { op: Same, parts: [Int { value: 1 }, Int { value: 2 }] } } }] }",
    ),
    (
        "+1 =/= 2",
        "[Item { patterns: [] }, value: Binary { op: NotSame, parts: [Unary { op: Plus, part: [Int { value: 1 }] } }, Int { value: 2 }] } } }] }",
    ),
    (
        "X, 7, $a, ok",
        "[Item { patterns: [] }, value: Var { name: Text { bytes: [88] } } }, Item { patterns: [] }, value: Int { value: 7 } }, Item { patterns: [] }, value: Char { value: 97 } }, Item { patterns: [] }, value: Atom { atom: 13 } }] }",
    ),
    (
        "\"ab\", ?MODULE, {}, {1,2}",
        "[Item { patterns: [] }, value: Str { chars: [97, 98] } } }, Item { patterns: [] }, value: ModuleName {  } }, Item { patterns: [] }, value: Tuple { items: [] } } }, Item { patterns: [] }, value: Tuple { items: [Int { value: 1 }, Int { value: 2 }] } } }] }",
    ),
    (
        "[], [1], [1,2|3]",
        "[Item { patterns: [] }, value: List { items: [] }, tail: [] } } }, Item { patterns: [] }, value: List { items: [Int { value: 1 }] }, tail: [] } } }, Item { patterns: [] }, value: List { items: [Int { value: 1 }, Int { value: 2 }] }, tail: [Int { value: 3 }] } } }] }",
    ),
    (
        "f(), m:f(1), ?MODULE:f(1,2)",
        "[Item { patterns: [] }, value: Call { module: [] }, name: 16, args: [] } } }, Item { patterns: [] }, value: Call { module: [Atom { atom: 17 }] }, name: 16, args: [Int { value: 1 }] } } }, Item { patterns: [] }, value: Call { module: [ModuleName {  }] }, name: 16, args: [Int { value: 1 }, Int { value: 2 }] } } }] }",
    ),
    (
        "<<>>, <<1>>, <<X:8>>",
        "[Item { patterns: [] }, value: Bits { segments: [] } } }, Item { patterns: [] }, value: Bits { segments: [Segment { value: Int { value: 1 }, size: None, specs: [] } }] } } }, Item { patterns: [] }, value: Bits { segments: [Segment { value: Var { name: Text { bytes: [88] } }, size: Some(Int { value: 8 }), specs: [] } }] } } }] }",
    ),
    (
        "<<X/utf8,Y:4/little-signed-integer-unit:2>>",
        "[Item { patterns: [] }, value: Bits { segments: [Segment { value: Var { name: Text { bytes: [88] } }, size: None, specs: [Utf8] } }, Segment { value: Var { name: Text { bytes: [89] } }, size: Some(Int { value: 4 }), specs: [Little, Signed, Integer, Unit(2)] } }] } } }] }",
    ),
    (
        "<<-1:8,(X+1):(Y)/binary,\"ab\"/utf16>>",
        "[Item { patterns: [] }, value: Bits { segments: [Segment { value: Unary { op: Minus, part: [Int { value: 1 }] } }, size: Some(Int { value: 8 }), specs: [] } }, Segment { value: Binary { op: Add, parts: [Var { name: Text { bytes: [88] } }, Int { value: 1 }] } }, size: Some(Var { name: Text { bytes: [89] } }), specs: [Binary] } }, Segment { value: Str { chars: [97, 98] } }, size: None, specs: [Utf16] } }] } } }] }",
    ),
    (
        "<<<<1>>/bits,X/bytes,Y/big-unsigned-native>>",
        "[Item { patterns: [] }, value: Bits { segments: [Segment { value: Bits { segments: [Segment { value: Int { value: 1 }, size: None, specs: [] } }] } }, size: None, specs: [Bitstring] } }, Segment { value: Var { name: Text { bytes: [88] } }, size: None, specs: [Binary] } }, Segment { value: Var { name: Text { bytes: [89] } }, size: None, specs: [Big, Unsigned, Native] } }] } } }] }",
    ),
    (
        "[X || X <- [1]]",
        "[Item { patterns: [] }, value: ListFor { row: [Var { name: Text { bytes: [88] } }] }, quals: [Items { pattern: Var { name: Text { bytes: [88] } }, source: List { items: [Int { value: 1 }] }, tail: [] } } }] } } }] }",
    ),
    (
        "[X || <<X:4>> <= Y, true]",
        "[Item { patterns: [] }, value: ListFor { row: [Var { name: Text { bytes: [88] } }] }, quals: [Bits { segments: [Segment { value: Var { name: Text { bytes: [88] } }, size: Some(Int { value: 4 }), specs: [] } }] }, source: Var { name: Text { bytes: [89] } } }, Filter { test: Atom { atom: 11 } }] } } }] }",
    ),
    (
        "<< <<X>> || {X,_} <- Y >>",
        "[Item { patterns: [] }, value: BitsFor { row: [Bits { segments: [Segment { value: Var { name: Text { bytes: [88] } }, size: None, specs: [] } }] } }] }, quals: [Items { pattern: Tuple { items: [Var { name: Text { bytes: [88] } }, Wild {  }] } }, source: Var { name: Text { bytes: [89] } } }] } } }] }",
    ),
    (
        "[X || <<X>> = Y <- Z]",
        "[Item { patterns: [] }, value: ListFor { row: [Var { name: Text { bytes: [88] } }] }, quals: [Items { pattern: Same { patterns: [Bits { segments: [Segment { value: Var { name: Text { bytes: [88] } }, size: None, specs: [] } }] } }, Var { name: Text { bytes: [89] } }] } }, source: Var { name: Text { bytes: [90] } } }] } } }] }",
    ),
    (
        "case 1 of X when X > 0, true; false -> 1, 2; _ -> 3 end",
        "[Item { patterns: [] }, value: Case { value: [Int { value: 1 }] }, alts: [Alt { pattern: Var { name: Text { bytes: [88] } }, guard: Guard { alternatives: [[Binary { op: Gt, parts: [Var { name: Text { bytes: [88] } }, Int { value: 0 }] } }, Atom { atom: 11 }] }, [Atom { atom: 12 }] }] } }, body: [Item { patterns: [] }, value: Int { value: 1 } }, Item { patterns: [] }, value: Int { value: 2 } }] } }, Alt { pattern: Wild {  }, guard: Guard { alternatives: [] } }, body: [Item { patterns: [] }, value: Int { value: 3 } }] } }] } } }] }",
    ),
    (
        "receive {X} -> 1 end",
        "[Item { patterns: [] }, value: Receive { alts: [Alt { pattern: Tuple { items: [Var { name: Text { bytes: [88] } }] } }, guard: Guard { alternatives: [] } }, body: [Item { patterns: [] }, value: Int { value: 1 } }] } }] } } }] }",
    ),
    (
        "if true -> 1; X, Y; Z -> 2 end",
        "[Item { patterns: [] }, value: If { branches: [Branch { guard: Guard { alternatives: [[Atom { atom: 11 }] }] } }, body: [Item { patterns: [] }, value: Int { value: 1 } }] } }, Branch { guard: Guard { alternatives: [[Var { name: Text { bytes: [88] } }, Var { name: Text { bytes: [89] } }] }, [Var { name: Text { bytes: [90] } }] }] } }, body: [Item { patterns: [] }, value: Int { value: 2 } }] } }] } } }] }",
    ),
    (
        "X = Y = 1, {X,_} = 1",
        "[Item { patterns: [Var { name: Text { bytes: [88] } }, Var { name: Text { bytes: [89] } }] }, value: Int { value: 1 } }, Item { patterns: [Tuple { items: [Var { name: Text { bytes: [88] } }, Wild {  }] } }] }, value: Int { value: 1 } }] }",
    ),
    (
        "[1|X] = 1, [] = 1, -1 = 1, +2 = 1",
        "[Item { patterns: [List { items: [Int { value: 1 }] }, tail: [Var { name: Text { bytes: [88] } }] } }] }, value: Int { value: 1 } }, Item { patterns: [List { items: [] }, tail: [] } }] }, value: Int { value: 1 } }, Item { patterns: [Int { value: -1 }] }, value: Int { value: 1 } }, Item { patterns: [Int { value: 2 }] }, value: Int { value: 1 } }] }",
    ),
    (
        "$a = 1, \"ab\" = 1, ok = 1, (X) = 1",
        "[Item { patterns: [Char { value: 97 }] }, value: Int { value: 1 } }, Item { patterns: [Str { chars: [97, 98] } }] }, value: Int { value: 1 } }, Item { patterns: [Atom { atom: 13 }] }, value: Int { value: 1 } }, Item { patterns: [Var { name: Text { bytes: [88] } }] }, value: Int { value: 1 } }] }",
    ),
    (
        "{X = Y = 2} = 1",
        "[Item { patterns: [Tuple { items: [Same { patterns: [Var { name: Text { bytes: [88] } }, Var { name: Text { bytes: [89] } }, Int { value: 2 }] } }] } }] }, value: Int { value: 1 } }] }",
    ),
    (
        "<<X:4,_/binary>> = 1",
        "[Item { patterns: [Bits { segments: [Segment { value: Var { name: Text { bytes: [88] } }, size: Some(Int { value: 4 }), specs: [] } }, Segment { value: Wild {  }, size: None, specs: [Binary] } }] } }] }, value: Int { value: 1 } }] }",
    ),
    (
        "<<-1:Y,\"ab\",$a,X:(Y+1)/signed>> = 1",
        "[Item { patterns: [Bits { segments: [Segment { value: Unary { op: Minus, part: [Int { value: 1 }] } }, size: Some(Var { name: Text { bytes: [89] } }), specs: [] } }, Segment { value: Str { chars: [97, 98] } }, size: None, specs: [] } }, Segment { value: Char { value: 97 }, size: None, specs: [] } }, Segment { value: Var { name: Text { bytes: [88] } }, size: Some(Binary { op: Add, parts: [Var { name: Text { bytes: [89] } }, Int { value: 1 }] } }), specs: [Signed] } }] } }] }, value: Int { value: 1 } }] }",
    ),
    (
        "\"ab\" \"c\"",
        "[Item { patterns: [] }, value: Str { chars: [97, 98, 99] } } }] }",
    ),
    (
        "\"a\" % one\n\"\" \"b\"\n\t\"cd\"\"\", 7",
        "[Item { patterns: [] }, value: Str { chars: [97, 98, 99, 100] } } }, Item { patterns: [] }, value: Int { at: Span { line: 3, column: 10 }, value: 7 } }] }",
    ),
    (
        "\"a\" \"b\" = \"ab\", [\"a\", \"b\" \"c\"]",
        "[Item { patterns: [Str { chars: [97, 98] } }] }, value: Str { chars: [97, 98] } } }, Item { patterns: [] }, value: List { items: [Str { chars: [97] } }, Str { chars: [98, 99] } }] }, tail: [] } } }] }",
    ),
    (
        "<<$a, a, \"bc\" \"d\">>",
        "[Item { patterns: [] }, value: Bits { segments: [Segment { value: Char { value: 97 }, size: None, specs: [] } }, Segment { value: Atom { atom: 16 }, size: None, specs: [] } }, Segment { value: Str { chars: [98, 99, 100] } }, size: None, specs: [] } }] } } }] }",
    ),
    (
        "<<$a, \"bc\" \"d\">> = <<\"abcd\">>",
        "[Item { patterns: [Bits { segments: [Segment { value: Char { value: 97 }, size: None, specs: [] } }, Segment { value: Str { chars: [98, 99, 100] } }, size: None, specs: [] } }] } }] }, value: Bits { segments: [Segment { value: Str { chars: [97, 98, 99, 100] } }, size: None, specs: [] } }] } } }] }",
    ),
];

/// The clauses of `main(X, 1) when X -> 1; main(_, Y) -> Y.`
const HEADS: &str =
    "[Clause { name: 15, patterns: [Var { name: Text { bytes: [88] } }, Int { value: 1 }] }, guard: Guard { alternatives: [[Var { name: Text { bytes: [88] } }] }] } }, body: [Item { patterns: [] }, value: Int { value: 1 } }] } }, Clause { name: 15, patterns: [Wild {  }, Var { name: Text { bytes: [89] } }] }, guard: Guard { alternatives: [] } }, body: [Item { patterns: [] }, value: Var { name: Text { bytes: [89] } } }] } }]";

/// The first function's clauses of a text as `{:?}` prints them, without their places and without the names of lists.
fn printed(alloc: Global, text: &str) -> Result<String, AllocError> {
    let mut out = String::new(alloc);
    let Ok(module) = read_module(alloc, text.as_bytes()) else {
        return Ok(out);
    };
    let Some(function) = module.functions.items().first() else {
        return Ok(out);
    };
    let tree = format!(in alloc; "{:?}", function.clauses.items())?;
    let mut first = true;
    for piece in tree.as_str().split("at: Span { line: 1, column: ") {
        if first {
            out.push_str(piece)?;
        } else if let Some((_, rest)) = piece.split_once(" }") {
            out.push_str(rest.trim_start_matches(", "))?;
        }
        first = false;
    }
    out.replace(alloc, "Listed { items: ", "")
}

#[test]
fn the_tree_of_a_body_is_read(rt: HostRuntime) -> Result<(), Fail> {
    let alloc = rt.alloc();
    for (body, wanted) in BODIES {
        let text = format!(in alloc; "main() -> {body}.")?;
        let found = printed(alloc, text.as_str())?;
        let wanted = format!(in alloc;
            "[Clause {{ name: 15, patterns: [] }}, guard: Guard {{ alternatives: [] }} }}, body: {wanted} }}]"
        )?;
        assert_eq!(rt; found.as_str(), wanted.as_str());
    }
    let found = printed(alloc, "main(X, 1) when X -> 1; main(_, Y) -> Y.")?;
    assert_eq!(rt; found.as_str(), HEADS);
    Ok(())
}
