use erl_syntax::{LONGEST_TEXT, MARKS, RESERVED, Span};
use erl_tokens::{
    LexCause, Token, TokenKind, atom_text, character_number, integer_value, string_characters,
    tokens,
};
use std::alloc::Global;
use std::test::Fail;

/// The tokens of a text that is short enough.
fn cut(alloc: Global, text: &[u8]) -> Result<Vec<Token>, Fail> {
    if text.len() > LONGEST_TEXT {
        return Ok(Vec::new(alloc));
    }
    match tokens(alloc, text) {
        Ok(found) => Ok(found),
        Err(_) => Ok(Vec::new(alloc)),
    }
}

/// Line, column and cause of the first fault of a text that is short enough.
fn fault(alloc: Global, text: &[u8]) -> Option<(u32, u32, LexCause)> {
    if text.len() > LONGEST_TEXT {
        return None;
    }
    match tokens(alloc, text) {
        Ok(_) => None,
        Err(found) => Some((found.at.line, found.at.column, found.why)),
    }
}

#[test]
fn words_and_marks_are_tokens_of_their_own(rt: HostRuntime) -> Result<(), Fail> {
    let alloc = rt.alloc();
    for kind in RESERVED.iter().chain(MARKS.iter()) {
        let spelling = kind.spelling();
        let found = cut(alloc, spelling)?;
        let want = [Token {
            kind: *kind,
            span: Span { line: 1, column: 1 },
            from: 0,
            to: spelling.len() as u32,
        }];
        assert_eq!(rt; found.as_slice(), want.as_slice(), "{kind:?}");
    }
    Ok(())
}

#[test]
fn the_longest_token_is_taken(rt: HostRuntime) -> Result<(), Fail> {
    use TokenKind::*;
    let alloc = rt.alloc();
    let texts: [(&[u8], &[(TokenKind, u32)]); 28] = [
        (b"=<<", &[(AtMost, 2), (Less, 3)]),
        (b"A<<1", &[(Variable, 1), (LeftBits, 3), (Integer, 4)]),
        (b"=:==/=", &[(ExactlyEqual, 3), (ExactlyNotEqual, 6)]),
        (b"a.", &[(Atom, 1), (FullStop, 2)]),
        (b"a.%", &[(Atom, 1), (FullStop, 2)]),
        (b"a.\xC2\xA0b", &[(Atom, 1), (FullStop, 2), (Atom, 5)]),
        (b".. ", &[(DoubleDot, 2)]),
        (b"....", &[(TripleDot, 3), (FullStop, 4)]),
        (b"1..2", &[(Integer, 1), (DoubleDot, 3), (Integer, 4)]),
        (b"1.", &[(Integer, 1), (FullStop, 2)]),
        (b"1_000", &[(Integer, 5)]),
        (b"1__2", &[(Integer, 1), (Variable, 4)]),
        (b"1_6#f", &[(Integer, 3), (Hash, 4), (Atom, 5)]),
        (b"16#f_F", &[(Integer, 6)]),
        (b"16#f__f", &[(Integer, 4), (Variable, 7)]),
        (b"2#12", &[(Integer, 3), (Integer, 4)]),
        (b"016#f", &[(Integer, 5)]),
        (b"36#zZ", &[(Integer, 5)]),
        (b"_", &[(Underscore, 1)]),
        (b"_1@", &[(Variable, 3)]),
        (b"iff", &[(Atom, 3)]),
        (b"If", &[(Variable, 2)]),
        (b"'if'", &[(Atom, 4)]),
        (b"\"a\\\"b\"\"\"", &[(Str, 6), (Str, 8)]),
        (b"$\\1234", &[(Character, 5), (Integer, 6)]),
        (
            b"$\\x{e9}$\\^aa",
            &[(Character, 7), (Character, 11), (Atom, 12)],
        ),
        (b"$\xC3\xA9$ ", &[(Character, 3), (Character, 5)]),
        (b"\"\\\xC3\xA9\"", &[(Str, 5)]),
    ];
    for (text, want) in texts {
        let found = cut(alloc, text)?;
        let found: Vec<(TokenKind, u32)> = found
            .iter()
            .map(|token| (token.kind, token.to))
            .collect(alloc)?;
        assert_eq!(rt; found.as_slice(), want, "{text:?}");
    }
    Ok(())
}

#[test]
fn the_first_fault_decides(rt: HostRuntime) {
    use LexCause::*;
    let alloc = rt.alloc();
    let texts: [(&[u8], (u32, u32, LexCause)); 57] = [
        (b"\xFF", (1, 1, NotUtf8)),
        (b"a\xC0\x80", (1, 2, NotUtf8)),
        (b"\xE0\x80\x80", (1, 1, NotUtf8)),
        (b"\xED\xA0\x80", (1, 1, NotUtf8)),
        (b"\xF4\x90\x80\x80", (1, 1, NotUtf8)),
        (b"\"\xE2\x82A\"", (1, 2, NotUtf8)),
        (b"% \xC3\xA9\xFF\n", (1, 4, NotUtf8)),
        (b"$\x80", (1, 2, NotUtf8)),
        (b"'a\\\x80'", (1, 4, NotUtf8)),
        (b"$\\\x80", (1, 3, NotUtf8)),
        (b"\xEF\xBB\xBFa", (1, 1, UnexpectedCharacter)),
        (b"a &", (1, 3, UnexpectedCharacter)),
        (b"a\n\t^", (2, 2, UnexpectedCharacter)),
        (b"$", (1, 1, UnexpectedCharacter)),
        (b".\x80", (1, 1, UnexpectedCharacter)),
        (b"a.b", (1, 2, UnexpectedCharacter)),
        (b"16#1.5", (1, 5, UnexpectedCharacter)),
        (b"\xC3\xA9", (1, 1, UnexpectedCharacter)),
        (b"\"\xC3\xA9\xC3\xA9\" ~", (1, 6, UnexpectedCharacter)),
        (b"\xC2\x85\xC2\xA0\x1F`", (1, 4, UnexpectedCharacter)),
        (b"\r\x0C`", (1, 3, UnexpectedCharacter)),
        (b"a \"b", (1, 3, UnclosedQuote)),
        (b"\"a\nb", (1, 1, UnclosedQuote)),
        (b"'", (1, 1, UnclosedQuote)),
        (b"\"\\\"", (1, 1, UnclosedQuote)),
        (b"\"\\x{110000}\"", (1, 2, BadEscape)),
        (b"\"\\x{d800}\"", (1, 2, BadEscape)),
        (b"\"\\x{}\"", (1, 2, BadEscape)),
        (b"\"\\x4\"", (1, 2, BadEscape)),
        (b"$\\^1", (1, 2, BadEscape)),
        (b"$\\", (1, 2, BadEscape)),
        (b"'\xC3\xA9\\", (1, 3, BadEscape)),
        (b"\"\\x{\x80", (1, 2, BadEscape)),
        (b"\"\n\\xg", (2, 1, BadEscape)),
        (b"1#1", (1, 1, BadNumber)),
        (b"37#1", (1, 1, BadNumber)),
        (b"16#", (1, 1, BadNumber)),
        (b"16#_", (1, 1, BadNumber)),
        (b"2#2", (1, 1, BadNumber)),
        (
            b" 99999999999999999999999999999999999999999#1",
            (1, 2, BadNumber),
        ),
        (b"1.5", (1, 1, Float)),
        (b"1_0.5", (1, 1, Float)),
        (b"170141183460469231731687303715884105728.5", (1, 1, Float)),
        (
            b"170141183460469231731687303715884105728",
            (1, 1, IntegerTooWide),
        ),
        (
            b"16#80000000000000000000000000000000",
            (1, 1, IntegerTooWide),
        ),
        (b"\"\\xg\xFF", (1, 2, BadEscape)),
        (b"\"\xFF\\xg", (1, 2, NotUtf8)),
        (b"\"a\\xg", (1, 3, BadEscape)),
        (b"1.5 \xFF", (1, 1, Float)),
        (b"a.b \"", (1, 2, UnexpectedCharacter)),
        (b"\"a\" 1#1 1.5", (1, 5, BadNumber)),
        (b"'\\xg' 1.5", (1, 2, BadEscape)),
        (b"% 1.5\n& 1.5", (2, 1, UnexpectedCharacter)),
        (b"\"a\nb\" ^", (2, 4, UnexpectedCharacter)),
        (b"a;\x7F", (1, 3, UnexpectedCharacter)),
        (b"\xC2\xA1", (1, 1, UnexpectedCharacter)),
        (b"\xC2", (1, 1, NotUtf8)),
    ];
    for (text, want) in texts {
        assert_eq!(rt; fault(alloc, text), Some(want), "{text:?}");
    }
}

#[test]
fn an_atom_has_at_most_255_characters(rt: HostRuntime) -> Result<(), Fail> {
    let alloc = rt.alloc();
    let mut bare = b"abc".to_vec(alloc)?;
    let mut quoted = b"'\\x{e9}\xC3\xA9\\s".to_vec(alloc)?;
    for _ in 0..252 {
        bare.push(b'_')?;
        quoted.push(b' ')?;
    }
    assert_eq!(rt; fault(alloc, &bare), None);
    assert_eq!(rt;
        fault(alloc, &quoted),
        Some((1, 1, LexCause::UnclosedQuote))
    );
    quoted.push(b'\'')?;
    assert_eq!(rt; fault(alloc, &quoted), None);
    bare.push(b'a')?;
    assert_eq!(rt; fault(alloc, &bare), Some((1, 1, LexCause::AtomTooLong)));
    quoted.pop();
    quoted.push(b'a')?;
    assert_eq!(rt;
        fault(alloc, &quoted),
        Some((1, 1, LexCause::UnclosedQuote))
    );
    quoted.push(b'\'')?;
    assert_eq!(rt; fault(alloc, &quoted), Some((1, 1, LexCause::AtomTooLong)));
    Ok(())
}

#[test]
fn tokens_stand_for_values(rt: HostRuntime) -> Result<(), Fail> {
    let alloc = rt.alloc();
    let integers: [(&[u8], i128); 7] = [
        (b"0", 0),
        (b"1_000", 1000),
        (b"16#Ff_0", 4080),
        (b"36#zZ", 1295),
        (b"2#10", 2),
        (b"016#f", 15),
        (b"170141183460469231731687303715884105727", i128::MAX),
    ];
    for (token, want) in integers {
        assert_eq!(rt; integer_value(token), Some(want), "{token:?}");
    }
    let characters: [(&[u8], u32); 19] = [
        (b"$a", 97),
        (b"$ ", 32),
        (b"$\\b", 8),
        (b"$\\d", 127),
        (b"$\\e", 27),
        (b"$\\f", 12),
        (b"$\\n", 10),
        (b"$\\r", 13),
        (b"$\\s", 32),
        (b"$\\t", 9),
        (b"$\\v", 11),
        (b"$\\7", 7),
        (b"$\\777", 511),
        (b"$\\x7f", 127),
        (b"$\\x{010FFFF}", 0x10FFFF),
        (b"$\\^z", 26),
        (b"$\\^A", 1),
        (b"$\\\\", 92),
        (b"$\xF0\x9F\x98\x80", 0x1F600),
    ];
    for (token, want) in characters {
        assert_eq!(rt; character_number(token), want, "{token:?}");
    }
    let string = string_characters(alloc, b"\"a\\12\xE2\x82\xAC\n\\\xC3\xA9\"")?;
    assert_eq!(rt; string.as_slice(), [97, 10, 0x20AC, 10, 0xE9].as_slice());
    let quoted = atom_text(alloc, b"'\\x{20ac}b\\'\xC3\xA9'")?;
    assert_eq!(rt; quoted.bytes(), b"\xE2\x82\xACb'\xC3\xA9".as_slice());
    let bare = atom_text(alloc, b"a_1@")?;
    assert_eq!(rt; bare.bytes(), b"a_1@".as_slice());
    Ok(())
}

#[test]
fn the_largest_text(rt: HostRuntime) -> Result<(), Fail> {
    let alloc = rt.alloc();
    for byte in [b' ', b'%', b'"', b'1'] {
        let mut text = Vec::new(alloc);
        for _ in 0..LONGEST_TEXT {
            text.push(byte)?;
        }
        let want = match byte {
            b'"' => None,
            b'1' => Some((1, 1, LexCause::IntegerTooWide)),
            _ => None,
        };
        assert_eq!(rt; fault(alloc, &text), want, "{byte}");
    }
    Ok(())
}
