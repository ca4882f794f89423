ghost use Rattle.std.specs.Prelude.{◌≡◌, ◌≤◌, ℕ, List, length, true, All};
ghost use Rattle.std.specs.List.{find};
ghost use Rattle.erl_syntax.specs.Spellings.{spelling, begins_with, is_spelled};

use crate::Span;
use std::alloc::AllocFailed;

/// The kind of a token: one for each class of the Erlang Reference Manual's lexical rules
/// ("Character Set and Source File Encoding", "Expressions", "Data Types"), and one for each reserved word and mark.
#[derive(Clone, Copy, Debug, PartialEq, Eq)]
pub enum TokenKind {
    /// A bare atom or a quoted one.
    Atom,
    /// A variable's name.
    Variable,
    /// `_` alone, which is no name.
    Underscore,
    /// Decimal digits, or `Base#Digits`.
    Integer,
    /// `$` and a character or an escape.
    Character,
    /// Characters between `"` quotes.
    Str,
    /// A full stop before white space, a comment or the end of the text.
    FullStop,
    /// `after`
    After,
    /// `and`
    And,
    /// `andalso`
    AndAlso,
    /// `band`
    Band,
    /// `begin`
    Begin,
    /// `bnot`
    Bnot,
    /// `bor`
    Bor,
    /// `bsl`
    Bsl,
    /// `bsr`
    Bsr,
    /// `bxor`
    Bxor,
    /// `case`
    Case,
    /// `catch`
    Catch,
    /// `cond`
    Cond,
    /// `div`
    Div,
    /// `end`
    End,
    /// `fun`
    Fun,
    /// `if`
    If,
    /// `let`
    Let,
    /// `not`
    Not,
    /// `of`
    Of,
    /// `or`
    Or,
    /// `orelse`
    OrElse,
    /// `receive`
    Receive,
    /// `rem`
    Rem,
    /// `try`
    Try,
    /// `when`
    When,
    /// `xor`
    Xor,
    /// `...`
    TripleDot,
    /// `=:=`
    ExactlyEqual,
    /// `=/=`
    ExactlyNotEqual,
    /// `::`
    DoubleColon,
    /// `||`
    DoubleBar,
    /// `->`
    Arrow,
    /// `<-`
    LeftArrow,
    /// `<=`
    DoubleLeftArrow,
    /// `<<`
    LeftBits,
    /// `>>`
    RightBits,
    /// `==`
    Equal,
    /// `/=`
    NotEqual,
    /// `=<`
    AtMost,
    /// `>=`
    AtLeast,
    /// `:=`
    Becomes,
    /// `=>`
    MapsTo,
    /// `++`
    DoublePlus,
    /// `--`
    DoubleMinus,
    /// `..`
    DoubleDot,
    /// `(`
    LeftParen,
    /// `)`
    RightParen,
    /// `[`
    LeftBracket,
    /// `]`
    RightBracket,
    /// `{`
    LeftBrace,
    /// `}`
    RightBrace,
    /// `,`
    Comma,
    /// `;`
    Semicolon,
    /// `:`
    Colon,
    /// `|`
    Bar,
    /// `=`
    Match,
    /// `<`
    Less,
    /// `>`
    Greater,
    /// `+`
    Plus,
    /// `-`
    Minus,
    /// `*`
    Star,
    /// `/`
    Slash,
    /// `!`
    Bang,
    /// `?`
    Question,
    /// `#`
    Hash,
}

/// The reserved words.
pub const RESERVED: [TokenKind; 27] = [
    TokenKind::After,
    TokenKind::And,
    TokenKind::AndAlso,
    TokenKind::Band,
    TokenKind::Begin,
    TokenKind::Bnot,
    TokenKind::Bor,
    TokenKind::Bsl,
    TokenKind::Bsr,
    TokenKind::Bxor,
    TokenKind::Case,
    TokenKind::Catch,
    TokenKind::Cond,
    TokenKind::Div,
    TokenKind::End,
    TokenKind::Fun,
    TokenKind::If,
    TokenKind::Let,
    TokenKind::Not,
    TokenKind::Of,
    TokenKind::Or,
    TokenKind::OrElse,
    TokenKind::Receive,
    TokenKind::Rem,
    TokenKind::Try,
    TokenKind::When,
    TokenKind::Xor,
];

/// The marks, each before those that it begins with.
pub const MARKS: [TokenKind; 39] = [
    TokenKind::TripleDot,
    TokenKind::ExactlyEqual,
    TokenKind::ExactlyNotEqual,
    TokenKind::DoubleColon,
    TokenKind::DoubleBar,
    TokenKind::Arrow,
    TokenKind::LeftArrow,
    TokenKind::DoubleLeftArrow,
    TokenKind::LeftBits,
    TokenKind::RightBits,
    TokenKind::Equal,
    TokenKind::NotEqual,
    TokenKind::AtMost,
    TokenKind::AtLeast,
    TokenKind::Becomes,
    TokenKind::MapsTo,
    TokenKind::DoublePlus,
    TokenKind::DoubleMinus,
    TokenKind::DoubleDot,
    TokenKind::LeftParen,
    TokenKind::RightParen,
    TokenKind::LeftBracket,
    TokenKind::RightBracket,
    TokenKind::LeftBrace,
    TokenKind::RightBrace,
    TokenKind::Comma,
    TokenKind::Semicolon,
    TokenKind::Colon,
    TokenKind::Bar,
    TokenKind::Match,
    TokenKind::Less,
    TokenKind::Greater,
    TokenKind::Plus,
    TokenKind::Minus,
    TokenKind::Star,
    TokenKind::Slash,
    TokenKind::Bang,
    TokenKind::Question,
    TokenKind::Hash,
];

/// Of the marks with which a text begins, the first of `MARKS` is a longest one.
pub fn longest_mark_first()
    ensures { (bs : List ℕ) (kind : TokenKind) → find (begins_with bs) MARKS ≡ Some kind → All (λ other. begins_with bs other ≡ true → length (spelling other) ≤ length (spelling kind)) MARKS }
{}

/// Whether the word is spelled so.
fn is_spelled(word: &[u8], kind: TokenKind) -> bool
    ensures { result ≡ is_spelled word.now kind }
{
    let spelling = kind.spelling();
    word.len() == spelling.len() && word.starts_with(spelling)
}

impl TokenKind {
    /// The reserved word that is spelled so.
    pub fn reserved(word: &[u8]) -> Option<TokenKind>
        ensures { result ≡ find (is_spelled word.now) RESERVED }
    {
        RESERVED
            .iter()
            .copied()
            .find(|kind| is_spelled(word, *kind))
    }

    /// The characters of a reserved word or a mark. The other kinds have many spellings, and give no characters here.
    pub fn spelling(self) -> &'static [u8]
        ensures { result.now ≡ spelling self }
    {
        match self {
            TokenKind::After => b"after",
            TokenKind::And => b"and",
            TokenKind::AndAlso => b"andalso",
            TokenKind::Band => b"band",
            TokenKind::Begin => b"begin",
            TokenKind::Bnot => b"bnot",
            TokenKind::Bor => b"bor",
            TokenKind::Bsl => b"bsl",
            TokenKind::Bsr => b"bsr",
            TokenKind::Bxor => b"bxor",
            TokenKind::Case => b"case",
            TokenKind::Catch => b"catch",
            TokenKind::Cond => b"cond",
            TokenKind::Div => b"div",
            TokenKind::End => b"end",
            TokenKind::Fun => b"fun",
            TokenKind::If => b"if",
            TokenKind::Let => b"let",
            TokenKind::Not => b"not",
            TokenKind::Of => b"of",
            TokenKind::Or => b"or",
            TokenKind::OrElse => b"orelse",
            TokenKind::Receive => b"receive",
            TokenKind::Rem => b"rem",
            TokenKind::Try => b"try",
            TokenKind::When => b"when",
            TokenKind::Xor => b"xor",
            TokenKind::TripleDot => b"...",
            TokenKind::ExactlyEqual => b"=:=",
            TokenKind::ExactlyNotEqual => b"=/=",
            TokenKind::DoubleColon => b"::",
            TokenKind::DoubleBar => b"||",
            TokenKind::Arrow => b"->",
            TokenKind::LeftArrow => b"<-",
            TokenKind::DoubleLeftArrow => b"<=",
            TokenKind::LeftBits => b"<<",
            TokenKind::RightBits => b">>",
            TokenKind::Equal => b"==",
            TokenKind::NotEqual => b"/=",
            TokenKind::AtMost => b"=<",
            TokenKind::AtLeast => b">=",
            TokenKind::Becomes => b":=",
            TokenKind::MapsTo => b"=>",
            TokenKind::DoublePlus => b"++",
            TokenKind::DoubleMinus => b"--",
            TokenKind::DoubleDot => b"..",
            TokenKind::LeftParen => b"(",
            TokenKind::RightParen => b")",
            TokenKind::LeftBracket => b"[",
            TokenKind::RightBracket => b"]",
            TokenKind::LeftBrace => b"{",
            TokenKind::RightBrace => b"}",
            TokenKind::Comma => b",",
            TokenKind::Semicolon => b";",
            TokenKind::Colon => b":",
            TokenKind::Bar => b"|",
            TokenKind::Match => b"=",
            TokenKind::Less => b"<",
            TokenKind::Greater => b">",
            TokenKind::Plus => b"+",
            TokenKind::Minus => b"-",
            TokenKind::Star => b"*",
            TokenKind::Slash => b"/",
            TokenKind::Bang => b"!",
            TokenKind::Question => b"?",
            TokenKind::Hash => b"#",
            TokenKind::Atom
            | TokenKind::Variable
            | TokenKind::Underscore
            | TokenKind::Integer
            | TokenKind::Character
            | TokenKind::Str
            | TokenKind::FullStop => b"",
        }
    }
}

/// A token of a text: its kind, the place of its first character, and its bytes, from `from` to before `to`.
#[derive(Clone, Copy, Debug, PartialEq, Eq)]
pub struct Token {
    pub kind: TokenKind,
    pub span: Span,
    pub from: u32,
    pub to: u32,
}

/// Why a text has no tokens.
#[derive(Clone, Copy, Debug, PartialEq, Eq)]
pub enum LexCause {
    /// A byte that belongs to no character of UTF-8 (RFC 3629).
    NotUtf8,
    /// A character at which no token begins.
    UnexpectedCharacter,
    /// A string or a quoted atom that the text's end cuts off.
    UnclosedQuote,
    /// A backslash that begins no escape.
    BadEscape,
    /// Digits before `#` that are no base of a number.
    BadNumber,
    /// Digits, a full stop and a digit.
    Float,
    /// An integer of 2^127 or more.
    IntegerTooWide,
    /// An atom of more than 255 characters.
    AtomTooLong,
    /// No fault of the text: memory ran out.
    NoMemory,
}

/// The first fault of a text, or that memory ran out (at 1:1).
#[derive(Clone, Copy, Debug, PartialEq, Eq)]
pub struct LexFault {
    pub at: Span,
    pub why: LexCause,
}

impl<T: Drop> From<AllocFailed<T>> for LexFault {
    ghost use Rattle.erl_syntax.specs.declared.token.LexCause.TheVariants.{NoMemory};
    ghost use Rattle.std.specs.Prelude.{◌≡◌};

    ghost from_gives = { λ _ e. e.why ≡ NoMemory };

    fn from(_: AllocFailed<T>) -> LexFault {
        LexFault {
            at: Span { line: 1, column: 1 },
            why: LexCause::NoMemory,
        }
    }
}

/// What stands at the front of a text. Lengths are in bytes.
#[derive(Clone, Copy, Debug, PartialEq, Eq)]
pub enum Piece {
    /// White space or a comment of that length.
    Blank(usize),
    /// A token of that kind and length.
    Token(TokenKind, usize),
    /// A fault, and how far after the front it stands.
    Fault(LexCause, usize),
}
