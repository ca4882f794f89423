ghost use Rattle.std.specs.Prelude.{◌≡◌, ◌<◌, ◌≤◌, ◌+◌, ◌^◌, length, take, All, IfOk, IfErr, None, ℕ, List, Option, Bool};
ghost use Rattle.std.specs.Str.Lossy.{utf8_valid_len};
ghost use Rattle.erl_syntax.specs.Reading.{longest_text};
ghost use Rattle.erl_syntax.specs.Tokens.{Lexes, LexesFrom, IsWithin, front, is_cut};
ghost use Rattle.erl_tokens.specs.Cutting.{IsFault};
ghost use Rattle.erl_tokens.specs.Values.{AllIntegers};
ghost use Rattle.erl_tokens.specs.Longest.{IsToken};
ghost use Rattle.erl_syntax.specs.Tokens.{piece};
ghost use Rattle.erl_syntax.specs.declared.token.TokenKind.{TokenKind};
ghost use Rattle.erl_syntax.specs.declared.token.Token.{Token};
ghost use Rattle.erl_syntax.specs.declared.token.LexFault.{LexFault};

use crate::pieces::front_piece;
use crate::spans::place_after;
use erl_syntax::{LexCause, LexFault, Piece, Span, Token, longest_mark_first};
use std::alloc::Global;

/// The bytes before the first that belongs to no character of UTF-8.
fn front(text: &[u8]) -> &[u8]
    ensures { result.now ≡ front text.now }
{
    match str::from_utf8(text) {
        Ok(_) => text,
        Err(error) => &text[..error.valid_up_to()],
    }
}

/// The tokens of a text of at most 1,048,576 bytes.
///
/// # Errors
///
/// The text's first fault, with its place and cause, or that memory ran out.
pub fn tokens(alloc: Global, text: &[u8]) -> Result<Vec<Token>, LexFault>
    requires { length text.now ≤ longest_text }
    ensures tokens { IfOk result (λ v. Lexes text.now v.items None) }
    ensures integers { IfOk result (λ v. AllIntegers text.now v.items) }
    ensures within { IfOk result (λ v. All (IsWithin text.now) v.items) }
    ensures few { IfOk result (λ v. length v.items ≤ length text.now) }
    ensures fault { IfErr result (λ fault. IsFault text.now fault) }
{
    let front = front(text);
    let cut = front.len() < text.len();
    let mut tokens = Vec::new(alloc);
    let mut span = Span { line: 1, column: 1 };
    let mut at = 0;
    while at < front.len() {
        let rest = &front[at..];
        let len = match front_piece(rest, cut) {
            Piece::Blank(len) => len,
            Piece::Token(kind, len) => {
                tokens.push(Token {
                    kind,
                    span,
                    from: at as u32,
                    to: (at + len) as u32,
                })?;
                len
            }
            Piece::Fault(why, ahead) => {
                return Err(LexFault {
                    at: place_after(&rest[..ahead], span),
                    why,
                });
            }
        };
        span = place_after(&rest[..len], span);
        at += len;
    }
    if cut {
        return Err(LexFault {
            at: span,
            why: LexCause::NotUtf8,
        });
    }
    Ok(tokens)
}

/// A text has one list of tokens, up to its end or to its first fault.
pub fn one_reading()
    ensures { (text : List ℕ) (s t : List Token) (f g : Option LexFault) → Lexes text s f → Lexes text t g → (s ≡ t) × (f ≡ g) }
{}

/// The token that stands at the front of a text lies within it and is a token by itself, and no longer front of the text is.
pub fn longest_token()
    ensures itself { (cut : Bool) (bs : List ℕ) (kind : TokenKind) (n : ℕ) → piece cut bs ≡ Piece.Token kind n → (0 < n) × (n ≤ length bs) × IsToken kind (take n bs) }
    ensures longest { (cut : Bool) (bs : List ℕ) (kind other : TokenKind) (n m : ℕ) → piece cut bs ≡ Piece.Token kind n → n < m → m ≤ length bs → IsToken other (take m bs) → ⊥ }
{
    longest_mark_first();
}
