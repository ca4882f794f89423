ghost use Rattle.std.specs.Prelude.{◌≡◌, ◌≢◌, ◌≤◌, ◌<◌, ◌+◌, ◌^◌, ◌↔◌, ◌∷◌, [], List, length, drop, take, pos, false, IsTrue, IfOk, IfSome, OnSome, MatchOption};
ghost use Rattle.std.specs.Prelude.{All};
ghost use Rattle.pattern_read.specs.Cursor.{StandsAt, IsSound, words, limits_of, characters_of};
ghost use Rattle.erl_syntax.specs.Grammar.{strict};
ghost use Rattle.pattern_read.specs.Wanted.{IsAt, AtomAt, ModuleAt, NoMark, NoModule, FirstCause, mark_in};
ghost use Rattle.pattern_read.specs.Reading.{Gives, closed};
ghost use Rattle.erl_syntax.specs.Word.{Word};
ghost use Rattle.erl_syntax.specs.declared.token.TokenKind.TheVariants as k;

use crate::fault::{Cause, Fault};
use crate::operators::begins_size;
use erl_syntax::{Listed, Text, Token, TokenKind};
use erl_tokens::atom_text;
use std::alloc::{AllocError, Global};
use std::marker::Model;

/// How deep a tree of a module may be.
const DEEPEST_TREE: usize = 256;

/// How many brackets and block words of a module may be open.
const MOST_BRACKETS: usize = 64;

/// Far deeper than any text that is read: those have at most 2^20 bytes.
const NO_LIMIT: usize = 1 << 32;

/// The tokens of a text with what they stand for, and how deep a module may be that is read of them. Contracts see the list
/// of their words with these limits.
#[derive(Debug, Drop)]
pub struct Cursor {
    text: Vec<u8>,
    /// The characters of each string.
    strings: Vec<Listed<u32>>,
    tokens: Vec<Numbered>,
    /// How deep a tree may be.
    trees: usize,
    /// How many brackets and block words may be open.
    brackets: usize,
}

/// A token with the number that it stands for. Strings that follow one another are one, with the first one's token.
#[derive(Clone, Copy, Debug, PartialEq, Eq)]
pub struct Numbered {
    pub token: Token,
    /// An atom's number among the module's atoms, the number of a character, or a string's number among the strings.
    pub number: u32,
    /// The value of an integer.
    pub value: u128,
}

impl Numbered {
    /// The value of an integer, which is below 2^127.
    pub fn integer(&self) -> i128
        requires { self.now.value < 2 ^ 127 }
        ensures { result ≡ pos self.now.value }
    {
        self.value as i128
    }

    /// Whether a string's number is below that of the strings.
    fn is_known(&self, strings: usize) -> bool
        ensures { IsTrue result ↔ (self.now.token.kind ≡ k.Str → self.now.number < strings) }
    {
        match self.token.kind {
            TokenKind::Str => (self.number as usize) < strings,
            _ => true,
        }
    }

    /// Whether the value is below 2^127, the token stands in the text, and a string has its characters.
    fn is_sound(&self, text: &[u8], strings: &[Listed<u32>]) -> bool
        ensures { IsTrue result ↔ IsSound text.now strings.now self.now }
    {
        self.value < 1 << 127
            && self.token.from <= self.token.to
            && self.token.to as usize <= text.len()
            && self.is_known(strings.len())
    }
}

/// Whether tokens are those of a text with the characters of its strings, as `Cursor::of` asks: each stands in the text, its
/// value is below 2^127, and a string's number is below that of the strings.
pub fn are_sound(text: &[u8], strings: &[Listed<u32>], tokens: &[Numbered]) -> bool
    ensures { IsTrue result ↔ All (IsSound text.now strings.now) tokens.now }
{
    tokens
        .iter()
        .all(|numbered| numbered.is_sound(text, strings))
}

impl Model for Cursor {
    ghost use Rattle.std.specs.Prelude.{All, ◌≤◌, ◌^◌};
    ghost use Rattle.pattern_read.specs.Cursor.{words, limits_of, IsSound, Readable};

    ghost Value = { Readable };

    ghost view = { λ cursor. record { words = words cursor.text.items cursor.strings.items cursor.tokens.items; limits = limits_of cursor.trees cursor.brackets } };

    ghost invariant = { λ cursor. All (IsSound cursor.text.items cursor.strings.items) cursor.tokens.items × (256 ≤ cursor.trees) × (cursor.trees ≤ 2 ^ 32) × (64 ≤ cursor.brackets) × (cursor.brackets ≤ 2 ^ 32) };
}

impl Cursor {
    /// A text with the characters of its strings and its tokens, to be read within the limits of modules. Takes no memory.
    pub fn of(text: Vec<u8>, strings: Vec<Listed<u32>>, tokens: Vec<Numbered>) -> Cursor
        requires { All (IsSound text.items strings.items) tokens.items }
        ensures { result ≡ record { words = words text.items strings.items tokens.items; limits = strict } }
    {
        Cursor {
            text,
            strings,
            tokens,
            trees: DEEPEST_TREE,
            brackets: MOST_BRACKETS,
        }
    }

    /// The tokens before that index alone, to be read however deep: the limits are past all that a text can have. Takes no
    /// memory.
    pub fn front(self, count: usize) -> Cursor
        ensures { result ≡ record { words = take count self.words; limits = limits_of (2 ^ 32) (2 ^ 32) } }
    {
        let mut tokens = self.tokens;
        tokens.truncate(count);
        Cursor {
            text: self.text,
            strings: self.strings,
            tokens,
            trees: NO_LIMIT,
            brackets: NO_LIMIT,
        }
    }

    /// How deep a tree may be.
    pub fn trees(&self) -> usize
        ensures trees { result ≡ self.now.limits.trees }
        ensures least { 256 ≤ self.now.limits.trees }
        ensures bounded { self.now.limits.trees ≤ 2 ^ 32 }
    {
        self.trees
    }

    /// How many brackets and block words may be open.
    pub fn brackets(&self) -> usize
        ensures brackets { result ≡ self.now.limits.brackets }
        ensures least { 64 ≤ self.now.limits.brackets }
        ensures bounded { self.now.limits.brackets ≤ 2 ^ 32 }
    {
        self.brackets
    }

    /// How many tokens there are.
    pub fn len(&self) -> usize
        ensures { result ≡ length self.now.words }
    {
        self.tokens.len()
    }

    /// The token of that index.
    pub fn token(&self, at: usize) -> Option<Numbered>
        requires { at ≤ length self.now.words }
        ensures token { MatchOption result (drop at self.now.words ≡ []) (λ t. StandsAt self.now at t) }
        ensures within { OnSome result (at < length self.now.words) }
        ensures narrow { IfSome result (λ t. t.value < 2 ^ 127) }
        ensures short { length self.now.words < 2 ^ 64 }
        ensures trees { self.now.limits.trees ≤ 2 ^ 32 }
        ensures brackets { self.now.limits.brackets ≤ 2 ^ 32 }
    {
        if at < self.tokens.len() {
            Some(self.tokens[at])
        } else {
            None
        }
    }

    /// Whether a token of that kind stands there.
    pub fn is(&self, at: usize, kind: TokenKind) -> bool
        requires { at ≤ length self.now.words }
        ensures yes { IsTrue result → IsAt self.now at kind }
        ensures no { result ≡ false → NoMark kind (drop at self.now.words) }
        ensures within { IsTrue result → at < length self.now.words }
        ensures short { length self.now.words < 2 ^ 64 }
        ensures trees { self.now.limits.trees ≤ 2 ^ 32 }
        ensures brackets { self.now.limits.brackets ≤ 2 ^ 32 }
    {
        let Some(numbered) = self.token(at) else {
            return false;
        };
        if numbered.token.kind == kind {
            true
        } else {
            false
        }
    }

    /// The number of the atom that stands there.
    pub fn atom(&self, at: usize) -> Option<u32>
        requires { at ≤ length self.now.words }
        ensures atom { MatchOption result (NoMark k.Atom (drop at self.now.words)) (λ n. AtomAt self.now at n) }
        ensures within { OnSome result (at < length self.now.words) }
        ensures short { length self.now.words < 2 ^ 64 }
        ensures trees { self.now.limits.trees ≤ 2 ^ 32 }
        ensures brackets { self.now.limits.brackets ≤ 2 ^ 32 }
    {
        let Some(numbered) = self.token(at) else {
            return None;
        };
        if numbered.token.kind == TokenKind::Atom {
            Some(numbered.number)
        } else {
            None
        }
    }

    /// The bytes of the name that stands there.
    pub fn name(&self, alloc: Global, at: usize) -> Result<Text, AllocError>
        requires { at < length self.now.words }
        ensures { IfOk result (λ name. (w : Word) (rest : List Word) → drop at self.now.words ≡ w ∷ rest → w.kind ≡ k.Variable → name ≡ w.chars) }
    {
        let bytes = self.bytes(at).to_vec(alloc)?;
        Ok(Text::of(bytes))
    }

    /// Whether the variable `MODULE` stands there.
    pub fn is_module(&self, at: usize) -> bool
        requires { at ≤ length self.now.words }
        ensures yes { IsTrue result → ModuleAt self.now at }
        ensures no { result ≡ false → NoModule (drop at self.now.words) }
        ensures within { IsTrue result → at < length self.now.words }
        ensures short { length self.now.words < 2 ^ 64 }
        ensures trees { self.now.limits.trees ≤ 2 ^ 32 }
        ensures brackets { self.now.limits.brackets ≤ 2 ^ 32 }
    {
        if !self.is(at, TokenKind::Variable) {
            return false;
        }
        if self.bytes(at) == b"MODULE".as_slice() {
            true
        } else {
            false
        }
    }

    /// The characters of the atom that stands there. One in quotes is the same atom as without them.
    pub fn atom_characters(&self, alloc: Global, at: usize) -> Result<Text, AllocError>
        requires { at < length self.now.words }
        ensures { IfOk result (λ chars. (w : Word) (rest : List Word) → drop at self.now.words ≡ w ∷ rest → w.kind ≡ k.Atom → chars ≡ w.chars) }
    {
        atom_text(alloc, self.bytes(at))
    }

    /// The numbers of the characters of the string that stands there.
    pub fn string(&self, alloc: Global, at: usize) -> Result<Listed<u32>, AllocError>
        requires { at < length self.now.words }
        ensures { IfOk result (λ chars. (w : Word) (rest : List Word) → drop at self.now.words ≡ w ∷ rest → w.kind ≡ k.Str → chars ≡ w.chars) }
    {
        let number = self.tokens[at].number as usize;
        match self.strings.get(number) {
            Some(chars) => Ok(Listed::of(chars.items().to_vec(alloc)?)),
            None => Ok(Listed::of(Vec::new(alloc))),
        }
    }

    /// The bytes of the token that stands there. Those of a string are the first one's alone.
    fn bytes(&self, at: usize) -> &[u8]
        requires { at < length self.now.words }
        ensures { (w : Word) (rest : List Word) → drop at self.now.words ≡ w ∷ rest → w.kind ≢ k.Str → w.chars ≡ characters_of w.kind result.now }
    {
        let token = self.tokens[at].token;
        &self.text[token.from as usize..token.to as usize]
    }
}

/// Reads a token of that kind.
pub fn mark(cursor: &Cursor, at: usize, kind: TokenKind) -> Result<((), usize), Fault>
    requires { at ≤ length cursor.now.words }
    ensures reads { Gives closed (mark_in kind) cursor.now at result }
    ensures further { IfOk result (λ r. (r.1 ≡ at + 1) × (at < length cursor.now.words)) }
{
    if cursor.is(at, kind) {
        Ok(((), at + 1))
    } else {
        Err(Fault::Refused(at, Cause::Syntax))
    }
}

/// Why no expression of a size stands where it would be too deep.
pub fn first_cause(cursor: &Cursor, at: usize) -> Cause
    requires { at ≤ length cursor.now.words }
    ensures { FirstCause (drop at cursor.now.words) result }
{
    let Some(numbered) = cursor.token(at) else {
        return Cause::Syntax;
    };
    if begins_size(numbered.token.kind) {
        Cause::TooDeep
    } else {
        Cause::Syntax
    }
}
