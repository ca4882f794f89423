ghost use Rattle.std.specs.Prelude.{◌≡◌, ◌≢◌, ◌≤◌, ◌<◌, ◌+◌, ◌++◌, ◌^◌, ℕ, List, [], map, length, drop, slice_index_or, All, IfOk, OnOk, IsTrue, false};
ghost use Rattle.erl_syntax.specs.declared.token.Token.{Token};
ghost use Rattle.erl_syntax.specs.Atoms.{fixed_atoms};
ghost use Rattle.erl_syntax.specs.Characters.{integer_value, string_characters};
ghost use Rattle.erl_syntax.specs.Reading.{with_atom, number_in, after_token, atoms_of, words_of, word_of, StandOnce};
ghost use Rattle.erl_syntax.specs.Tokens.{IsWithin, token_text};
ghost use Rattle.erl_syntax.specs.declared.token.TokenKind.TheVariants as k;
ghost use Rattle.erl_tokens.specs.Values.{IsInteger, AllIntegers};
ghost use Rattle.pattern_read.specs.Cursor.{IsSound, words, word_of as word_with};
ghost use Rattle.clause_read.specs.Numbering.{with_each, BeginsString, NoString, IsString, IsNumberedTo};

use erl_syntax::{FIXED_ATOMS, Listed, Text, Token, TokenKind};
use erl_tokens::{atom_text, character_number, integer_value, string_characters};
use indexmap::IndexSet;
use pattern_read::cursor::Numbered;
use std::alloc::{AllocError, Global};
use std::marker::Model;

/// Atoms in the order of their numbers, which contracts see as the list of their characters.
#[derive(Drop)]
pub struct Atoms {
    names: IndexSet<Vec<u8>>,
}

impl Model for Atoms {
    ghost use Rattle.std.specs.Prelude.{ℕ, List, map};

    ghost Value = { List (List ℕ) };

    ghost view = { λ atoms. map (λ name. name.items) atoms.names.keys };
}

impl Atoms {
    /// No atoms.
    pub fn new(alloc: Global) -> Atoms
        ensures { result ≡ [] }
    {
        Atoms {
            names: IndexSet::new(alloc),
        }
    }

    /// These atoms, each once.
    fn of(alloc: Global, names: &[&[u8]]) -> Result<Atoms, AllocError>
        ensures { IfOk result (λ atoms. atoms ≡ with_each [] (map (λ name. name.now) names.now)) }
    {
        let mut atoms = Atoms::new(alloc);
        for name in names {
            atoms.number(alloc, name)?;
        }
        Ok(atoms)
    }

    /// The atoms that the rules name.
    pub fn fixed(alloc: Global) -> Result<Atoms, AllocError>
        ensures { IfOk result (λ atoms. atoms ≡ fixed_atoms) }
    {
        Atoms::of(alloc, &FIXED_ATOMS)
    }

    /// The number of the atom with these characters, which is put behind the others where it isn't among them.
    pub fn number(&mut self, alloc: Global, characters: &[u8]) -> Result<usize, AllocError>
        ensures table { OnOk result (self.new ≡ with_atom self.old characters.now) }
        ensures number { IfOk result (λ n. n ≡ number_in self.new characters.now) }
        ensures one_more { OnOk result (length self.new ≤ length self.old + 1) }
        ensures within { IfOk result (λ n. n < length self.new) }
    {
        let (number, _) = self.names.insert_full(characters.to_vec(alloc)?)?;
        Ok(number)
    }

    /// The characters of the atoms.
    pub fn names(&self, alloc: Global) -> Result<Listed<Text>, AllocError>
        ensures { IfOk result (λ names. names ≡ self.now) }
    {
        let mut names = Vec::with_capacity(alloc, self.names.len())?;
        for name in self.names.as_slice() {
            names.push(Text::of(name.as_slice().to_vec(alloc)?))?;
        }
        Ok(Listed::of(names))
    }
}

/// The value of the bytes of an integer.
fn value(bytes: &[u8]) -> u128
    requires { IsInteger bytes.now }
    ensures value { result ≡ integer_value bytes.now }
    ensures narrow { result < 2 ^ 127 }
{
    match integer_value(bytes) {
        Some(value) => value as u128,
        None => 0,
    }
}

/// A token but a string's with what it stands for. Its atom is put behind the others where it isn't among them.
fn numbered(
    alloc: Global,
    atoms: &mut Atoms,
    text: &[u8],
    token: Token,
) -> Result<Numbered, AllocError>
    requires within { IsWithin text.now token }
    requires integer { token.kind ≡ k.Integer → IsInteger (token_text text.now token) }
    requires few { length atoms.old < 2 ^ 31 }
    requires other { token.kind ≢ k.Str }
    ensures table { OnOk result (atoms.new ≡ after_token atoms.old token.kind (token_text text.now token)) }
    ensures word { IfOk result (λ n. (strings : List (List ℕ)) → word_with text.now strings n ≡ word_of text.now atoms.new token) }
    ensures sound { IfOk result (λ n. (strings : List (List ℕ)) → IsSound text.now strings n) }
    ensures one_more { OnOk result (length atoms.new ≤ length atoms.old + 1) }
{
    let bytes = &text[token.from as usize..token.to as usize];
    match token.kind {
        TokenKind::Atom => {
            let characters = atom_text(alloc, bytes)?;
            let number = atoms.number(alloc, characters.bytes())? as u32;
            Ok(Numbered {
                token,
                number,
                value: 0,
            })
        }
        TokenKind::Character => Ok(Numbered {
            token,
            number: character_number(bytes),
            value: 0,
        }),
        TokenKind::Integer => Ok(Numbered {
            token,
            number: 0,
            value: value(bytes),
        }),
        _ => Ok(Numbered {
            token,
            number: 0,
            value: 0,
        }),
    }
}

/// Whether a string stands at that index.
fn is_string_at(tokens: &[Token], at: usize) -> bool
    requires { at ≤ length tokens.now }
    ensures yes { IsTrue result → BeginsString (drop at tokens.now) }
    ensures no { result ≡ false → NoString (drop at tokens.now) }
    ensures within { IsTrue result → at < length tokens.now }
{
    if at == tokens.len() {
        return false;
    }
    match tokens[at].kind {
        TokenKind::Str => true,
        _ => false,
    }
}

/// The characters of a string alone.
fn characters(alloc: Global, text: &[u8], token: Token) -> Result<Vec<u32>, AllocError>
    requires { IsWithin text.now token }
    ensures { IfOk result (λ chars. chars.items ≡ string_characters (token_text text.now token)) }
{
    string_characters(alloc, &text[token.from as usize..token.to as usize])
}

/// The characters of the string that begins at that index, with those of the strings that follow it, and the index behind them.
fn string_at(
    alloc: Global,
    text: &[u8],
    tokens: &[Token],
    from: usize,
) -> Result<(Vec<u32>, usize), AllocError>
    requires within { All (IsWithin text.now) tokens.now }
    requires there { from < length tokens.now }
    requires kind { BeginsString (drop from tokens.now) }
    ensures string { IfOk result (λ r. (d : Token) → IsString text.now (drop from tokens.now) (drop r.1 tokens.now) (slice_index_or tokens.now from d) r.0.items) }
    ensures further { IfOk result (λ r. (from < r.1) × (r.1 ≤ length tokens.now)) }
{
    let mut chars = characters(alloc, text, tokens[from])?;
    let mut at = from + 1;
    while is_string_at(tokens, at) {
        let more = characters(alloc, text, tokens[at])?;
        chars.extend_from_slice(more.as_slice())?;
        at += 1;
    }
    Ok((chars, at))
}

/// What the tokens of a text stand for, as far as they are read.
#[derive(Drop)]
pub struct Numbering {
    pub atoms: Atoms,
    /// The characters of each string.
    pub strings: Vec<Listed<u32>>,
    pub read: Vec<Numbered>,
}

impl Numbering {
    /// No tokens are read.
    fn new(alloc: Global) -> Result<Numbering, AllocError>
        ensures { IfOk result (λ n. (text : List ℕ) (tokens : List Token) → IsNumberedTo text tokens 0 n) }
    {
        Ok(Numbering {
            atoms: Atoms::fixed(alloc)?,
            strings: Vec::new(alloc),
            read: Vec::new(alloc),
        })
    }

    /// Reads the token of that index, or the strings that follow one another from there on, which are one. The index behind.
    fn next(
        &mut self,
        alloc: Global,
        text: &[u8],
        tokens: &[Token],
        at: usize,
    ) -> Result<usize, AllocError>
        requires within { All (IsWithin text.now) tokens.now }
        requires integers { AllIntegers text.now tokens.now }
        requires few { length tokens.now < 2 ^ 30 }
        requires there { at < length tokens.now }
        requires numbered { IsNumberedTo text.now tokens.now at self.old }
        ensures numbered { IfOk result (λ next. IsNumberedTo text.now tokens.now next self.new) }
        ensures further { IfOk result (λ next. (at < next) × (next ≤ length tokens.now)) }
    {
        let token = tokens[at];
        if is_string_at(tokens, at) {
            let (chars, behind) = string_at(alloc, text, tokens, at)?;
            let number = self.strings.len() as u32;
            self.strings.push(Listed::of(chars))?;
            self.read.push(Numbered {
                token,
                number,
                value: 0,
            })?;
            Ok(behind)
        } else {
            let word = numbered(alloc, &mut self.atoms, text, token)?;
            self.read.push(word)?;
            Ok(at + 1)
        }
    }
}

/// What the tokens of a text stand for: its atoms by their numbers, the characters of its strings, and the tokens with their
/// numbers, of strings that follow one another the first one's.
pub fn number(alloc: Global, text: &[u8], tokens: &[Token]) -> Result<Numbering, AllocError>
    requires within { All (IsWithin text.now) tokens.now }
    requires integers { AllIntegers text.now tokens.now }
    requires few { length tokens.now < 2 ^ 30 }
    ensures atoms { IfOk result (λ n. n.atoms ≡ atoms_of text.now tokens.now) }
    ensures words { IfOk result (λ n. words text.now n.strings.items n.read.items ≡ words_of text.now (atoms_of text.now tokens.now) tokens.now) }
    ensures sound { IfOk result (λ n. All (IsSound text.now n.strings.items) n.read.items) }
{
    let mut numbering = Numbering::new(alloc)?;
    let mut at = 0;
    while at < tokens.len() {
        at = numbering.next(alloc, text, tokens, at)?;
    }
    Ok(numbering)
}

/// The table of a text's atoms begins with the fixed atoms and has each atom once: its number is its place.
pub fn atoms_stand_once()
    ensures fixed { (text : List ℕ) (tokens : List Token) → (more : List (List ℕ)) × (atoms_of text tokens ≡ fixed_atoms ++ more) }
    ensures once { (text : List ℕ) (tokens : List Token) → StandOnce (atoms_of text tokens) }
{}
