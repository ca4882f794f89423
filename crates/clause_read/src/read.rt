ghost use Rattle.std.specs.Prelude.{◌≡◌, ◌≤◌, ◌⊎◌, length, drop, IfOk, IfErr};
ghost use Rattle.erl_syntax.specs.Reading.{Reads, longest_text};
ghost use Rattle.erl_syntax.specs.Tokens.{place};
ghost use Rattle.erl_syntax.specs.declared.module.Module.{Module};
ghost use Rattle.clause_read.specs.ReadText.{IsReadFault, fault_at, place_in};
ghost use Rattle.clause_read.specs.declared.read.ReadCause.TheVariants.{NoMemory};

use crate::forms::{ModuleForms, read_forms};
use crate::numbering::number;
use crate::second::told_of;
use erl_syntax::{LONGEST_TEXT, LexCause, LexFault, Listed, Module, Span, Text};
use erl_tokens::{one_reading, place_after, tokens};
use pattern_read::cursor::Cursor;
use pattern_read::fault::Fault;
use std::alloc::{AllocError, Global};

/// Why a text isn't read as a module.
#[derive(Clone, Copy, Debug, PartialEq, Eq)]
pub enum ReadCause {
    /// A text of more than 1,048,576 bytes.
    TextTooLong,
    /// A text that has a fault of tokens.
    Token(LexCause),
    /// A token with which no module goes on.
    Syntax,
    /// A token with which only a deeper module goes on.
    TooDeep,
    /// An atom that is the name of no attribute, in the place of one.
    UnknownAttribute,
    /// An atom that is no word of a segment's type, in the place of one.
    UnknownSegmentType,
    /// No fault of the text: memory ran out.
    NoMemory,
}

/// The first fault of a text that spells no module, or that memory ran out (at 1:1).
#[derive(Clone, Copy, Debug, PartialEq, Eq)]
pub struct ReadFault {
    pub line: u32,
    pub column: u32,
    pub why: ReadCause,
}

impl From<LexFault> for ReadFault {
    ghost use Rattle.clause_read.specs.ReadText.{fault_at, told_of_token};
    ghost use Rattle.std.specs.Prelude.{◌≡◌};

    ghost from_gives = { λ f e. e ≡ fault_at f.at (told_of_token f.why) };

    fn from(fault: LexFault) -> ReadFault {
        let why = match fault.why {
            LexCause::NoMemory => ReadCause::NoMemory,
            why => ReadCause::Token(why),
        };
        ReadFault {
            line: fault.at.line,
            column: fault.at.column,
            why,
        }
    }
}

impl From<AllocError> for ReadFault {
    ghost use Rattle.clause_read.specs.declared.read.ReadCause.TheVariants.{NoMemory};
    ghost use Rattle.std.specs.Prelude.{◌≡◌};

    ghost from_gives = { λ _ e. e.why ≡ NoMemory };

    fn from(_: AllocError) -> ReadFault {
        ReadFault {
            line: 1,
            column: 1,
            why: ReadCause::NoMemory,
        }
    }
}

/// A fault at that place.
fn fault_at(at: Span, why: ReadCause) -> ReadFault
    ensures { result ≡ fault_at at why }
{
    ReadFault {
        line: at.line,
        column: at.column,
        why,
    }
}

/// The place of the token of that index, or the end of the text.
fn place_of(cursor: &Cursor, at: usize, last: Span) -> Span
    ensures { result ≡ place_in last (drop at cursor.now.words) }
{
    if cursor.len() <= at {
        return last;
    }
    match cursor.token(at) {
        Some(numbered) => numbered.token.span,
        None => last,
    }
}

/// The place of the end of a text.
fn end_of(text: &[u8]) -> Span
    requires { length text.now ≤ longest_text }
    ensures { result ≡ place text.now (length text.now) }
{
    place_after(text, Span { line: 1, column: 1 })
}

/// A module of its parts.
fn module_from(forms: ModuleForms, atoms: Listed<Text>, last: Span) -> Module
    ensures { result ≡ record { heads = forms.heads; exports = forms.exports; functions = forms.functions; atoms = atoms; last = last } }
{
    Module {
        heads: forms.heads,
        exports: forms.exports,
        functions: forms.functions,
        atoms,
        last,
    }
}

/// The module that a text spells.
///
/// # Errors
///
/// The text's first fault, with its place and cause, or that memory ran out.
pub fn read_module(alloc: Global, text: &[u8]) -> Result<Module, ReadFault>
    ensures module { IfOk result (λ m. Reads text.now m) }
    ensures only { IfOk result (λ m. (other : Module) → Reads text.now other → other ≡ m) }
    ensures fault { IfErr result (λ f. IsReadFault text.now f) }
    ensures none { IfErr result (λ f. (f.why ≡ NoMemory) ⊎ ((m : Module) → Reads text.now m → ⊥)) }
{
    if text.len() > LONGEST_TEXT {
        return Err(fault_at(Span { line: 1, column: 1 }, ReadCause::TextTooLong));
    }
    one_reading();
    let found = tokens(alloc, text)?;
    let numbering = number(alloc, text, found.as_slice())?;
    let atoms = numbering.atoms.names(alloc)?;
    let cursor = Cursor::of(text.to_vec(alloc)?, numbering.strings, numbering.read);
    let last = end_of(text);
    match read_forms(alloc, &cursor) {
        Ok(forms) => Ok(module_from(forms, atoms, last)),
        Err(Fault::Memory) => Err(fault_at(Span { line: 1, column: 1 }, ReadCause::NoMemory)),
        Err(Fault::Refused(at, why)) => {
            let place = place_of(&cursor, at, last);
            Err(fault_at(place, told_of(alloc, cursor, at, why)))
        }
    }
}
