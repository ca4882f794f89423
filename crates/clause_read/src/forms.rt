ghost use Rattle.std.specs.Prelude.{◌≡◌, ◌≤◌, ◌<◌, ◌+◌, ◌↔◌, IsTrue, IfOk, IfErr, OnOk, MatchOption, length, drop, pos, ◌^◌};
ghost use Rattle.std.specs.List.{Contains};
ghost use Rattle.erl_syntax.specs.Names.{IsAttribute, skipped_words};
ghost use Rattle.erl_syntax.specs.declared.token.TokenKind.TheVariants as k;
ghost use Rattle.pattern_read.specs.Reading.{Gives, closed};
ghost use Rattle.pattern_read.specs.Wanted.{IsAt, NoMark};
ghost use Rattle.pattern_read.specs.declared.fault.Fault.TheVariants.{Memory};
ghost use Rattle.clause_read.specs.declared.forms.Attribute.TheVariants as a;
ghost use Rattle.clause_read.specs.declared.forms.ModuleForms.{ModuleForms};
ghost use Rattle.body_read.specs.WantedExprs.{body_longer};
ghost use Rattle.clause_read.specs.WantedForms.{clause_in, collected_before, with_form, with_function, Adds, ReadsForms, AttributeAt, BeginsForm, Means, name_in, names_in, skipped_in, listed, TokenOf, with_head, with_exports, with_skipped};

use body_read::bodies::{body, guarded};
use erl_syntax::{Clause, Function, Head, Listed, Name, TokenKind};
use pattern_read::cursor::{Cursor, Numbered};
use pattern_read::fault::{Cause, Fault};
use pattern_read::patterns::patterns;
use std::alloc::Global;

/// What the forms of a module hold, each in the order of the text.
#[derive(Debug, Drop)]
pub struct ModuleForms {
    pub heads: Listed<Head>,
    pub exports: Listed<Name>,
    pub functions: Listed<Function>,
}

/// A form, with what it adds to the module.
#[derive(Debug, Drop)]
enum Form {
    Head(Head),
    Exports(Vec<Name>),
    Skipped,
    Function(Function),
}

/// Forms that have been read.
#[derive(Debug, Drop)]
struct Collected {
    heads: Vec<Head>,
    exports: Vec<Name>,
    functions: Vec<Function>,
}

impl Collected {
    /// Adds one form behind the others.
    fn push(&mut self, form: Form) -> Result<(), Fault>
        ensures added { OnOk result ((r : ModuleForms) → collected_before self.new r ≡ collected_before self.old (with_form form r)) }
        ensures memory { IfErr result (λ e. e ≡ Memory) }
    {
        match form {
            Form::Head(head) => self.heads.push(head)?,
            Form::Exports(mut names) => self.exports.append(&mut names)?,
            Form::Skipped => {}
            Form::Function(function) => self.functions.push(function)?,
        }
        Ok(())
    }
}

/// What the atom behind a form's `-` says of the form.
#[derive(Clone, Copy, Debug, PartialEq, Eq)]
pub enum Attribute {
    Module,
    Export,
    /// The form has no effect.
    Skipped,
}

/// The attributes whose forms have no effect.
const SKIPPED: [&[u8]; 9] = [
    b"spec",
    b"type",
    b"opaque",
    b"export_type",
    b"compile",
    b"author",
    b"vsn",
    b"doc",
    b"moduledoc",
];

/// Whether forms of the attribute with these characters have no effect.
fn is_skipped(characters: &[u8]) -> bool
    ensures { IsTrue result ↔ Contains skipped_words characters.now }
{
    SKIPPED.contains(&characters)
}

/// The attribute with these characters.
fn attribute_named(characters: &[u8]) -> Option<Attribute>
    ensures { MatchOption result (IsAttribute characters.now → ⊥) (λ attribute. Means attribute characters.now) }
{
    if characters == b"module".as_slice() {
        Some(Attribute::Module)
    } else if characters == b"export".as_slice() {
        Some(Attribute::Export)
    } else if is_skipped(characters) {
        Some(Attribute::Skipped)
    } else {
        None
    }
}

/// The attribute of a form that begins with `-`.
fn attribute_at(alloc: Global, cursor: &Cursor, at: usize) -> Result<Attribute, Fault>
    requires begins { IsAt cursor.now at k.Minus }
    requires place { at < length cursor.now.words }
    requires short { length cursor.now.words < 2 ^ 64 }
    ensures attribute { BeginsForm cursor.now at result }
    ensures within { OnOk result (at + 2 ≤ length cursor.now.words) }
{
    if !cursor.is(at + 1, TokenKind::Atom) {
        return Err(Fault::Refused(at + 1, Cause::Syntax));
    }
    let characters = cursor.atom_characters(alloc, at + 1)?;
    match attribute_named(characters.bytes()) {
        Some(attribute) => Ok(attribute),
        None => Err(Fault::Refused(at + 1, Cause::UnknownAttribute)),
    }
}

/// The rest of a form that has no effect.
fn skipped(cursor: &Cursor, at: usize) -> Result<((), usize), Fault>
    requires place { at ≤ length cursor.now.words }
    ensures reads { Gives closed skipped_in cursor.now at result }
    ensures further { IfOk result (λ r. at < r.1 × (r.1 ≤ length cursor.now.words)) }
{
    let mut next = at;
    while let Some(numbered) = cursor.token(next) {
        if numbered.token.kind == TokenKind::FullStop {
            return Ok(((), next + 1));
        }
        next += 1;
    }
    Err(Fault::Refused(next, Cause::Syntax))
}

/// The name of an atom and an integer.
fn named(atom: Numbered, arity: Numbered) -> Name
    requires { arity.value < 2 ^ 127 }
    ensures { result ≡ record { at = atom.token.span; name = atom.number; arity = pos arity.value } }
{
    Name {
        at: atom.token.span,
        name: atom.number,
        arity: arity.integer(),
    }
}

/// A token of that kind.
fn token_of(cursor: &Cursor, at: usize, kind: TokenKind) -> Result<Numbered, Fault>
    requires { at ≤ length cursor.now.words }
    ensures token { TokenOf cursor.now at kind result }
    ensures within { IfOk result (λ n. (n.value < 2 ^ 127) × (at < length cursor.now.words)) }
    ensures short { length cursor.now.words < 2 ^ 64 }
{
    let Some(numbered) = cursor.token(at) else {
        return Err(Fault::Refused(at, Cause::Syntax));
    };
    if numbered.token.kind == kind {
        Ok(numbered)
    } else {
        Err(Fault::Refused(at, Cause::Syntax))
    }
}

/// A name with its number of arguments.
fn name(cursor: &Cursor, at: usize) -> Result<(Name, usize), Fault>
    requires place { at ≤ length cursor.now.words }
    ensures reads { Gives closed name_in cursor.now at result }
    ensures further { IfOk result (λ r. at < r.1 × (r.1 ≤ length cursor.now.words)) }
{
    let atom = token_of(cursor, at, TokenKind::Atom)?;
    token_of(cursor, at + 1, TokenKind::Slash)?;
    let arity = token_of(cursor, at + 2, TokenKind::Integer)?;
    Ok((named(atom, arity), at + 3))
}

/// Names up to the closing bracket.
fn names(alloc: Global, cursor: &Cursor, at: usize) -> Result<(Vec<Name>, usize), Fault>
    requires place { at ≤ length cursor.now.words }
    ensures reads { Gives closed names_in cursor.now at (listed result) }
    ensures further { IfOk result (λ r. at < r.1 × (r.1 ≤ length cursor.now.words)) }
{
    let mut names = Vec::new(alloc);
    if cursor.is(at, TokenKind::RightBracket) {
        return Ok((names, at + 1));
    }
    let mut next = at;
    loop {
        let (one, after) = name(cursor, next)?;
        names.push(one)?;
        if cursor.is(after, TokenKind::RightBracket) {
            return Ok((names, after + 1));
        }
        if !cursor.is(after, TokenKind::Comma) {
            return Err(Fault::Refused(after, Cause::Syntax));
        }
        next = after + 1;
    }
}

/// A `-module` form.
fn module_form(cursor: &Cursor, at: usize) -> Result<(Head, usize), Fault>
    requires begins { AttributeAt cursor.now at a.Module }
    requires place { at + 2 ≤ length cursor.now.words }
    requires short { length cursor.now.words < 2 ^ 64 }
    ensures reads { Adds with_head cursor.now at result }
    ensures further { IfOk result (λ r. at < r.1 × (r.1 ≤ length cursor.now.words)) }
{
    let minus = token_of(cursor, at, TokenKind::Minus)?;
    token_of(cursor, at + 2, TokenKind::LeftParen)?;
    let name = token_of(cursor, at + 3, TokenKind::Atom)?;
    token_of(cursor, at + 4, TokenKind::RightParen)?;
    token_of(cursor, at + 5, TokenKind::FullStop)?;
    let head = Head {
        at: minus.token.span,
        name: name.number,
    };
    Ok((head, at + 6))
}

/// An `-export` form.
fn export_form(alloc: Global, cursor: &Cursor, at: usize) -> Result<(Vec<Name>, usize), Fault>
    requires begins { AttributeAt cursor.now at a.Export }
    requires place { at + 2 ≤ length cursor.now.words }
    requires short { length cursor.now.words < 2 ^ 64 }
    ensures reads { Adds with_exports cursor.now at (listed result) }
    ensures further { IfOk result (λ r. at < r.1 × (r.1 ≤ length cursor.now.words)) }
{
    token_of(cursor, at + 2, TokenKind::LeftParen)?;
    token_of(cursor, at + 3, TokenKind::LeftBracket)?;
    let (exported, next) = names(alloc, cursor, at + 4)?;
    token_of(cursor, next, TokenKind::RightParen)?;
    token_of(cursor, next + 1, TokenKind::FullStop)?;
    Ok((exported, next + 2))
}

/// A form that has no effect.
fn skipped_form(cursor: &Cursor, at: usize) -> Result<((), usize), Fault>
    requires begins { AttributeAt cursor.now at a.Skipped }
    requires place { at + 2 ≤ length cursor.now.words }
    requires short { length cursor.now.words < 2 ^ 64 }
    ensures reads { Adds with_skipped cursor.now at result }
    ensures further { IfOk result (λ r. at < r.1 × (r.1 ≤ length cursor.now.words)) }
{
    skipped(cursor, at + 2)
}

/// A clause of a function.
fn clause(alloc: Global, cursor: &Cursor, at: usize) -> Result<(Clause, usize), Fault>
    requires place { at ≤ length cursor.now.words }
    requires trees { 1 ≤ cursor.now.limits.trees }
    requires brackets { 1 ≤ cursor.now.limits.brackets }
    ensures reads { Gives body_longer clause_in cursor.now at result }
    ensures further { IfOk result (λ r. at < r.1 × (r.1 ≤ length cursor.now.words)) }
    ensures few { IfOk result (λ r. length r.0.patterns ≤ length cursor.now.words) }
{
    let name = token_of(cursor, at, TokenKind::Atom)?;
    token_of(cursor, at + 1, TokenKind::LeftParen)?;
    let ((patterns, _), after) = patterns(alloc, cursor, at + 2, 1, 1, TokenKind::RightParen)?;
    let ((guard, _), next) = guarded(alloc, cursor, after, 1, 0)?;
    let ((body, _), end) = body(alloc, cursor, next, 1, 0)?;
    let clause = Clause {
        at: name.token.span,
        name: name.number,
        patterns,
        guard,
        body,
    };
    Ok((clause, end))
}

/// The clauses of a function, up to the full stop.
fn function(alloc: Global, cursor: &Cursor, at: usize) -> Result<(Function, usize), Fault>
    requires other { NoMark k.Minus (drop at cursor.now.words) }
    requires place { at < length cursor.now.words }
    requires short { length cursor.now.words < 2 ^ 32 }
    requires trees { 1 ≤ cursor.now.limits.trees }
    requires brackets { 1 ≤ cursor.now.limits.brackets }
    ensures reads { Adds with_function cursor.now at result }
    ensures further { IfOk result (λ r. at < r.1 × (r.1 ≤ length cursor.now.words)) }
{
    let (first, after) = clause(alloc, cursor, at)?;
    let name = first.name;
    let arity = first.patterns.items().len() as u32;
    let mut clauses = Vec::new(alloc);
    clauses.push(first)?;
    let mut next = after;
    while cursor.is(next, TokenKind::Semicolon) {
        let (more, behind) = clause(alloc, cursor, next + 1)?;
        clauses.push(more)?;
        next = behind;
    }
    if !cursor.is(next, TokenKind::FullStop) {
        return Err(Fault::Refused(next, Cause::Syntax));
    }
    let clauses = Listed::of(clauses);
    Ok((
        Function {
            name,
            arity,
            clauses,
        },
        next + 1,
    ))
}

/// One form.
fn read_form(alloc: Global, cursor: &Cursor, at: usize) -> Result<(Form, usize), Fault>
    requires place { at < length cursor.now.words }
    requires short { length cursor.now.words < 2 ^ 32 }
    requires trees { 1 ≤ cursor.now.limits.trees }
    requires brackets { 1 ≤ cursor.now.limits.brackets }
    ensures reads { Adds with_form cursor.now at result }
    ensures further { IfOk result (λ r. at < r.1 × (r.1 ≤ length cursor.now.words)) }
{
    if !cursor.is(at, TokenKind::Minus) {
        let (one, next) = function(alloc, cursor, at)?;
        return Ok((Form::Function(one), next));
    }
    match attribute_at(alloc, cursor, at)? {
        Attribute::Module => {
            let (head, next) = module_form(cursor, at)?;
            Ok((Form::Head(head), next))
        }
        Attribute::Export => {
            let (exported, next) = export_form(alloc, cursor, at)?;
            Ok((Form::Exports(exported), next))
        }
        Attribute::Skipped => {
            let (_, next) = skipped_form(cursor, at)?;
            Ok((Form::Skipped, next))
        }
    }
}

/// The forms of a text.
pub fn read_forms(alloc: Global, cursor: &Cursor) -> Result<ModuleForms, Fault>
    requires short { length cursor.now.words < 2 ^ 32 }
    requires trees { 1 ≤ cursor.now.limits.trees }
    requires brackets { 1 ≤ cursor.now.limits.brackets }
    ensures { ReadsForms cursor.now result }
{
    let mut collected = Collected {
        heads: Vec::new(alloc),
        exports: Vec::new(alloc),
        functions: Vec::new(alloc),
    };
    let mut at = 0;
    while cursor.token(at).is_some() {
        let (form, next) = read_form(alloc, cursor, at)?;
        collected.push(form)?;
        at = next;
    }
    Ok(ModuleForms {
        heads: Listed::of(collected.heads),
        exports: Listed::of(collected.exports),
        functions: Listed::of(collected.functions),
    })
}
