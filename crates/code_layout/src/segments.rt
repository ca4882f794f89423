//! The segments of bit expressions and of bit patterns.

ghost use Rattle.std.specs.Prelude.{◌≡◌, ◌++◌, ◌∷◌, [], MatchOption, IfOk, map, is_some, option_map};
ghost use Rattle.erl_syntax.specs.Typing.{type_by};
ghost use Rattle.erl_syntax.specs.declared.expr.Expr.{out-Expr};
ghost use Rattle.term_value.specs.Value.{VInt};
ghost use Rattle.term_value.specs.Tree as t;
ghost use Rattle.term_value.specs.Read.{Piece, built_from, target_of as first_target_of, signed_target};
ghost use Rattle.code_tree.specs.Reading.{tree_of, target_of, segment_of};
ghost use Rattle.code_layout.specs.Layout.{reading_of, size_tree, size_trees, Adds, AddsSegments, letter_pieces, piece_segment};
ghost use Rattle.code_layout.specs.Readings.{expr_read, segment_read, pieces_read, letters_in, target_in};

use crate::expressions::expression;
use crate::laying::Laying;
use crate::literals::{atom, integer};
use crate::operations::all;
use code_tree::{Form, Primitive, Segment, Target, Tree};
use erl_syntax::{Expr, Listed, Prefix, Segment as Read, SideUse, Typed};
use segment_type::type_segment;
use shares::Held;
use std::alloc::AllocError;
use term_value::Term;

/// The segments of a bit expression so far: their types, and their values, each before its size where one is written.
#[derive(Drop)]
pub(crate) struct Built {
    pub types: Vec<Typed>,
    pub parts: Vec<Tree>,
}

/// The type of a segment. A checked module has no segment without one: it would be answered as if memory ran out.
pub(crate) fn typed(segment: &Read) -> Result<Typed, AllocError>
    ensures { IfOk result (λ typed. typed ≡ type_by (is_some segment.now.size) segment.now.specs) }
{
    match type_segment(segment, SideUse::Build, true) {
        Ok(typed) => Ok(typed),
        Err(_) => Err(AllocError),
    }
}

/// The characters of a string.
pub(crate) fn letters(expr: &Expr) -> Option<&[u32]>
    ensures { MatchOption result (letters_in (out-Expr expr.now) ≡ None) (λ letters. letters_in (out-Expr expr.now) ≡ Some letters.now) }
{
    match expr {
        Expr::Str { chars, .. } => Some(chars.items()),
        _ => None,
    }
}

impl Built {
    /// One more part with its type.
    fn push(&mut self, typed: Typed, value: Tree, size: Option<Tree>) -> Result<(), AllocError>
        ensures { IfOk result (λ u. (q : Piece) → typed ≡ q.typed → tree_of value ≡ q.value.tree → option_map tree_of size ≡ q.size → Adds self.old self.new (q ∷ [])) }
    {
        self.types.push(typed)?;
        self.parts.push(value)?;
        if let Some(size) = size {
            self.parts.push(size)?;
        }
        Ok(())
    }
}

/// A bit expression.
#[cycle(lay)]
pub(crate) fn bit_expression(laying: &Laying, segments: &[Read]) -> Result<Tree, AllocError>
    ensures { IfOk result (λ tree. tree_of tree ≡ built_from (pieces_read (reading_of laying.now) segments.now)) }
{
    let mut built = Built {
        types: Vec::new(laying.alloc),
        parts: Vec::new(laying.alloc),
    };
    for segment in segments {
        add_segment(laying, &mut built, segment)?;
    }
    let Built { types, parts } = built;
    let form = Form::Table(Primitive::Build(Listed::of(types)));
    Ok(all(form, parts))
}

/// Adds a segment of a bit expression. A string stands for a segment for each of its characters.
#[cycle(lay)]
fn add_segment(laying: &Laying, built: &mut Built, segment: &Read) -> Result<(), AllocError>
    ensures { IfOk result (λ u. Adds built.old built.new (segment_read (reading_of laying.now) segment.now)) }
{
    let typed = typed(segment)?;
    match letters(&segment.value) {
        Some(letters) => add_letters(laying, built, typed, letters, &segment.size),
        None => {
            let value = expression(laying, &segment.value)?;
            let size = size(laying, &segment.size)?;
            built.push(typed, value, size)
        }
    }
}

/// Adds a segment for each of a string's characters, each with the size.
#[cycle(lay)]
fn add_letters(
    laying: &Laying,
    built: &mut Built,
    typed: Typed,
    letters: &[u32],
    written: &Option<Expr>,
) -> Result<(), AllocError>
    ensures { IfOk result (λ u. Adds built.old built.new (letter_pieces typed (size_tree laying.now written.now) letters.now)) }
{
    for letter in letters {
        let value = Tree::Value(integer(i128::from(*letter)));
        let size = size(laying, written)?;
        built.push(typed, value, size)?;
    }
    Ok(())
}

/// The size of a segment, where one is written.
#[cycle(lay)]
pub(crate) fn size(laying: &Laying, size: &Option<Expr>) -> Result<Option<Tree>, AllocError>
    ensures { IfOk result (λ found. option_map tree_of found ≡ size_tree laying.now size.now) }
{
    match size {
        Some(expr) => Ok(Some(expression(laying, expr)?)),
        None => Ok(None),
    }
}

/// What an integer behind a sign wants. The number that no integer is the negative of is answered as if memory ran out: no text
/// has it.
fn signed(op: Prefix, value: i128) -> Result<Target, AllocError>
    ensures { IfOk result (λ target. target_of target ≡ signed_target op (t.Equal (VInt value))) }
{
    match op {
        Prefix::Plus => Ok(Target::Equal(integer(value))),
        Prefix::Minus => match value.checked_neg() {
            Some(negative) => Ok(Target::Equal(integer(negative))),
            None => Err(AllocError),
        },
        Prefix::Bnot | Prefix::Not => Ok(Target::Anything),
    }
}

/// What an expression behind a sign wants, where it is an integer.
fn behind_sign(op: Prefix, target: Target) -> Result<Target, AllocError>
    ensures { IfOk result (λ signed. target_of signed ≡ signed_target op (target_of target)) }
{
    match target {
        Target::Equal(term) => match term.term() {
            Term::Int(value) => signed(op, *value),
            _ => Ok(Target::Anything),
        },
        _ => Ok(Target::Anything),
    }
}

/// What an expression wants as the value of a pattern's segment.
#[cycle(target)]
fn target(laying: &Laying, expr: &Expr) -> Result<Target, AllocError>
    ensures { IfOk result (λ target. target_of target ≡ target_in (reading_of laying.now) (out-Expr expr.now)) }
{
    match expr {
        Expr::Var { at, .. } => Ok(Target::Variable(laying.number(*at))),
        Expr::Int { value, .. } => Ok(Target::Equal(integer(*value))),
        Expr::Char { value, .. } => Ok(Target::Equal(integer(i128::from(*value)))),
        Expr::Atom { atom: number, .. } => Ok(Target::Equal(atom(*number))),
        Expr::Unary { op, part, .. } => signed_part(laying, *op, part.items()),
        _ => Ok(Target::Anything),
    }
}

/// That of an expression behind a sign.
#[cycle(target)]
fn signed_part(laying: &Laying, op: Prefix, part: &[Expr]) -> Result<Target, AllocError>
    ensures { IfOk result (λ target. target_of target ≡ signed_target op (first_target_of (map (expr_read (reading_of laying.now)) part.now))) }
{
    let inner = first_target(laying, part)?;
    behind_sign(op, inner)
}

/// That of the first expression, where there is one.
#[cycle(target)]
fn first_target(laying: &Laying, exprs: &[Expr]) -> Result<Target, AllocError>
    ensures { IfOk result (λ target. target_of target ≡ first_target_of (map (expr_read (reading_of laying.now)) exprs.now)) }
{
    for expr in exprs {
        return target(laying, expr);
    }
    Ok(Target::Anything)
}

/// The segments of a bit pattern.
#[cycle(lay)]
pub(crate) fn matched(laying: &Laying, segments: &[Read]) -> Result<Vec<Segment>, AllocError>
    ensures { IfOk result (λ found. map segment_of found.items ≡ map piece_segment (pieces_read (reading_of laying.now) segments.now)) }
{
    let mut found = Vec::new(laying.alloc);
    for segment in segments {
        add_matched(laying, &mut found, segment)?;
    }
    Ok(found)
}

/// Adds a segment of a bit pattern. A string stands for a segment for each of its characters.
#[cycle(lay)]
fn add_matched(laying: &Laying, found: &mut Vec<Segment>, segment: &Read) -> Result<(), AllocError>
    ensures { IfOk result (λ u. AddsSegments found.old.items found.new.items (segment_read (reading_of laying.now) segment.now)) }
{
    let typed = typed(segment)?;
    let size = held_size(laying, &segment.size)?;
    match letters(&segment.value) {
        Some(letters) => matched_letters(found, typed, letters, &size),
        None => {
            let target = target(laying, &segment.value)?;
            Ok(found.push(Segment {
                typed,
                target,
                size,
            })?)
        }
    }
}

/// The size of a segment of a pattern, where one is written.
#[cycle(lay)]
fn held_size(laying: &Laying, written: &Option<Expr>) -> Result<Option<Held<Tree>>, AllocError>
    ensures { IfOk result (λ found. option_map tree_of found ≡ size_tree laying.now written.now) }
{
    match written {
        Some(expr) => {
            let tree = expression(laying, expr)?;
            Ok(Some(Held::new(laying.alloc, tree)?))
        }
        None => Ok(None),
    }
}

/// One more owner of a size, where there is one.
pub(crate) fn again(size: &Option<Held<Tree>>) -> Result<Option<Held<Tree>>, AllocError>
    ensures { IfOk result (λ other. other ≡ size.now) }
{
    match size {
        Some(size) => Ok(Some(size.again()?)),
        None => Ok(None),
    }
}

/// Adds a segment of a pattern for each of a string's characters, each with the size.
fn matched_letters(
    found: &mut Vec<Segment>,
    typed: Typed,
    letters: &[u32],
    size: &Option<Held<Tree>>,
) -> Result<(), AllocError>
    ensures { IfOk result (λ u. AddsSegments found.old.items found.new.items (letter_pieces typed (option_map tree_of size.now) letters.now)) }
{
    for letter in letters {
        found.push(Segment {
            typed,
            target: Target::Equal(integer(i128::from(*letter))),
            size: again(size)?,
        })?;
    }
    Ok(())
}
