//! The numbers of a module's variables.

ghost use Rattle.std.specs.Prelude.{◌≡◌, ◌<◌, ◌↔◌, IfOk, MatchBool, List, map, length, get_or};
ghost use Rattle.std.specs.List.{Contains};
ghost use Rattle.std.specs.List.Sorted.{IsStrictlySortedBy};
ghost use Rattle.erl_syntax.specs.Checking.{IsNumbered, AreNumbered, use_at};
ghost use Rattle.module_check.specs.declared.places.Occurrence.{Occurrence};
ghost use Rattle.module_check.specs.Places.{span_of, seen, Apart};
ghost use Rattle.module_check.specs.Numbers.{position_cmp, occurrence_cmp, binders_in};

use crate::places::{Occurrence, Position, places};
use erl_syntax::{Function, Listed, Module, Span, VarUse};
use std::alloc::{AllocError, Global};

/// The variables in the order of the text, each once.
fn in_order(mut found: Vec<Occurrence>) -> Result<Vec<Occurrence>, AllocError>
    ensures rising { IfOk result (λ os. IsStrictlySortedBy occurrence_cmp os.items) }
    ensures same { IfOk result (λ os. (o : Occurrence) → Contains found.items o ↔ Contains os.items o) }
{
    found.sort()?;
    found.dedup();
    Ok(found)
}

/// Whether no two variables stand at one place.
fn stand_apart(occurrences: &[Occurrence]) -> bool
    ensures { IsStrictlySortedBy occurrence_cmp occurrences.now → MatchBool result (Apart occurrences.now) (Apart occurrences.now → ⊥) }
{
    occurrences.is_sorted_by(|one, next| one.at < next.at)
}

/// The places at which variables get their values.
fn binders_of(alloc: Global, occurrences: &[Occurrence]) -> Result<Vec<Position>, AllocError>
    ensures { IfOk result (λ bs. bs.items ≡ binders_in occurrences.now) }
{
    let mut binders = Vec::new(alloc);
    for occurrence in occurrences {
        if occurrence.at == occurrence.bound_at {
            binders.push(occurrence.at)?;
        }
    }
    Ok(binders)
}

/// How many of the places, which rise, stand further left than this one of them.
fn index_of(binders: &[Position], bound_at: Position) -> usize
    ensures { IsStrictlySortedBy position_cmp binders.now → Contains binders.now bound_at → (result < length binders.now) × (get_or binders.now result bound_at ≡ bound_at) }
{
    match binders.binary_search(&bound_at) {
        Ok(index) => index,
        Err(index) => index,
    }
}

/// The same as a variable's number. Where a `u32` does not hold it, this is as if memory ran out.
fn number_of(binders: &[Position], bound_at: Position) -> Result<u32, AllocError>
    ensures { IfOk result (λ n. IsStrictlySortedBy position_cmp binders.now → Contains binders.now bound_at → (n < length binders.now) × (get_or binders.now n bound_at ≡ bound_at)) }
{
    match u32::try_from(index_of(binders, bound_at)) {
        Ok(number) => Ok(number),
        Err(_) => Err(AllocError),
    }
}

fn use_of(binders: &[Position], occurrence: &Occurrence) -> Result<VarUse, AllocError>
    ensures { IfOk result (λ u. IsStrictlySortedBy position_cmp binders.now → Contains binders.now occurrence.now.bound_at → u ≡ use_at (map span_of binders.now) (seen occurrence.now)) }
{
    Ok(VarUse {
        at: Span {
            line: occurrence.at.line,
            column: occurrence.at.column,
        },
        number: number_of(binders, occurrence.bound_at)?,
        binds: occurrence.at == occurrence.bound_at,
    })
}

fn uses_of(
    alloc: Global,
    binders: &[Position],
    occurrences: &[Occurrence],
) -> Result<Vec<VarUse>, AllocError>
    ensures { IfOk result (λ us. IsStrictlySortedBy position_cmp binders.now → ((o : Occurrence) → Contains occurrences.now o → Contains binders.now o.bound_at) → us.items ≡ map (use_at (map span_of binders.now)) (map seen occurrences.now)) }
{
    let mut uses = Vec::new(alloc);
    for occurrence in occurrences {
        let variable = use_of(binders, occurrence)?;
        uses.push(variable)?;
    }
    Ok(uses)
}

/// The numbers of a function's variables. Where two stand at one place, as none do in a text, the place does not number them,
/// and this is as if memory ran out.
fn function_vars(alloc: Global, function: &Function) -> Result<Vec<VarUse>, AllocError>
    ensures { IfOk result (λ us. IsNumbered function.now us.items) }
{
    let found = places(alloc, function)?;
    let occurrences = in_order(found)?;
    if !stand_apart(&occurrences) {
        return Err(AllocError);
    }
    let binders = binders_of(alloc, &occurrences)?;
    uses_of(alloc, &binders, &occurrences)
}

/// The numbers of the variables of each function of a module.
pub(crate) fn vars(alloc: Global, tree: &Module) -> Result<Vec<Listed<VarUse>>, AllocError>
    ensures { IfOk result (λ us. AreNumbered tree.now.functions us.items) }
{
    let mut vars = Vec::new(alloc);
    let functions = tree.functions.items();
    for function in functions {
        let uses = function_vars(alloc, function)?;
        vars.push(Listed::of(uses))?;
    }
    Ok(vars)
}
