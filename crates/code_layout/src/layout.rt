//! A module laid out as code.

ghost use Rattle.std.specs.Prelude.{◌≡◌, map, IfOk};
ghost use Rattle.term_value.specs.ReadTrees as text;
ghost use Rattle.term_value.specs.ReadTrees.{reading, name_of};
ghost use Rattle.erl_syntax.specs.Checking.{number_at};
ghost use Rattle.code_tree.specs.Reading.{module_meant, function_of};

use crate::clauses::function_clauses;
use crate::laying::Laying;
use crate::names::Names;
use crate::numbers::Numbers;
use code_tree::{Code, Function};
use erl_syntax::{Function as Read, Listed, Module, Text, VarUse};
use std::alloc::{AllocError, Global};

/// The names of the atoms, by their numbers.
fn atoms(alloc: Global, names: &[Text]) -> Result<Vec<Text>, AllocError>
    ensures { IfOk result (λ atoms. atoms.items ≡ names.now) }
{
    let mut atoms = Vec::new(alloc);
    for name in names {
        let mut bytes = Vec::new(alloc);
        bytes.extend_from_slice(name.bytes())?;
        atoms.push(Text::of(bytes))?;
    }
    Ok(atoms)
}

/// A function whose variables are these.
fn function(
    alloc: Global,
    names: &Names,
    read: &Read,
    uses: &[VarUse],
) -> Result<Function, AllocError>
    ensures { IfOk result (λ found. function_of found ≡ text.function_of (reading (number_at uses.now) names.now) names.now.exports read.now) }
{
    let numbers = Numbers::of(alloc, uses)?;
    let laying = Laying {
        alloc,
        names: &*names,
        numbers: &numbers,
    };
    let clauses = function_clauses(&laying, read.clauses.items())?;
    Ok(Function {
        name: read.name,
        arity: read.arity,
        exported: names.exports(read.name, read.arity),
        clauses,
    })
}

/// The functions of a module, each with its variables.
fn functions(
    alloc: Global,
    names: &Names,
    vars: &[Listed<VarUse>],
) -> Result<Vec<Function>, AllocError>
    ensures { IfOk result (λ found. map function_of found.items ≡ text.functions_of vars.now names.now) }
{
    let mut found = Vec::new(alloc);
    let mut left = vars;
    let reads = names.module().functions.items();
    for read in reads {
        let Some((uses, later)) = left.split_first() else {
            return Ok(found);
        };
        let function = function(alloc, names, read, uses.items())?;
        found.push(function)?;
        left = later;
    }
    Ok(found)
}

/// Lays a module out as code, where these are the variables of each of its functions. It is for modules that were checked, with the
/// variables that the check numbered.
///
/// # Errors
///
/// Memory ran out. A tree that no text spells, or that was not checked, may hold a number or a string past the bounds of code, or a
/// segment without a type, which is answered so too.
pub fn lay_out(alloc: Global, tree: &Module, vars: &[Listed<VarUse>]) -> Result<Code, AllocError>
    ensures { IfOk result (λ code. module_meant code ≡ text.module_of vars.now tree.now) }
{
    let names = Names::of(alloc, tree)?;
    let functions = functions(alloc, &names, vars)?;
    Ok(Code {
        atoms: Listed::of(atoms(alloc, tree.atoms.items())?),
        name: names.own(),
        functions: Listed::of(functions),
    })
}
