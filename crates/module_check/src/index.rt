//! The functions and exports of a module by their names and numbers of arguments.

ghost use Rattle.std.specs.Prelude.{◌≡◌, ◌∷◌, ◌++◌, [], List, take, pos, length, IfOk, OnOk, MatchBool, MatchOption};
ghost use Rattle.erl_syntax.specs.Checking.{HasFunction, IsExported};
ghost use Rattle.erl_syntax.specs.declared.module.Function.{Function};
ghost use Rattle.erl_syntax.specs.declared.module.Name.{Name};
ghost use Rattle.module_check.specs.Order.{IsLeast, Some_of};
ghost use Rattle.module_check.specs.Faults.{FirstClause, NamedFault, IsAmong, IsMissing};
ghost use Rattle.module_check.specs.Index.{Key, Has, AreNamed, IsNamedIn, Lists, ListsExports};

use crate::order::first_of;
use erl_syntax::{CheckCause, CheckFault, Function, Module, Name};
use std::alloc::{AllocError, Global};
use std::collections::{BTreeMap, BTreeSet};
use std::marker::Model;

/// The functions of one name and number of arguments.
#[derive(Clone, Copy)]
pub(crate) struct Named {
    /// The place of the first of them among the module's functions.
    pub first: usize,
    /// The first of their first clauses in the text, as the fault that a function stands again.
    pub again: Option<CheckFault>,
}

/// A module whose functions and exports are found by name and number of arguments.
#[derive(Drop)]
pub(crate) struct Indexed<'a> {
    tree: &'a Module,
    functions: BTreeMap<(u32, i128), Named>,
    exports: BTreeSet<(u32, i128)>,
}

impl<'a> Model for Indexed<'a> {
    ghost use Rattle.erl_syntax.specs.declared.module.Module.{Module};
    ghost use Rattle.erl_syntax.specs.contracts.module.Module as contracts;

    ghost Value = { Module };

    ghost coded = { contracts.the_row.coded };

    ghost use Rattle.module_check.specs.Index.{Lists, ListsExports};

    ghost view = { λ a. a.tree.now };

    ghost invariant = { λ a. Lists a.tree.now.functions a.functions × ListsExports a.tree.now.exports a.exports };
}

/// The key of a name with a number of arguments.
fn key(name: u32, arity: usize) -> (u32, i128)
    ensures { result ≡ (name, pos arity) }
{
    (name, arity as i128)
}

/// The key of an export.
fn export_key(export: &Name) -> (u32, i128)
    ensures { result ≡ (export.now.name, export.now.arity) }
{
    (export.name, export.arity)
}

/// That the function stands again, at its first clause.
fn again_fault(function: &Function) -> Option<CheckFault>
    ensures { IsLeast (FirstClause function.now.clauses) result }
{
    match function.clauses.items().first() {
        Some(first) => Some(CheckFault {
            span: first.at,
            why: CheckCause::FunctionAgain,
        }),
        None => None,
    }
}

/// The functions of a name with one more, which stands behind them at this place.
fn with_one_more(named: Option<Named>, place: usize, function: &Function) -> Named
    ensures { (before : List Function) (key : Key) → length before ≡ place → Has key function.now → AreNamed before key named → IsNamedIn (before ++ function.now ∷ []) key result }
{
    let again = again_fault(function);
    match named {
        Some(named) => Named {
            first: named.first,
            again: first_of(named.again, again),
        },
        None => Named {
            first: place,
            again,
        },
    }
}

/// Puts the function at this place behind those before it.
fn add_function(
    functions: &mut BTreeMap<(u32, i128), Named>,
    place: usize,
    function: &Function,
) -> Result<(), AllocError>
    ensures { OnOk result ((before : List Function) → length before ≡ place → Lists before functions.old → Lists (before ++ function.now ∷ []) functions.new) }
{
    let key = key(function.name, function.arity as usize);
    let named = functions.get(&key).copied();
    functions.insert(key, with_one_more(named, place, function))?;
    Ok(())
}

fn index_functions(
    alloc: Global,
    functions: &[Function],
) -> Result<BTreeMap<(u32, i128), Named>, AllocError>
    ensures { IfOk result (λ index. Lists functions.now index) }
{
    let mut index = BTreeMap::new(alloc);
    for (place, function) in functions.iter().enumerate() {
        add_function(&mut index, place, function)?;
    }
    Ok(index)
}

fn index_exports(alloc: Global, exports: &[Name]) -> Result<BTreeSet<(u32, i128)>, AllocError>
    ensures { IfOk result (λ index. ListsExports exports.now index) }
{
    let mut index = BTreeSet::new(alloc);
    for export in exports {
        index.insert(export_key(export))?;
    }
    Ok(index)
}

impl<'a> Indexed<'a> {
    pub fn of(alloc: Global, tree: &'a Module) -> Result<Indexed<'a>, AllocError>
        ensures { IfOk result (λ indexed. indexed ≡ tree.now) }
    {
        Ok(Indexed {
            tree,
            functions: index_functions(alloc, tree.functions.items())?,
            exports: index_exports(alloc, tree.exports.items())?,
        })
    }

    /// The module.
    pub fn module(&self) -> &'a Module
        ensures { result.now ≡ self.now }
    {
        self.tree
    }

    /// The functions of this key.
    fn named(&self, key: (u32, i128)) -> Option<Named>
        ensures { AreNamed self.now.functions key result }
    {
        self.functions.get(&key).copied()
    }

    /// Whether the module has a function of this name and number of arguments.
    pub fn has_function(&self, name: u32, arity: usize) -> bool
        ensures { MatchBool result (HasFunction self.now name arity) (HasFunction self.now name arity → ⊥) }
    {
        self.named(key(name, arity)).is_some()
    }

    /// Whether the module exports this name with this number of arguments.
    pub fn is_exported(&self, name: u32, arity: usize) -> bool
        ensures { MatchBool result (IsExported self.now name arity) (IsExported self.now name arity → ⊥) }
    {
        self.exports.contains(&key(name, arity))
    }

    /// Whether the module has no function of an exported name.
    pub fn is_missing(&self, export: &Name) -> bool
        ensures { MatchBool result (IsMissing self.now export.now) (IsMissing self.now export.now → ⊥) }
    {
        self.named(export_key(export)).is_none()
    }

    /// Whether a function of this name and number of arguments stands before this place among the module's functions.
    pub fn stands_before(&self, place: usize, name: u32, arity: usize) -> bool
        ensures { MatchBool result (IsAmong (take place self.now.functions) name arity) (IsAmong (take place self.now.functions) name arity → ⊥) }
    {
        match self.named(key(name, arity)) {
            Some(named) => named.first < place,
            None => false,
        }
    }

    /// The first of the functions that have this name and number of arguments.
    pub fn named_faults(&self, name: u32, arity: usize) -> Option<CheckFault>
        ensures { IsLeast (Some_of (NamedFault name arity) self.now.functions) result }
    {
        match self.named(key(name, arity)) {
            Some(named) => named.again,
            None => None,
        }
    }
}
