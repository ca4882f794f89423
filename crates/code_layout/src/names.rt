//! What a module's names stand for.

ghost use Rattle.std.specs.Prelude.{◌≡◌, IfOk, List, length};
ghost use Rattle.std.specs.Ordering.{int_eq};
ghost use Rattle.erl_syntax.specs.Reading.{characters_in};
ghost use Rattle.term_value.specs.ReadTrees.{place_of, is_exported, name_of};
ghost use Rattle.code_layout.specs.Lookups.{PlacesOf, ExportsOf};

use erl_syntax::{Function, Module, Name};
use std::alloc::{AllocError, Global};
use std::collections::{BTreeMap, BTreeSet};
use std::marker::Model;

/// A module whose functions and exports are found by name and number of arguments.
#[derive(Drop)]
pub(crate) struct Names<'a> {
    tree: &'a Module,
    /// The place of the first function of each name and number of arguments.
    places: BTreeMap<(u32, usize), u32>,
    exports: BTreeSet<(u32, i128)>,
}

impl<'a> Model for Names<'a> {
    ghost use Rattle.erl_syntax.specs.declared.module.Module.{Module};
    ghost use Rattle.erl_syntax.specs.contracts.module.Module as contracts;
    ghost use Rattle.code_layout.specs.Lookups.{PlacesOf, ExportsOf};

    ghost Value = { Module };

    ghost coded = { contracts.the_row.coded };

    ghost view = { λ a. a.tree.now };

    ghost invariant = { λ a. PlacesOf a.tree.now.functions a.places × ExportsOf a.tree.now.exports a.exports };
}

fn place(index: usize) -> Result<u32, AllocError>
    ensures { IfOk result (λ place. place ≡ index) }
{
    match u32::try_from(index) {
        Ok(place) => Ok(place),
        Err(_) => Err(AllocError),
    }
}

fn places_of(
    alloc: Global,
    functions: &[Function],
) -> Result<BTreeMap<(u32, usize), u32>, AllocError>
    ensures { IfOk result (λ places. PlacesOf functions.now places) }
{
    let mut places = BTreeMap::new(alloc);
    let mut left = functions.len();
    while left > 0 {
        left -= 1;
        let function = &functions[left];
        let key = (function.name, function.arity as usize);
        places.insert(key, place(left)?)?;
    }
    Ok(places)
}

fn exports_of(alloc: Global, names: &[Name]) -> Result<BTreeSet<(u32, i128)>, AllocError>
    ensures { IfOk result (λ exports. ExportsOf names.now exports) }
{
    let mut exports = BTreeSet::new(alloc);
    let mut left = names.len();
    while left > 0 {
        left -= 1;
        let name = &names[left];
        exports.insert((name.name, name.arity))?;
    }
    Ok(exports)
}

impl<'a> Names<'a> {
    pub fn of(alloc: Global, tree: &'a Module) -> Result<Names<'a>, AllocError>
        ensures { IfOk result (λ names. names ≡ tree.now) }
    {
        Ok(Names {
            tree,
            places: places_of(alloc, tree.functions.items())?,
            exports: exports_of(alloc, tree.exports.items())?,
        })
    }

    /// The module.
    pub fn module(&self) -> &'a Module
        ensures { result.now ≡ self.now }
    {
        self.tree
    }

    /// The module's own name.
    pub fn own(&self) -> u32
        ensures { result ≡ name_of self.now.heads }
    {
        match self.tree.heads.items().first() {
            Some(head) => head.name,
            None => 13,
        }
    }

    /// The UTF-8 bytes of an atom's name.
    pub fn characters(&self, atom: u32) -> &[u8]
        ensures { result.now ≡ characters_in self.now.atoms atom }
    {
        match self.tree.atoms.items().get(atom as usize) {
            Some(name) => name.bytes(),
            None => &[],
        }
    }

    /// The place of the first function of this name and number of arguments. Where a `u32` does not hold it, this is as if memory
    /// ran out.
    pub fn place(&self, name: u32, arity: usize) -> Result<u32, AllocError>
        ensures { IfOk result (λ place. place ≡ place_of self.now.functions name arity) }
    {
        match self.places.get(&(name, arity)) {
            Some(place) => Ok(*place),
            None => place(self.tree.functions.items().len()),
        }
    }

    /// Whether the module exports this name with this number of arguments.
    pub fn exports(&self, name: u32, arity: u32) -> bool
        ensures { result ≡ is_exported self.now.exports name arity }
    {
        self.exports.contains(&(name, i128::from(arity)))
    }
}
