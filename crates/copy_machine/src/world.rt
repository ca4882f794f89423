ghost use Rattle.std.specs.Prelude.{◌≡◌, ◌==◌, ◌&&◌, IfOk, bytes_eq, codes, nat_eq, true};
ghost use Rattle.std.specs.List.{position};
ghost use Rattle.code_tree.specs.PlainTerms.{value};
ghost use Rattle.code_tree.specs.Reading.{module_meant};
ghost use Rattle.erl_syntax.specs.Reading.{number_in};
ghost use Rattle.process_acts.specs.Acts.{IsFirst};
ghost use Rattle.term_value.specs.Local.{Local};
ghost use Rattle.term_value.specs.Machine.{exported_in, first_of};
ghost use Rattle.term_value.specs.Value.{none};
ghost use Rattle.term_value.specs.Step.{name_in};
ghost use Rattle.term_value.specs.Texts.{text};
ghost use Rattle.copy_machine.specs.Starting.{Begins};

use crate::asks::arity;
use crate::call::Call;
use bit_store::{PlainStore, StoreLook};
use code_tree::{Code, PlainTerm};
use erl_syntax::Text;
use process_acts::First;
use std::alloc::{AllocError, Global};
use term_value::{Cells, Term, show};

/// What a run has from its start on.
#[derive(Drop)]
pub struct World<'a> {
    pub alloc: Global,
    pub code: &'a Code,
    /// The reductions of each process.
    pub reductions: u32,
}

impl World<'_> {
    /// The text of a value, as it is displayed.
    pub fn text(&self, term: &PlainTerm) -> Result<Text, AllocError>
        ensures { IfOk result (λ shown. shown ≡ text (name_in (module_meant self.now.code.now)) (value term.now)) }
    {
        let store = PlainStore::new(self.alloc);
        let look = StoreLook {
            store: &store,
            names: self.code.atoms.items(),
        };
        show(self.alloc, &look, term.term())
    }

    // The place of the first exported function of this name and number of arguments.
    fn first_exported(&self, name: u32, arity: u32) -> Option<usize>
        ensures { result ≡ position (λ f. f.exported && (f.name == name && f.arity == arity)) self.now.code.now.functions }
    {
        let functions = self.code.functions.items();
        functions
            .iter()
            .position(|f| f.exported && (f.name == name && f.arity == arity))
    }

    /// The place of the exported function of this name and number of arguments.
    pub fn exported(&self, name: u32, arity: u32) -> Option<usize>
        ensures { result ≡ exported_in true (module_meant self.now.code.now) name arity }
    {
        self.first_exported(name, arity)
    }

    /// The place of the exported function that a call names. The error says that there is no room for so large a place.
    pub fn place(&self, module_name: u32, name: u32, arity: u32) -> Result<Option<u32>, AllocError>
        ensures { IfOk result (λ place. place ≡ exported_in (nat_eq module_name self.now.code.now.name) (module_meant self.now.code.now) name arity) }
    {
        if module_name != self.code.name {
            return Ok(None);
        }
        match self.exported(name, arity) {
            None => Ok(None),
            Some(place) => match u32::try_from(place) {
                Ok(place) => Ok(Some(place)),
                Err(_) => Err(AllocError),
            },
        }
    }

    /// With what a process begins that is started by a call.
    pub fn first(&self, call: Call, pid: u32) -> Result<First, AllocError>
        ensures { IfOk result (λ first. Begins (module_meant self.now.code.now) self.now.reductions pid call first) }
    {
        let arity = arity(&call.arguments)?;
        let function = self.place(call.module_name, call.function, arity)?;
        Ok(First {
            pid,
            reductions: self.reductions,
            function,
            arguments: call.arguments,
        })
    }

    // The number of the atom with these characters.
    fn atom(&self, chars: &[u8]) -> Option<usize>
        ensures { result ≡ position (λ atom. bytes_eq atom chars.now) self.now.code.now.atoms }
    {
        let atoms = self.code.atoms.items();
        atoms.iter().position(|atom| atom.bytes() == chars)
    }

    // The number of the atom with these characters, or the number of atoms where there is none.
    fn number(&self, chars: &[u8]) -> usize
        ensures { result ≡ number_in self.now.code.now.atoms chars.now }
    {
        match self.atom(chars) {
            Some(number) => number,
            None => self.code.atoms.items().len(),
        }
    }

    /// With what process 1 begins: the call of `main/0`. The error says that there is no room for so large a number.
    pub fn begin(&self) -> Result<First, AllocError>
        ensures { IfOk result (λ first. (l : Local) → IsFirst first l
            → let code = module_meant self.now.code.now in l ≡ first_of code self.now.reductions 1 code.name (number_in code.atoms (codes "main")) none) }
    {
        match u32::try_from(self.number(b"main")) {
            Ok(function) => {
                let call = Call {
                    module_name: self.code.name,
                    function,
                    arguments: PlainTerm::of(Term::List(Cells::Empty)),
                };
                Ok(self.first(call, 1)?)
            }
            Err(_) => Err(AllocError),
        }
    }
}
