//! Values of variables, as chains whose ends several owners may share.

ghost use Rattle.std.specs.Prelude.{◌≡◌, ◌++◌, ◌∷◌, [], IfOk, Some, None, MatchOption, IfSome};
ghost use Rattle.term_value.specs.Terms.{seen, IsOver};
ghost use Rattle.term_value.specs.PutIn.{value_in};
ghost use Rattle.code_tree.specs.PlainTerms.{value, IsShort, AnyAtom};
ghost use Rattle.code_match.specs.Binds.{bounds, chained};

use bit_store::Window;
use code_tree::PlainTerm;
use shares::Held;
use std::alloc::{AllocError, Global};
use std::marker::Model;
use term_value::Term;

// The newest binding first.
#[cycle(chain)]
enum Chain {
    Empty,
    More(Held<Link>),
}

// A binding, and those before it, which have no value for its variable.
#[derive(Drop)]
#[cycle(chain)]
struct Link {
    variable: u32,
    term: PlainTerm,
    earlier: Chain,
}

impl Model for Link {
    ghost use Rattle.std.specs.Prelude.{◌≡◌, ℕ, List, Bool, None, length};
    ghost use Rattle.std.specs.Coded.{coded×, coded_ℕ, coded_list, coded_bool};
    ghost use Rattle.term_value.specs.Seen.{Seen};
    ghost use Rattle.term_value.specs.Codes.{coded_seen};

    ghost Value = { (ℕ × Seen (List Bool)) × List (ℕ × Seen (List Bool)) };

    ghost coded = { coded× (coded× coded_ℕ (coded_seen (coded_list coded_bool))) (coded_list (coded× coded_ℕ (coded_seen (coded_list coded_bool)))) };

    ghost use Rattle.term_value.specs.PutIn.{value_in};
    ghost use Rattle.code_match.specs.Binds.{bounds, chained};

    ghost view = { λ l. ((l.variable, l.term), chained l.earlier) };

    ghost invariant = { λ l. value_in (bounds (chained l.earlier)) l.variable ≡ None };

    ghost size = { λ v. length v.1 };

    ghost use Rattle.code_match.specs.Shorter.{link_falls};

    ghost size_decreases = { λ l h. link_falls l.earlier };
}

// As a loop, since a chain may be long.
impl Drop for Chain {
    fn drop(mut self) {
        loop {
            match self {
                Chain::Empty => return,
                Chain::More(link) => match link.into_inner() {
                    None => return,
                    Some(link) => {
                        let Link { earlier, .. } = link;
                        self = earlier;
                    }
                },
            }
        }
    }
}

/// Values of variables, which contracts see as the number and the term of each, in the order in which they were bound.
#[derive(Drop)]
pub struct Bindings {
    chain: Chain,
}

impl Model for Bindings {
    ghost use Rattle.std.specs.Prelude.{ℕ, List, Bool};
    ghost use Rattle.std.specs.Coded.{coded×, coded_ℕ, coded_list, coded_bool};
    ghost use Rattle.term_value.specs.Seen.{Seen};
    ghost use Rattle.term_value.specs.Codes.{coded_seen};
    ghost use Rattle.code_match.specs.Binds.{chained};

    ghost Value = { List (ℕ × Seen (List Bool)) };

    ghost coded = { coded_list (coded× coded_ℕ (coded_seen (coded_list coded_bool))) };

    ghost view = { λ b. chained b.chain };
}

impl Bindings {
    /// No variable has a value.
    pub fn new() -> Bindings
        ensures { result ≡ [] }
    {
        Bindings {
            chain: Chain::Empty,
        }
    }

    /// The same bindings. The error says that no further owner could be counted.
    pub fn again(&self) -> Result<Bindings, AllocError>
        ensures { IfOk result (λ other. other ≡ self.now) }
    {
        match &self.chain {
            Chain::Empty => Ok(Bindings {
                chain: Chain::Empty,
            }),
            Chain::More(link) => Ok(Bindings {
                chain: Chain::More(link.again()?),
            }),
        }
    }

    /// The value of a variable; None where it has none.
    pub fn get(&self, variable: u32) -> Option<&Term<Window>>
        ensures is { MatchOption result (value_in (bounds self.now) variable ≡ None) (λ term. value_in (bounds self.now) variable ≡ Some (value (seen term.now))) }
        ensures over { IfSome result (λ term. IsOver IsShort AnyAtom term.now) }
    {
        let mut chain = &self.chain;
        while let Chain::More(link) = chain {
            let link = link.get();
            if link.variable == variable {
                return Some(link.term.term());
            }
            chain = &link.earlier;
        }
        None
    }

    /// These, and then a value for one more variable. The error says that no memory was left.
    pub fn bind(
        self,
        alloc: Global,
        variable: u32,
        term: Term<Window>,
    ) -> Result<Bindings, AllocError>
        requires new { value_in (bounds self) variable ≡ None }
        requires over { IsOver IsShort AnyAtom term }
        ensures { IfOk result (λ more. more ≡ self ++ (variable, seen term) ∷ []) }
    {
        let link = Held::new(
            alloc,
            Link {
                variable,
                term: PlainTerm::of(term),
                earlier: self.chain,
            },
        )?;
        Ok(Bindings {
            chain: Chain::More(link),
        })
    }
}
