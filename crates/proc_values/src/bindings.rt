//! Values of variables, as chains whose ends several owners may share.

ghost use Rattle.std.specs.Prelude.{◌≡◌, ◌++◌, ◌∷◌, [], List, Bool, IfOk, Some, None, MatchOption};
ghost use Rattle.term_value.specs.Terms.{seen, value_of};
ghost use Rattle.term_value.specs.PutIn.{value_in};
ghost use Rattle.proc_values.specs.Binds.{bounds, chained, term_in};

use shares::Held;
use std::alloc::{AllocError, Global};
use std::marker::Model;
use term_value::Term;

// The newest binding first.
#[cycle(chain)]
enum Chain<R> {
    Empty,
    More(Held<Link<R>>),
}

// A binding, and those before it, which have no value for its variable.
#[derive(Drop)]
#[cycle(chain)]
struct Link<R> {
    variable: u32,
    term: Term<R>,
    earlier: Chain<R>,
}

impl<R> Model for Link<R> {
    ghost use Rattle.std.specs.Prelude.{◌≡◌, ℕ, List, None, length};
    ghost use Rattle.std.specs.Coded.{coded×, coded_ℕ, coded_list};
    ghost use Rattle.term_value.specs.Seen.{Seen};
    ghost use Rattle.term_value.specs.Codes.{coded_seen};

    ghost Value = { (ℕ × Seen R) × List (ℕ × Seen R) };

    ghost coded = { coded× (coded× coded_ℕ (coded_seen R.code)) (coded_list (coded× coded_ℕ (coded_seen R.code))) };

    ghost use Rattle.term_value.specs.Terms.{seen};
    ghost use Rattle.proc_values.specs.Binds.{chained, term_in};

    ghost view = { λ l. ((l.variable, seen l.term), chained l.earlier) };

    ghost invariant = { λ l. term_in (chained l.earlier) l.variable ≡ None };

    ghost size = { λ v. length v.1 };

    ghost use Rattle.proc_values.specs.Shorter.{link_falls};

    ghost size_decreases = { λ l h. link_falls l.earlier };
}

// As a loop, since a chain may be long.
impl<R: Drop> Drop for Chain<R> {
    fn drop(mut self) {
        loop {
            match self {
                Chain::Empty => return,
                Chain::More(link) => match link.into_inner() {
                    None => return,
                    Some(link) => {
                        let Link { earlier, .. } = link;
                        self = earlier;
                    }
                },
            }
        }
    }
}

/// Values of variables, which contracts see as the number and the term of each, in the order in which they were bound.
///
/// Which references the terms have is said beside them (`AreBound` of `specs/Binds.antt`).
#[derive(Drop)]
pub struct Bindings<R> {
    chain: Chain<R>,
}

impl<R> Model for Bindings<R> {
    ghost use Rattle.std.specs.Prelude.{ℕ, List};
    ghost use Rattle.std.specs.Coded.{coded×, coded_ℕ, coded_list};
    ghost use Rattle.term_value.specs.Seen.{Seen};
    ghost use Rattle.term_value.specs.Codes.{coded_seen};
    ghost use Rattle.proc_values.specs.Binds.{chained};

    ghost Value = { List (ℕ × Seen R) };

    ghost coded = { coded_list (coded× coded_ℕ (coded_seen R.code)) };

    ghost view = { λ b. chained b.chain };
}

impl<R> Bindings<R> {
    /// No variable has a value.
    pub fn new() -> Bindings<R>
        ensures { result ≡ [] }
    {
        Bindings {
            chain: Chain::Empty,
        }
    }

    /// The same bindings. The error says that no further owner could be counted.
    pub fn again(&self) -> Result<Bindings<R>, AllocError>
        ensures { IfOk result (λ other. other ≡ self.now) }
    {
        match &self.chain {
            Chain::Empty => Ok(Bindings {
                chain: Chain::Empty,
            }),
            Chain::More(link) => Ok(Bindings {
                chain: Chain::More(link.again()?),
            }),
        }
    }

    /// The value of a variable; None where it has none.
    pub fn get(&self, variable: u32) -> Option<&Term<R>>
        ensures found { MatchOption result (term_in self.now variable ≡ None) (λ term. term_in self.now variable ≡ Some (seen term.now)) }
        ensures is { (shown : R → List Bool) → MatchOption result (value_in (bounds shown self.now) variable ≡ None) (λ term. value_in (bounds shown self.now) variable ≡ Some (value_of shown term.now)) }
    {
        let mut chain = &self.chain;
        while let Chain::More(link) = chain {
            let link = link.get();
            if link.variable == variable {
                return Some(&link.term);
            }
            chain = &link.earlier;
        }
        None
    }
}

impl<R: Drop> Bindings<R> {
    /// These, and then a value for one more variable. The error says that no memory was left.
    pub fn bind(
        self,
        alloc: Global,
        variable: u32,
        term: Term<R>,
    ) -> Result<Bindings<R>, AllocError>
        requires { term_in self variable ≡ None }
        ensures { IfOk result (λ more. more ≡ self ++ (variable, seen term) ∷ []) }
    {
        let link = Held::new(
            alloc,
            Link {
                variable,
                term,
                earlier: self.chain,
            },
        )?;
        Ok(Bindings {
            chain: Chain::More(link),
        })
    }
}
