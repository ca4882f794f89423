//! What is unsafe behind the clauses of a `case`, an `if` or a `receive`.
//!
//! A clause more is joined to those before it: the names of whichever has fewer parts are put to what is unsafe by the other. So no
//! name is put more often than the number of parts of a text can be halved.

ghost use Rattle.std.specs.Prelude.{◌≡◌, ◌++◌, ◌∷◌, [], ℕ, List, IfOk};
ghost use Rattle.erl_syntax.specs.Bindings.{Bound, names};
ghost use Rattle.erl_syntax.specs.Scopes.{Scope, Danger, past_items};
ghost use Rattle.erl_syntax.specs.declared.clause.Alt.{out-Alt};
ghost use Rattle.module_check.specs.Nodes.{Sees, SeesUnsafe, bounds_of};
ghost use Rattle.module_check.specs.Tasks.{Means, Adds, left_behind, past_alt};
ghost use Rattle.module_check.specs.Unsafe.{items_unsafe, alt_unsafe, alts_unsafe, branches_unsafe};

use crate::scopes::{Target, endanger};
use crate::targets::{add_alt, add_alt_bound, add_alts, add_body, add_bound, add_branches};
use crate::tasks::{Facts, Walk};
use erl_syntax::{Alt, Branch, Item};
use std::alloc::AllocError;

impl<'a> Walk<'a> {
    /// The facts where these names are unsafe too, where they are not known.
    fn join(
        &mut self,
        facts: Facts,
        dangers: usize,
        found: &[Target<'a>],
    ) -> Result<Facts, AllocError>
        ensures { IfOk result (λ new. Adds self.old self.new [] × ((new.known ≡ facts.known) × ((new.guarded ≡ facts.guarded) × ((ds : List Danger) (bs : List Bound) → SeesUnsafe self.old.nodes.items dangers ds → Sees self.old.nodes.items facts.known bs → SeesUnsafe self.new.nodes.items new.dangers (ds ++ record { left_unsafe = names (bounds_of found.now); known = bs } ∷ []))))) }
    {
        let dangers = endanger(&mut self.nodes, dangers, facts.known, found)?;
        Ok(Facts { dangers, ..facts })
    }

    /// A clause of a `case` or a `receive` is put to those before it.
    fn put_alt(&mut self, joined: Facts, alt: &'a Alt) -> Result<Facts, AllocError>
        ensures { IfOk result (λ new. Adds self.old self.new [] × ((s : Scope) (before : List (List ℕ)) → Means self.old.nodes.items joined (left_behind before s) → Means self.new.nodes.items new (left_behind (before ++ alt_unsafe alt.now) s))) }
    {
        let mut found = Vec::new(self.alloc);
        add_alt(&mut found, alt)?;
        self.join(joined, joined.dangers, &found)
    }

    /// Those before it are put to what is unsafe at its end.
    fn put_alts(
        &mut self,
        joined: Facts,
        after: Facts,
        before: &'a [Alt],
        alt: &'a Alt,
    ) -> Result<Facts, AllocError>
        ensures { IfOk result (λ new. Adds self.old self.new [] × ((s : Scope) → Means self.old.nodes.items joined (left_behind (alts_unsafe before.now) s) → Means self.old.nodes.items after (past_alt (out-Alt alt.now) s) → Means self.new.nodes.items new (left_behind (alts_unsafe before.now ++ alt_unsafe alt.now) s))) }
    {
        let mut found = Vec::new(self.alloc);
        add_alt_bound(&mut found, alt)?;
        add_alts(&mut found, before)?;
        self.join(joined, after.dangers, &found)
    }

    /// What is unsafe behind clauses of a `case` or a `receive`: `joined` is so behind those before this one, and `after` at the end of
    /// this one.
    pub(crate) fn join_alt(
        &mut self,
        joined: Facts,
        after: Facts,
        larger: bool,
        before: &'a [Alt],
        alt: &'a Alt,
    ) -> Result<Facts, AllocError>
        ensures { IfOk result (λ new. Adds self.old self.new [] × ((s : Scope) → Means self.old.nodes.items joined (left_behind (alts_unsafe before.now) s) → Means self.old.nodes.items after (past_alt (out-Alt alt.now) s) → Means self.new.nodes.items new (left_behind (alts_unsafe before.now ++ alt_unsafe alt.now) s))) }
    {
        if larger {
            self.put_alts(joined, after, before, alt)
        } else {
            self.put_alt(joined, alt)
        }
    }

    /// The body of a clause of an `if` is put to the clauses before it.
    fn put_body(&mut self, joined: Facts, items: &'a [Item]) -> Result<Facts, AllocError>
        ensures { IfOk result (λ new. Adds self.old self.new [] × ((s : Scope) (before : List (List ℕ)) → Means self.old.nodes.items joined (left_behind before s) → Means self.new.nodes.items new (left_behind (before ++ items_unsafe items.now) s))) }
    {
        let mut found = Vec::new(self.alloc);
        add_body(&mut found, items)?;
        self.join(joined, joined.dangers, &found)
    }

    /// The clauses before it are put to what is unsafe at its end.
    fn put_branches(
        &mut self,
        joined: Facts,
        after: Facts,
        before: &'a [Branch],
        items: &'a [Item],
    ) -> Result<Facts, AllocError>
        ensures { IfOk result (λ new. Adds self.old self.new [] × ((s : Scope) → Means self.old.nodes.items joined (left_behind (branches_unsafe before.now) s) → Means self.old.nodes.items after (past_items items.now s) → Means self.new.nodes.items new (left_behind (branches_unsafe before.now ++ items_unsafe items.now) s))) }
    {
        let mut found = Vec::new(self.alloc);
        add_bound(&mut found, items)?;
        add_branches(&mut found, before)?;
        self.join(joined, after.dangers, &found)
    }

    /// The same as `join_alt` of the clauses of an `if`, this one with this body.
    pub(crate) fn join_branch(
        &mut self,
        joined: Facts,
        after: Facts,
        larger: bool,
        before: &'a [Branch],
        items: &'a [Item],
    ) -> Result<Facts, AllocError>
        ensures { IfOk result (λ new. Adds self.old self.new [] × ((s : Scope) → Means self.old.nodes.items joined (left_behind (branches_unsafe before.now) s) → Means self.old.nodes.items after (past_items items.now s) → Means self.new.nodes.items new (left_behind (branches_unsafe before.now ++ items_unsafe items.now) s))) }
    {
        if larger {
            self.put_branches(joined, after, before, items)
        } else {
            self.put_body(joined, items)
        }
    }
}

/// Whether more was added from the middle on than from the start to the middle.
pub(crate) fn is_larger(start: usize, middle: usize, end: usize) -> bool {
    middle.saturating_sub(start) < end.saturating_sub(middle)
}
