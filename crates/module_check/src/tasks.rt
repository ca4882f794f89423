//! What is left to look at: parts of a function with what is known where they stand.

ghost use Rattle.std.specs.Prelude.{◌≡◌, ◌++◌, ◌∷◌, [], Bool, true, false, List, IfOk, reverse, length, drop, ◌<◌, ◌+◌};
ghost use Rattle.erl_syntax.specs.Bindings.{Bound, names, targets, targets_of};
ghost use Rattle.erl_syntax.specs.declared.clause.Alt.{out-Alt};
ghost use Rattle.erl_syntax.specs.declared.clause.Branch.{out-Branch};
ghost use Rattle.erl_syntax.specs.declared.typing.SideUse.TheVariants.{Build, Generator};
ghost use Rattle.erl_syntax.specs.declared.segment.Segment.{Segment};
ghost use Rattle.erl_syntax.specs.declared.pattern.Pattern.{Pattern};
ghost use Rattle.erl_syntax.specs.Scopes.{Scope, Danger, AnExpr, APattern, ABody, ASegment, behind, with_known, in_guard, to_match, to_generate, past_patterns, past_segments, past_items, past_quals, generated, sizes_of, is_empty};
ghost use Rattle.erl_syntax.specs.declared.expr.Expr.{Expr};
ghost use Rattle.module_check.specs.Nodes.{Sees, SeesUnsafe, bound_of, bounds_of};
ghost use Rattle.module_check.specs.Spots.{Spot, spot, each, expr_in, same_in, tests_in, guard_in, pattern_in, matched_in, item_in, items_in, built_in_turn, segment_in, alt_layer_in, alt_in, branch_layer_in, branch_in, qual_in, quals_in, comprehension_in, inside_expr, inside_pattern, size_scope, inside_segment, inside, clause_in, clauses_in};
ghost use Rattle.module_check.specs.Tasks.{part_of, Means, SeesSizes, Fits, left_in, Adds, AddsAlone, Passes, passed, with_new, size_in, left_behind, past_alt, built_exprs};
ghost use Rattle.module_check.specs.Unsafe.{alt_unsafe, alts_unsafe, branch_unsafe, branches_unsafe};

use crate::joins::is_larger;
use crate::scopes::{Target, append, append_all, endanger, put_all};
use crate::targets::{add_new, add_qual_unsafe, add_segment_target, add_targets, add_unsafe};
use crate::trees::{Node, find, put};
use erl_syntax::{
    Alt, Branch, Clause, Expr, Function, Guard, Item, Pattern, Qual, Segment, SideUse,
};
use std::alloc::{AllocError, Global};

/// A part of a function.
#[derive(Clone, Copy)]
pub(crate) enum Part<'a> {
    Expr(&'a Expr),
    Pattern(&'a Pattern),
    Body(&'a [Item]),
    /// A segment, on which side it stands, and whether no other follows.
    Segment(SideUse, bool, &'a Segment),
}

/// What is known where a part stands: the nodes of the variables with values, of those that the sizes in a pattern see, and of
/// the unsafe ones, and whether it is a guard or a size.
#[derive(Clone, Copy)]
pub(crate) struct Facts {
    pub known: usize,
    pub sizes: usize,
    pub dangers: usize,
    pub guarded: bool,
}

#[derive(Clone, Copy)]
pub(crate) struct Task<'a> {
    pub facts: Facts,
    pub part: Part<'a>,
    /// How many nodes there were when the task was added: it needs none of those that are added later.
    pub mark: usize,
    /// Whether what stands inside the part is left to look at too: else it has tasks of its own.
    pub whole: bool,
}

/// What is left to look at in a function.
#[derive(Drop)]
pub(crate) struct Walk<'a> {
    pub alloc: Global,
    pub nodes: Vec<Node<'a>>,
    pub tasks: Vec<Task<'a>>,
}

impl<'a> Walk<'a> {
    fn add(&mut self, facts: Facts, part: Part<'a>, whole: bool) -> Result<(), AllocError>
        ensures { IfOk result (λ u. (self.new.nodes.items ≡ self.old.nodes.items) × (self.new.tasks.items ≡ self.old.tasks.items ++ record { facts = facts; part = part.entry; mark = length self.old.nodes.items; whole = whole } ∷ [])) }
    {
        let mark = self.nodes.len();
        Ok(
            self.tasks.push(Task {
                facts,
                part,
                mark,
                whole,
            })?,
        )
    }

    /// Adds a part with all that stands inside it.
    fn push(&mut self, facts: Facts, part: Part<'a>) -> Result<(), AllocError>
        ensures { IfOk result (λ u. (d : Spot) → Fits self.old.nodes.items (record { facts = facts; part = part.entry; mark = length self.old.nodes.items; whole = true }) d → Adds self.old self.new (d ∷ [])) }
    {
        self.add(facts, part, true)
    }

    /// Adds a part by itself.
    fn push_alone(&mut self, facts: Facts, part: Part<'a>) -> Result<(), AllocError>
        ensures { IfOk result (λ u. (d : Spot) → Fits self.old.nodes.items (record { facts = facts; part = part.entry; mark = length self.old.nodes.items; whole = false }) d → AddsAlone self.old self.new d) }
    {
        self.add(facts, part, false)
    }

    /// The facts behind an expression.
    fn behind(&mut self, facts: Facts, expr: &'a Expr) -> Result<Facts, AllocError>
        ensures { IfOk result (λ after. Adds self.old self.new [] × ((s : Scope) → Means self.old.nodes.items facts s → Means self.new.nodes.items after (behind (expr.now ∷ []) s))) }
    {
        let mut found = Vec::new(self.alloc);
        add_unsafe(&mut found, expr)?;
        let dangers = endanger(&mut self.nodes, facts.dangers, facts.known, &found)?;
        Ok(Facts { dangers, ..facts })
    }

    /// The facts where the variables of a pattern have values too.
    fn know(&mut self, facts: Facts, pattern: &'a Pattern) -> Result<Facts, AllocError>
        ensures { IfOk result (λ after. (s : Scope) → Means self.old.nodes.items facts s → Adds self.old self.new [] × (Means self.new.nodes.items after (with_known (targets pattern.now) s) × (after.sizes ≡ facts.sizes))) }
    {
        let mut found = Vec::new(self.alloc);
        add_targets(&mut found, pattern)?;
        let known = append_all(&mut self.nodes, facts.known, &found)?;
        Ok(Facts { known, ..facts })
    }

    /// Expressions in one facts.
    fn push_same(&mut self, facts: Facts, exprs: &'a [Expr]) -> Result<(), AllocError>
        ensures { IfOk result (λ u. (s : Scope) → Means self.old.nodes.items facts s → Adds self.old self.new (each (same_in s) [] exprs.now)) }
    {
        for expr in exprs {
            self.push(facts, Part::Expr(expr))?;
        }
        Ok(())
    }

    /// A guard.
    fn push_guard(&mut self, facts: Facts, guard: &'a Guard) -> Result<(), AllocError>
        ensures { IfOk result (λ u. (s : Scope) → Means self.old.nodes.items facts s → Adds self.old self.new (guard_in (in_guard s) guard.now)) }
    {
        let guarded = Facts {
            guarded: true,
            ..facts
        };
        let alternatives = guard.alternatives.items();
        for tests in alternatives {
            self.push_same(guarded, tests.items())?;
        }
        Ok(())
    }

    /// The patterns of an item, the last first, and the facts behind them.
    fn push_matched(&mut self, facts: Facts, patterns: &'a [Pattern]) -> Result<Facts, AllocError>
        ensures { IfOk result (λ after. (s : Scope) → Means self.old.nodes.items facts s → Adds self.old self.new (each (matched_in s) [] (reverse patterns.now)) × Means self.new.nodes.items after (with_known (targets_of (reverse patterns.now)) s)) }
    {
        let mut after = facts;
        let mut left = patterns.len();
        while left > 0 {
            left -= 1;
            let pattern = &patterns[left];
            let matched = Facts {
                sizes: after.known,
                ..after
            };
            after = self.push_pattern(matched, pattern)?;
        }
        Ok(after)
    }

    /// The facts behind a variable of a bit pattern.
    fn pass_target(&mut self, facts: Facts, target: Target<'a>) -> Result<Facts, AllocError>
        ensures adds { IfOk result (λ after. Adds self.old self.new []) }
        ensures means { IfOk result (λ after. (s : Scope) (bs : List Bound) → Passes self.old.nodes.items facts (passed bs s) → Passes self.new.nodes.items after (passed (bs ++ bound_of target.entry ∷ []) s)) }
    {
        let known = append(&mut self.nodes, facts.known, target)?;
        let Some(place) = find(&self.nodes, known, target.name) else {
            return Ok(facts);
        };
        let sizes = put(&mut self.nodes, facts.sizes, target.name, place)?;
        Ok(Facts {
            known,
            sizes,
            ..facts
        })
    }

    /// The facts behind these variables of a bit pattern.
    fn pass_targets(&mut self, facts: Facts, targets: &[Target<'a>]) -> Result<Facts, AllocError>
        ensures adds { IfOk result (λ after. Adds self.old self.new []) }
        ensures means { IfOk result (λ after. (s : Scope) (bs : List Bound) → Passes self.old.nodes.items facts (passed bs s) → Passes self.new.nodes.items after (passed (bs ++ bounds_of targets.now) s)) }
    {
        let mut after = facts;
        for target in targets {
            after = self.pass_target(after, *target)?;
        }
        Ok(after)
    }

    /// The facts behind a segment of a bit pattern.
    fn pass_segment(&mut self, facts: Facts, segment: &'a Segment) -> Result<Facts, AllocError>
        ensures adds { IfOk result (λ after. Adds self.old self.new []) }
        ensures means { IfOk result (λ after. (s : Scope) (front : List Segment) → Passes self.old.nodes.items facts (past_segments front s) → Passes self.new.nodes.items after (past_segments (front ++ segment.now ∷ []) s)) }
    {
        let mut found = Vec::new(self.alloc);
        add_segment_target(&mut found, segment)?;
        self.pass_targets(facts, &found)
    }

    /// The segments of a bit pattern.
    fn push_segments(
        &mut self,
        side: SideUse,
        facts: Facts,
        segments: &'a [Segment],
    ) -> Result<(), AllocError>
        ensures { IfOk result (λ u. (s : Scope) → Means self.old.nodes.items facts s → Sees self.old.nodes.items facts.sizes s.outer → Adds self.old self.new (each (segment_in side s) [] segments.now)) }
    {
        let mut after = facts;
        for (index, segment) in segments.iter().enumerate() {
            let last = is_last(segments, index);
            self.push(after, Part::Segment(side, last, segment))?;
            after = self.pass_segment(after, segment)?;
        }
        Ok(())
    }

    /// A generator over a list.
    fn push_generator(
        &mut self,
        facts: Facts,
        source: &'a Expr,
        pattern: &'a Pattern,
    ) -> Result<(), AllocError>
        ensures { IfOk result (λ u. (s : Scope) → Means self.old.nodes.items facts s → Adds self.old self.new (spot s (AnExpr source.now) ∷ spot (to_generate s) (APattern pattern.now) ∷ [])) }
    {
        let generated = Facts {
            known: 0,
            sizes: facts.known,
            ..facts
        };
        self.push(facts, Part::Expr(source))?;
        self.push_pattern(generated, pattern)?;
        Ok(())
    }

    /// A generator over bits.
    fn push_bit_generator(
        &mut self,
        facts: Facts,
        source: &'a Expr,
        segments: &'a [Segment],
    ) -> Result<(), AllocError>
        ensures { IfOk result (λ u. (s : Scope) → Means self.old.nodes.items facts s → Adds self.old self.new (spot s (AnExpr source.now) ∷ each (segment_in Generator (to_generate s)) [] segments.now)) }
    {
        let generated = Facts {
            known: 0,
            sizes: facts.known,
            ..facts
        };
        self.push(facts, Part::Expr(source))?;
        self.push_segments(SideUse::Generator, generated, segments)
    }

    /// A qualifier.
    fn push_qual(&mut self, facts: Facts, qual: &'a Qual) -> Result<(), AllocError>
        ensures { IfOk result (λ u. (s : Scope) → Means self.old.nodes.items facts s → Adds self.old self.new (qual_in s qual.now)) }
    {
        match qual {
            Qual::Items {
                pattern,
                source,
                ..
            } => self.push_generator(facts, source, pattern),
            Qual::Bits {
                segments,
                source,
                ..
            } => self.push_bit_generator(facts, source, segments.items()),
            Qual::Filter { test, .. } => self.push(facts, Part::Expr(test)),
        }
    }

    /// The facts behind a qualifier.
    fn past_qual(&mut self, facts: Facts, qual: &'a Qual) -> Result<Facts, AllocError>
        ensures adds { IfOk result (λ after. Adds self.old self.new []) }
        ensures means { IfOk result (λ after. (s : Scope) → Means self.old.nodes.items facts s → Means self.new.nodes.items after (past_quals (qual.now ∷ []) s)) }
    {
        let mut left = Vec::new(self.alloc);
        add_qual_unsafe(&mut left, qual)?;
        let dangers = endanger(&mut self.nodes, facts.dangers, facts.known, &left)?;
        let generated = self.generate(facts, qual)?;
        Ok(Facts {
            dangers,
            ..generated
        })
    }

    /// The facts where the new variables of a qualifier hide others.
    fn generate(&mut self, facts: Facts, qual: &'a Qual) -> Result<Facts, AllocError>
        ensures adds { IfOk result (λ after. Adds self.old self.new []) }
        ensures means { IfOk result (λ after. (s : Scope) → Means self.old.nodes.items facts s → Means self.new.nodes.items after (with_new qual.now s)) }
    {
        let mut found = Vec::new(self.alloc);
        add_new(&mut found, qual)?;
        let known = put_all(&mut self.nodes, facts.known, &found)?;
        Ok(Facts { known, ..facts })
    }

    fn push_quals(&mut self, facts: Facts, quals: &'a [Qual]) -> Result<(), AllocError>
        ensures { IfOk result (λ u. (s : Scope) → Means self.old.nodes.items facts s → Adds self.old self.new (each (quals_in s) [] quals.now)) }
    {
        let mut after = facts;
        for qual in quals {
            self.push_qual(after, qual)?;
            after = self.past_qual(after, qual)?;
        }
        Ok(())
    }

    /// The facts of a comprehension's row.
    fn generate_all(&mut self, facts: Facts, quals: &'a [Qual]) -> Result<Facts, AllocError>
        ensures adds { IfOk result (λ after. Adds self.old self.new []) }
        ensures means { IfOk result (λ after. (s : Scope) → Means self.old.nodes.items facts s → Means self.new.nodes.items after (record s { known = generated quals.now s.known })) }
    {
        let mut after = facts;
        for qual in quals {
            after = self.generate(after, qual)?;
        }
        Ok(after)
    }

    /// The facts behind expressions.
    fn behind_all(&mut self, facts: Facts, exprs: &'a [Expr]) -> Result<Facts, AllocError>
        ensures adds { IfOk result (λ after. Adds self.old self.new []) }
        ensures means { IfOk result (λ after. (s : Scope) → Means self.old.nodes.items facts s → Means self.new.nodes.items after (behind exprs.now s)) }
    {
        let mut after = facts;
        for expr in exprs {
            after = self.behind(after, expr)?;
        }
        Ok(after)
    }

    /// A comprehension: what its row leaves unsafe is so in the qualifiers, since it stands before them.
    fn push_comprehension(
        &mut self,
        facts: Facts,
        row: &'a [Expr],
        quals: &'a [Qual],
    ) -> Result<(), AllocError>
        ensures { IfOk result (λ u. (s : Scope) → Means self.old.nodes.items facts s → Adds self.old self.new (comprehension_in s row.now quals.now)) }
    {
        let inner = self.generate_all(facts, quals)?;
        self.push_same(inner, row)?;
        let behind = self.behind_all(inner, row)?;
        let outer = Facts {
            dangers: behind.dangers,
            ..facts
        };
        self.push_quals(outer, quals)
    }

    /// A clause of a `case` or a `receive`, and the facts at its end.
    #[cycle(expr)]
    fn push_alt(&mut self, facts: Facts, alt: &'a Alt) -> Result<Facts, AllocError>
        ensures { IfOk result (λ after. (s : Scope) → Means self.old.nodes.items facts s → Adds self.old self.new (alt_layer_in s (out-Alt alt.now)) × Means self.new.nodes.items after (past_alt (out-Alt alt.now) s)) }
    {
        let matched = Facts {
            sizes: facts.known,
            ..facts
        };
        let known = self.push_pattern(matched, &alt.pattern)?;
        self.push_guard(known, &alt.guard)?;
        self.push_body(known, alt.body.items())
    }

    /// The clauses of a `case` or a `receive`, and the facts behind them.
    #[cycle(expr)]
    fn push_alts(&mut self, facts: Facts, alts: &'a [Alt]) -> Result<Facts, AllocError>
        ensures { IfOk result (λ after. (s : Scope) → Means self.old.nodes.items facts s → Adds self.old self.new (each (alt_in s) [] alts.now) × Means self.new.nodes.items after (left_behind (alts_unsafe alts.now) s)) }
    {
        let start = self.tasks.len();
        let mut joined = facts;
        for (index, alt) in alts.iter().enumerate() {
            let middle = self.tasks.len();
            let after = self.push_alt(facts, alt)?;
            let larger = is_larger(start, middle, self.tasks.len());
            let before = &alts[..index];
            joined = self.join_alt(joined, after, larger, before, alt)?;
        }
        Ok(joined)
    }

    /// A clause of an `if`, and the facts at its end.
    #[cycle(expr)]
    fn push_branch(&mut self, facts: Facts, branch: &'a Branch) -> Result<Facts, AllocError>
        ensures { IfOk result (λ after. (s : Scope) → Means self.old.nodes.items facts s → Adds self.old self.new (branch_layer_in s (out-Branch branch.now)) × Means self.new.nodes.items after (past_items (out-Branch branch.now).body s)) }
    {
        self.push_guard(facts, &branch.guard)?;
        self.push_body(facts, branch.body.items())
    }

    /// The clauses of an `if`, and the facts behind them.
    #[cycle(expr)]
    fn push_branches(&mut self, facts: Facts, branches: &'a [Branch]) -> Result<Facts, AllocError>
        ensures { IfOk result (λ after. (s : Scope) → Means self.old.nodes.items facts s → Adds self.old self.new (each (branch_in s) [] branches.now) × Means self.new.nodes.items after (left_behind (branches_unsafe branches.now) s)) }
    {
        let start = self.tasks.len();
        let mut joined = facts;
        for (index, branch) in branches.iter().enumerate() {
            let middle = self.tasks.len();
            let after = self.push_branch(facts, branch)?;
            let larger = is_larger(start, middle, self.tasks.len());
            let before = &branches[..index];
            let body = branch.body.items();
            joined = self.join_branch(joined, after, larger, before, body)?;
        }
        Ok(joined)
    }

    /// A body, and the facts at its end.
    #[cycle(expr)]
    fn push_body(&mut self, facts: Facts, items: &'a [Item]) -> Result<Facts, AllocError>
        ensures { IfOk result (λ after. (s : Scope) → Means self.old.nodes.items facts s → Adds self.old self.new (spot s (ABody items.now) ∷ []) × Means self.new.nodes.items after (past_items items.now s)) }
    {
        self.push_alone(facts, Part::Body(items))?;
        self.push_items(facts, items)
    }

    #[cycle(expr)]
    fn push_items(&mut self, facts: Facts, items: &'a [Item]) -> Result<Facts, AllocError>
        ensures { IfOk result (λ after. (s : Scope) → Means self.old.nodes.items facts s → Adds self.old self.new (each (items_in s) [] items.now) × Means self.new.nodes.items after (past_items items.now s)) }
    {
        let mut after = facts;
        for item in items {
            let behind = self.push_expr(after, &item.value)?;
            let matched = self.push_matched(after, item.patterns.items())?;
            after = Facts {
                known: matched.known,
                ..behind
            };
        }
        Ok(after)
    }

    /// The segments of a bit expression, and the facts behind them.
    #[cycle(expr)]
    fn push_built(&mut self, facts: Facts, segments: &'a [Segment]) -> Result<Facts, AllocError>
        ensures { IfOk result (λ after. (s : Scope) → Means self.old.nodes.items facts s → Adds self.old self.new (each (built_in_turn s) [] segments.now) × Means self.new.nodes.items after (behind (built_exprs segments.now) s)) }
    {
        let mut after = facts;
        for (index, segment) in segments.iter().enumerate() {
            let last = is_last(segments, index);
            self.push_alone(after, Part::Segment(SideUse::Build, last, segment))?;
            after = self.push_value(after, segment)?;
        }
        Ok(after)
    }

    /// What stands inside a segment of a bit expression, and the facts behind it.
    #[cycle(expr)]
    fn push_value(&mut self, facts: Facts, segment: &'a Segment) -> Result<Facts, AllocError>
        ensures { IfOk result (λ after. (s : Scope) → Means self.old.nodes.items facts s → Adds self.old self.new (inside_segment s Build segment.now) × Means self.new.nodes.items after (behind (segment.now.value ∷ sizes_of segment.now) s)) }
    {
        let behind = self.push_expr(facts, &segment.value)?;
        match &segment.size {
            Some(size) => self.push_expr(behind, size),
            None => Ok(behind),
        }
    }

    /// Expressions one behind another, and the facts behind them.
    #[cycle(expr)]
    fn push_exprs(&mut self, facts: Facts, exprs: &'a [Expr]) -> Result<Facts, AllocError>
        ensures { IfOk result (λ after. (s : Scope) (front : List Expr) → Means self.old.nodes.items facts (behind front s) → Adds self.old self.new (each (expr_in s) front exprs.now) × Means self.new.nodes.items after (behind (front ++ exprs.now) s)) }
    {
        let mut after = facts;
        for expr in exprs {
            after = self.push_expr(after, expr)?;
        }
        Ok(after)
    }

    /// An expression, and the facts behind it.
    #[cycle(expr)]
    fn push_expr(&mut self, facts: Facts, expr: &'a Expr) -> Result<Facts, AllocError>
        ensures { IfOk result (λ after. (s : Scope) → Means self.old.nodes.items facts s → Adds self.old self.new (spot s (AnExpr expr.now) ∷ []) × Means self.new.nodes.items after (behind (expr.now ∷ []) s)) }
    {
        self.push_alone(facts, Part::Expr(expr))?;
        self.push_in_expr(facts, expr)
    }

    /// What stands inside an expression, and the facts behind it.
    #[cycle(expr)]
    fn push_in_expr(&mut self, facts: Facts, expr: &'a Expr) -> Result<Facts, AllocError>
        ensures { IfOk result (λ after. (s : Scope) → Means self.old.nodes.items facts s → Adds self.old self.new (inside_expr s expr.now) × Means self.new.nodes.items after (behind (expr.now ∷ []) s)) }
    {
        match expr {
            Expr::Tuple { items, .. } => self.push_exprs(facts, items.items()),
            Expr::List { items, tail, .. } => {
                let behind = self.push_exprs(facts, items.items())?;
                self.push_exprs(behind, tail.items())
            }
            Expr::Bits { segments, .. } => self.push_built(facts, segments.items()),
            Expr::ListFor { row, quals, .. } => {
                self.push_comprehension(facts, row.items(), quals.items())?;
                self.behind(facts, expr)
            }
            Expr::BitsFor { row, quals, .. } => {
                self.push_comprehension(facts, row.items(), quals.items())?;
                self.behind(facts, expr)
            }
            Expr::Call { args, .. } => self.push_exprs(facts, args.items()),
            Expr::Case { value, alts, .. } => {
                let behind = self.push_exprs(facts, value.items())?;
                self.push_alts(behind, alts.items())
            }
            Expr::Receive { alts, .. } => self.push_alts(facts, alts.items()),
            Expr::If { branches, .. } => self.push_branches(facts, branches.items()),
            Expr::Unary { part, .. } => self.push_exprs(facts, part.items()),
            Expr::Binary { parts, .. } => self.push_exprs(facts, parts.items()),
            _ => self.behind(facts, expr),
        }
    }

    /// A pattern, and the facts behind it.
    #[cycle(pattern)]
    fn push_pattern(&mut self, facts: Facts, pattern: &'a Pattern) -> Result<Facts, AllocError>
        ensures { IfOk result (λ after. (s : Scope) → Means self.old.nodes.items facts s → Sees self.old.nodes.items facts.sizes s.outer → Adds self.old self.new (spot s (APattern pattern.now) ∷ []) × (Means self.new.nodes.items after (with_known (targets pattern.now) s) × (after.sizes ≡ facts.sizes))) }
    {
        self.push_alone(facts, Part::Pattern(pattern))?;
        self.push_in_pattern(facts, pattern)
    }

    /// What stands inside a pattern, and the facts behind it.
    #[cycle(pattern)]
    fn push_in_pattern(&mut self, facts: Facts, pattern: &'a Pattern) -> Result<Facts, AllocError>
        ensures { IfOk result (λ after. (s : Scope) → Means self.old.nodes.items facts s → Sees self.old.nodes.items facts.sizes s.outer → Adds self.old self.new (inside_pattern s pattern.now) × (Means self.new.nodes.items after (with_known (targets pattern.now) s) × (after.sizes ≡ facts.sizes))) }
    {
        match pattern {
            Pattern::Tuple { items, .. } => self.push_patterns(facts, items.items()),
            Pattern::List { items, tail, .. } => {
                let behind = self.push_patterns(facts, items.items())?;
                self.push_patterns(behind, tail.items())
            }
            Pattern::Bits { segments, .. } => {
                self.push_segments(SideUse::Match, facts, segments.items())?;
                self.know(facts, pattern)
            }
            Pattern::Same { patterns, .. } => self.push_patterns(facts, patterns.items()),
            _ => self.know(facts, pattern),
        }
    }

    /// Patterns one behind another, and the facts behind them.
    #[cycle(pattern)]
    fn push_patterns(&mut self, facts: Facts, patterns: &'a [Pattern]) -> Result<Facts, AllocError>
        ensures { IfOk result (λ after. (s : Scope) (front : List Pattern) → Means self.old.nodes.items facts (past_patterns front s) → Sees self.old.nodes.items facts.sizes s.outer → Adds self.old self.new (each (pattern_in s) front patterns.now) × (Means self.new.nodes.items after (past_patterns (front ++ patterns.now) s) × (after.sizes ≡ facts.sizes))) }
    {
        let mut after = facts;
        for pattern in patterns {
            after = self.push_pattern(after, pattern)?;
        }
        Ok(after)
    }

    /// The size of a segment, where one is written.
    fn push_size(&mut self, facts: Facts, size: &'a Option<Expr>) -> Result<(), AllocError>
        ensures { IfOk result (λ u. (s : Scope) → Means self.old.nodes.items facts s → Adds self.old self.new (size_in s size.now)) }
    {
        match size {
            Some(size) => self.push(facts, Part::Expr(size)),
            None => Ok(()),
        }
    }

    /// What stands inside a segment of a bit pattern.
    fn push_sized(&mut self, facts: Facts, segment: &'a Segment) -> Result<(), AllocError>
        ensures { IfOk result (λ u. (s : Scope) → Means self.old.nodes.items facts s → Sees self.old.nodes.items facts.sizes (size_scope s).known → Adds self.old self.new (size_in (size_scope s) segment.now.size)) }
    {
        let sized = Facts {
            known: facts.sizes,
            guarded: true,
            ..facts
        };
        self.push_size(sized, &segment.size)
    }

    /// What stands inside a segment.
    fn push_segment(
        &mut self,
        facts: Facts,
        side: SideUse,
        segment: &'a Segment,
    ) -> Result<(), AllocError>
        ensures { IfOk result (λ u. (s : Scope) (last : Bool) → Means self.old.nodes.items facts s → SeesSizes self.old.nodes.items facts.sizes s (ASegment side last segment.now) → Adds self.old self.new (inside_segment s side segment.now)) }
    {
        match side {
            SideUse::Build => {
                self.push_value(facts, segment)?;
                Ok(())
            }
            SideUse::Match => self.push_sized(facts, segment),
            SideUse::Generator => self.push_sized(facts, segment),
        }
    }

    /// What stands right inside a part.
    fn push_in_part(&mut self, facts: Facts, part: Part<'a>) -> Result<(), AllocError>
        ensures { IfOk result (λ u. (s : Scope) → Means self.old.nodes.items facts s → SeesSizes self.old.nodes.items facts.sizes s (part_of part.entry) → Adds self.old self.new (inside s (part_of part.entry))) }
    {
        match part {
            Part::Expr(expr) => {
                self.push_in_expr(facts, expr)?;
                Ok(())
            }
            Part::Pattern(pattern) => {
                self.push_in_pattern(facts, pattern)?;
                Ok(())
            }
            Part::Body(items) => {
                self.push_items(facts, items)?;
                Ok(())
            }
            Part::Segment(side, _, segment) => self.push_segment(facts, side, segment),
        }
    }

    /// What is left to look at inside the part of a task.
    pub fn push_inside(&mut self, task: Task<'a>) -> Result<(), AllocError>
        ensures { IfOk result (λ u. (d : Spot) → Fits self.old.nodes.items task.entry d → Adds self.old self.new (left_in task.entry.whole d)) }
    {
        if task.whole {
            self.push_in_part(task.facts, task.part)
        } else {
            Ok(())
        }
    }

    /// A clause of a function.
    fn push_clause(&mut self, clause: &'a Clause) -> Result<(), AllocError>
        ensures { IfOk result (λ u. Adds self.old self.new (clause_in [] clause.now [])) }
    {
        let nothing = Facts {
            known: 0,
            sizes: 0,
            dangers: 0,
            guarded: false,
        };
        let known = self.push_patterns(nothing, clause.patterns.items())?;
        self.push_guard(known, &clause.guard)?;
        self.push_body(known, clause.body.items())?;
        Ok(())
    }

    /// The clauses of a function.
    pub fn push_clauses(&mut self, function: &'a Function) -> Result<(), AllocError>
        ensures { IfOk result (λ u. Adds self.old self.new (clauses_in function.now)) }
    {
        let clauses = function.clauses.items();
        for clause in clauses {
            self.push_clause(clause)?;
        }
        Ok(())
    }
}

/// Whether no segment follows.
fn is_last(segments: &[Segment], index: usize) -> bool
    requires { index < length segments.now }
    ensures { result ≡ is_empty (drop (index + 1) segments.now) }
{
    index + 1 == segments.len()
}
