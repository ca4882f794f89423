//! The rows that a bit generator has still to give.

ghost use Rattle.std.specs.Prelude.{◌≡◌, ℕ, List, Bool, true, false, All, map, Some};
ghost use Rattle.term_value.specs.Match.{all_taken};
ghost use Rattle.term_value.specs.Rows.{front, skips, bits_generator, rows_under, shape as shape_of};
ghost use Rattle.term_value.specs.Tree.{Bound, Segments};
ghost use Rattle.term_value.specs.Value.{VBits};
ghost use Rattle.pattern_compile.specs.Meaning.{means, wants, size_form, TakeAlike};
ghost use Rattle.pattern_compile.specs.Patterns.{TargetsFit, SizeFits, given, one_binds};
ghost use Rattle.match_context.specs.Contexts.{left, IsContext};
ghost use Rattle.match_context.specs.Envs.{AreThere, Agrees, Fixed, known};
ghost use Rattle.match_context.specs.Runs.{AsBefore};
ghost use Rattle.comprehension.specs.Remaining.{IsRows, rows_left, IsNext, StaysIfNone, StaysDone, LeavesPattern, IsFront, MovesIfFound, is_last};

use bit_store::Store;
use match_context::{Context, Env, Matched, release, run};
use pattern_compile::MatchProgram;
use shares::Share;
use term_layers::bit_cursor;

/// The next row.
#[derive(Clone, Copy, Debug, PartialEq, Eq, Drop)]
pub enum Row {
    /// The variables of the pattern are bound.
    Bound,
    /// The pattern doesn't match here, and its shape's bits are skipped.
    Skipped,
    /// No row is left.
    Ended,
    /// A bound is passed.
    Limit,
    /// No memory was left.
    NoMemory,
}

/// The rows that a bit generator has still to give: its pattern, the pattern's shape, and a place in its source.
#[derive(Debug, Drop)]
pub struct Rows<R> {
    pub pattern: MatchProgram,
    pub shape: MatchProgram,
    pub context: Context<R>,
    /// Whether an earlier row was the last.
    pub done: bool,
}

impl<R> Rows<R> {
    /// All rows of a pattern and its shape on what the context has left.
    ///
    /// Of programs that `compile` and `shape` make of one pattern these are the generator's rows over those bits.
    pub fn new(pattern: MatchProgram, shape: MatchProgram, context: Context<R>) -> Rows<R>
        ensures pattern { result.pattern ≡ pattern }
        ensures shape { result.shape ≡ shape }
        ensures context { result.context ≡ context }
        ensures done { result.done ≡ false }
        ensures rows { (shown : R → List Bool) (fixed : Fixed) (bs : List Bound) (ss : Segments)
            → TakeAlike (means fixed.trees pattern.ops) ss → TakeAlike (means fixed.trees shape.ops) (shape_of ss)
            → rows_under fixed.setting bs (bits_generator ss) (VBits (left shown context)) ≡ Some (rows_left shown fixed bs result) }
    {
        Rows {
            pattern,
            shape,
            context,
            done: false,
        }
    }
}

impl<R: Share + Drop> Rows<R> {
    /// The next row (Erlang Reference Manual, "Comprehensions"; that what the shape fits is skipped is this project's own rule).
    ///
    /// After Bound the environment has the row's bindings, which are to be taken away before the next call. After any other answer it
    /// is as before. After Ended and Limit each further answer is Ended. Moves no bit.
    pub fn next<S: Store<R>, E: Env<R, S>>(&mut self, store: &S, env: &mut E) -> Row
        requires rows { IsRows (S.shown store.now) (S.has store.now) self.old }
        requires there { AreThere (S.has store.now) (E.held env.old) }
        requires pattern { TargetsFit (E.fixed env.old).variables (known (E.held env.old)) (map wants self.old.pattern.ops) }
        requires pattern_sizes { All (λ op. SizeFits (E.fixed env.old).sizes (given (size_form op))) self.old.pattern.ops }
        requires shape { TargetsFit (E.fixed env.old).variables (known (E.held env.old)) (map wants self.old.shape.ops) }
        requires shape_sizes { All (λ op. SizeFits (E.fixed env.old).sizes (given (size_form op))) self.old.shape.ops }
        ensures is { (bs : List Bound) → Agrees (S.shown store.now) (E.held env.old) bs
            → IsNext (S.shown store.now) (E.held env.new)
            (rows_left (S.shown store.now) (E.fixed env.old) bs self.new)
            (rows_left (S.shown store.now) (E.fixed env.old) bs self.old) result }
        ensures unbound { StaysIfNone result (E.held env.old) (E.held env.new) }
        ensures others { (x : ℕ) → one_binds (map wants self.old.pattern.ops) x ≡ false → E.held env.new x ≡ E.held env.old x }
        ensures done { StaysDone result self.old self.new }
        ensures rows { IsRows (S.shown store.now) (S.has store.now) self.new }
        ensures same { LeavesPattern self.old self.new }
        ensures there { AreThere (S.has store.now) (E.held env.new) }
        ensures kept { E.fixed env.new ≡ E.fixed env.old }
    {
        bit_cursor();
        if self.done {
            return Row::Ended;
        }
        let row = self.front(store, env);
        self.done = is_last(row);
        row
    }

    // What is in front of the bits that are left.
    fn front<S: Store<R>, E: Env<R, S>>(&mut self, store: &S, env: &mut E) -> Row
        requires rows { IsRows (S.shown store.now) (S.has store.now) self.old }
        requires there { AreThere (S.has store.now) (E.held env.old) }
        requires pattern { TargetsFit (E.fixed env.old).variables (known (E.held env.old)) (map wants self.old.pattern.ops) }
        requires pattern_sizes { All (λ op. SizeFits (E.fixed env.old).sizes (given (size_form op))) self.old.pattern.ops }
        requires shape { TargetsFit (E.fixed env.old).variables (known (E.held env.old)) (map wants self.old.shape.ops) }
        requires shape_sizes { All (λ op. SizeFits (E.fixed env.old).sizes (given (size_form op))) self.old.shape.ops }
        ensures is { (bs : List Bound) → Agrees (S.shown store.now) (E.held env.old) bs
            → IsFront (S.shown store.now) (E.held env.new) (left (S.shown store.now) self.new.context)
            (front (E.fixed env.old).setting (means (E.fixed env.old).trees self.old.pattern.ops) (means (E.fixed env.old).trees self.old.shape.ops) bs (left (S.shown store.now) self.old.context)) result }
        ensures unbound { StaysIfNone result (E.held env.old) (E.held env.new) }
        ensures others { (x : ℕ) → one_binds (map wants self.old.pattern.ops) x ≡ false → E.held env.new x ≡ E.held env.old x }
        ensures moved { MovesIfFound result self.old self.new }
        ensures context { IsContext (S.shown store.now) (S.has store.now) self.new.context }
        ensures there { AreThere (S.has store.now) (E.held env.new) }
        ensures kept { E.fixed env.new ≡ E.fixed env.old }
    {
        let length = self.context.left();
        match run(&self.pattern, store, &mut self.context, env) {
            Matched::Yes => {
                if self.context.left() < length {
                    return Row::Bound;
                }
                release(&self.pattern, env);
                Row::Ended
            }
            Matched::No => self.skip(store, env),
            Matched::Limit => Row::Limit,
            Matched::NoMemory => Row::NoMemory,
        }
    }

    // What is in front of the bits that are left, where the pattern doesn't match.
    fn skip<S: Store<R>, E: Env<R, S>>(&mut self, store: &S, env: &mut E) -> Row
        requires rows { IsRows (S.shown store.now) (S.has store.now) self.old }
        requires there { AreThere (S.has store.now) (E.held env.old) }
        requires shape { TargetsFit (E.fixed env.old).variables (known (E.held env.old)) (map wants self.old.shape.ops) }
        requires shape_sizes { All (λ op. SizeFits (E.fixed env.old).sizes (given (size_form op))) self.old.shape.ops }
        ensures is { (bs : List Bound) → Agrees (S.shown store.now) (E.held env.old) bs
            → IsFront (S.shown store.now) (E.held env.new) (left (S.shown store.now) self.new.context)
            (skips (left (S.shown store.now) self.old.context) (all_taken (E.fixed env.old).setting (means (E.fixed env.old).trees self.old.shape.ops) bs (left (S.shown store.now) self.old.context))) result }
        ensures before { AsBefore (E.held env.old) (E.held env.new) }
        ensures moved { MovesIfFound result self.old self.new }
        ensures context { IsContext (S.shown store.now) (S.has store.now) self.new.context }
        ensures kept { E.fixed env.new ≡ E.fixed env.old }
    {
        let before = self.context.left();
        match run(&self.shape, store, &mut self.context, env) {
            Matched::Yes => {
                release(&self.shape, env);
                if self.context.left() < before {
                    Row::Skipped
                } else {
                    Row::Ended
                }
            }
            Matched::No => Row::Ended,
            Matched::Limit => Row::Limit,
            Matched::NoMemory => Row::NoMemory,
        }
    }
}

// Whether no row follows.
fn is_last(row: Row) -> bool
    ensures { result ≡ is_last row }
{
    match row {
        Row::Bound | Row::Skipped | Row::NoMemory => false,
        Row::Ended | Row::Limit => true,
    }
}
