//! What comes of a choice of a clause and of a match.
ghost use Rattle.std.specs.Prelude.{◌≡◌};
ghost use Rattle.plain_moves.specs.Moving.{IsMove};
ghost use Rattle.plain_moves.specs.Reading.{stop_of};
ghost use Rattle.code_match.specs.Matches.{choice_of};
ghost use Rattle.term_layers.specs.Environments as e;
ghost use Rattle.term_value.specs.Step.{World, Ready, lift, step};
ghost use Rattle.term_value.specs.Tree.{Tree};

use crate::focus::{Focus, Open, Stop};
use crate::moves::Move;
use code_match::Choice;

/// The move into the chosen clause, at so many reductions; without one it falls so.
pub(crate) fn goes_with<'a>(cost: u32, otherwise: Stop, choice: Choice<'a>) -> Move<'a>
    ensures { (w : World) (u : Tree) → step w u ≡ lift Ready e.tree_in (e.of_choice cost (stop_of otherwise) (choice_of choice.entry)) → IsMove w u result }
{
    match choice {
        Choice::Chosen(bindings, lines) => {
            Move::Goes(cost, Focus::Goes(Open::Body(lines, bindings)))
        }
        Choice::NotChosen => Move::Falls(cost, otherwise),
        Choice::Limit => Move::Falls(cost, Stop::Limit),
    }
}
