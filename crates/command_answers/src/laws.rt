// Laws of answers, each the contract of a function that does nothing but call other laws.
ghost use Rattle.command_answers.specs.Laws.{BadOrLegal, AnsweredChecks, AnsweredCopies, AnsweredGens, AnsweredRuns};

use module_check::one_numbering;
use report_text::{one_order, order_or_fault};

/// The text of an order of a module's machine is that of a legal and complete one, or has a first fault, and not both.
pub fn bad_or_legal()
    ensures { BadOrLegal }
{
    one_order();
    order_or_fault();
}

/// Where no port fails, `check` finds an accepted module and refuses every other text, or memory was wanting.
pub fn checks_well()
    ensures { AnsweredChecks }
{}

/// Where the report doesn't fail, `gen` writes its text, or memory was wanting.
pub fn gens_well()
    ensures { AnsweredGens }
{}

/// Where no port fails, `run` runs an accepted module and refuses every other text, or memory was wanting.
pub fn runs_well()
    ensures { AnsweredRuns }
{}

/// Where no port fails, `copy` replays a legal and complete order of an accepted module, tells the first fault of any other text, and
/// refuses a text that is no accepted module's, or memory was wanting.
pub fn copies_well()
    ensures { AnsweredCopies }
{
    bad_or_legal();
    one_numbering();
}
