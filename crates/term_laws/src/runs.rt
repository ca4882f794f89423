//! Small programs, and what a process asks for or a machine does, as the definitions compute it.
ghost use Rattle.term_laws.specs.WorkedRuns.{StoppedReport, OutReport, DisplayReport, DisplayOrder, GeneratorSkips, RowsCost, LastRowIsFree, GeneratorDrops, RowsMake, MovedIsLegal, GeneratorsNest, BadGenerator, BadFilter, RowNoBitstring, AndAlsoRaises, OrElseGives, BadMatch, NoCase, NoIf, ImproperList, GuardHides, GuardLimits, GuardFails, ActCosts, NoReceiver, SelectiveReceive, SecondFirst, FirstFirst, SeenTooEarly, Incomplete, RunsOut, TwoStopped, NotStopped, ChildUndef, NoPidZero, FullContracts};

#[tactic(auto, using(crate::proofs::WorkedRows::generator_skips))]
fn generator_skips()
    ensures { GeneratorSkips }
{}

#[tactic(auto, using(crate::proofs::WorkedRows::rows_cost))]
fn rows_cost()
    ensures { RowsCost }
{}

#[tactic(auto, using(crate::proofs::WorkedRows::last_row_is_free))]
fn last_row_is_free()
    ensures { LastRowIsFree }
{}

#[tactic(auto, using(crate::proofs::WorkedRows::generator_drops))]
fn generator_drops()
    ensures { GeneratorDrops }
{}

#[tactic(auto, using(crate::proofs::WorkedRows::rows_make))]
fn rows_make()
    ensures { RowsMake }
{}

fn moved_is_legal()
    ensures { MovedIsLegal }
{}

#[tactic(auto, using(crate::proofs::WorkedRows::generators_nest))]
fn generators_nest()
    ensures { GeneratorsNest }
{}

#[tactic(auto, using(crate::proofs::WorkedRows::bad_generator))]
fn bad_generator()
    ensures { BadGenerator }
{}

#[tactic(auto, using(crate::proofs::WorkedRows::bad_filter))]
fn bad_filter()
    ensures { BadFilter }
{}

#[tactic(auto, using(crate::proofs::WorkedRows::row_no_bitstring))]
fn row_no_bitstring()
    ensures { RowNoBitstring }
{}

#[tactic(auto, using(crate::proofs::WorkedRows::and_also_raises))]
fn and_also_raises()
    ensures { AndAlsoRaises }
{}

#[tactic(auto, using(crate::proofs::WorkedRows::or_else_gives))]
fn or_else_gives()
    ensures { OrElseGives }
{}

#[tactic(auto, using(crate::proofs::WorkedRows::bad_match))]
fn bad_match()
    ensures { BadMatch }
{}

#[tactic(auto, using(crate::proofs::WorkedRows::no_case))]
fn no_case()
    ensures { NoCase }
{}

#[tactic(auto, using(crate::proofs::WorkedRows::no_if))]
fn no_if()
    ensures { NoIf }
{}

#[tactic(auto, using(crate::proofs::WorkedRows::improper_list))]
fn improper_list()
    ensures { ImproperList }
{}

#[tactic(auto, using(crate::proofs::WorkedRows::guard_hides))]
fn guard_hides()
    ensures { GuardHides }
{}

#[tactic(auto, using(crate::proofs::WorkedRows::guard_limits))]
fn guard_limits()
    ensures { GuardLimits }
{}

#[tactic(auto, using(crate::proofs::WorkedRows::guard_fails))]
fn guard_fails()
    ensures { GuardFails }
{}

#[tactic(auto, using(crate::proofs::WorkedRows::act_costs))]
fn act_costs()
    ensures { ActCosts }
{}

#[tactic(auto, using(crate::proofs::WorkedRows::no_receiver))]
fn no_receiver()
    ensures { NoReceiver }
{}

fn selective_receive()
    ensures { SelectiveReceive }
{}

fn second_first()
    ensures { SecondFirst }
{}

fn first_first()
    ensures { FirstFirst }
{}

fn seen_too_early()
    ensures { SeenTooEarly }
{}

fn incomplete()
    ensures { Incomplete }
{}

fn runs_out()
    ensures { RunsOut }
{}

fn two_stopped()
    ensures { TwoStopped }
{}

fn not_stopped()
    ensures { NotStopped }
{}

fn child_undef()
    ensures { ChildUndef }
{}

#[tactic(auto, using(crate::proofs::WorkedRows::stopped_report))]
fn stopped_report()
    ensures { StoppedReport }
{}

#[tactic(auto, using(crate::proofs::WorkedRows::out_report))]
fn out_report()
    ensures { OutReport }
{}

#[tactic(auto, using(crate::proofs::WorkedRows::display_report))]
fn display_report()
    ensures { DisplayReport }
{}

#[tactic(auto, using(crate::proofs::WorkedRows::display_order))]
fn display_order()
    ensures { DisplayOrder }
{}

fn no_pid_zero()
    ensures { NoPidZero }
{}

fn full_contracts()
    ensures { FullContracts }
{}
