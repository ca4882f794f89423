//! Small expressions and patterns whose reading the definitions compute.
ghost use Rattle.term_laws.specs.WorkedReads.{TailIsRead, TailIsNoList, HomeIsBuiltIn, MacroIsOwn, StringSpreads, SignIsWanted, SignBindsNone, MatchesFromTheRight, InnerIsNew};
ghost use Rattle.term_laws.specs.WorkedModules.{EachFunctionCounts};

fn tail_is_read()
    ensures { TailIsRead }
{}

fn tail_is_no_list()
    ensures { TailIsNoList }
{}

fn home_is_built_in()
    ensures { HomeIsBuiltIn }
{}

fn macro_is_own()
    ensures { MacroIsOwn }
{}

#[tactic(auto, using(crate::proofs::WorkedRows::string_spreads))]
fn string_spreads()
    ensures { StringSpreads }
{}

fn sign_is_wanted()
    ensures { SignIsWanted }
{}

fn sign_binds_none()
    ensures { SignBindsNone }
{}

fn matches_from_the_right()
    ensures { MatchesFromTheRight }
{}

fn inner_is_new()
    ensures { InnerIsNew }
{}

#[tactic(auto, using(crate::proofs::WorkedModules::each_function_counts))]
fn each_function_counts()
    ensures { EachFunctionCounts }
{}
