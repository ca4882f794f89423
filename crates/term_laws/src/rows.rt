//! Small programs whose outcome the definitions compute.
ghost use Rattle.term_laws.specs.Worked.{FixedAtomsStand, KeepsLowestBits, LittleBuilds, LittleMatches, PrefixMatches, PrefixTooLong, NegativeSizeFails, NegativeSizeRaises, TooLongBuild, WrongKindFirst, ShortPart, WideSkips, WideLimits, WideSigned, PairBuilds, PairMatches, OverlongFails, EuroMatches, RepeatCompares, LiteralLimit};

fn fixed_atoms_stand()
    ensures { FixedAtomsStand }
{}

#[tactic(auto, using(crate::proofs::WorkedRows::keeps_lowest_bits))]
fn keeps_lowest_bits()
    ensures { KeepsLowestBits }
{}

#[tactic(auto, using(crate::proofs::WorkedRows::little_builds))]
fn little_builds()
    ensures { LittleBuilds }
{}

#[tactic(auto, using(crate::proofs::WorkedRows::little_matches))]
fn little_matches()
    ensures { LittleMatches }
{}

#[tactic(auto, using(crate::proofs::WorkedRows::prefix_matches))]
fn prefix_matches()
    ensures { PrefixMatches }
{}

#[tactic(auto, using(crate::proofs::WorkedRows::prefix_too_long))]
fn prefix_too_long()
    ensures { PrefixTooLong }
{}

#[tactic(auto, using(crate::proofs::WorkedRows::negative_size_fails))]
fn negative_size_fails()
    ensures { NegativeSizeFails }
{}

#[tactic(auto, using(crate::proofs::WorkedRows::negative_size_raises))]
fn negative_size_raises()
    ensures { NegativeSizeRaises }
{}

#[tactic(auto, using(crate::proofs::WorkedRows::too_long_build))]
fn too_long_build()
    ensures { TooLongBuild }
{}

#[tactic(auto, using(crate::proofs::WorkedRows::wrong_kind_first))]
fn wrong_kind_first()
    ensures { WrongKindFirst }
{}

#[tactic(auto, using(crate::proofs::WorkedRows::short_part))]
fn short_part()
    ensures { ShortPart }
{}

#[tactic(auto, using(crate::proofs::WorkedRows::wide_skips))]
fn wide_skips()
    ensures { WideSkips }
{}

#[tactic(auto, using(crate::proofs::WorkedRows::wide_limits))]
fn wide_limits()
    ensures { WideLimits }
{}

#[tactic(auto, using(crate::proofs::WorkedRows::wide_signed))]
fn wide_signed()
    ensures { WideSigned }
{}

#[tactic(auto, using(crate::proofs::WorkedRows::pair_builds))]
fn pair_builds()
    ensures { PairBuilds }
{}

#[tactic(auto, using(crate::proofs::WorkedRows::pair_matches))]
fn pair_matches()
    ensures { PairMatches }
{}

#[tactic(auto, using(crate::proofs::WorkedRows::overlong_fails))]
fn overlong_fails()
    ensures { OverlongFails }
{}

#[tactic(auto, using(crate::proofs::WorkedRows::euro_matches))]
fn euro_matches()
    ensures { EuroMatches }
{}

#[tactic(auto, using(crate::proofs::WorkedRows::repeat_compares))]
fn repeat_compares()
    ensures { RepeatCompares }
{}

#[tactic(auto, using(crate::proofs::WorkedRows::literal_limit))]
fn literal_limit()
    ensures { LiteralLimit }
{}
