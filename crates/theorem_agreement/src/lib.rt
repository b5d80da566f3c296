// Demand 3 of document 01, what goes with it, and the theorems that other theorems stand on. No code: each theorem is what a
// function promises that does nothing, so the check asks for its proof.

#![tactic(auto)]

ghost use Rattle.theorem_agreement.specs.Claim.{Agreement, AllCorrect, Beginnings, ByRound, Near, NeverInvalid, OnlyGrows};
ghost use Rattle.theorem_agreement.specs.Claim.{CutHandsNothing, LeadersDiffer, OpenedLeadersDiffer};
ghost use Rattle.theorem_agreement.specs.GoodRun.{FromGenesis, GoodRun};

// Demand 3.
#[tactic(auto, using(crate::proofs::Agreement::agreement))]
pub fn agreement_holds()
    ensures { Agreement }
{}

// Demand 3 in document 01's own words, with all that open in the list.
#[tactic(auto, using(crate::proofs::Agreement::all_correct))]
pub fn all_correct_holds()
    ensures { AllCorrect }
{}

// A beginning of a list that meets the premises meets them, so demand 3 holds after each call.
#[tactic(auto, using(crate::proofs::Agreement::beginnings))]
pub fn beginnings_holds()
    ensures { Beginnings }
{}

// Of two lists the one whose R is not the higher begins the other.
pub fn by_round_holds()
    ensures { ByRound }
{}

// R is at most 2f + 1 above the committed round.
#[tactic(auto, using(crate::proofs::Agreement::near))]
pub fn near_holds()
    ensures { Near }
{}

// No state meets refusal 2.
#[tactic(auto, using(crate::proofs::Agreement::never_invalid))]
pub fn never_invalid_holds()
    ensures { NeverInvalid }
{}

// A committed list only grows.
#[tactic(auto, using(crate::proofs::Agreement::only_grows))]
pub fn only_grows_holds()
    ensures { OnlyGrows }
{}

// The frames of a buffer that is refused with 6 are not handed in.
#[tactic(auto, using(crate::proofs::Cut::cut))]
pub fn cut_hands_nothing_holds()
    ensures { CutHandsNothing }
{}

// n rounds in a row have different leaders.
#[tactic(auto, using(crate::proofs::Leaders::leaders_differ))]
pub fn leaders_differ_holds()
    ensures { LeadersDiffer }
{}

// And so by the rotation that an open takes.
#[tactic(auto, using(crate::proofs::Agreement::opened_leaders_differ))]
pub fn opened_leaders_differ_holds()
    ensures { OpenedLeadersDiffer }
{}

// The chain of a state that calls made is a run of good frames on the genesis.
#[tactic(auto, using(crate::proofs::GoodRun::from_genesis))]
pub fn from_genesis_holds()
    ensures { FromGenesis }
{}

// Its frames above some height pass 7, 8 and 9 as a branch.
#[tactic(auto, using(crate::proofs::GoodRun::good_run))]
pub fn good_run_holds()
    ensures { GoodRun }
{}
