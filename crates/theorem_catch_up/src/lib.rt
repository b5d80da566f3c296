// What a replica c that comes back fetches from another one, d, is a branch that it takes (document 02, F-5). No code: each theorem is what
// a function promises that does nothing, so the check asks for its proof.

#![tactic(auto)]

ghost use Rattle.theorem_catch_up.specs.CatchUp.{GoesOn, GrowsOn, Continues, CatchUp, CatchUpLater, OneFetch, Common};
ghost use Rattle.theorem_catch_up.specs.CatchUp.{Split, SplitLater, VerdictsCome, TakenLater};

// A second fetch goes on where the first ended.
#[tactic(auto, using(crate::proofs::Fetches::goes_on))]
pub fn goes_on_holds()
    ensures { GoesOn }
{}

// And where the chain of d has grown in between, the second has what the first had, and more.
#[tactic(auto, using(crate::proofs::Fetches::grows_on))]
pub fn grows_on_holds()
    ensures { GrowsOn }
{}

// What d has above a block that both hold is a branch that c answers with 3, 10, 13 or 0.
#[tactic(auto, using(crate::proofs::CatchUp::continues))]
pub fn continues_holds()
    ensures { Continues }
{}

// So what d has above the height that c has committed is answered so.
#[tactic(auto, using(crate::proofs::CatchUp::catch_up))]
pub fn catch_up_holds()
    ensures { CatchUp }
{}

// And what c fetched earlier, from an earlier state of d, whatever came since.
pub fn catch_up_later_holds()
    ensures { CatchUpLater }
{}

// And with one fetch and one branch.
#[tactic(auto, using(crate::proofs::Fetches::one_fetch))]
pub fn one_fetch_holds()
    ensures { OneFetch }
{}

// Where what d has reaches the R of c, the block that c has committed is one that both hold.
pub fn common_holds()
    ensures { Common }
{}

// A 13 is no dead end: its round is at most R, or the frames below that round are taken, and then it is.
pub fn split_holds()
    ensures { Split }
{}

// And none of what was fetched earlier.
pub fn split_later_holds()
    ensures { SplitLater }
{}

// Each of these answers comes, with the premises met.
#[tactic(auto, using(crate::proofs::Reached::verdicts_come))]
pub fn verdicts_come_holds()
    ensures { VerdictsCome }
{}

// And frames that were answered 13, and are taken later.
#[tactic(auto, using(crate::proofs::Reached::taken_later))]
pub fn taken_later_holds()
    ensures { TakenLater }
{}
