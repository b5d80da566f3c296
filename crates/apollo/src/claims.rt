// What is proved of the definitions themselves. No code: each statement is what a function promises that does nothing, so the check asks
// for its proof.
ghost use Rattle.apollo.specs.BenchSheet.{BenchSheet};
ghost use Rattle.apollo.specs.Single.{SetOfOne};

// The bench sheet of document 01, item by item.
#[tactic(auto, using(crate::proofs::BenchSheet::bench_sheet))]
pub fn bench_sheet_holds()
    ensures { BenchSheet }
{}

// A blame is a set of one.
#[tactic(auto, using(crate::proofs::Single::set_of_one))]
pub fn set_of_one_holds()
    ensures { SetOfOne }
{}
