// How many slots the search of a commit reads, on logs that calls made (document 02, F-3). No code: each theorem is what a function
// promises that does nothing, so the check asks for its proof.

#![tactic(auto)]

ghost use Rattle.theorem_search_bounds.specs.Bounds.{ReadsCertified, ReadsFew, BoundsReached};

// A commit reads at most one slot more than there are certified rounds in a row from its limit down.
#[tactic(auto, using(crate::proofs::Bounds::reads_certified))]
pub fn reads_certified_holds()
    ensures { ReadsCertified }
{}

// And with the premises of demand 3 at most f + 1 slots.
#[tactic(auto, using(crate::proofs::Bounds::reads_few))]
pub fn reads_few_holds()
    ensures { ReadsFew }
{}

// Neither is true with a slot less.
#[tactic(auto, using(crate::proofs::Reached::bounds_reached))]
pub fn bounds_reached_holds()
    ensures { BoundsReached }
{}
