// What a mark says, and that it changes nothing else (document 02, F-6). No code: each theorem is what a function promises that
// does nothing, so the check asks for its proof.

#![tactic(auto)]

ghost use Rattle.theorem_equivocators.specs.Marks.{HighBits, Shown, NeverMarked, NeverCleared, Kept, MarksAside, MarksCome};

// A mark word is refused just where it has a one at bit n or above.
#[tactic(auto, using(crate::proofs::High::high_bits))]
pub fn high_bits_holds()
    ensures { HighBits }
{}

// A mark stands for two good blocks of one round.
#[tactic(auto, using(crate::proofs::Marks::shown))]
pub fn shown_holds()
    ensures { Shown }
{}

// A correct replica is never marked while no frame is forged.
#[tactic(auto, using(crate::proofs::Marks::never_marked))]
pub fn never_marked_holds()
    ensures { NeverMarked }
{}

// A mark stays.
#[tactic(auto, using(crate::proofs::Marks::never_cleared))]
pub fn never_cleared_holds()
    ensures { NeverCleared }
{}

// A call leaves the marks that stood, or is an equivocation, which takes none away.
#[tactic(auto, using(crate::proofs::Aside::kept))]
pub fn kept_holds()
    ensures { Kept }
{}

// With other marks every call does the same but for the marks.
#[tactic(auto, using(crate::proofs::Aside::marks_aside))]
pub fn marks_aside_holds()
    ensures { MarksAside }
{}

// A mark comes, with the premises met.
#[tactic(auto, using(crate::proofs::Reached::marks_come))]
pub fn marks_come_holds()
    ensures { MarksCome }
{}
