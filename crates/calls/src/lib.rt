// What the calls share: the answer of a refusal, and in proofs/ the laws that every call is proved by. Each call takes what C lends it one
// by one, as the function of host that calls it.
#![tactic(auto)]

ghost use Rattle.std.specs.Prelude.{◌≡◌};
ghost use Rattle.calls.specs.Refused.{refused_answer};

use apollo::{Answer, Replica};

// The answer of a refusal, by its number and with the leader 255, as C reads them. Each answer is a struct of its own in C, so
// equivocation, read and fetch have theirs.
pub fn refused(r: Replica, number: u8, place: u32) -> Answer
    ensures { result ≡ refused_answer r number place }
{
    Answer {
        number,
        frames: 0,
        leader: 255,
        place,
        replica: r,
    }
}
