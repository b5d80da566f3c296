// The call equivocation: two blocks that one leader signed for one round. Takes any record, and frames of any length and content.
#![tactic(auto)]

ghost use Rattle.std.specs.Prelude.{◌≡◌, List, [], ◌∷◌, length};
ghost use Rattle.sha256.specs.Fips.{sha256};
ghost use Rattle.apollo.specs.Size.{pair_size};
ghost use Rattle.apollo.specs.Frame.{first_frame, block_form};
ghost use Rattle.apollo.specs.Judging.{judged_each};
ghost use Rattle.apollo.specs.Equivocation.{marked, second, conflicting};
ghost use Rattle.apollo.specs.Calls.{equivocation_call};
ghost use Rattle.apollo.specs.Refused.{number, verdict_of};
ghost use Rattle.call_equivocation.specs.Judge.{judged_two, judged_pair};

use apollo::size::{CHECK, FRAME, PAIR};
use apollo::{Kind, Marked, Refusal, Refused, Replica, Setup};

// The answer of a refusal. As `calls::refused`: C has another struct for it.
fn refused(e: Refused, r: Replica) -> Marked
    ensures { result ≡ marked (number e.refusal) e.place r }
{
    Marked {
        number: e.refusal.into(),
        place: e.place,
        replica: r,
    }
}

// Two frames of one round with different digests.
#[tactic(auto, unfolding(apollo::specs::Equivocation::conflicting))]
fn is_conflicting(x: &[u8], y: &[u8]) -> bool
    ensures { result ≡ conflicting x.now y.now }
{
    frame::round(x) == frame::round(y)
        && !slices::same_bytes(slices::part(x, CHECK, 32), slices::part(y, CHECK, 32))
}

// 7 and 8 of a frame, which are told at that place. Put into both places where it is called, as `frame_forms::fault_known` is: a frame's
// length is known there, and its judging takes less.
#[inline(always)]
fn fault_at(s: Setup, x: &[u8], place: u32) -> Result<(), Refused>
    ensures { verdict_of result ≡ judged_each sha256 (block_form s) place (x.now ∷ []) }
{
    let told = frame_forms::fault_known(Kind::Block, s, x, frame_forms::checked(x));
    told.map_err(|refusal| Refused { refusal, place })
}

// 7 and 8 of both, then 18.
fn judge_two(s: Setup, frames: &[u8]) -> Result<(), Refused>
    requires { length frames.now ≡ pair_size }
    ensures { verdict_of result ≡ judged_two s (first_frame frames.now) (second frames.now) }
{
    let first = slices::part(frames, 0, FRAME);
    let second = slices::part(frames, FRAME, FRAME);
    fault_at(s, first, 0)?;
    fault_at(s, second, 1)?;
    if !is_conflicting(first, second) {
        return Err(Refusal::NotEquivocation.into());
    }
    Ok(())
}

// 6, and what follows it.
fn judge_pair(s: Setup, frames: &[u8]) -> Result<(), Refused>
    ensures { verdict_of result ≡ judged_pair s frames.now }
{
    if frames.len() != PAIR {
        return Err(Refusal::BadLength.into());
    }
    judge_two(s, frames)
}

// Two frames are handed in: 2, 6, 7 and 8 of the first and of the second, 18; taken, the round's leader is marked.
pub fn equivocation(replica: Replica, frames: &[u8]) -> Marked
    ensures { result ≡ equivocation_call replica frames.now }
{
    if !record_ranges::valid_record(replica) {
        return refused(Refusal::BadReplica.into(), replica);
    }
    let s = Setup::from(replica);
    if let Err(e) = judge_pair(s, frames) {
        return refused(e, replica);
    }
    let card = rotation::leader(s, frame::round(slices::part(frames, 0, FRAME)));
    Marked {
        number: 0,
        place: 0,
        replica: record::with_mark(replica, card),
    }
}
