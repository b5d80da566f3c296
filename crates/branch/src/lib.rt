// The judgement of a branch that is handed in: refusals 6 to 13, each with its place. Every public function takes any
// record and slices of any length and content. Record, log, masks and frames come one by one: a struct of them would be made by
// `judge_branch` and opened in each function below it.
#![tactic(auto)]

ghost use Rattle.std.specs.Prelude.{◌≡◌, ◌*◌, ◌≤◌, length, ltb};
ghost use Rattle.apollo.specs.Size.{frame_size};
ghost use Rattle.apollo.specs.Frame as Frame;
ghost use Rattle.branch.specs.Judge as Judge;
ghost use Rattle.branch.specs.Judge.{judged_of};

use apollo::size::FRAME;
use apollo::{Refusal, Refused, Replica};

// The last round of the branch is below R.
fn is_stale(round: u32, frames: &[u8]) -> bool
    ensures { result ≡ ltb (Frame.round (Frame.last_frame frames.now)) round }
{
    frame::round(frame::last_frame(frames)) < round
}

// 13 and 12 of a branch on round a, which is the result.
#[tactic(auto, unfolding(crate::specs::Judge::judged_on))]
fn judge_on(r: Replica, log: &[u8], masks: &[u16], frames: &[u8], a: u32) -> Result<u32, Refused>
    ensures { judged_of result ≡ Judge.judged_on r log.now masks.now frames.now a }
{
    if let Some(place) = branch_rounds::first_uncertified(r.into(), masks, a, frames) {
        return Err(Refused {
            refusal: Refusal::NotCertified,
            place,
        });
    }
    if !branch_rounds::keeps(log, a, frames, r.committed_round.0) {
        return Err(Refusal::RevertsCommitted.into());
    }
    Ok(a)
}

// 11, 13 and 12.
#[tactic(auto, unfolding(crate::specs::Judge::judged_at))]
fn judge_attached(r: Replica, log: &[u8], masks: &[u16], frames: &[u8]) -> Result<u32, Refused>
    ensures { judged_of result ≡ Judge.judged_first r log.now masks.now frames.now }
{
    match branch_links::attach(log, slices::part(frames, 0, FRAME)) {
        Some(a) => judge_on(r, log, masks, frames, a),
        None => Err(Refusal::Unattached.into()),
    }
}

// 7, 8, 9 and 10 of whole frames, and what follows them.
#[tactic(auto, unfolding(crate::specs::Judge::judged_whole))]
fn judge_whole(r: Replica, log: &[u8], masks: &[u16], frames: &[u8]) -> Result<u32, Refused>
    requires { length frames.now ≤ frame_size * r.last_round.0 }
    ensures { judged_of result ≡ Judge.judged_whole r log.now masks.now frames.now }
{
    judging::judge_run(r.into(), None, frames)?;
    if is_stale(r.round.0, frames) {
        return Err(Refusal::Stale.into());
    }
    judge_attached(r, log, masks, frames)
}

// A branch judged in place: the round that it attaches to, or what refuses it.
#[tactic(auto, unfolding(crate::specs::Judge::judged_branch))]
pub fn judge_branch(r: Replica, log: &[u8], masks: &[u16], frames: &[u8]) -> Result<u32, Refused>
    ensures { judged_of result ≡ Judge.judged_branch r log.now masks.now frames.now }
{
    if !frame::is_whole(r.last_round.0, frames) {
        return Err(Refusal::BadLength.into());
    }
    judge_whole(r, log, masks, frames)
}
