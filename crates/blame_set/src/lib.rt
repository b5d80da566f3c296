// A set of blames that is handed in: its judgement, 6, 7, 8, 16, 14 and 10, each frame judged in place, and its bits set. A blame is
// a set of one. Record, masks and frames come one by one: a struct of them would be made by `judge_set` and opened below.
#![tactic(auto)]

ghost use Rattle.std.specs.Prelude.{◌≡◌, ◌&&◌, not, ◌*◌, ◌≤◌, ◌<◌, eqb, length};
ghost use Rattle.apollo.specs.Size.{frame_size};
ghost use Rattle.apollo.specs.Frame as Frame;
ghost use Rattle.apollo.specs.Frame.{frames_of};
ghost use Rattle.apollo.specs.Masks as Masks;
ghost use Rattle.apollo.specs.Judging.{verdict};
ghost use Rattle.apollo.specs.Refused.{refusal_of, verdict_of};
ghost use Rattle.apollo.specs.Blame as Blame;
ghost use Rattle.blame_set.specs.Set as Set;
ghost use Rattle.blame_set.specs.Set.{HaveBits};

use apollo::size::FRAME;
use apollo::{Kind, Refusal, Refused, Replica};

// Frame x is of round r, and its signer is not in the mask.
fn joins(x: &[u8], r: u32, before: u16) -> bool
    ensures { result ≡ (eqb (Frame.round x.now) r && not (Masks.bit (Frame.signer x.now) before)) }
{
    frame::round(x) == r && !masks::has_bit(before, frame::signer(x))
}

// The mask with the signer of frame x.
fn joined(x: &[u8], before: u16) -> u16
    requires { Frame.signer x.now < 16 }
    ensures { result ≡ Masks.set_bit (Frame.signer x.now) before }
{
    masks::with_bit(before, frame::signer(x))
}

// The frames are of round r, and no signer is there twice. By a loop: `try_fold` would hand the mask on in an Option, of which `is_some`
// alone is read. That signers have bits is asked here, below and in `add_blames`: a type that holds it would come out of `judge_set` and of
// `refusals::of_blames` in place of (), and both would have to say whose frames it holds.
fn is_one_set(frames: &[u8], r: u32) -> bool
    requires { HaveBits (frames_of frames.now) }
    ensures { result ≡ Blame.one_set r 0 (frames_of frames.now) }
{
    let mut before = 0;
    for x in frames.chunks_exact(FRAME) {
        if !joins(x, r, before) {
            return false;
        }
        before = joined(x, before);
    }
    true
}

// The blame in frame x is there.
fn is_heard(masks: &[u16], x: &[u8]) -> bool
    ensures { result ≡ Masks.bit (Frame.signer x.now) (Masks.mask masks.now (Frame.round x.now)) }
{
    let r = frame::round(x);
    masks::has_blame(masks, r, frame::signer(x))
}

// A blame of the set is not there yet.
fn is_any_fresh(masks: &[u16], frames: &[u8]) -> bool
    ensures { result ≡ Blame.any_fresh masks.now (frames_of frames.now) }
{
    frames.chunks_exact(FRAME).any(|x| !is_heard(masks, x))
}

// 16, 14 and 10 of frames that passed 7 and 8.
fn judge_together(r: Replica, masks: &[u16], frames: &[u8]) -> Result<(), Refusal>
    requires { HaveBits (frames_of frames.now) }
    ensures { verdict (refusal_of result) 0 ≡ Set.judged_together r masks.now frames.now }
{
    let round = frame::round(slices::part(frames, 0, FRAME));
    if !is_one_set(frames, round) {
        return Err(Refusal::NotASet);
    }
    if r.round.0 < round {
        return Err(Refusal::Early);
    }
    if !is_any_fresh(masks, frames) {
        return Err(Refusal::Stale);
    }
    Ok(())
}

// 7 and 8 frame by frame, and what follows them.
fn judge_frames(r: Replica, masks: &[u16], frames: &[u8]) -> Result<(), Refused>
    requires { (r.f ≤ 7) × (length frames.now ≤ frame_size * 15) }
    ensures { verdict_of result ≡ Set.judged_frames r masks.now frames.now }
{
    judging::judge_each(Kind::Blame, r.into(), frames)?;
    Ok(judge_together(r, masks, frames)?)
}

// A set of 1 to `most` blames judged in place.
pub fn judge_set(most: u32, r: Replica, masks: &[u16], frames: &[u8]) -> Result<(), Refused>
    requires { (r.f ≤ 7) × (most ≤ 15) }
    ensures { verdict_of result ≡ Set.judged_set most r masks.now frames.now }
{
    if !frame::is_whole(most, frames) {
        return Err(Refusal::BadLength.into());
    }
    judge_frames(r, masks, frames)
}

// The blame in frame x is added.
fn add_frame(masks: &mut [u16], x: &[u8])
    requires { Frame.signer x.now < 16 }
    ensures { masks.new
        ≡ Masks.add_blame masks.old (Frame.round x.now) (Frame.signer x.now) }
{
    let r = frame::round(x);
    masks::add_blame(masks, r, frame::signer(x));
}

// The blames of the set are added.
pub fn add_blames(masks: &mut [u16], frames: &[u8])
    requires { HaveBits (frames_of frames.now) }
    ensures { masks.new ≡ Blame.add_blames masks.old (frames_of frames.now) }
{
    for x in frames.chunks_exact(FRAME) {
        add_frame(masks, x);
    }
}
