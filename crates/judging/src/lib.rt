// Several frames judged in place, lowest first: each by itself, 7 and 8, or as a run of blocks, 7, 8 and 9. Their checks are made four at a
// time: up to three more than a refusal needs. Every function takes slices of any content.
#![tactic(auto)]

ghost use Rattle.std.specs.Prelude.{◌≡◌, ◌*◌, ◌≤◌, length};
ghost use Rattle.sha256.specs.Fips.{sha256};
ghost use Rattle.apollo.specs.Size.{frame_size};
ghost use Rattle.apollo.specs.Frame as Frame;
ghost use Rattle.apollo.specs.Frame.{frames_of};
ghost use Rattle.apollo.specs.Judging.{judged_each};
ghost use Rattle.apollo.specs.BlockRun as BlockRun;
ghost use Rattle.apollo.specs.BlockRun.{judged_next, judged_run};
ghost use Rattle.apollo.specs.Refused.{refusal_of, verdict_of};
ghost use Rattle.frame_forms.specs.Forms.{form_of};
ghost use Rattle.judging.specs.Walk.{parent_of, judged_by, Tells};

use apollo::{Kind, Refusal, Refused, Setup};
use frame_checks::Checked;

// The frames judged one by one, lowest first: each from the frame before it, which for the first is that parent or none, itself, and
// whether its check is right, which three contracts ask: a struct of both would be opened where a form is judged, of bytes of any length. A
// place is a u32, as C has it: so here and in both that call this the frames are no more than it counts.
fn judge_by<F: Fn(Option<&[u8]>, &[u8], bool) -> Result<(), Refusal>>(
    parent: Option<&[u8]>,
    frames: &[u8],
    judge: F,
) -> Result<(), Refused>
    requires places { length frames.now ≤ frame_size * 4294967295 }
    requires judges { (p : _) (x : _) → F.pre judge p x (Frame.checked sha256 x.now) }
    ensures { (number : _) → Tells F.post judge number
        → verdict_of result ≡ judged_by number 0 (parent_of parent.entry) (frames_of frames.now) }
{
    let mut p = parent;
    for (i, (x, checked)) in Checked::new(frames).enumerate() {
        if let Err(refusal) = judge(p, x, checked) {
            let place = i as u32;
            return Err(Refused { refusal, place });
        }
        p = Some(x);
    }
    Ok(())
}

// 7 and 8 of the frames, each of which is to have the form of that kind.
pub fn judge_each(kind: Kind, s: Setup, frames: &[u8]) -> Result<(), Refused>
    requires { length frames.now ≤ frame_size * 4294967295 }
    ensures { verdict_of result ≡ judged_each sha256 (form_of kind s) 0 (frames_of frames.now) }
{
    judge_by(None, frames, |_, x, checked| {
        frame_forms::fault_known(kind, s, x, checked)
    })
}

// Frame x is the child of frame p.
#[tactic(auto, unfolding(apollo::specs::BlockRun::child_of))]
fn is_child(p: &[u8], x: &[u8]) -> bool
    ensures { result ≡ BlockRun.child_of p.now x.now }
{
    frame::linked(p, x) && frame::round(p) < frame::round(x)
}

// 7, 8 and 9 of frame x behind frame p, or with any parent. `checked`: the check of x is right.
#[tactic(auto, unfolding(apollo::specs::BlockRun::judged_next))]
fn judge_next(s: Setup, p: Option<&[u8]>, x: &[u8], checked: bool) -> Result<(), Refusal>
    requires { checked ≡ Frame.checked sha256 x.now }
    ensures { refusal_of result ≡ judged_next sha256 s (parent_of p.entry) x.now }
{
    frame_forms::fault_known(Kind::Block, s, x, checked)?;
    match p {
        Some(p) if !is_child(p, x) => Err(Refusal::NotChild),
        _ => Ok(()),
    }
}

// 7, 8 and 9 of the frames, each behind the one before it, the first behind that parent, or with any.
pub fn judge_run(s: Setup, parent: Option<&[u8]>, frames: &[u8]) -> Result<(), Refused>
    requires { length frames.now ≤ frame_size * 4294967295 }
    ensures { verdict_of result ≡ judged_run sha256 s 0 (parent_of parent.entry) (frames_of frames.now) }
{
    judge_by(parent, frames, |p, x, checked| judge_next(s, p, x, checked))
}
