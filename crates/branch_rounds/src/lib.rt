// The rounds that a branch spans: the skipped ones, certified or not, and the committed slots that taking it would keep. Every
// function takes slices of any length and any numbers.
#![tactic(auto)]

ghost use Rattle.std.specs.Prelude.{◌≡◌};
ghost use Rattle.apollo.specs.Frame.{frames_of};
ghost use Rattle.apollo.specs.Branch as Branch;
ghost use Rattle.apollo.specs.Found.{found};
ghost use Rattle.branch_rounds.specs.Keeps.{keeps_frame, keeps_all};

use apollo::Setup;
use apollo::size::FRAME;

// The first round that the frames skip, the first of them on round a, and that is not certified. It ends both walks: loops that are
// left by a label, as document 01 asks, where `find` would do.
pub fn first_uncertified(s: Setup, masks: &[u16], a: u32, frames: &[u8]) -> Option<u32>
    ensures { result ≡ found (Branch.first_uncertified s masks.now a (frames_of frames.now)) }
{
    let mut lo = a;
    'walk: {
        for x in frames.chunks_exact(FRAME) {
            let to = frame::round(x);
            for place in lo.saturating_add(1)..to {
                if !masks::certified(s, masks, place) {
                    break 'walk Some(place);
                }
            }
            lo = to;
        }
        None
    }
}

// The slots above round lo up to that of frame x and to the committed round would keep their bytes.
#[tactic(auto, unfolding(crate::specs::Keeps::keeps_frame))]
fn keeps_frame(log: &[u8], lo: u32, x: &[u8], committed: u32) -> bool
    ensures { result ≡ keeps_frame log.now lo x.now committed }
{
    let r = frame::round(x);
    let a = FRAME * (lo as usize);
    if committed < r {
        return slices::is_blank(log, a, FRAME * (committed as usize));
    }
    let Some(below) = r.checked_sub(1) else {
        return false;
    };
    slices::is_blank(log, a, FRAME * (below as usize)) && slices::same_bytes(slots::slot(log, r), x)
}

// The slots up to the committed round would keep their bytes if the frames were taken on round a. By a loop: each frame asks for the round
// of the one before, which `try_fold` would hand on in an Option that stands for the bool.
pub fn keeps(log: &[u8], a: u32, frames: &[u8], committed: u32) -> bool
    ensures { result ≡ keeps_all log.now a (frames_of frames.now) committed }
{
    let mut lo = a;
    for x in frames.chunks_exact(FRAME) {
        if !keeps_frame(log, lo, x, committed) {
            return false;
        }
        lo = frame::round(x);
    }
    slices::is_blank(log, FRAME * (lo as usize), FRAME * (committed as usize))
}
