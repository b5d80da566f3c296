// The calls blame and blames: one frame, or a set of up to 15, two names that C has. The answer and the lent buffers are those of the
// definitions, refused or not.
#![tactic(auto)]

ghost use Rattle.std.specs.Prelude.{◌≡◌, ◌≤◌};
ghost use Rattle.sha256.specs.Fips.{sha256};
ghost use Rattle.apollo.specs.Blame.{handing};
ghost use Rattle.apollo.specs.Calls.{state, outcome, blame_call, blames_call};

use apollo::size::FRAME;
use apollo::{Answer, Replica};

// Hands in 1 to `most` blames. Nothing is set before the last is judged. That `most` is 15 at most is asked here, by `refusals::of_blames`
// and by `blame_set::judge_set`: a type would be made in the two calls below and opened in the last.
fn hand_in(
    most: u32,
    replica: Replica,
    log: &mut [u8],
    masks: &mut [u16],
    frames: &[u8],
    entry: &[u8],
    out: &mut [u8],
) -> Answer
    requires { most ≤ 15 }
    ensures { outcome result log.new masks.new out.new
        ≡ handing sha256 most (state replica log.old masks.old) frames.now entry.now
        out.old }
{
    if let Err(e) = refusals::of_blames(most, replica, log, masks, frames, entry.len(), out.len()) {
        return calls::refused(replica, e.refusal.into(), e.place);
    }
    blame_set::add_blames(masks, frames);
    let round = frame::round(slices::part(frames, 0, FRAME));
    rounds::settle(replica, log, masks, round, entry, out)
}

// Hands in a blame.
pub fn blame(
    replica: Replica,
    log: &mut [u8],
    masks: &mut [u16],
    frame: &[u8],
    entry: &[u8],
    out: &mut [u8],
) -> Answer
    ensures { outcome result log.new masks.new out.new
        ≡ blame_call (state replica log.old masks.old) frame.now entry.now
        out.old }
{
    hand_in(1, replica, log, masks, frame, entry, out)
}

// Hands in a set of blames.
pub fn blames(
    replica: Replica,
    log: &mut [u8],
    masks: &mut [u16],
    frames: &[u8],
    entry: &[u8],
    out: &mut [u8],
) -> Answer
    ensures { outcome result log.new masks.new out.new
        ≡ blames_call (state replica log.old masks.old) frames.now entry.now
        out.old }
{
    hand_in(15, replica, log, masks, frames, entry, out)
}
