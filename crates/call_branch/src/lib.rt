// The call branch. The answer and the lent buffers are those of the definition, refused or not.
#![tactic(auto)]

ghost use Rattle.std.specs.Prelude.{◌≡◌};
ghost use Rattle.apollo.specs.Calls.{state, outcome, branch_call};

use apollo::{Answer, Replica};

// Hands in a branch.
pub fn branch(
    replica: Replica,
    log: &mut [u8],
    masks: &[u16],
    frames: &[u8],
    entry: &[u8],
    out: &mut [u8],
) -> Answer
    ensures { outcome result log.new masks.now out.new
        ≡ branch_call (state replica log.old masks.now) frames.now entry.now
        out.old }
{
    match refusals::of_branch(replica, log, masks, frames, entry.len(), out.len()) {
        Ok(attach) => {
            let q = tip::adopt(replica, log, attach, frames);
            rounds::enter_round(q, log, entry, out)
        }
        Err(e) => calls::refused(replica, e.refusal.into(), e.place),
    }
}
