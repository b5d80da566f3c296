// The call tick. The answer and the lent buffers are those of the definition, refused or not.
#![tactic(auto)]

ghost use Rattle.std.specs.Prelude.{◌≡◌};
ghost use Rattle.apollo.specs.Calls.{state, outcome, tick_call};

use apollo::size::FRAME;
use apollo::{Answer, Replica};

// Lowers ticks left by 1; where they reach 0 the blame for R is emitted.
pub fn tick(
    replica: Replica,
    log: &mut [u8],
    masks: &mut [u16],
    entry: &[u8],
    out: &mut [u8],
) -> Answer
    ensures { outcome result log.new masks.new out.new
        ≡ tick_call (state replica log.old masks.old) entry.now out.old }
{
    let is_valid = record_ranges::valid_record(replica);
    if let Err(e) = refusals::guard(is_valid, replica, log, masks, entry.len(), out.len()) {
        return calls::refused(replica, e.into(), 0);
    }
    if replica.timer.0 != 1 {
        return rounds::count_down(replica);
    }
    let round = replica.round.0;
    frame_writing::put_blame(out, replica.id, round);
    let q = record::with_timer(replica, 0);
    let mut a = rounds::hear(q, log, masks, round, replica.id, entry, &mut out[FRAME..]);
    a.frames += 1;
    a
}
