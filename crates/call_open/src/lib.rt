// The call open. The answer and the lent buffers are those of the definition, refused or not.
#![tactic(auto)]

ghost use Rattle.std.specs.Prelude.{◌≡◌};
ghost use Rattle.apollo.specs.Calls.{outcome, open_call};

use apollo::{Answer, Replica, Round, Ticks};

// Opens a replica: log and masks are zeroed, and round 1 is entered.
pub fn open(
    id: u8,
    f: u8,
    timeout: Ticks,
    last_round: Round,
    rotation: &[u8],
    log: &mut [u8],
    masks: &mut [u16],
    entry: &[u8],
    out: &mut [u8],
) -> Answer
    ensures { outcome result log.new masks.new out.new
        ≡ open_call id f timeout.0 last_round.0 rotation.now log.old masks.old
        entry.now out.old }
{
    let r = record::fresh(id, f, timeout, last_round, rotation);
    if let Err(e) = refusals::of_open(r, rotation.len(), log, masks, entry.len(), out.len()) {
        return calls::refused(record::zero_replica(), e.into(), 0);
    }
    slices::clear(log);
    masks::clear(masks);
    rounds::enter_round(r, log, entry, out)
}
