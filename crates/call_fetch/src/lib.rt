// The call fetch: the chain frames above a height. Takes any record and height, and slices of any length and content.
#![tactic(auto)]

ghost use Rattle.std.specs.Prelude.{◌≡◌};
ghost use Rattle.apollo.specs.Calls.{fetch_call, fetched};
ghost use Rattle.apollo.specs.Refused.{number};
ghost use Rattle.call_fetch.specs.Answers.{no_frames, told};

use apollo::size::OUT;
use apollo::{Fetched, Height, Refusal, Replica};

// No frames, refused. C has a struct of its own for each of its four answers, so the answers of a refusal are four functions.
fn no_frames(e: Refusal) -> Fetched
    ensures { result ≡ no_frames (number e) }
{
    Fetched {
        number: e.into(),
        count: 0,
    }
}

// The chain frames above a height are copied to the start of the out buffer, as many as fit; how many: 2, 4, 15, and taken.
fn copy_above(
    replica: Replica,
    log: &[u8],
    height: Height,
    out: &mut [u8],
) -> Result<usize, Refusal>
    ensures { fetched (told result) out.new ≡ fetch_call replica log.now height.0 out.old }
{
    if !(record_ranges::valid_record(replica) & record_ranges::valid_log(replica, log)) {
        return Err(Refusal::BadReplica);
    }
    if out.len() < OUT {
        return Err(Refusal::OutTooShort);
    }
    let count = log_heights::fetch_frames(log, height.0, replica.last_round.0, out);
    if count == 0 {
        return Err(Refusal::Absent);
    }
    Ok(count)
}

// The same as C has it.
pub fn fetch(replica: Replica, log: &[u8], height: Height, out: &mut [u8]) -> Fetched
    ensures { fetched result out.new ≡ fetch_call replica log.now height.0 out.old }
{
    copy_above(replica, log, height, out).map_or_else(
        no_frames,
        |count| Fetched { number: 0, count },
    )
}
