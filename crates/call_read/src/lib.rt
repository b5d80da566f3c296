// The call read: the entry at a committed height. Takes any record and height, and slices of any length and content.
#![tactic(auto)]

ghost use Rattle.std.specs.Prelude.{◌≡◌, ◌-◌, ◌≤◌, ◌<◌, length, IfOk};
ghost use Rattle.apollo.specs.Bytes as Bytes;
ghost use Rattle.apollo.specs.Calls.{read_call};
ghost use Rattle.apollo.specs.Refused.{number, refusal_of};
ghost use Rattle.call_read.specs.Answers.{no_part, entry_part, told, shown};
ghost use Rattle.apollo.specs.Read.{place_in};

use apollo::size::FRAME;
use apollo::{Height, Part, Refusal, Replica};
use std::ops::Range;

// No part, refused. C has a struct of its own for each of its four answers, so the answers of a refusal are four functions.
fn no_part(e: Refusal) -> Part
    ensures { result ≡ no_part (number e) }
{
    Part {
        number: e.into(),
        start: 0,
        length: 0,
    }
}

// The part of the log that is the entry in slot r. It asks for a round above 0, and takes no `slots::slot`: where it tests for the genesis,
// the compiler counts the slots of the search too, and a read of 64 took a tenth longer.
#[tactic(auto, using(slots::proofs::Search::slot_part))]
fn entry_part(log: &[u8], r: u32) -> Range<usize>
    requires { 0 < r }
    ensures { result ≡ entry_part log.now r }
{
    let i = (r - 1) as usize;
    let start = FRAME * i + 44;
    start..start + frame::entry_length(slices::part(log, FRAME * i, FRAME))
}

// The part of the log that is the entry at a committed height: 2, 15, and taken.
fn find(replica: Replica, log: &[u8], height: Height) -> Result<Range<usize>, Refusal>
    ensures part { told result ≡ (read_call replica log.now height.0).answer }
    ensures order { IfOk result (λ p. p.start ≤ p.end) }
    ensures number { refusal_of result ≡ (read_call replica log.now height.0).answer.number }
{
    if !(record_ranges::valid_record(replica) & record_ranges::valid_log(replica, log)) {
        return Err(Refusal::BadReplica);
    }
    let r = log_heights::lowest(log, height.0, replica.committed_round.0).ok_or(Refusal::Absent)?;
    Ok(entry_part(log, r))
}

// The same as C has it.
pub fn read_part(replica: Replica, log: &[u8], height: Height) -> Part
    ensures { result ≡ (read_call replica log.now height.0).answer }
{
    match find(replica, log, height) {
        Ok(p) => Part {
            number: 0,
            start: p.start,
            length: p.end - p.start,
        },
        Err(e) => no_part(e),
    }
}

// The part p of the log: its bytes, in the place where they lie, which the clause of `slices::part` leaves open. By its two ends: a range
// in a variable is no index here.
fn cut<'a>(log: &'a [u8], p: Range<usize>) -> &'a [u8]
    requires { (p.start ≤ p.end) × (p.end ≤ length log.now) }
    ensures bytes { result.now ≡ Bytes.part log.now p.start (p.end - p.start) }
    ensures place { result.ref_ptr ≡ place_in log.entry p.start }
{
    &log[p.start..p.end]
}

// The entry at a committed height, as the part of the lent log that `read_part` tells.
pub fn read<'a>(replica: Replica, log: &'a [u8], height: Height) -> Result<&'a [u8], Refusal>
    ensures bytes { shown result ≡ (read_call replica log.now height.0).bytes }
    ensures place { IfOk result (λ x. x.ref_ptr ≡ place_in log.entry (read_call replica log.now height.0).answer.start) }
    ensures number { refusal_of result ≡ (read_call replica log.now height.0).answer.number }
{
    let p = find(replica, log, height)?;
    Ok(cut(log, p))
}
