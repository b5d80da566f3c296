// What refuses a call: the first refusal, and for a branch and for blames its place. Of the entry and the out buffer the length is
// enough. Every public function takes any record, and slices of any length and content; `guard` is told whether the record, by
// itself, is valid. Log and masks come one by one, as C lends them; of entry and out the length is enough.
#![tactic(auto)]

ghost use Rattle.std.specs.Prelude.{◌≡◌, ◌≤◌};
ghost use Rattle.apollo.specs.Refused.{refusal_of, verdict_of};
ghost use Rattle.branch.specs.Judge.{judged_of};
ghost use Rattle.refusals.specs.Number.{room_number, open_number, guard_number};
ghost use Rattle.refusals.specs.Blames.{guarded_set};
ghost use Rattle.refusals.specs.Branch.{guarded_branch};

use apollo::size::{ENTRY, OUT};
use apollo::{Refusal, Refused, Replica};

// 4 and 5.
fn judge_room(entry: usize, out: usize) -> Result<(), Refusal>
    ensures { refusal_of result ≡ room_number entry out }
{
    if out < OUT {
        return Err(Refusal::OutTooShort);
    }
    if ENTRY < entry {
        return Err(Refusal::EntryTooLong);
    }
    Ok(())
}

// Open: 1, 17, 4 and 5. The record has the rotation, as C lays it out: 15 seats, which no longer tell how many came. `length` does.
pub fn of_open(
    r: Replica,
    length: usize,
    log: &[u8],
    masks: &[u16],
    entry: usize,
    out: usize,
) -> Result<(), Refusal>
    ensures { refusal_of result ≡ open_number r length log.now masks.now entry out }
{
    if !(record_ranges::valid_own(r)
        & record_ranges::valid_log(r, log)
        & record_ranges::valid_masks(r, masks))
    {
        return Err(Refusal::BadSetup);
    }
    setup_ranges::refusal(r.into(), length)?;
    judge_room(entry, out)
}

// Tick, branch, blame and blames: 2 to 5. The caller tests the record by itself: with the test here, of a copy, a tick took 38 ns, not 28.
pub fn guard(
    is_valid: bool,
    r: Replica,
    log: &[u8],
    masks: &[u16],
    entry: usize,
    out: usize,
) -> Result<(), Refusal>
    ensures { refusal_of result ≡ guard_number is_valid r log.now masks.now entry out }
{
    if !(is_valid & record_ranges::valid_log(r, log) & record_ranges::valid_masks(r, masks)) {
        return Err(Refusal::BadReplica);
    }
    let round = u64::from(r.round.0);
    let end = u64::from(r.last_round.0) + 1;
    if round == end {
        return Err(Refusal::RoundsOver);
    }
    judge_room(entry, out)
}

// Blames, 1 to `most`: 2 to 5, then 6, 7, 8, 16, 14 and 10.
pub fn of_blames(
    most: u32,
    r: Replica,
    log: &[u8],
    masks: &[u16],
    frames: &[u8],
    entry: usize,
    out: usize,
) -> Result<(), Refused>
    requires { most ≤ 15 }
    ensures { verdict_of result ≡ guarded_set most r log.now masks.now frames.now entry out }
{
    let is_valid = record_ranges::valid_record(r);
    guard(is_valid, r, log, masks, entry, out)?;
    blame_set::judge_set(most, r, masks, frames)
}

// Branch: 2 to 5, then 6 to 13; else the round that it attaches to.
pub fn of_branch(
    r: Replica,
    log: &[u8],
    masks: &[u16],
    frames: &[u8],
    entry: usize,
    out: usize,
) -> Result<u32, Refused>
    ensures { judged_of result ≡ guarded_branch r log.now masks.now frames.now entry out }
{
    guard(record_ranges::valid_record(r), r, log, masks, entry, out)?;
    branch::judge_branch(r, log, masks, frames)
}
