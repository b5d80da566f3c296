// What a replica does without being refused: it enters a round, hears its own blame, settles a round after blames, or counts a tick
// down. Log, masks, entry and out buffer come one by one, as C lends them: a struct that held them would be changed through the `&mut` in
// it, and each clause would name what it left of each; and masks are not there, read or changed. So `Ready` is asked four times, and three
// times that R is T at most, of what is lent: a type for these would be such a struct.
#![tactic(auto)]

ghost use Rattle.std.specs.Prelude.{◌≡◌, ◌&&◌, List, ℕ, ◌-◌, ◌≤◌, ◌<◌, eqb};
ghost use Rattle.sha256.specs.Fips.{sha256};
ghost use Rattle.apollo.specs.Setup.{setup_of};
ghost use Rattle.apollo.specs.Masks as Masks;
ghost use Rattle.apollo.specs.Replica.{with_timer};
ghost use Rattle.apollo.specs.Enter as Enter;
ghost use Rattle.apollo.specs.Enter.{state, commit, hearing, enter_round};
ghost use Rattle.apollo.specs.Outcome as Outcome;
ghost use Rattle.apollo.specs.Outcome.{outcome, next_leader};
ghost use Rattle.tip.specs.Ready.{Ready};
ghost use Rattle.rounds.specs.Rounds.{told};

use apollo::{Answer, Replica};

// The leader of R, 255 when R = T + 1: what C reads in an answer.
fn next_leader(r: Replica) -> u8
    ensures { result ≡ next_leader r }
{
    let round = r.round.0;
    if r.last_round.0 < round {
        return 255;
    }
    rotation::leader(r.into(), round)
}

// Taken, with some frames emitted.
fn taken(r: Replica, frames: u8) -> Answer
    ensures { result ≡ told r frames }
{
    let leader = next_leader(r);
    Answer {
        number: 0,
        frames,
        leader,
        place: 0,
        replica: r,
    }
}

// R grew for the last time in its call: the whole wait is left, and committed is renewed.
fn entered(r: Replica, log: &[u8], frames: u8) -> Answer
    ensures { result ≡ told (commit (with_timer r r.timeout.0) log.now) frames }
{
    let q = record::with_timer(r, r.timeout.0);
    taken(commit::commit(q, log), frames)
}

// R is entered: proposed where this replica leads it, else waited for.
pub fn enter_round(r: Replica, log: &mut [u8], entry: &[u8], out: &mut [u8]) -> Answer
    requires { Ready r log.old entry.now out.old }
    ensures { (masks : List ℕ)
        → outcome result log.new masks out.new
        ≡ Outcome.taken (enter_round sha256 entry.now (state r log.old masks)) out.old }
{
    if record::leads(r) {
        let q = tip::propose(r, log, entry, out);
        return entered(q, log, 1);
    }
    entered(r, log, 0)
}

// The blames for a round certify R.
fn certifies(r: Replica, masks: &[u16], round: u32) -> bool
    ensures { result ≡ eqb round r.round.0 && Masks.certified (setup_of r) masks.now round }
{
    round == r.round.0 && masks::certified(r.into(), masks, round)
}

// After blames for a round: if that is R and now certified, R grows by 1 and is entered.
pub fn settle(
    r: Replica,
    log: &mut [u8],
    masks: &[u16],
    round: u32,
    entry: &[u8],
    out: &mut [u8],
) -> Answer
    requires { Ready r log.old entry.now out.old × (r.round.0 ≤ r.last_round.0) }
    ensures { outcome result log.new masks.now out.new
        ≡ Outcome.taken
        (Enter.settle sha256 entry.now (state r log.old masks.now) round) out.old }
{
    if !certifies(r, masks, round) {
        return taken(r, 0);
    }
    enter_round(record::with_round(r, round + 1), log, entry, out)
}

// A replica's blame for a round is heard, and the round settled.
pub fn hear(
    r: Replica,
    log: &mut [u8],
    masks: &mut [u16],
    round: u32,
    signer: u8,
    entry: &[u8],
    out: &mut [u8],
) -> Answer
    requires { Ready r log.old entry.now out.old × (r.round.0 ≤ r.last_round.0) × (signer < 16) }
    ensures { outcome result log.new masks.new out.new
        ≡ Outcome.taken
        (Enter.settle sha256 entry.now (hearing (state r log.old masks.old) round signer) round)
        out.old }
{
    masks::add_blame(masks, round, signer);
    settle(r, log, masks, round, entry, out)
}

// Ticks left lowered by 1; nothing where they are 0.
pub fn count_down(r: Replica) -> Answer
    ensures { result ≡ told (with_timer r (r.timer.0 - 1)) 0 }
{
    taken(record::with_timer(r, r.timer.0.saturating_sub(1)), 0)
}
