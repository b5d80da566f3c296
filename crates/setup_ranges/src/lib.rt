// A set-up judged by itself, f, T and the rotation: no own number, no timeout, no record, no log.
#![tactic(auto)]

ghost use Rattle.std.specs.Prelude.{◌≡◌, ◌&&◌};
ghost use Rattle.apollo.specs.Bytes.{within};
ghost use Rattle.apollo.specs.Refused.{refusal_of};
ghost use Rattle.setup_ranges.specs.Number.{lent_number};

use apollo::{Refusal, Setup};

// f and T are in range.
pub fn valid_limits(f: u8, last_round: u32) -> bool
    ensures { result ≡ within 1 f 7 && within 1 last_round 4096 }
{
    (1..=7).contains(&f) & (1..=4096).contains(&last_round)
}

// 1 and 17 of a set-up that has the rotation padded to 15 seats, which no longer tell how many came; `length` does.
pub fn refusal(s: Setup, length: usize) -> Result<(), Refusal>
    ensures { refusal_of result ≡ lent_number s length }
{
    if !valid_limits(s.f, s.last_round.0) {
        return Err(Refusal::BadSetup);
    }
    let seats = s.rotation;
    let n = 2 * usize::from(s.f) + 1;
    if !((length == n) & rotation::valid_rotation(seats, n)) {
        return Err(Refusal::BadRotation);
    }
    Ok(())
}
