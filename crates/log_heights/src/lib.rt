// Slots of a log by height: the lowest readable, and the chain frames above a height.
#![tactic(auto)]

ghost use Rattle.std.specs.Prelude.{◌≡◌, ◌*◌, ◌/◌, ◌≤◌, min, length, take, drop};
ghost use mathlib.Core.List.{◌++◌, flatten};
ghost use Rattle.apollo.specs.Size.{frame_size};
ghost use Rattle.apollo.specs.Log as Log;
ghost use Rattle.apollo.specs.Read as Read;
ghost use Rattle.apollo.specs.Fetch.{above};
ghost use Rattle.apollo.specs.Found.{found};
ghost use Rattle.log_heights.specs.Fetch.{is_tall, last_low};

use apollo::Kind;
use apollo::size::{ENTRY, FRAME};

// Slot x is filled, with height h and an entry length of at most 400.
#[tactic(auto, unfolding(apollo::specs::Read::readable))]
fn is_readable(x: &[u8], h: u32) -> bool
    ensures { result ≡ Read.readable x.now h }
{
    frame::is_kind(x, Kind::Block) && frame::height(x) == h && frame::entry_length(x) <= ENTRY
}

// The round of the lowest such slot up to the committed round. That the log has the slots up to a round is asked here of the committed one,
// twice for fetch of T, and by `tip` and `slots::store` of theirs: a type of a log and a round would be made and opened in each. `last_low`
// differs in the test and in the answer for none: with the test as a parameter the clause would not name the definition.
pub fn lowest(log: &[u8], h: u32, committed: u32) -> Option<u32>
    requires { frame_size * committed ≤ length log.now }
    ensures { result ≡ found (Read.lowest log.now h 0 committed) }
{
    let end = FRAME * (committed as usize);
    let i = log[..end]
        .chunks_exact(FRAME)
        .position(|x| is_readable(x, h))?;
    Some(i as u32 + 1)
}

// Slot x is filled, with a height above h.
#[tactic(auto, unfolding(crate::specs::Fetch::is_tall))]
fn is_tall(x: &[u8], h: u32) -> bool
    ensures { result ≡ is_tall x.now h }
{
    frame::is_kind(x, Kind::Block) && h < frame::height(x)
}

// The last round before the first frame that fetch copies. A search of its own, and not the walk that copies: there each slot passed over
// costs more, and 16 frames from the middle of a log took 7 to 12 % longer.
fn last_low(log: &[u8], h: u32, last_round: u32) -> u32
    requires { frame_size * last_round ≤ length log.now }
    ensures { result ≡ last_low log.now h 0 last_round }
{
    let end = FRAME * (last_round as usize);
    log[..end]
        .chunks_exact(FRAME)
        .position(|x| is_tall(x, h))
        .map_or(last_round, |r| r as u32)
}

// The chain frames of height above h are copied to out, in rising round, as many as fit; how many, which is counted for the answer. The
// slots come as chunks, so that the compiler knows how long a copy is. They don't go into `out.chunks_exact_mut`: the library says nothing
// of a slice after it.
pub fn fetch_frames(log: &[u8], h: u32, last_round: u32, out: &mut [u8]) -> usize
    requires { frame_size * last_round ≤ length log.now }
    ensures count { result ≡ min (length (above h (Log.chain log.now last_round))) (length out.old / frame_size) }
    ensures frames { out.new ≡ flatten (take result (above h (Log.chain log.now last_round))) ++ drop (frame_size * result) out.old }
{
    let start = FRAME * (last_low(log, h, last_round) as usize);
    let end = FRAME * (last_round as usize);
    let room = out.len() / FRAME;
    let mut count = 0;
    for x in log[start..end]
        .chunks_exact(FRAME)
        .filter(|x| is_tall(x, h))
        .take(room)
    {
        count += 1;
        slots::store(out, count, x);
    }
    count as usize
}
