// A new tip: the own block or a branch goes into the log, and the record follows. Log, entry and out come one by one, as in rounds.
#![tactic(auto)]

ghost use Rattle.std.specs.Prelude.{◌≡◌, List, ◌++◌, ℕ, ◌+◌, ◌*◌, ◌≤◌, length, drop};
ghost use Rattle.sha256.specs.Fips.{sha256};
ghost use Rattle.apollo.specs.Size.{entry_most, frame_size};
ghost use Rattle.apollo.specs.Frame as Frame;
ghost use Rattle.apollo.specs.Frame.{frames_of, last_frame};
ghost use Rattle.apollo.specs.Log as Log;
ghost use Rattle.apollo.specs.Branch.{grown};
ghost use Rattle.apollo.specs.Enter.{state, tipped, holding, own_block, proposing};
ghost use Rattle.slots.specs.Slots.{Slotted};
ghost use Rattle.tip.specs.Ready.{Ready};

use apollo::Replica;
use apollo::size::{CHECK, FRAME};

// The record with its tip in round t, at height h: R follows it.
fn tipped(r: Replica, t: u32, h: u32) -> Replica
    requires { t ≤ 4096 }
    ensures { result ≡ tipped r t h }
{
    record::with_round(record::with_tip(r, t, h), t + 1)
}

// The block for R on the tip is written to the front of out.
fn put_own_block(r: Replica, log: &[u8], height: u32, entry: &[u8], out: &mut [u8])
    requires { (frame_size * r.tip_round.0 ≤ length log.now) × (frame_size ≤ length out.old) × (length entry.now ≤ entry_most) }
    ensures { out.new
        ≡ Frame.make_block sha256 r.id r.round.0 height
        (Frame.digest (Log.slot log.now r.tip_round.0)) entry.now
        ++ drop frame_size out.old }
{
    let parent = slices::part(slots::slot(log, r.tip_round.0), CHECK, 32);
    frame_writing::put_block(out, r.id, r.round.0, height, parent, entry);
}

// The block for R is written to the front of out, stored and made the tip.
pub fn propose(r: Replica, log: &mut [u8], entry: &[u8], out: &mut [u8]) -> Replica
    requires { Ready r log.old entry.now out.old × (r.round.0 ≤ r.last_round.0) }
    ensures { (masks : List ℕ)
        → (out.new
        ≡ own_block sha256 entry.now (state r log.old masks) ++ drop frame_size out.old)
        × (state result log.new masks ≡ proposing sha256 entry.now (state r log.old masks)) }
{
    let round = r.round.0;
    let height = r.tip_height.0 + 1;
    put_own_block(r, log, height, entry, out);
    slots::store(log, round, slices::part(out, 0, FRAME));
    tipped(r, round, height)
}

// A branch is taken on a round: stored, its last frame the tip.
pub fn adopt(r: Replica, log: &mut [u8], attach: u32, frames: &[u8]) -> Replica
    requires { Slotted (length log.old) (frames_of frames.now) × (Frame.round (last_frame frames.now) ≤ 4096) }
    ensures { (masks : List ℕ)
        → state result log.new masks
        ≡ holding (state r log.old masks)
        (grown log.old attach (frames_of frames.now))
        (Frame.round (last_frame frames.now)) (Frame.height (last_frame frames.now)) }
{
    slots::take_branch(log, attach, frames);
    let last = frame::last_frame(frames);
    tipped(r, frame::round(last), frame::height(last))
}
