// The log (book) of a replica: slots stored, zeroed and read, and the highest filled.
#![tactic(auto)]

ghost use Rattle.std.specs.Prelude.{◌≡◌, ◌*◌, ◌≤◌, ◌<◌, length};
ghost use Rattle.apollo.specs.Size.{frame_size};
ghost use Rattle.apollo.specs.Frame as Frame;
ghost use Rattle.apollo.specs.Frame.{frames_of};
ghost use Rattle.apollo.specs.Log as Log;
ghost use Rattle.apollo.specs.Branch as Branch;
ghost use Rattle.slots.specs.Slots.{Slotted};

use apollo::Kind;
use apollo::size::FRAME;

// What a search of the log gives. C reads it, and has no Option.
#[repr(C)]
#[derive(Clone, Copy)]
pub struct Found {
    pub round: u32, // of the slot found, 0 if none
    pub slots_read: u32,
}

// The slots above round r are zeroed.
fn clear_above(log: &mut [u8], r: u32)
    ensures { log.new ≡ Log.clear_above log.old r }
{
    let a = FRAME * (r as usize);
    if a < log.len() {
        slices::clear(&mut log[a..]);
    }
}

// Frame x is stored in slot r. Its length is asked, in two contracts here, and known to those who call: an array of 512 bytes would be
// made of `out` in tip by a test, whose other outcome has no answer.
pub fn store(log: &mut [u8], r: u32, x: &[u8])
    requires { (1 ≤ r) × (frame_size * r ≤ length log.old) × (length x.now ≡ frame_size) }
    ensures { log.new ≡ Log.store log.old r x.now }
{
    let e = FRAME * (r as usize);
    slices::copy(&mut log[e - FRAME..e], x);
}

// Frame x is stored in the slot of its round.
fn store_frame(log: &mut [u8], x: &[u8])
    requires { (1 ≤ Frame.round x.now) × (frame_size * Frame.round x.now ≤ length log.old) × (length x.now ≡ frame_size) }
    ensures { log.new ≡ Log.store log.old (Frame.round x.now) x.now }
{
    let r = frame::round(x);
    store(log, r, x);
}

// Each whole frame is stored in the slot of its round.
fn store_each(log: &mut [u8], frames: &[u8])
    requires { Slotted (length log.old) (frames_of frames.now) }
    ensures { log.new ≡ Branch.store_all log.old (frames_of frames.now) }
{
    for x in frames.chunks_exact(FRAME) {
        store_frame(log, x);
    }
}

// The frames are taken on round a. That they have slots is asked by this, by what it calls and by what calls it, and by nothing else: a
// type that holds it would say it no less often.
pub fn take_branch(log: &mut [u8], a: u32, frames: &[u8])
    requires { Slotted (length log.old) (frames_of frames.now) }
    ensures { log.new ≡ Branch.grown log.old a (frames_of frames.now) }
{
    clear_above(log, a);
    store_each(log, frames);
}

// The bytes of slot r, fewer where the log ends before; the genesis for round 0.
pub fn slot<'a>(log: &'a [u8], r: u32) -> &'a [u8]
    ensures { result.now ≡ Log.slot log.now r }
{
    match r.checked_sub(1) {
        Some(i) => slices::part(log, FRAME * (i as usize), FRAME),
        None => &[0; FRAME],
    }
}

// Slot r is filled.
fn is_filled(log: &[u8], r: u32) -> bool
    ensures { result ≡ Log.filled (Log.slot log.now r) }
{
    frame::is_kind(slot(log, r), Kind::Block)
}

// The height in slot r.
pub fn slot_height(log: &[u8], r: u32) -> u32
    ensures { result ≡ Frame.height (Log.slot log.now r) }
{
    frame::height(slot(log, r))
}

// The highest filled slot up to the limit, from there downwards, and how many slots were read: each is counted where it is read, since a
// count from the two rounds would say nothing of that. By how many are passed over: by `(1..=limit).rev()` a search of few slots took up to
// 1.6 of the time.
pub fn highest(log: &[u8], limit: u32) -> Found
    ensures { (result.round ≡ Log.highest log.now limit) × (result.slots_read ≡ Log.slots_read log.now limit) }
{
    let mut slots_read = 0;
    for passed in 0..limit {
        slots_read += 1;
        let round = limit - passed;
        if is_filled(log, round) {
            return Found { round, slots_read };
        }
    }
    Found {
        round: 0,
        slots_read,
    }
}
