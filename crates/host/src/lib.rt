// What a host program in C or Rust links: include/apollo.h declares it. Each function is one call of a proved one, and carries its
// contract.
#![tactic(auto)]

ghost use Rattle.std.specs.Prelude.{◌≡◌};
ghost use Rattle.sha256.specs.Fips as Fips;
ghost use Rattle.apollo.specs.Calls.{state, outcome, fetched};
ghost use Rattle.apollo.specs.Calls.{open_call, branch_call, blame_call, blames_call, tick_call, read_call, fetch_call, equivocation_call};

use apollo::{Answer, Fetched, Height, Marked, Part, Replica, Round, Ticks};

// The version of the interface: APOLLO_VERSION of the header that belongs to this archive.
#[unsafe(no_mangle)]
pub extern "C" fn apollo_version() -> u32
    ensures { result ≡ 6 }
{
    6
}

#[unsafe(no_mangle)]
pub extern "C" fn apollo_open(
    id: u8,
    f: u8,
    timeout: Ticks,
    last_round: Round,
    rotation: &[u8],
    log: &mut [u8],
    masks: &mut [u16],
    entry: &[u8],
    out: &mut [u8],
) -> Answer
    ensures { outcome result log.new masks.new out.new
        ≡ open_call id f timeout.0 last_round.0 rotation.now log.old masks.old
        entry.now out.old }
{
    call_open::open(id, f, timeout, last_round, rotation, log, masks, entry, out)
}

#[unsafe(no_mangle)]
pub extern "C" fn apollo_branch(
    replica: Replica,
    log: &mut [u8],
    masks: &[u16],
    frames: &[u8],
    entry: &[u8],
    out: &mut [u8],
) -> Answer
    ensures { outcome result log.new masks.now out.new
        ≡ branch_call (state replica log.old masks.now) frames.now entry.now
        out.old }
{
    call_branch::branch(replica, log, masks, frames, entry, out)
}

#[unsafe(no_mangle)]
pub extern "C" fn apollo_blame(
    replica: Replica,
    log: &mut [u8],
    masks: &mut [u16],
    frame: &[u8],
    entry: &[u8],
    out: &mut [u8],
) -> Answer
    ensures { outcome result log.new masks.new out.new
        ≡ blame_call (state replica log.old masks.old) frame.now entry.now
        out.old }
{
    call_blame::blame(replica, log, masks, frame, entry, out)
}

#[unsafe(no_mangle)]
pub extern "C" fn apollo_blames(
    replica: Replica,
    log: &mut [u8],
    masks: &mut [u16],
    frames: &[u8],
    entry: &[u8],
    out: &mut [u8],
) -> Answer
    ensures { outcome result log.new masks.new out.new
        ≡ blames_call (state replica log.old masks.old) frames.now entry.now
        out.old }
{
    call_blame::blames(replica, log, masks, frames, entry, out)
}

#[unsafe(no_mangle)]
pub extern "C" fn apollo_tick(
    replica: Replica,
    log: &mut [u8],
    masks: &mut [u16],
    entry: &[u8],
    out: &mut [u8],
) -> Answer
    ensures { outcome result log.new masks.new out.new
        ≡ tick_call (state replica log.old masks.old) entry.now out.old }
{
    call_tick::tick(replica, log, masks, entry, out)
}

#[unsafe(no_mangle)]
pub extern "C" fn apollo_read(replica: Replica, log: &[u8], height: Height) -> Part
    ensures { result ≡ (read_call replica log.now height.0).answer }
{
    call_read::read_part(replica, log, height)
}

#[unsafe(no_mangle)]
pub extern "C" fn apollo_fetch(
    replica: Replica,
    log: &[u8],
    height: Height,
    out: &mut [u8],
) -> Fetched
    ensures { fetched result out.new ≡ fetch_call replica log.now height.0 out.old }
{
    call_fetch::fetch(replica, log, height, out)
}

#[unsafe(no_mangle)]
pub extern "C" fn apollo_equivocation(replica: Replica, frames: &[u8]) -> Marked
    ensures { result ≡ equivocation_call replica frames.now }
{
    call_equivocation::equivocation(replica, frames)
}

#[unsafe(no_mangle)]
pub extern "C" fn apollo_digest(bytes: &[u8], digest: &mut [u8; 32])
    ensures { digest.new ≡ Fips.sha256 bytes.now }
{
    *digest = sha256::digest(bytes);
}
