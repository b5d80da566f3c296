// Frames written in place, to the front of a buffer as C lends it: the block and the blame that a replica makes. Each contract asks for the
// room and speaks of all of the buffer, as those of the callers do: with an array cut out of it they would have to.
#![tactic(auto)]

ghost use Rattle.std.specs.Prelude.{◌≡◌, ◌+◌, ◌-◌, ◌≤◌, ◌∷◌, ◌++◌, length, take, drop};
ghost use Rattle.apollo.specs.Size.{check_at, entry_most, frame_size};
ghost use Rattle.apollo.specs.Bytes as Bytes;
ghost use Rattle.apollo.specs.Frame as Frame;
ghost use Rattle.sha256.specs.Fips.{sha256};
ghost use Rattle.frame_writing.specs.Put.{Written};

use apollo::Kind;
use apollo::size::CHECK;

// Writes x from `start` on, not by `copy_from_slice`: of the C library the archive needs memset alone.
fn put(out: &mut [u8], start: usize, x: &[u8])
    requires { start + length x.now ≤ length out.old }
    ensures { Written out.old start x.now out.new }
{
    let end = start + x.len();
    slices::copy(&mut out[start..end], x);
}

// Writes zeros from `start` up to, not including, `end`.
#[tactic(auto, unfolding(apollo::specs::Bytes::zeros))]
fn put_zeros(out: &mut [u8], start: usize, end: usize)
    requires { (start ≤ end) × (end ≤ length out.old) }
    ensures { Written out.old start (Bytes.zeros (end - start)) out.new }
{
    out[start..end].fill(0);
}

// Writes the check behind the first 480 bytes.
fn seal(out: &mut [u8])
    requires { frame_size ≤ length out.old }
    ensures { Written out.old check_at (sha256 (take check_at out.old)) out.new }
{
    let d = sha256::digest(&out[..CHECK]);
    put(out, CHECK, &d);
}

// Bytes 0 to 11 of a block.
fn block_start(id: u8, n: u16, round: u32, height: u32) -> [u8; 12]
    ensures { result ≡ 1 ∷ id ∷ (Bytes.bytes2 n ++ (Bytes.bytes4 round ++ Bytes.bytes4 height)) }
{
    let kind = Kind::Block.into();
    let [n0, n1] = n.to_be_bytes();
    let [r0, r1, r2, r3] = round.to_be_bytes();
    let [h0, h1, h2, h3] = height.to_be_bytes();
    [kind, id, n0, n1, r0, r1, r2, r3, h0, h1, h2, h3]
}

// Bytes 0 to 7 of a blame.
fn blame_start(id: u8, round: u32) -> [u8; 8]
    ensures { result ≡ 2 ∷ id ∷ 0 ∷ 0 ∷ Bytes.bytes4 round }
{
    let kind = Kind::Blame.into();
    let [r0, r1, r2, r3] = round.to_be_bytes();
    [kind, id, 0, 0, r0, r1, r2, r3]
}

// Writes the block that replica `id` makes to the front of out.
pub fn put_block(out: &mut [u8], id: u8, round: u32, height: u32, parent: &[u8], entry: &[u8])
    requires { (frame_size ≤ length out.old) × (length parent.now ≡ 32) × (length entry.now ≤ entry_most) }
    ensures { out.new
        ≡ Frame.make_block sha256 id round height parent.now entry.now ++ drop frame_size out.old }
{
    let n = entry.len();
    let start = block_start(id, n as u16, round, height);
    put(out, 0, &start);
    put(out, 12, parent);
    put(out, 44, entry);
    put_zeros(out, 44 + n, CHECK);
    seal(out);
}

// Writes the blame that replica `id` makes to the front of out.
pub fn put_blame(out: &mut [u8], id: u8, round: u32)
    requires { frame_size ≤ length out.old }
    ensures { out.new ≡ Frame.make_blame sha256 id round ++ drop frame_size out.old }
{
    let start = blame_start(id, round);
    put(out, 0, &start);
    put_zeros(out, 8, CHECK);
    seal(out);
}
