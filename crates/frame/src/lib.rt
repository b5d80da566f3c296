// One frame: its fields read in place, and its parent; whole frames, and the last of them. Every function
// takes slices of any length, as the definitions do.
#![tactic(auto)]

ghost use Rattle.std.specs.Prelude.{◌≡◌, ◌≤◌, ◌<◌, eqb};
ghost use Rattle.apollo.specs.Size.{frame_size};
ghost use Rattle.apollo.specs.Bytes as Bytes;
ghost use Rattle.apollo.specs.Frame as Frame;
ghost use Rattle.apollo.specs.Kind.{kind_number, kind_of};

use apollo::size::{CHECK, FRAME};
use apollo::{Kind, UnknownKind};

#[tactic(auto, unfolding(apollo::specs::Bytes::number4))]
fn number4(x: &[u8], start: usize) -> u32
    requires { start ≤ frame_size }
    ensures { result ≡ Bytes.number4 x.now start }
{
    u32::from_be_bytes([
        slices::byte(x, start),
        slices::byte(x, start + 1),
        slices::byte(x, start + 2),
        slices::byte(x, start + 3),
    ])
}

pub fn kind(x: &[u8]) -> Result<Kind, UnknownKind>
    ensures { result ≡ kind_of (Frame.kind x.now) }
{
    Kind::try_from(slices::byte(x, 0))
}

// x is of that kind.
pub fn is_kind(x: &[u8], kind: Kind) -> bool
    ensures { result ≡ eqb (Frame.kind x.now) (kind_number kind) }
{
    u8::from(kind) == slices::byte(x, 0)
}

pub fn signer(x: &[u8]) -> u8
    ensures { result ≡ Frame.signer x.now }
{
    slices::byte(x, 1)
}

#[tactic(auto, unfolding(apollo::specs::Bytes::number2))]
pub fn entry_length(x: &[u8]) -> usize
    ensures { (result ≡ Frame.entry_length x.now) × (result < 65536) }
{
    usize::from(u16::from_be_bytes([slices::byte(x, 2), slices::byte(x, 3)]))
}

pub fn round(x: &[u8]) -> u32
    ensures { result ≡ Frame.round x.now }
{
    number4(x, 4)
}

pub fn height(x: &[u8]) -> u32
    ensures { result ≡ Frame.height x.now }
{
    number4(x, 8)
}

// x names p as its parent, and its height is one more.
#[tactic(auto, unfolding(apollo::specs::Frame::linked))]
pub fn linked(p: &[u8], x: &[u8]) -> bool
    ensures { result ≡ Frame.linked p.now x.now }
{
    slices::same_bytes(slices::part(p, CHECK, 32), slices::part(x, 12, 32))
        && u64::from(height(p)) + 1 == u64::from(height(x))
}

// 1 to `most` whole frames.
#[tactic(auto, unfolding(apollo::specs::Frame::whole_frames))]
pub fn is_whole(most: u32, frames: &[u8]) -> bool
    ensures { result ≡ Frame.whole_frames most frames.now }
{
    let count = frames.len() / FRAME;
    frames.len() % FRAME == 0 && (1..=most as usize).contains(&count)
}

// The last frame of a branch, fewer bytes where there is no whole one.
#[tactic(auto, using(crate::proofs::Last::last_part))]
pub fn last_frame<'a>(frames: &'a [u8]) -> &'a [u8]
    ensures { result.now ≡ Frame.last_frame frames.now }
{
    &frames[frames.len().saturating_sub(FRAME)..]
}
