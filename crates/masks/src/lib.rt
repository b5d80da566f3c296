// Masks of 16 bits, a bit for each replica, as the blame masks and the marks have them. The blame masks, one a round, stand in a buffer of
// their own beside the log, as C lends them: certified (shown) rounds, blames added, all zeroed.
#![tactic(auto)]

ghost use Rattle.std.specs.Prelude.{◌≡◌, ◌%◌, ◌^◌, ◌<◌, ltb, length};
ghost use Rattle.apollo.specs.Bytes.{zeros};
ghost use Rattle.apollo.specs.Masks as Masks;

use apollo::Setup;

// The mask of round r, 0 past the end.
fn mask(masks: &[u16], r: u32) -> u16
    ensures { result ≡ Masks.mask masks.now r }
{
    masks
        .get(apollo::previous(r) as usize)
        .copied()
        .unwrap_or(0)
}

// A mask reduced to n bits.
#[tactic(auto, using(crate::proofs::Masks::reduced_low, crate::proofs::Masks::reduced_past))]
fn reduced(m: u16, n: u32) -> u32
    ensures { result ≡ m % 2 ^ n }
{
    let m = u32::from(m);
    1u32.checked_shl(n).map_or(m, |end| m % end)
}

// Round r is certified (shown).
#[tactic(auto, using(crate::proofs::Masks::enough))]
pub fn certified(s: Setup, masks: &[u16], r: u32) -> bool
    ensures { result ≡ Masks.certified s masks.now r }
{
    let f = u32::from(s.f);
    f + 1 <= reduced(mask(masks, r), 2 * f + 1).count_ones()
}

// Bit i of a mask.
#[tactic(auto, using(crate::proofs::Masks::bit_read, crate::proofs::Masks::bit_high))]
pub fn has_bit(m: u16, i: u8) -> bool
    ensures { result ≡ Masks.bit i m }
{
    m.checked_shr(u32::from(i)).unwrap_or(0) % 2 == 1
}

// A mask with bit i set. That i < 16 is asked here and handed on by its callers, each of which has it from another fact: a frame's form, a
// leader's range, an own number. A type for such numbers would be made in each of these places, and opened here.
#[tactic(auto, using(crate::proofs::Masks::bit_set))]
pub fn with_bit(m: u16, i: u8) -> u16
    requires { i < 16 }
    ensures { result ≡ Masks.set_bit i m }
{
    m | 1 << i
}

// A mask has no bit at n or above.
#[tactic(auto, using(crate::proofs::Masks::fits_low, crate::proofs::Masks::fits_whole))]
pub fn fits(m: u16, n: u32) -> bool
    ensures { result ≡ ltb m (2 ^ n) }
{
    m.checked_shr(n).unwrap_or(0) == 0
}

// Replica i's blame for round r is there.
pub fn has_blame(masks: &[u16], r: u32, i: u8) -> bool
    ensures { result ≡ Masks.bit i (Masks.mask masks.now r) }
{
    has_bit(mask(masks, r), i)
}

// Replica i's blame for round r is added. By index: what the library says of a slice after its `get_mut` does not close the proof.
pub fn add_blame(masks: &mut [u16], r: u32, i: u8)
    requires { i < 16 }
    ensures { masks.new ≡ Masks.add_blame masks.old r i }
{
    let k = apollo::previous(r) as usize;
    if k < masks.len() {
        masks[k] = with_bit(masks[k], i);
    }
}

// All masks are zeroed, as `slices::clear` does with bytes.
#[tactic(auto, unfolding(apollo::specs::Bytes::zeros))]
pub fn clear(masks: &mut [u16])
    ensures { masks.new ≡ zeros (length masks.old) }
{
    masks.fill(0);
}
