// Slices of bytes: compared, cut and written in place. All but `copy` take slices of any length.
#![tactic(auto)]

ghost use Rattle.std.specs.Prelude.{◌≡◌, length, get_or};
ghost use Rattle.apollo.specs.Bytes as Bytes;

// Byte i of x, 0 past its end. The library's expression, as in `masks::mask` and `rotation::leader`: a function for all three would only
// rename it.
pub fn byte(x: &[u8], i: usize) -> u8
    ensures { result ≡ get_or x.now i 0 }
{
    x.get(i).copied().unwrap_or(0)
}

// a and b hold the same bytes. With no early exit: `==` makes a call of each comparison of two digests, which costs 8 ns more.
#[tactic(auto, using(crate::proofs::Same::same_told, crate::proofs::Same::other_length))]
pub fn same_bytes(a: &[u8], b: &[u8]) -> bool
    ensures { result ≡ Bytes.same a.now b.now }
{
    a.len() == b.len() && a.iter().zip(b.iter()).fold(0, |d, (x, y)| d | (x ^ y)) == 0
}

// All bytes of x are zero. By `all` 436 bytes take 222 ns in place of 13, since it stops at a byte, and a frame's judgement 7 % longer.
#[tactic(auto, using(crate::proofs::Same::zero_told))]
pub fn is_zero(x: &[u8]) -> bool
    ensures { result ≡ Bytes.same x.now (Bytes.zeros (length x.now)) }
{
    x.iter().fold(0, |d, b| d | b) == 0
}

// The bytes of x from a up to, not including, e are there and zero.
pub fn is_blank(x: &[u8], a: usize, e: usize) -> bool
    ensures { result ≡ Bytes.blank x.now a e }
{
    e <= a || x.get(a..e).is_some_and(is_zero)
}

// The `size` bytes of x from `start` on, fewer where x ends before.
pub fn part<'a>(x: &'a [u8], start: usize, size: usize) -> &'a [u8]
    ensures { result.now ≡ Bytes.part x.now start size }
{
    let rest = &x[start.min(x.len())..];
    &rest[..size.min(rest.len())]
}

// Copies x over out, which is as long.
pub fn copy(out: &mut [u8], x: &[u8])
    requires { length x.now ≡ length out.old }
    ensures { out.new ≡ x.now }
{
    // By an index: `copy_from_slice` calls the C library, and a fetch of 64 frames took an eighth longer; after a zip of `iter_mut` the
    // library says nothing of out.
    for i in 0..x.len() {
        out[i] = x[i];
    }
}

// Zeroes all of out. A function, so that callers cite the definition and no law of `fill`. One with `masks::clear` would ask them for the
// zero of their type, or for a proof that its default is one.
#[tactic(auto, unfolding(apollo::specs::Bytes::zeros))]
pub fn clear(out: &mut [u8])
    ensures { out.new ≡ Bytes.zeros (length out.old) }
{
    out.fill(0);
}
