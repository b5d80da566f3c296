// SHA-256, as FIPS 180-4 defines it: padding and digest. The definitions are in specs/Fips.antt.
#![tactic(auto)]

ghost use Rattle.std.specs.Prelude.{◌≡◌, ◌+◌, ◌*◌, ◌≤◌, ◌<◌, ◌/◌, ◌%◌, ◌^◌, length, get_or};
ghost use Rattle.sha256.specs.Fips as Fips;

use compression::State;

// The bytes of the eight words.
pub fn bytes_of(s: State) -> [u8; 32]
    ensures { result ≡ Fips.bytes_of s }
{
    let words = [s.a, s.b, s.c, s.d, s.e, s.f, s.g, s.h];
    std::array::from_fn(|i| words[i / 4].to_be_bytes()[i % 4])
}

// Byte i of the padded message.
fn padded_byte(s: &[u8], i: usize) -> u8
    ensures { result ≡ get_or (Fips.padded s.now) i 0 }
{
    let n = s.len();
    if i < n {
        return s[i];
    }
    if i == n {
        return 0x80;
    }
    let e = n + 1 + (119 - n % 64) % 64;
    if i < e {
        return 0;
    }
    let j = i - e;
    if j < 8 {
        return (n as u64).wrapping_mul(8).to_be_bytes()[j];
    }
    0
}

// Block k of the padded message.
fn padded_block(s: &[u8], k: usize) -> [u8; 64]
    requires { 64 * k + 64 ≤ length (Fips.padded s.now) }
    ensures { result ≡ Fips.block (Fips.padded s.now) k }
{
    std::array::from_fn(|t| padded_byte(s, 64 * k + t))
}

// How many blocks a message of n bytes has once it is padded.
fn blocks(n: usize) -> usize
    requires { n < 2 ^ 63 }
    ensures { 64 * result ≡ n + 9 + Fips.zeros n }
{
    (n + 9).div_ceil(64)
}

// The initial hash value of section 5.3.3.
pub fn initial() -> State
    ensures { result ≡ Fips.H0 }
{
    State {
        a: 0x6a09_e667,
        b: 0xbb67_ae85,
        c: 0x3c6e_f372,
        d: 0xa54f_f53a,
        e: 0x510e_527f,
        f: 0x9b05_688c,
        g: 0x1f83_d9ab,
        h: 0x5be0_cd19,
    }
}

// The SHA-256 digest of a message of any length.
pub fn digest(s: &[u8]) -> [u8; 32]
    ensures { result ≡ Fips.sha256 s.now }
{
    let mut h = compression::hash(initial(), s);
    let n = s.len();
    for i in n / 64..blocks(n) {
        h = compression::hash(h, &padded_block(s, i));
    }
    bytes_of(h)
}
