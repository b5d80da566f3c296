// SHA-256 of four messages at once: each stands in a lane of its own. The definitions of the standard are those of compression and sha256.
#![tactic(auto)]

ghost use Rattle.std.specs.Prelude.{◌≡◌, length, map};
ghost use Rattle.std.specs.List.{All};
ghost use Rattle.sha256.specs.Fips.{block, padded, sha256};

use compression::{Lanes, block, compress};

// The last block of a padded message of 480 bytes.
fn last_block(s: &[u8]) -> [u8; 64]
    requires { length s.now ≡ 480 }
    ensures { result ≡ block (padded s.now) 7 }
{
    let mut b = [0u8; 64];
    b[..32].copy_from_slice(&s[448..]);
    b[32] = 0x80;
    b[62] = 15;
    b
}

// Four digests, laid out as in C.
#[repr(C)]
#[derive(Clone, Copy)]
pub struct Four(pub [[u8; 32]; 4]);

// The SHA-256 digests of four messages of 480 bytes. The last list is spelled out: a closure would say again what lane asks and both give.
pub fn digest4(m: [&[u8]; 4]) -> Four
    requires { All (λ message. length message.now ≡ 480) m }
    ensures { result.0 ≡ map (λ message. sha256 message.now) m.entry }
{
    let mut h = Lanes::<4>::new(sha256::initial());
    for i in 0..7 {
        compress(&mut h, &m.map(|s| block(s, i)));
    }
    let last = m.map(last_block);
    compress(&mut h, &last.each_ref());
    Four([
        sha256::bytes_of(h.lane(0)),
        sha256::bytes_of(h.lane(1)),
        sha256::bytes_of(h.lane(2)),
        sha256::bytes_of(h.lane(3)),
    ])
}
