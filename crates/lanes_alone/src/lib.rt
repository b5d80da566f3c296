// The digests of four frames by themselves, for the tests and the benchmark to link. It is no part of the interface for hosts.
#![tactic(auto)]

ghost use Rattle.std.specs.Prelude.{◌≡◌};
ghost use Rattle.lanes_alone.specs.Digests.{digests};

use apollo::size::{CHECK, FRAME};
use lanes::Four;

// The digests of four frames of 512 bytes, end to end; zeros for a buffer of another length.
#[unsafe(no_mangle)]
pub extern "C" fn apollo_digest4(frames: &[u8]) -> Four
    ensures { result ≡ digests frames.now }
{
    let (whole, rest) = frames.as_chunks::<FRAME>();
    match whole {
        [a, b, c, d] if rest.is_empty() => {
            lanes::digest4([a, b, c, d].map(|frame| &frame[..CHECK]))
        }
        _ => Four([[0; 32]; 4]),
    }
}
