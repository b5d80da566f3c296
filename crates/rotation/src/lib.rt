// The rotation (document 02: seating): who leads a round, the test of a rotation, and how a record holds one.
#![tactic(auto)]

ghost use Rattle.std.specs.Prelude.{◌≡◌, ◌&&◌, ◌≤◌, take};
ghost use Rattle.apollo.specs.Bytes.{blank};
ghost use Rattle.apollo.specs.Rotation.{is_rotation, padded};
ghost use Rattle.apollo.specs.Setup.{leader};
ghost use Rattle.rotation.specs.Seen.{with_replica, replicas_seen, all_seen};

use apollo::Setup;

// The leader of a round.
#[tactic(auto, unfolding(apollo::specs::Setup::leader))]
pub fn leader(s: Setup, round: u32) -> u8
    ensures { result ≡ leader s round }
{
    let n = 2 * u32::from(s.f) + 1;
    let seat = (apollo::previous(round) % n) as usize;
    s.rotation.get(seat).copied().unwrap_or(0)
}

// A mask of cards with one more; a number that has no bit is passed over.
#[tactic(auto, unfolding(crate::specs::Seen::with_replica))]
fn with_replica(m: u16, card: u8) -> u16
    ensures { result ≡ with_replica m card }
{
    if card < 16 {
        masks::with_bit(m, card)
    } else {
        m
    }
}

// The mask of the cards in some seats.
fn replicas_seen(seats: &[u8]) -> u16
    ensures { result ≡ replicas_seen 0 seats.now }
{
    seats.iter().fold(0, |m, card| with_replica(m, *card))
}

// A mask has all of the n lowest bits.
#[tactic(auto, using(crate::proofs::Seen::low_ones))]
fn all_seen(m: u16, n: usize) -> bool
    requires { n ≤ 15 }
    ensures { result ≡ all_seen n m }
{
    n <= m.trailing_ones() as usize
}

// The first n of 15 seats are a rotation of n cards, and the others are zero: n seats that lack no card have none twice.
#[tactic(auto, using(crate::proofs::Pass::too_many, crate::proofs::Pass::passed))]
pub fn valid_rotation(seats: [u8; 15], n: usize) -> bool
    ensures { result ≡ is_rotation n (take n seats) && blank seats n 15 }
{
    if 15 < n {
        return false;
    }
    all_seen(replicas_seen(&seats[..n]), n) & slices::is_zero(&seats[n..])
}

// A rotation as a record holds it: 15 seats, zero past its end; of a longer one, which 17 refuses, the first 15.
pub fn padded(rotation: &[u8]) -> [u8; 15]
    ensures { result ≡ padded rotation.now }
{
    std::array::from_fn(|i| slices::byte(rotation, i))
}
