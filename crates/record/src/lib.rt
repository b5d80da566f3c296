// The record of a replica: made, with other fields, and whether it leads R.
#![tactic(auto)]

ghost use Rattle.std.specs.Prelude.{◌≡◌, ◌<◌};
ghost use Rattle.apollo.specs.Replica.{with_round, with_timer, with_tip, with_committed, with_mark, fresh, zero_replica, leads};

use apollo::{Height, Replica, Round, Ticks};

// R ≤ T, and this replica leads R.
#[tactic(auto, unfolding(apollo::specs::Replica::leads))]
pub fn leads(r: Replica) -> bool
    ensures { result ≡ leads r }
{
    let leader = rotation::leader(r.into(), r.round.0);
    (r.round.0 <= r.last_round.0) & (leader == r.id)
}

// The record of an open, before entering.
#[tactic(auto, unfolding(apollo::specs::Replica::fresh, apollo::specs::Replica::zero_replica))]
pub fn fresh(id: u8, f: u8, timeout: Ticks, last_round: Round, rotation: &[u8]) -> Replica
    ensures { result ≡ fresh id f timeout.0 last_round.0 rotation.now }
{
    Replica {
        id,
        f,
        timeout,
        last_round,
        round: Round(1),
        timer: timeout,
        rotation: rotation::padded(rotation),
        ..zero_replica()
    }
}

// The record of zeros.
#[tactic(auto, unfolding(apollo::specs::Replica::zero_replica, apollo::specs::Bytes::zeros))]
pub fn zero_replica() -> Replica
    ensures { result ≡ zero_replica }
{
    Replica::default()
}

// The record with another R.
pub fn with_round(r: Replica, round: u32) -> Replica
    ensures { result ≡ with_round r round }
{
    Replica {
        round: Round(round),
        ..r
    }
}

// The record with other ticks left.
pub fn with_timer(r: Replica, timer: u32) -> Replica
    ensures { result ≡ with_timer r timer }
{
    Replica {
        timer: Ticks(timer),
        ..r
    }
}

// The record with another tip.
pub fn with_tip(r: Replica, round: u32, height: u32) -> Replica
    ensures { result ≡ with_tip r round height }
{
    Replica {
        tip_round: Round(round),
        tip_height: Height(height),
        ..r
    }
}

// The record with another committed round and height.
pub fn with_committed(r: Replica, round: u32, height: u32) -> Replica
    ensures { result ≡ with_committed r round height }
{
    Replica {
        committed_round: Round(round),
        committed_height: Height(height),
        ..r
    }
}

// The record with card i marked.
pub fn with_mark(r: Replica, i: u8) -> Replica
    requires { i < 16 }
    ensures { result ≡ with_mark r i }
{
    Replica {
        equivocators: masks::with_bit(r.equivocators, i),
        ..r
    }
}
