// What a replica commits.
#![tactic(auto)]

ghost use Rattle.std.specs.Prelude.{◌≡◌};
ghost use Rattle.apollo.specs.Enter.{commit_limit, commit};

use apollo::Replica;

// The highest round that may be committed: R - 1 - f, 0 where that is below 1.
#[tactic(auto, unfolding(apollo::specs::Enter::commit_limit))]
fn commit_limit(r: Replica) -> u32
    ensures { result ≡ commit_limit r }
{
    r.round.0.saturating_sub(u32::from(r.f) + 1)
}

// Committed renewed: the highest filled slot up to that round, the genesis if none.
#[tactic(auto, unfolding(apollo::specs::Enter::commit))]
pub fn commit(r: Replica, log: &[u8]) -> Replica
    ensures { result ≡ commit r log.now }
{
    let round = slots::highest(log, commit_limit(r)).round;
    record::with_committed(r, round, slots::slot_height(log, round))
}
