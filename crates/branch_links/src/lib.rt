// Where a branch attaches: the round of the slot that its first frame has as its parent.
#![tactic(auto)]

ghost use Rattle.std.specs.Prelude.{◌≡◌, ◌-◌, ◌&&◌};
ghost use Rattle.apollo.specs.Frame as Frame;
ghost use Rattle.apollo.specs.Log as Log;
ghost use Rattle.branch_links.specs.Answers.{attach_of};

use apollo::Kind;
use apollo::size::FRAME;

// Frame x attaches to slot r.
fn attaches(log: &[u8], x: &[u8], r: u32) -> bool
    ensures { result ≡ Log.filled (Log.slot log.now r) && Frame.linked (Log.slot log.now r) x.now }
{
    let p = slots::slot(log, r);
    frame::is_kind(p, Kind::Block) && frame::linked(p, x)
}

// Frame x attaches to the genesis.
#[tactic(auto, unfolding(apollo::specs::Log::genesis, apollo::specs::Bytes::zeros))]
fn attaches_genesis(x: &[u8]) -> bool
    ensures { result ≡ Frame.linked Log.genesis x.now }
{
    let genesis = [0u8; FRAME];
    frame::linked(&genesis, x)
}

// The round that frame x attaches to: the highest such slot below its own, the genesis, 0, last.
pub fn attach(log: &[u8], x: &[u8]) -> Option<u32>
    ensures { attach_of result ≡ Log.attach log.now x.now (Frame.round x.now - 1) }
{
    (1..frame::round(x))
        .rev()
        .find(|&r| attaches(log, x, r))
        .or_else(|| attaches_genesis(x).then_some(0))
}
