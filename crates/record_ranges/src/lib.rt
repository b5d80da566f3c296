// The tests of a record, for any numbers in it: the ranges of the fields and of what is lent beside them. Tests are joined by `&`, here, in
// setup_ranges and in record: it makes no branch.
#![tactic(auto)]

ghost use Rattle.std.specs.Prelude.{◌≡◌};
ghost use Rattle.apollo.specs.Replica.{valid_own, valid_rounds, valid_marks, valid_record, valid_log, valid_masks};

use apollo::Replica;
use apollo::size::FRAME;

// Own number and timeout are in range.
#[tactic(auto, unfolding(apollo::specs::Replica::valid_own))]
pub fn valid_own(r: Replica) -> bool
    ensures { result ≡ valid_own r }
{
    (u32::from(r.id) < 2 * u32::from(r.f) + 1) & (1..=60000).contains(&r.timeout.0)
}

// There is one slot a round. Apart from `valid_record`, and so beside it where both are asked: a function of both is handed a copy of the
// record, and a tick took 41 ns in place of 28.
pub fn valid_log(r: Replica, log: &[u8]) -> bool
    ensures { result ≡ valid_log r log.now }
{
    log.len() == FRAME * (r.last_round.0 as usize)
}

// The fields that a call changes are in range. In two steps: the compiler joins the comparisons of one into vectors, whose loads wait for
// the caller's stores, and a tick of 20 ns took 1 ns more.
#[tactic(auto, unfolding(apollo::specs::Replica::valid_rounds))]
fn valid_rounds(r: Replica) -> bool
    ensures { result ≡ valid_rounds r }
{
    let last = u64::from(r.last_round.0);
    let round = u64::from(r.round.0);
    let running = (1..=last + 1).contains(&round)
        & (r.timer.0 <= r.timeout.0)
        & (r.tip_round.0 < r.round.0);
    if !running {
        return false;
    }
    (r.tip_height.0 <= r.tip_round.0)
        & (r.committed_round.0 <= r.tip_round.0)
        & (r.committed_height.0 <= r.tip_height.0)
        & (r.committed_height.0 <= r.committed_round.0)
}

// No mark is at bit n or above.
fn valid_marks(r: Replica) -> bool
    ensures { result ≡ valid_marks r }
{
    masks::fits(r.equivocators, 2 * u32::from(r.f) + 1)
}

// The record by itself: all fields are in range, and R is not led by this replica.
pub fn valid_record(r: Replica) -> bool
    ensures { result ≡ valid_record r }
{
    setup_ranges::valid_limits(r.f, r.last_round.0)
        & rotation::valid_rotation(r.rotation, 2 * usize::from(r.f) + 1)
        & valid_own(r)
        & valid_rounds(r)
        & valid_marks(r)
        & !record::leads(r)
}

// There is one mask a round.
pub fn valid_masks(r: Replica, masks: &[u16]) -> bool
    ensures { result ≡ valid_masks r masks.now }
{
    masks.len() == r.last_round.0 as usize
}
