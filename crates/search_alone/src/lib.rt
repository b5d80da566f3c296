// The search of a commit by itself, for the tests and the benchmark to link. It is no part of the interface for hosts.
#![tactic(auto)]

ghost use Rattle.std.specs.Prelude.{◌≡◌};
ghost use Rattle.apollo.specs.Log as Log;

use slots::Found;

// The highest filled slot up to the limit, and how many slots were read.
#[unsafe(no_mangle)]
pub extern "C" fn apollo_search(log: &[u8], limit: u32) -> Found
    ensures { (result.round ≡ Log.highest log.now limit) × (result.slots_read ≡ Log.slots_read log.now limit) }
{
    slots::highest(log, limit)
}
