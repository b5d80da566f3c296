// The data of a replica (document 01: a card) and the answers of its calls, laid out as in C. A comment beside a field is
// document 01's word for it, where that differs.
#![tactic(auto)]

ghost use Rattle.std.specs.Prelude.{◌≡◌, ◌-◌};
ghost use Rattle.apollo.specs.Setup.{setup_of};

pub mod claims;
pub mod kind;
pub mod refusal;
pub mod size;

pub use kind::{Kind, UnknownKind};
pub use refusal::{Refusal, Refused};

// A round, 1 to T; the genesis has round 0.
#[repr(C)]
#[derive(Clone, Copy, Default)]
pub struct Round(pub u32);

// The round before r, 0 for the genesis.
pub fn previous(r: u32) -> u32
    ensures { result ≡ r - 1 }
{
    r.saturating_sub(1)
}

// A height in the chain; the genesis has height 0.
#[repr(C)]
#[derive(Clone, Copy, Default)]
pub struct Height(pub u32);

// A number of ticks.
#[repr(C)]
#[derive(Clone, Copy, Default)]
pub struct Ticks(pub u32);

// What all replicas share (part of the set-up).
#[derive(Clone, Copy)]
pub struct Setup {
    pub f: u8,
    pub last_round: Round, // T
    pub rotation: [u8; 15], // seating
}

// What a replica keeps between calls (record), beside the log (book) and the blame masks.
#[repr(C)]
#[derive(Clone, Copy, Default)]
pub struct Replica {
    pub id: u8, // own number
    pub f: u8,
    pub timeout: Ticks, // wait
    pub last_round: Round, // T
    pub round: Round, // R
    pub timer: Ticks, // ticks left
    pub tip_round: Round,
    pub tip_height: Height,
    pub committed_round: Round,
    pub committed_height: Height,
    pub rotation: [u8; 15], // seating, zero past n
    pub equivocators: u16, // marks, bit i for card i
}

// The set-up in a record.
impl From<Replica> for Setup {
    ghost from_gives = { λ r s. s ≡ setup_of r };

    fn from(r: Replica) -> Setup {
        let rotation = r.rotation;
        Setup {
            f: r.f,
            last_round: r.last_round,
            rotation,
        }
    }
}

// The answer of open, branch, blame, blames and tick (results).
#[repr(C)]
#[derive(Clone, Copy)]
pub struct Answer {
    pub number: u8, // 0 taken, else the refusal, as C reads it; so below
    pub frames: u8, // frames put out
    pub leader: u8, // leader of the new R, 255 for none: C has no Option
    pub place: u32,
    pub replica: Replica, // record
}

// The answer of equivocation.
#[repr(C)]
#[derive(Clone, Copy)]
pub struct Marked {
    pub number: u8,
    pub place: u32,
    pub replica: Replica, // record
}

// The answer of read: a part of the lent log.
#[repr(C)]
#[derive(Clone, Copy)]
pub struct Part {
    pub number: u8,
    pub start: usize,
    pub length: usize,
}

// The answer of fetch.
#[repr(C)]
#[derive(Clone, Copy)]
pub struct Fetched {
    pub number: u8,
    pub count: usize, // frames copied
}
