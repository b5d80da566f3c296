// The refusals by number, with document 01's trade words; document 02 has none. The definitions and the header have the same names.
ghost use Rattle.std.specs.Prelude.{◌≡◌};
ghost use Rattle.apollo.specs.Refused.{number, whole};

// What refuses a call.
#[derive(Clone, Copy, Debug, PartialEq, Eq)]
pub enum Refusal {
    BadSetup = 1, // set-up
    BadReplica = 2, // record
    RoundsOver = 3, // term over
    OutTooShort = 4, // short tray
    EntryTooLong = 5, // long entry
    BadLength = 6, // cut
    BadDigest = 7, // check
    BadForm = 8, // form
    NotChild = 9, // parted
    Stale = 10, // stale
    Unattached = 11, // loose
    RevertsCommitted = 12, // undone
    NotCertified = 13, // unshown
    Early = 14, // early
    Absent = 15, // absent
    NotASet = 16, // blames of two rounds, or of one signer twice
    BadRotation = 17, // open: not n seats, a card lacking, or a card twice
    NotEquivocation = 18, // two blocks with equal digests, or of two rounds
}

// Its number.
impl From<Refusal> for u8 {
    ghost from_gives = { λ e n. n ≡ number e };

    fn from(e: Refusal) -> u8 {
        e as u8
    }
}

// A refusal with its place: the index of the frame that it is for, or a round.
#[derive(Clone, Copy, Debug, PartialEq, Eq)]
pub struct Refused {
    pub refusal: Refusal,
    pub place: u32,
}

// One that has no place has place 0.
impl From<Refusal> for Refused {
    ghost from_gives = { λ e r. r ≡ whole e };

    fn from(refusal: Refusal) -> Refused {
        Refused { refusal, place: 0 }
    }
}
