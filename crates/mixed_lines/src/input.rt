// A line of the input.
ghost use Rattle.std.specs.Prelude.{◌≢◌, ◌≤◌, ◌<◌, All, IsSome, OnSome};

use crate::words::Words;
use apollo::size::FRAME;
use apollo::{Height, Replica, Round, Ticks};
use arrayvec::ArrayVec;
use std::fmt::Display;
use std::io::{Read, Result};
use text::Reader;

// A replica's masks, one for each round.
pub const MASKS: usize = 9;

// The bytes of its log, a slot for each round.
pub const LOG: usize = MASKS * FRAME;

// The bytes of the out buffer.
pub const OUT: usize = 12 * FRAME;

// One of N, counted from 0.
#[derive(Clone, Copy)]
pub struct Index<const N: usize> {
    pub index: usize,
    ghost below: { index < N },
}

// One of the five replicas.
pub type Seat = Index<5>;

// The slot of a round, or its mask: the first is that of round 1.
pub type Place = Index<MASKS>;

// How much a call is lent of a buffer that has so much.
#[derive(Clone, Copy)]
pub struct Size<const MOST: usize> {
    pub n: usize,
    ghost fits: { n ≤ MOST },
}

// How many bytes of the log, masks and bytes of the out buffer a call is lent.
#[derive(Clone, Copy)]
pub struct Sizes {
    pub log: Size<LOG>,
    pub masks: Size<MASKS>,
    pub out: Size<OUT>,
}

// A call of a replica, with what it is lent.
#[derive(Clone, Copy)]
pub enum Call<'a> {
    Change(Sizes, &'a [u8], Change<'a>), // with an entry
    Equivocation(&'a [u8]),
    Read(Size<LOG>, Height),
    Fetch(Size<LOG>, Size<OUT>, Height),
}

// A call that may change the log and the masks, with the frames that are handed in.
#[derive(Clone, Copy)]
pub enum Change<'a> {
    Open(Opening<'a>),
    Branch(&'a [u8]),
    Blame(&'a [u8]),
    Blames(&'a [u8]),
    Tick,
}

// What a replica is opened with.
#[derive(Clone, Copy)]
pub struct Opening<'a> {
    pub id: u8,
    pub f: u8,
    pub timeout: Ticks,
    pub last_round: Round,
    pub rotation: &'a [u8],
}

// What a line asks for.
#[derive(Clone, Copy)]
pub enum Task<'a> {
    Clear, // all records, logs and masks
    Begin(Seat, Replica), // a record, and a log and masks of zeros
    Store(Seat, Place, &'a [u8; FRAME]), // the bytes of a slot
    Mask(Seat, Place, u16),
    Give(Replica), // the record that the next call gets
    Digest(&'a [u8]),
    Call(Seat, Call<'a>),
}

// Where the bytes of a line are put: frames or a rotation to open with, and others.
#[derive(Clone, Default, Drop)]
pub struct Bytes {
    frames: ArrayVec<u8, 8192>,
    others: ArrayVec<u8, 512>,
}

impl Seat {
    fn of<R: Read, P: Eprint>(words: &mut Words<'_, R, P>) -> Option<Self> {
        let index = words.size(4)?;
        Some(Index { index })
    }
}

impl Place {
    // That of a round from 1 to 9.
    fn of<R: Read, P: Eprint>(words: &mut Words<'_, R, P>) -> Option<Self> {
        let index = words.size(MASKS)?.checked_sub(1)?;
        Some(Index { index })
    }
}

impl<const MOST: usize> Size<MOST> {
    fn of<R: Read, P: Eprint>(words: &mut Words<'_, R, P>) -> Option<Self> {
        let n = words.size(MOST)?;
        Some(Size { n })
    }
}

impl Sizes {
    fn of<R: Read, P: Eprint>(words: &mut Words<'_, R, P>) -> Option<Self> {
        Some(Sizes {
            log: Size::of(words)?,
            masks: Size::of(words)?,
            out: Size::of(words)?,
        })
    }
}

// A record: its numbers, its rotation of 15 bytes, its marks.
fn record<R: Read, P: Eprint>(words: &mut Words<'_, R, P>) -> Option<Replica> {
    let mut seats = ArrayVec::<u8, 15>::new();
    Some(Replica {
        id: words.number()?,
        f: words.number()?,
        timeout: Ticks(words.number()?),
        last_round: Round(words.number()?),
        round: Round(words.number()?),
        timer: Ticks(words.number()?),
        tip_round: Round(words.number()?),
        tip_height: Height(words.number()?),
        committed_round: Round(words.number()?),
        committed_height: Height(words.number()?),
        rotation: *words.bytes(&mut seats)?.as_array()?,
        equivocators: words.number()?,
    })
}

impl<'a> Opening<'a> {
    fn of<R: Read, P: Eprint>(
        words: &mut Words<'_, R, P>,
        frames: &'a mut ArrayVec<u8, 8192>,
    ) -> Option<Self> {
        Some(Opening {
            id: words.number()?,
            f: words.number()?,
            timeout: Ticks(words.number()?),
            last_round: Round(words.number()?),
            rotation: words.bytes(frames)?,
        })
    }
}

impl<'a> Call<'a> {
    // A call that hands frames in, with an entry before them.
    fn hearing<R: Read, P: Eprint, F: FnOnce(&'a [u8]) -> Change<'a>>(
        words: &mut Words<'_, R, P>,
        bytes: &'a mut Bytes,
        change: F,
    ) -> Option<Self>
        requires { F.IsAlwaysCallable change }
    {
        let sizes = Sizes::of(words)?;
        let entry = words.bytes(&mut bytes.others)?;
        let frames = words.bytes(&mut bytes.frames)?;
        Some(Call::Change(sizes, entry, change(frames)))
    }

    // The words after the letter and the replica. A letter stands in one place, here or in `parse_words`, so no type names it.
    fn of<R: Read, P: Eprint>(
        letter: u8,
        words: &mut Words<'_, R, P>,
        bytes: &'a mut Bytes,
    ) -> Option<Self> {
        Some(match letter {
            b'o' => {
                let opening = Opening::of(words, &mut bytes.frames)?;
                Call::Change(
                    Sizes::of(words)?,
                    words.bytes(&mut bytes.others)?,
                    Change::Open(opening),
                )
            }
            b'b' => Call::hearing(words, bytes, Change::Branch)?,
            b'v' => Call::hearing(words, bytes, Change::Blame)?,
            b'a' => Call::hearing(words, bytes, Change::Blames)?,
            b't' => Call::Change(
                Sizes::of(words)?,
                words.bytes(&mut bytes.others)?,
                Change::Tick,
            ),
            b'e' => Call::Equivocation(words.bytes(&mut bytes.frames)?),
            b'q' => Call::Read(Size::of(words)?, Height(words.number()?)),
            b'f' => Call::Fetch(Size::of(words)?, Size::of(words)?, Height(words.number()?)),
            _ => return None,
        })
    }
}

// Takes what is told of a reader that never fails.
struct Silence;

impl Eprint for Silence {
    fn eprint<D: Display + Drop>(&self, _: D) -> Result<()> {
        Ok(())
    }

    fn eprintln<D: Display + Drop>(&self, _: D) -> Result<()> {
        Ok(())
    }
}

// The task of a line, none if it is none of the list. A line has no newline in it.
pub fn parse<'a>(line: &[u8], bytes: &'a mut Bytes) -> Option<Task<'a>>
    ensures { OnSome result (All (λ b. b ≢ 10) line.now) }
{
    if line.contains(&b'\n') {
        return None;
    }
    parse_words(&mut Words::of(&Silence, Reader::new(line)), bytes)
}

// The task of the line that the words are of, none if it is none of the list: the rest of such a line is still to be read.
pub fn parse_words<'a, R: Read, P: Eprint>(
    words: &mut Words<'_, R, P>,
    bytes: &'a mut Bytes,
) -> Option<Task<'a>>
    ensures { OnSome result (IsSome words.new.end) }
{
    let task = match words.letter()? {
        b'n' => Task::Clear,
        b'w' => Task::Begin(Seat::of(words)?, record(words)?),
        b's' => Task::Store(
            Seat::of(words)?,
            Place::of(words)?,
            words.bytes(&mut bytes.others)?.as_array()?,
        ),
        b'm' => Task::Mask(Seat::of(words)?, Place::of(words)?, words.number()?),
        b'g' => Task::Give(record(words)?),
        b'h' => Task::Digest(words.bytes(&mut bytes.others)?),
        letter => Task::Call(Seat::of(words)?, Call::of(letter, words, bytes)?),
    };
    words.end()?;
    Some(task)
}
