// The replicas, and the calls that they get.
ghost use Rattle.std.specs.Prelude.{◌≢◌, Err};

use apollo::size::FRAME;
use apollo::{Answer, Height, Replica};
use mixed_lines::input::{Call, Change, LOG, MASKS, OUT, Place, Seat, Size, Sizes, Task};
use mixed_lines::print;
use std::array;
use text::Stop;

// What a call finds in its out buffer.
const UNTOUCHED: [u8; OUT] = [165; OUT];

// A replica, with its log and its masks. That of rehearse lends its whole log and masks to calls of its own record alone.
#[derive(Drop)]
struct Card {
    record: Replica,
    log: [u8; LOG],
    masks: [u16; MASKS],
}

// What a call is lent: parts of a replica's log and masks, and of the out buffer.
struct Lent<'a> {
    log: &'a mut [u8],
    masks: &'a mut [u16],
    out: &'a mut [u8],
}

impl Lent<'_> {
    // The answer of a call, which uses up what is lent: handed on through a `&mut Lent` it has no proof.
    fn answer(self, change: Change<'_>, r: Replica, entry: &[u8]) -> Answer {
        let Lent { log, masks, out } = self;
        match change {
            Change::Open(o) => call_open::open(
                o.id,
                o.f,
                o.timeout,
                o.last_round,
                o.rotation,
                log,
                masks,
                entry,
                out,
            ),
            Change::Branch(frames) => call_branch::branch(r, log, masks, frames, entry, out),
            Change::Blame(frame) => call_blame::blame(r, log, masks, frame, entry, out),
            Change::Blames(frames) => call_blame::blames(r, log, masks, frames, entry, out),
            Change::Tick => call_tick::tick(r, log, masks, entry, out),
        }
    }
}

impl Card {
    // A replica of a record, with a log and masks of zeros.
    fn of(record: Replica) -> Self {
        Card {
            record,
            log: [0; LOG],
            masks: [0; MASKS],
        }
    }

    // Such a replica in place of the one before.
    fn begin(&mut self, record: Replica) {
        self.record = record;
        self.log.fill(0);
        self.masks.fill(0);
    }

    fn store(&mut self, place: Place, slot: &[u8; FRAME]) {
        slots::store(&mut self.log, place.index as u32 + 1, slot);
    }

    // The record of an answer is kept, if it takes the call.
    fn keep(&mut self, number: u8, record: Replica) {
        if number == 0 {
            self.record = record;
        }
    }

    fn change(
        &mut self,
        rt: &impl Print,
        r: Replica,
        sizes: Sizes,
        entry: &[u8],
        change: Change<'_>,
    ) -> Result<(), Stop>
        ensures { result ≢ Err Stop.OutOfMemory }
    {
        let mut out = UNTOUCHED;
        // Both by a name: `&mut self.log[..n]` beside a part of the masks has no proof, nor have names by a pattern.
        let log = &mut self.log;
        let masks = &mut self.masks;
        let lent = Lent {
            log: &mut log[..sizes.log.n],
            masks: &mut masks[..sizes.masks.n],
            out: &mut out[..sizes.out.n],
        };
        let x = lent.answer(change, r, entry);
        print::answer(
            rt,
            x,
            &self.log[..sizes.log.n],
            &self.masks[..sizes.masks.n],
            &out[..sizes.out.n],
        )?;
        self.keep(x.number, x.replica);
        Ok(())
    }

    fn accuse(&mut self, rt: &impl Print, r: Replica, frames: &[u8]) -> Result<(), Stop>
        ensures { result ≢ Err Stop.OutOfMemory }
    {
        let x = call_equivocation::equivocation(r, frames);
        self.keep(x.number, x.replica);
        print::marked(rt, x)
    }

    // Both forms of read, which have to agree.
    fn read(&self, rt: &impl Print, r: Replica, log: Size<LOG>, height: Height) -> Result<(), Stop>
        ensures { result ≢ Err Stop.OutOfMemory }
    {
        let log = &self.log[..log.n];
        let part = call_read::read_part(r, log, height);
        let (number, size) = match call_read::read(r, log, height) {
            Ok(entry) => (0, entry.len()),
            Err(e) => (e.into(), 0),
        };
        print::entry(rt, number, part.start, size, log)
    }

    fn fetch(
        &self,
        rt: &impl Print,
        r: Replica,
        log: Size<LOG>,
        out: Size<OUT>,
        height: Height,
    ) -> Result<(), Stop>
        ensures { result ≢ Err Stop.OutOfMemory }
    {
        let log = &self.log[..log.n];
        let mut buffer = UNTOUCHED;
        let out = &mut buffer[..out.n];
        let x = call_fetch::fetch(r, log, height, out);
        print::fetched(rt, x, log, out)
    }

    // A call that gets the record r.
    fn call(&mut self, rt: &impl Print, r: Replica, call: Call<'_>) -> Result<(), Stop>
        ensures { result ≢ Err Stop.OutOfMemory }
    {
        match call {
            Call::Change(sizes, entry, change) => self.change(rt, r, sizes, entry, change),
            Call::Equivocation(frames) => self.accuse(rt, r, frames),
            Call::Read(log, height) => self.read(rt, r, log, height),
            Call::Fetch(log, out, height) => self.fetch(rt, r, log, out, height),
        }
    }
}

// The five replicas, and the record that the next call gets instead of its replica's, if one is given.
#[derive(Drop)]
pub struct Table {
    cards: [Card; 5],
    given: Option<Replica>,
}

impl Table {
    // Records, logs and masks of zeros.
    pub fn blank() -> Self {
        Table {
            cards: array::from_fn(|_| Card::of(record::zero_replica())),
            given: None,
        }
    }

    fn call(&mut self, rt: &impl Print, seat: Seat, call: Call<'_>) -> Result<(), Stop>
        ensures { result ≢ Err Stop.OutOfMemory }
    {
        let card = &mut self.cards[seat.index];
        let r = self.given.take().unwrap_or(card.record);
        card.call(rt, r, call)
    }

    // Carries out the task of a line.
    pub fn obey(&mut self, rt: &impl Print, task: Task<'_>) -> Result<(), Stop>
        ensures { result ≢ Err Stop.OutOfMemory }
    {
        match task {
            Task::Clear => *self = Table::blank(),
            Task::Begin(seat, record) => self.cards[seat.index].begin(record),
            Task::Store(seat, place, slot) => self.cards[seat.index].store(place, slot),
            Task::Mask(seat, place, mask) => self.cards[seat.index].masks[place.index] = mask,
            Task::Give(record) => self.given = Some(record),
            Task::Digest(bytes) => print::digest(rt, bytes)?,
            Task::Call(seat, call) => self.call(rt, seat, call)?,
        }
        Ok(())
    }
}
