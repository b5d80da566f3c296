// The replicas at the bench.
ghost use Rattle.std.specs.Prelude.{◌≡◌, ◌≢◌, Err};
ghost use Rattle.apollo.specs.Rotation.{in_turn};
ghost use Rattle.text.specs.Fitted.{bytes_of};
ghost use Rattle.rehearse.specs.Shown.{shown};

use crate::command::{Command, Step};
use crate::sent::Sent;
use apollo::size::{FRAME, OUT};
use apollo::{Answer, Kind, Replica, Round, Ticks};
use text::{Line, Stop};

// A replica's masks, one for each round.
const MASKS: usize = 6;

// The bytes of its log, a slot for each round.
const LOG: usize = MASKS * FRAME;

// A replica, with its log, its masks and how many of the frames that were sent it is past. That of mixed hears no other, and lends calls
// parts of its log and masks.
#[derive(Drop)]
struct Card {
    id: u8,
    record: Replica,
    log: [u8; LOG],
    masks: [u16; MASKS],
    past: usize,
}

impl Card {
    // A record of zeros: the replica is not opened yet.
    fn closed(id: u8) -> Self {
        Card {
            id,
            record: record::zero_replica(),
            log: [0; LOG],
            masks: [0; MASKS],
            past: 0,
        }
    }

    fn open(&mut self, out: &mut [u8; OUT]) -> Answer {
        let timeout = Ticks(2);
        let last = Round(6);
        let turn = in_turn();
        call_open::open(
            self.id,
            1,
            timeout,
            last,
            &turn,
            &mut self.log,
            &mut self.masks,
            b"",
            out,
        )
    }

    fn tick(&mut self, out: &mut [u8; OUT]) -> Answer {
        call_tick::tick(self.record, &mut self.log, &mut self.masks, b"", out)
    }

    // The replica is handed frame x.
    fn hear(&mut self, x: &[u8], out: &mut [u8; OUT]) -> Answer {
        match frame::kind(x) {
            Ok(Kind::Block) => call_branch::branch(
                self.record,
                &mut self.log,
                &self.masks,
                x,
                b"",
                out,
            ),
            _ => call_blame::blame(self.record, &mut self.log, &mut self.masks, x, b"", out),
        }
    }

    // The answer to a step; none where there is nothing to hand the replica.
    fn answer(&mut self, step: Step, sent: &Sent, out: &mut [u8; OUT]) -> Option<Answer> {
        match step {
            Step::Tick => Some(self.tick(out)),
            Step::Deliver => {
                let (x, past) = sent.oldest(self.past, self.id)?;
                self.past = past;
                Some(self.hear(x, out))
            }
        }
    }

    // Replica, the answer's number, R, tip round, committed round: 39 bytes at most.
    fn row(&self, number: u8) -> Line<64>
        ensures { bytes_of result ≡ shown self.now.id number self.now.«record» }
    {
        let r = &self.record;
        let ns = [
            u64::from(self.id),
            u64::from(number),
            u64::from(r.round.0),
            u64::from(r.tip_round.0),
            u64::from(r.committed_round.0),
        ];
        let mut line = Line::<64>::new();
        line.put_row(&ns, b"\n");
        line
    }
}

// The old turn.
#[tactic(auto, unfolding(apollo::specs::Rotation::in_turn))]
fn in_turn() -> [u8; 3]
    ensures { result ≡ in_turn 3 }
{
    [0, 1, 2]
}

// The three replicas, and the frames that they sent.
#[derive(Drop)]
pub struct Bench {
    cards: [Card; 3],
    sent: Sent,
}

impl Bench {
    // The replicas are opened in their order, by index, since what one sends is there for all.
    pub fn open() -> Self {
        let mut bench = Bench {
            cards: [0, 1, 2].map(Card::closed),
            sent: Sent::none(),
        };
        for replica in 0..3 {
            let card = &mut bench.cards[replica];
            let mut out = [0; OUT];
            let x = card.open(&mut out);
            card.record = x.replica;
            bench.sent.send(&out, x.frames);
        }
        bench
    }

    // A step of a replica is carried out, and its answer printed at once.
    pub fn obey(&mut self, rt: &impl Print, command: Command) -> Result<(), Stop>
        ensures { result ≢ Err Stop.OutOfMemory }
    {
        let card = &mut self.cards[command.replica];
        let mut out = [0; OUT];
        let Some(x) = card.answer(command.step, &self.sent, &mut out) else {
            return Ok(());
        };
        card.record = x.replica;
        self.sent.send(&out, x.frames);
        self.cards[command.replica].row(x.number).print(rt)
    }
}
