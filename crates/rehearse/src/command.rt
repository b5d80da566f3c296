// What a line asks for.
ghost use Rattle.std.specs.Prelude.{◌<◌};

#[derive(Clone, Copy)]
pub enum Step {
    Tick,
    Deliver,
}

// A step of a replica at the bench.
#[derive(Clone, Copy)]
pub struct Command {
    pub step: Step,
    pub replica: usize,
    ghost at_the_bench: { replica < 3 },
}

impl Command {
    // `t i` or `d i`, maybe with the carriage return of `\r\n`.
    pub fn parse(line: &[u8]) -> Option<Command> {
        let (step, replica) = match line.strip_suffix(b"\r").unwrap_or(line) {
            [b't', b' ', replica] => (Step::Tick, *replica),
            [b'd', b' ', replica] => (Step::Deliver, *replica),
            _ => return None,
        };
        let replica = match replica {
            b'0' => 0,
            b'1' => 1,
            b'2' => 2,
            _ => return None,
        };
        Some(Command { step, replica })
    }
}
