// Three replicas in one program, driven by standard input: f = 1, T = 6, timeout 2, the old turn, entries empty. `t i` is a tick at
// replica i, `d i` hands replica i the oldest frame of its queue. Each prints the replica, the answer's number, R, the tip's
// round and the committed round. A line that is neither is told on standard error and passed over.
#![tactic(auto)]

ghost use Rattle.std.specs.Prelude.{◌≢◌, Err};

mod bench;
mod command;
mod sent;

use bench::Bench;
use command::Command;
use std::io::Input;
use std::process::ExitCode;
use text::{Line, Reader, Stop};

// Carries out the lines of the input. Of each the first five bytes are kept: no command has more than four, with its carriage return.
fn run(rt: &(impl Input + Print + Eprint)) -> Result<(), Stop>
    ensures { result ≢ Err Stop.OutOfMemory }
{
    let mut bench = Bench::open();
    let mut reader = Reader::new(rt.reader());
    text::run_cut(
        rt,
        &mut reader,
        &mut Line::<5>::new(),
        &mut |line| { Some(bench.obey(rt, Command::parse(line)?)) },
    )
}

fn main(rt: HostRuntime) -> ExitCode {
    text::ended(&rt, run(&rt))
}
