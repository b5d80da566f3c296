// Five replicas in one program, driven by standard input: each line is a call, or sets what the next calls find, and each
// call prints its answer and the digest of what it was lent. The head of tests/src/emit.rs has the format. A line that is
// none of these is told on standard error and passed over. The lists and what they have to print are those of the Rust
// implementation: cd tests && cargo run --release -- emit ../crates/mixed/stdin ../crates/mixed/stdout 1 2000
#![tactic(auto)]

ghost use Rattle.std.specs.Prelude.{◌≢◌, Err};

mod table;

use mixed_lines::input;
use mixed_lines::input::Bytes;
use mixed_lines::words::Words;
use std::io::Input;
use std::process::ExitCode;
use table::Table;
use text::{End, Reader, Stop};

// Carries out the lines of the input. Nothing says that it ends, so they are counted, up to a number that no run uses up.
fn run(rt: &(impl Input + Print + Eprint)) -> Result<(), Stop>
    ensures { result ≢ Err Stop.OutOfMemory }
{
    let mut table = Table::blank();
    let mut bytes = Bytes::default();
    let mut words = Words::of(rt, Reader::new(rt.reader()));
    for number in 1..u64::MAX {
        let task = input::parse_words(&mut words, &mut bytes);
        let Some(end) = words.rest() else {
            return Ok(());
        };
        match task {
            Some(task) => table.obey(rt, task)?,
            None => text::no_command(rt, number),
        }
        if let End::Input = end {
            return Ok(());
        }
    }
    Ok(())
}

fn main(rt: HostRuntime) -> ExitCode {
    text::ended(&rt, run(&rt))
}
