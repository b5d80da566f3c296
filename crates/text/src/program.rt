// A program that is driven by standard input.
ghost use Rattle.std.specs.Prelude.{IfOk, IfErr};
ghost use Rattle.text.specs.Reading.{to_come};
ghost use Rattle.text.specs.Running.{CarriedOut, CarriedOutCut, StoppedWith};

use crate::stdin;
use crate::stdin::{End, Reader};
use crate::stdout::{Line, Stop};
use std::io::Read;

// Hands each line of the input to `obey`, which carries it out, or answers None where it is no command, which is told. Nothing says
// that the input ends, so the lines are counted, up to a number that no run uses up.
pub fn run<R: Read, F: FnMut(&[u8]) -> Option<Result<(), Stop>>>(
    rt: &(impl AllocGlobal + Eprint),
    reader: &mut Reader<R>,
    obey: &mut F,
) -> Result<(), Stop>
    requires { F.IsAlwaysCallable obey.old }
    ensures { IfOk result (λ _. CarriedOut F.FnMut obey.old obey.new (to_come reader.old.piece (R.remaining reader.old.from))
        (to_come reader.new.piece (R.remaining reader.new.from))) }
{
    let mut line = Vec::new(rt.alloc());
    for count in 1..u64::MAX {
        let Some(end) = reader.read_line(rt, &mut line)? else {
            return Ok(());
        };
        match obey(&line) {
            Some(done) => done?,
            None => stdin::no_command(rt, count),
        }
        if let End::Input = end {
            return Ok(());
        }
    }
    Ok(())
}

// Hands each line of the input, cut to its first N bytes, to `obey`, which carries it out, or answers None where it is no command, which
// is told. Nothing says that the input ends, so the lines are counted, up to a number that no run uses up.
pub fn run_cut<const N: usize, R: Read, F: FnMut(&[u8]) -> Option<Result<(), Stop>>>(
    rt: &impl Eprint,
    reader: &mut Reader<R>,
    line: &mut Line<N>,
    obey: &mut F,
) -> Result<(), Stop>
    requires { F.IsAlwaysCallable obey.old }
    ensures carried_out { IfOk result (λ _. CarriedOutCut N F.FnMut obey.old obey.new (to_come reader.old.piece (R.remaining reader.old.from))
        (to_come reader.new.piece (R.remaining reader.new.from))) }
    ensures stopped { IfErr result (λ e. StoppedWith F.FnMut e) }
{
    for number in 1..u64::MAX {
        let Some(end) = reader.read_cut(rt, line) else {
            return Ok(());
        };
        match obey(line.written()) {
            Some(done) => done?,
            None => stdin::no_command(rt, number),
        }
        if let End::Input = end {
            return Ok(());
        }
    }
    Ok(())
}
