// A line of text, put together from pieces and written at once.
ghost use Rattle.std.specs.Prelude.{◌≡◌, ◌≢◌, [], Err};
ghost use Rattle.text.specs.declared.stdout.Stop.TheVariants.{OutOfMemory};
ghost use Rattle.text.specs.Status.{status};
ghost use Rattle.text.specs.Fitted.{put, put_number, put_row, bytes_of};

use crate::row;
use std::alloc::AllocError;
use std::io::Error;
use std::process::ExitCode;

// What ends a program before its input ends.
#[derive(Debug, Drop)]
pub enum Stop {
    Output(Error), // a line could not be written
    OutOfMemory,
}

impl From<AllocError> for Stop {
    ghost from_gives = { λ _ s. s ≡ OutOfMemory };

    fn from(_: AllocError) -> Stop {
        Self::OutOfMemory
    }
}

// A line of at most N bytes, which are written up to `end`. A piece that does not fit is left out: what is there then, the clause of
// `write!` leaves open, and `println!` has no clause, so a line is put together by pieces.
#[derive(Drop)]
pub struct Line<const N: usize> {
    pub bytes: [u8; N],
    pub end: usize,
}

impl<const N: usize> Line<N> {
    pub fn new() -> Self
        ensures { bytes_of result ≡ [] }
    {
        Line {
            bytes: [0; N],
            end: 0,
        }
    }

    // What is written of it.
    pub fn written(&self) -> &[u8]
        ensures { result.now ≡ bytes_of self.now }
    {
        self.bytes.get(..self.end).unwrap_or(&self.bytes)
    }

    // Puts s behind what is there.
    pub fn put(&mut self, s: &[u8])
        ensures { bytes_of self.new ≡ put N (bytes_of self.old) s.now }
    {
        self.end = row::put_bytes(&mut self.bytes, self.end, s);
    }

    // Puts the numbers in decimal, a space between any two, and then s.
    pub fn put_row(&mut self, ns: &[u64], s: &[u8])
        ensures { bytes_of self.new ≡ put_row N (bytes_of self.old) ns.now s.now }
    {
        self.end = row::put_row(&mut self.bytes, self.end, ns, s);
    }

    // Writes the line to standard output.
    pub fn print(&self, rt: &impl Print) -> Result<(), Stop>
        ensures { result ≢ Err Stop.OutOfMemory }
    {
        print(rt, self.written())
    }
}

// Writes a line to standard output.
pub fn print(rt: &impl Print, line: &[u8]) -> Result<(), Stop>
    ensures { result ≢ Err Stop.OutOfMemory }
{
    rt.write_all(line).map_err(Stop::Output)
}

// Tells what ended a program, if anything did. Only a lack of memory is a failure: who takes the output may end it.
pub fn ended(rt: &impl Eprint, run: Result<(), Stop>) -> ExitCode
    ensures { result.status ≡ status run }
{
    match run {
        Ok(()) => ExitCode::SUCCESS,
        Err(Stop::Output(e)) => {
            let _ = eprintln!(rt; "standard output: {e}");
            ExitCode::SUCCESS
        }
        Err(Stop::OutOfMemory) => {
            let _ = eprintln!(rt; "out of memory");
            ExitCode::FAILURE
        }
    }
}
