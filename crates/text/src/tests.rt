// That calls succeed, on lines of any length, and what ends a run; that a line that could not be written is told, no clause says.
use crate::{End, Line, Reader, Stop, ended, print, run, run_cut};
use std::alloc::AllocError;
use std::fmt::Display;
use std::io::{Error, ErrorKind, Result};
use std::test::Fail;

// Four lines: of two bytes, of none, one that takes more than two reads, and one that the input ends.
const LENGTHS: [usize; 4] = [2, 0, 9000, 3];

fn input() -> [u8; 9008] {
    let mut input = [b'c'; 9008];
    for end in [2, 3, 9004] {
        input[end] = b'\n';
    }
    input
}

// The lengths of the lines that are handed on.
#[derive(Drop)]
struct Handed {
    lengths: [usize; 4],
    count: usize,
}

impl Handed {
    fn none() -> Self {
        Handed {
            lengths: [usize::MAX; 4],
            count: 0,
        }
    }

    // Carries out a line: the second one stops the run, if it is to.
    fn hand(&mut self, line: &[u8], stops: bool) -> std::result::Result<(), Stop> {
        if let Some(length) = self.lengths.get_mut(self.count) {
            *length = line.len();
        }
        self.count = self.count.saturating_add(1);
        if stops && self.count == 2 {
            return Err(Stop::OutOfMemory);
        }
        Ok(())
    }
}

// Nothing can be written to it.
struct Full;

impl Print for Full {
    fn print<D: Display + Drop>(&self, _: D) -> Result<()> {
        Err(Error::from(ErrorKind::StorageFull))
    }

    fn println<D: Display + Drop>(&self, _: D) -> Result<()> {
        Err(Error::from(ErrorKind::StorageFull))
    }

    fn write_all(&self, _: &[u8]) -> Result<()> {
        Err(Error::from(ErrorKind::StorageFull))
    }

    fn write_some(&self, _: &[u8]) -> Result<usize> {
        Err(Error::from(ErrorKind::StorageFull))
    }
}

#[test]
fn lines_are_read_whole(rt: HostRuntime) {
    let bytes = input();
    let mut reader = Reader::new(bytes.as_slice());
    let mut line = Vec::new(rt.alloc());
    for (at, length) in LENGTHS.iter().enumerate() {
        match reader.read_line(&rt, &mut line) {
            Ok(Some(End::Newline)) => assert!(rt; at < 3, "line {at}"),
            Ok(Some(End::Input)) => assert_eq!(rt; at, 3),
            _ => assert!(rt; false, "line {at}"),
        }
        assert_eq!(rt; line.len(), *length, "line {at}");
        assert!(rt; line.iter().all(|b| *b == b'c'), "line {at}");
    }
    assert!(rt; matches!(reader.read_line(&rt, &mut line), Ok(None)));
    assert!(rt; line.is_empty());
}

#[test]
fn lines_are_handed_on_whole(rt: HostRuntime) {
    let bytes = input();
    let mut handed = Handed::none();
    let done = run(
        &rt,
        &mut Reader::new(bytes.as_slice()),
        &mut |line| { Some(handed.hand(line, false)) },
    );
    assert!(rt; done.is_ok());
    assert_eq!(rt; handed.count, 4);
    assert_eq!(rt; handed.lengths, LENGTHS);
}

#[test]
fn lines_are_handed_on_cut(rt: HostRuntime) {
    let bytes = input();
    let mut handed = Handed::none();
    let done = run_cut(
        &rt,
        &mut Reader::new(bytes.as_slice()),
        &mut Line::<5>::new(),
        &mut |line| { Some(handed.hand(line, false)) },
    );
    assert!(rt; done.is_ok());
    assert_eq!(rt; handed.count, 4);
    assert_eq!(rt; handed.lengths, [2, 0, 5, 3]);
}

#[test]
fn a_line_stops_a_run(rt: HostRuntime) {
    let bytes = input();
    let mut whole = Handed::none();
    let done = run(
        &rt,
        &mut Reader::new(bytes.as_slice()),
        &mut |line| { Some(whole.hand(line, true)) },
    );
    assert!(rt; matches!(done, Err(Stop::OutOfMemory)));
    assert_eq!(rt; whole.count, 2);
    let mut cut = Handed::none();
    let done = run_cut(
        &rt,
        &mut Reader::new(bytes.as_slice()),
        &mut Line::<5>::new(),
        &mut |line| { Some(cut.hand(line, true)) },
    );
    assert!(rt; matches!(done, Err(Stop::OutOfMemory)));
    assert_eq!(rt; cut.count, 2);
}

#[test]
fn a_lack_of_memory_is_a_failure(rt: HostRuntime) -> std::result::Result<(), Fail> {
    for (stop, status) in [
        (None, "ExitCode(unix_exit_status(0))"),
        (
            Some(Stop::Output(Error::from(ErrorKind::StorageFull))),
            "ExitCode(unix_exit_status(0))",
        ),
        (
            Some(Stop::from(AllocError)),
            "ExitCode(unix_exit_status(1))",
        ),
    ] {
        let code = ended(&rt, stop.map_or(Ok(()), Err));
        let shown = format!(in rt.alloc(); "{code:?}")?;
        assert_eq!(rt; shown.as_str(), status);
    }
    Ok(())
}

#[test]
fn a_line_that_was_not_written_is_told(rt: HostRuntime) {
    let mut line = Line::<5>::new();
    line.put(b"ab");
    assert!(rt; matches!(line.print(&Full), Err(Stop::Output(_))));
    assert!(rt; matches!(print(&Full, b"ab"), Err(Stop::Output(_))));
}
