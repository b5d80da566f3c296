// What no clause says: which task a line asks for, and which lines are none of the list; that a result that could not be written is told.
use crate::input::{Bytes, Call, Change, Task};
use crate::{input, print};
use apollo::{Answer, Fetched, Marked, Replica};
use std::fmt::Display;
use std::io::{Error, ErrorKind, Result};
use text::Stop;

// Nothing can be written to it.
struct Full;

impl Print for Full {
    fn print<D: Display + Drop>(&self, _: D) -> Result<()> {
        Err(Error::from(ErrorKind::StorageFull))
    }

    fn println<D: Display + Drop>(&self, _: D) -> Result<()> {
        Err(Error::from(ErrorKind::StorageFull))
    }

    fn write_all(&self, _: &[u8]) -> Result<()> {
        Err(Error::from(ErrorKind::StorageFull))
    }

    fn write_some(&self, _: &[u8]) -> Result<usize> {
        Err(Error::from(ErrorKind::StorageFull))
    }
}

#[test]
fn a_line_is_parsed(rt: HostRuntime) {
    let mut bytes = Bytes::default();
    assert!(rt; matches!(input::parse(b"n", &mut bytes), Some(Task::Clear)));
    for (line, want) in [
        (b"h -".as_slice(), b"".as_slice()),
        (b"h 61", b"a"),
        (b"h x3.6162", b"aaab"),
    ] {
        match input::parse(line, &mut bytes) {
            Some(Task::Digest(got)) => assert_eq!(rt; got, want),
            _ => assert!(rt; false, "no digest"),
        }
    }
    match input::parse(b"m 4 9 65535", &mut bytes) {
        Some(Task::Mask(seat, place, mask)) => {
            assert_eq!(rt; (seat.index, place.index, mask), (4, 8, 65535));
        }
        _ => assert!(rt; false, "no mask"),
    }
    match input::parse(b"q 0 4608 00000000000000000000007", &mut bytes) {
        Some(Task::Call(seat, Call::Read(log, height))) => {
            assert_eq!(rt; (seat.index, log.n, height.0), (0, 4608, 7));
        }
        _ => assert!(rt; false, "no read"),
    }
    match input::parse(b"t 2 512 1 528 ff", &mut bytes) {
        Some(Task::Call(seat, Call::Change(sizes, entry, Change::Tick))) => {
            assert_eq!(rt;
                (seat.index, sizes.log.n, sizes.masks.n, sizes.out.n),
                (2, 512, 1, 528)
            );
            assert_eq!(rt; entry, [255].as_slice());
        }
        _ => assert!(rt; false, "no tick"),
    }
}

#[test]
fn what_is_no_line_of_the_list(rt: HostRuntime) {
    let mut bytes = Bytes::default();
    for line in [
        b"".as_slice(),
        b" ",
        b"n ",
        b"n\n",
        b"n\nn",
        b"z",
        b"nn",
        b"h",
        b"h ",
        b"h 6",
        b"h 6A",
        b"h 61 ",
        b"h 61\n",
        b"h x0.61",
        b"h x.61",
        b"h x513.61",
        b"h \xc3\xa9",
        b"m 5 1 0",
        b"m 0 0 0",
        b"m 0 10 0",
        b"m 0 1 65536",
        b"m 0 1 +1",
        b"q 0 4609 7",
        b"q 0 1 4294967296",
        b"q 0 1 18446744073709551616",
    ] {
        assert!(rt; input::parse(line, &mut bytes).is_none());
    }
}

#[test]
fn a_result_that_was_not_written_is_told(rt: HostRuntime) {
    let replica = Replica::default();
    let answer = Answer {
        number: 0,
        frames: 0,
        leader: 0,
        place: 0,
        replica,
    };
    let marked = Marked {
        number: 0,
        place: 0,
        replica,
    };
    let fetched = Fetched {
        number: 0,
        count: 0,
    };
    let masks = [0_u16; 2];
    assert!(rt; matches!(print::digest(&Full, b"a"), Err(Stop::Output(_))));
    assert!(rt;
        matches!(
            print::answer(&Full, answer, b"", &masks, b""),
            Err(Stop::Output(_))
        )
    );
    assert!(rt; matches!(print::marked(&Full, marked), Err(Stop::Output(_))));
    assert!(rt; matches!(print::entry(&Full, 0, 16, 4, b""), Err(Stop::Output(_))));
    assert!(rt;
        matches!(
            print::fetched(&Full, fetched, b"", b""),
            Err(Stop::Output(_))
        )
    );
}
