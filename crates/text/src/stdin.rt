// The lines of standard input.
ghost use Rattle.std.specs.Prelude.{◌≡◌, ◌≢◌, ◌<◌, [], ◌∷◌, ◌++◌, take, All, IfOk};
ghost use Rattle.std.specs.Option.{option_to_list};
ghost use Rattle.std.specs.Io.KnownBytes.{Consumes};
ghost use Rattle.text.specs.Reading.{taken, behind, unread, Next, to_come, ending, Cut};
ghost use Rattle.text.specs.Fitted.{bytes_of};

use crate::stdout::Line;
use std::alloc::AllocError;
use std::io::{Error, Read};

// What was read last: of these bytes, those from `at` up to `end` are still to come. A piece of its own, since std's BufReader
// promises no byte of a reader whose bytes are not known, as `Next` does.
#[derive(Clone, Copy)]
pub struct Piece {
    pub bytes: [u8; 4096],
    pub at: usize,
    pub end: usize,
}

impl Piece {
    // The next byte, if one is left.
    #[tactic(auto, unfolding(crate::specs::Reading::taken))]
    fn take(&mut self) -> Option<u8>
        ensures byte { result ≡ taken self.old }
        ensures rest { self.new ≡ behind self.old }
    {
        if self.end <= self.at {
            return None;
        }
        let b = self.bytes.get(self.at).copied()?;
        self.at += 1;
        Some(b)
    }
}

// What ended a line.
#[derive(Clone, Copy)]
pub enum End {
    Newline,
    Input, // the input ended
}

// A reader of standard input, which `from` reads.
#[derive(Clone, Drop)]
pub struct Reader<R> {
    pub from: R,
    pub piece: Piece,
}

impl<R: Read> Reader<R> {
    #[tactic(auto, unfolding(crate::specs::Reading::unread))]
    pub fn new(from: R) -> Self
        ensures from { result.from ≡ from }
        ensures nothing_read { unread result.piece ≡ [] }
    {
        Reader {
            from,
            piece: Piece {
                bytes: [0; 4096],
                at: 0,
                end: 0,
            },
        }
    }

    // Reads once into the whole piece, which ends where the bytes that came do. None came where the read fails.
    fn fill(&mut self) -> Result<(), Error>
        ensures at { self.new.piece.at ≡ self.old.piece.at }
        ensures bytes { Consumes (R.remaining self.old.from) (R.remaining self.new.from)
            (take self.new.piece.end self.new.piece.bytes) }
    {
        self.piece.end = 0;
        self.piece.end = self.from.read(&mut self.piece.bytes)?;
        Ok(())
    }

    // The next byte, unless the input has ended. Reads where none is left of the piece; a read that fails is told, and ends
    // the input.
    pub fn next(&mut self, rt: &impl Eprint) -> Option<u8>
        ensures step { Next self.old.piece self.new.piece result }
        ensures bytes { Consumes (to_come self.old.piece (R.remaining self.old.from)) (to_come self.new.piece (R.remaining self.new.from))
            (option_to_list result) }
    {
        if self.piece.end <= self.piece.at {
            self.piece.at = 0;
            self.fill().unwrap_or_else(|e| {
                let _ = eprintln!(rt; "standard input: {e}");
            });
        }
        self.piece.take()
    }

    // Reads the next line, without its end, and answers what ended it, or None where the input had no byte left for a line. Nothing
    // says that the input or a line ends, so the bytes are counted, up to a number that no run uses up.
    pub fn read_line(
        &mut self,
        rt: &impl Eprint,
        line: &mut Vec<u8>,
    ) -> Result<Option<End>, AllocError>
        ensures bytes { IfOk result (λ end. Consumes (to_come self.old.piece (R.remaining self.old.from))
            (to_come self.new.piece (R.remaining self.new.from)) (line.new.items ++ ending end)) }
        ensures one { All (λ b. b ≢ 10) line.new.items }
        ensures none { result ≡ Ok None → line.new.items ≡ [] }
        ensures last { result ≡ Ok (Some End.Input) → line.new.items ≢ [] }
    {
        line.clear();
        for _ in 0..u64::MAX {
            match self.next(rt) {
                None => break,
                Some(b'\n') => return Ok(Some(End::Newline)),
                Some(b) => line.push(b)?,
            }
        }
        Ok((!line.is_empty()).then_some(End::Input))
    }

    // Reads the next line, without its end, of which it keeps the first N bytes, and answers what ended it, or None where the input had
    // no byte left for a line. Nothing says that the input or a line ends, so the bytes are counted, up to a number that no run uses up.
    pub fn read_cut<const N: usize>(&mut self, rt: &impl Eprint, line: &mut Line<N>) -> Option<End>
        ensures bytes { Cut N (to_come self.old.piece (R.remaining self.old.from)) (to_come self.new.piece (R.remaining self.new.from))
            (bytes_of line.new) result }
        ensures one { All (λ b. b ≢ 10) (bytes_of line.new) }
        ensures none { result ≡ None → bytes_of line.new ≡ [] }
        ensures last { result ≡ Some End.Input → 0 < N → bytes_of line.new ≢ [] }
    {
        line.end = 0;
        for count in 0..u64::MAX {
            match self.next(rt) {
                None => return (0 < count).then_some(End::Input),
                Some(b'\n') => return Some(End::Newline),
                Some(b) => line.put(&[b]),
            }
        }
        Some(End::Input)
    }
}

// Tells that a line of the input is no command.
pub fn no_command(rt: &impl Eprint, number: u64) {
    let _ = eprintln!(rt; "line {number}: no command");
}
