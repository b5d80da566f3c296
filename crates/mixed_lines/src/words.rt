// The words of a line, with a space between any two, read as its bytes come: a line may have any length.
ghost use Rattle.std.specs.Prelude.{◌≡◌, ◌≢◌, ◌+◌, ◌*◌, ◌≤◌, ◌<◌, ◌++◌, length, Option, IsSome, IfSome, OnSome, replicate};
ghost use Rattle.std.specs.Io.KnownBytes.{Consumes};
ghost use Rattle.text.specs.Reading.{to_come, ending};
ghost use Rattle.text.specs.declared.stdin.End.{End as LineEnd};
ghost use Rattle.mixed_lines.specs.Taken.{taken_by, OfLine};

use arrayvec::ArrayVec;
use std::io::Read;
use std::mem;
use text::{End, Reader};

// Those that are still to be read, and whence.
#[derive(Drop)]
pub struct Words<'a, R, P> {
    rt: &'a P,
    pub reader: Reader<R>,
    is_begun: bool, // a byte of the line was read
    pub end: Option<End>, // what ended the line
}

impl<'a, R: Read, P: Eprint> Words<'a, R, P> {
    pub fn of(rt: &'a P, reader: Reader<R>) -> Self
        ensures reader { result.reader ≡ reader }
        ensures at_start { result.end ≡ None }
    {
        Words {
            rt,
            reader,
            is_begun: false,
            end: None,
        }
    }

    // The next byte of a word, none where it ends: at a space, or with the line, behind which nothing is read.
    fn byte(&mut self) -> Option<u8>
        ensures in_word { IfSome result (λ b. (b ≢ 10) × (b ≢ 32)) }
        ensures in_line { IsSome self.old.end → (result ≡ None) × (self.new ≡ self.old) }
        ensures bytes { self.old.end ≡ None → Consumes (to_come self.old.reader.piece (R.remaining self.old.reader.from))
            (to_come self.new.reader.piece (R.remaining self.new.reader.from)) (taken_by self.new.end result) }
    {
        if self.end.is_some() {
            return None;
        }
        let next = self.reader.next(self.rt);
        self.is_begun = self.is_begun || next.is_some();
        match next {
            Some(b' ') => None,
            Some(b'\n') => self.ended(End::Newline),
            None => self.ended(End::Input),
            b => b,
        }
    }

    // The line has ended.
    fn ended(&mut self, end: End) -> Option<u8>
        ensures none { result ≡ None }
        ensures end { self.new.end ≡ Some end }
        ensures reader { self.new.reader ≡ self.old.reader }
    {
        self.end = Some(end);
        None
    }

    // The word has no byte left.
    fn word_end(&mut self) -> Option<()> {
        self.byte().is_none().then_some(())
    }

    // A word of one byte.
    pub(crate) fn letter(&mut self) -> Option<u8> {
        let letter = self.byte()?;
        self.word_end()?;
        Some(letter)
    }

    // No word is left.
    pub(crate) fn end(&self) -> Option<()>
        ensures { OnSome result (IsSome self.now.end) }
    {
        self.end.is_some().then_some(())
    }

    // Reads the rest of the line and answers what ended it, none where the input had no byte left for it. The next line comes then.
    pub fn rest(&mut self) -> Option<End>
        ensures within { (end : Option LineEnd) × OfLine (to_come self.old.reader.piece (R.remaining self.old.reader.from))
            (to_come self.new.reader.piece (R.remaining self.new.reader.from)) end }
        ensures whole { self.old.end ≡ None → IfSome result (λ end.
            OfLine (to_come self.old.reader.piece (R.remaining self.old.reader.from))
            (to_come self.new.reader.piece (R.remaining self.new.reader.from)) (Some end)) }
    {
        for _ in 0..u64::MAX {
            if let Some(end) = self.end {
                return self.turn(end);
            }
            let _ = self.byte();
        }
        None
    }

    // The next line comes, unless the input has ended.
    fn turn(&mut self, end: End) -> Option<End>
        ensures reader { self.new.reader ≡ self.old.reader }
        ensures ending { ending result ≡ ending (Some end) }
    {
        let is_line = mem::take(&mut self.is_begun);
        if let End::Input = end {
            return is_line.then_some(end);
        }
        self.end = None;
        Some(end)
    }

    // A number in decimal, with no sign.
    pub(crate) fn number<T: TryFrom<u64>>(&mut self) -> Option<T>
    where
        T::Error: Drop,
    {
        let first = self.byte()?;
        let mut n = with_digit(0, first)?;
        for _ in 0..u64::MAX {
            match self.byte() {
                Some(b) => n = with_digit(n, b)?,
                None => return n.try_into().ok(),
            }
        }
        None
    }

    // A number that is at most this.
    pub(crate) fn size(&mut self, most: usize) -> Option<usize>
        ensures { IfSome result (λ n. n ≤ most) }
    {
        self.number().filter(|n| *n <= most)
    }

    // A word of bytes, which are put into a buffer that they have to fit: `-` for none, else pieces.
    pub(crate) fn bytes<'b, const N: usize>(
        &mut self,
        to: &'b mut ArrayVec<u8, N>,
    ) -> Option<&'b [u8]>
        ensures { IfSome result (λ bytes. length bytes.now ≤ N) }
    {
        to.clear();
        match self.byte()? {
            b'-' => self.word_end()?,
            first => self.put_pieces(to, first)?,
        }
        Some(to.as_slice())
    }

    // Puts the pieces of a word whose first byte was read.
    fn put_pieces<const N: usize>(&mut self, to: &mut ArrayVec<u8, N>, first: u8) -> Option<()> {
        let mut next = Some(first);
        for _ in 0..u64::MAX {
            let Some(b) = next else {
                return Some(());
            };
            self.put_piece(to, b)?;
            next = self.byte();
        }
        None
    }

    // Puts a piece whose first byte was read: two hex digits for a byte, with `xN.` before them for N such bytes.
    fn put_piece<const N: usize>(&mut self, to: &mut ArrayVec<u8, N>, first: u8) -> Option<()> {
        let count = if first == b'x' { self.count()? } else { 1 };
        let high = if first == b'x' { self.byte()? } else { first };
        let low = self.byte()?;
        put_times(to, hex_digit(high)? * 16 + hex_digit(low)?, count)
    }

    // A number above 0 with a point behind it.
    fn count(&mut self) -> Option<u64>
        ensures { IfSome result (λ n. 0 < n) }
    {
        let mut n = 0;
        for _ in 0..u64::MAX {
            match self.byte()? {
                b'.' => return (0 < n).then_some(n),
                b => n = with_digit(n, b)?,
            }
        }
        None
    }
}

// A number with a decimal digit more, none where it has more than 64 bits.
fn with_digit(n: u64, b: u8) -> Option<u64>
    ensures value { IfSome result (λ m. m + 48 ≡ 10 * n + b) }
    ensures digit { OnSome result ((48 ≤ b) × (b < 58)) }
{
    match b {
        b'0'..=b'9' => n.checked_mul(10)?.checked_add(u64::from(b - b'0')),
        _ => None,
    }
}

// Puts a byte so many times.
fn put_times<const N: usize>(to: &mut ArrayVec<u8, N>, b: u8, count: u64) -> Option<()>
    ensures { OnSome result (to.new.items ≡ to.old.items ++ replicate count b) }
{
    for _ in 0..count {
        to.try_push(b).ok()?;
    }
    Some(())
}

// By hand: that a letter behind f is no digit is a fact of this function (see must-fail). By `hex`, behind a test for capital
// letters, which no line may have, it would be one of the library's.
fn hex_digit(b: u8) -> Option<u8>
    ensures { IfSome result (λ d. d < 16) }
{
    match b {
        b'0'..=b'9' => Some(b - b'0'),
        b'a'..=b'f' => Some(b - b'a' + 10),
        _ => None,
    }
}
