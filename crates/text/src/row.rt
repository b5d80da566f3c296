// A row of numbers put into a lent line.
ghost use Rattle.std.specs.Prelude.{◌≡◌, ◌≤◌, length};
ghost use Rattle.text.specs.Row.{written, put, put_number, put_row};

use itoa::Buffer;

// Puts s into line at a place, if it fits, and answers the place after it, never one past the end.
pub fn put_bytes(line: &mut [u8], at: usize, s: &[u8]) -> usize
    ensures written { written line.new result ≡ put (written line.old at) s.now }
    ensures within { result ≤ length line.new }
{
    if line.len() < at {
        return line.len();
    }
    if line.len() - at < s.len() {
        return at;
    }
    let end = at + s.len();
    line[at..end].copy_from_slice(s);
    end
}

// Puts number i of a row, with a space before it unless it is the first.
fn put_number(line: &mut [u8], at: usize, i: usize, n: u64) -> usize
    ensures { written line.new result ≡ put_number (written line.old at) i n }
{
    let mut buffer = Buffer::new();
    let digits = buffer.format(n).as_bytes();
    let e = put_bytes(line, at, &b" "[..i.min(1)]);
    put_bytes(line, e, digits)
}

// Puts the numbers in decimal, a space between any two, and then s. Answers the place after them. A piece that does not
// fit is left out.
pub fn put_row(line: &mut [u8], at: usize, ns: &[u64], s: &[u8]) -> usize
    ensures written { written line.new result ≡ put_row (written line.old at) ns.now s.now }
    ensures within { result ≤ length line.new }
{
    let mut e = at;
    for (i, n) in ns.iter().enumerate() {
        e = put_number(line, e, i, *n);
    }
    put_bytes(line, e, s)
}
