// The lines of the results.
ghost use Rattle.std.specs.Prelude.{◌≢◌, Err};

use apollo::{Answer, Fetched, Marked, Replica};
use text::{Line, Stop};

// Bytes in hex, two digits each, of which there are N.
fn digits<const N: usize>(bytes: &[u8]) -> [u8; N] {
    let mut digits = [b'0'; N];
    let _ = hex::encode_to_slice(bytes, &mut digits);
    digits
}

// Prints numbers and a digest.
fn row(rt: &impl Print, ns: &[u64], digest: [u8; 32]) -> Result<(), Stop>
    ensures { result ≢ Err Stop.OutOfMemory }
{
    let mut line = Line::<256>::new();
    line.put_row(ns, b" ");
    line.put(&digits::<64>(&digest));
    line.put(b"\n");
    line.print(rt)
}

// Prints the digest of some bytes.
pub fn digest(rt: &impl Print, bytes: &[u8]) -> Result<(), Stop>
    ensures { result ≢ Err Stop.OutOfMemory }
{
    let mut line = Line::<65>::new();
    line.put(&digits::<64>(&sha256::digest(bytes)));
    line.put(b"\n");
    line.print(rt)
}

// The digest of the lent log, the lent masks, the higher byte of each first, and the lent out buffer.
fn lent_digest(log: &[u8], masks: &[u16], out: &[u8]) -> [u8; 32] {
    let mut image = Line::<10770>::new();
    image.put(log);
    for mask in masks {
        image.put(&mask.to_be_bytes());
    }
    image.put(out);
    sha256::digest(image.written())
}

// Puts a record: its numbers, its rotation in hex, its marks.
fn put_record(line: &mut Line<256>, r: &Replica) {
    let own = [
        u64::from(r.id),
        u64::from(r.f),
        u64::from(r.timeout.0),
        u64::from(r.last_round.0),
        u64::from(r.round.0),
        u64::from(r.timer.0),
        u64::from(r.tip_round.0),
        u64::from(r.tip_height.0),
        u64::from(r.committed_round.0),
        u64::from(r.committed_height.0),
    ];
    line.put_row(&own, b" ");
    line.put(&digits::<30>(&r.rotation));
    line.put(b" ");
    line.put_row(&[u64::from(r.equivocators)], b"");
}

// Prints an answer, and the digest of what was lent.
pub fn answer(rt: &impl Print, x: Answer, log: &[u8], masks: &[u16], out: &[u8]) -> Result<(), Stop>
    ensures { result ≢ Err Stop.OutOfMemory }
{
    let ns = [
        u64::from(x.number),
        u64::from(x.place),
        u64::from(x.frames),
        u64::from(x.leader),
    ];
    let mut line = Line::<256>::new();
    line.put_row(&ns, b" ");
    put_record(&mut line, &x.replica);
    line.put(b" ");
    line.put(&digits::<64>(&lent_digest(log, masks, out)));
    line.put(b"\n");
    line.print(rt)
}

// Prints the answer of an equivocation, for which no buffer is lent to write to.
pub fn marked(rt: &impl Print, x: Marked) -> Result<(), Stop>
    ensures { result ≢ Err Stop.OutOfMemory }
{
    let mut line = Line::<256>::new();
    line.put_row(&[u64::from(x.number), u64::from(x.place)], b" ");
    put_record(&mut line, &x.replica);
    line.put(b"\n");
    line.print(rt)
}

// Prints the answer of a read and the digest of the lent log.
pub fn entry(rt: &impl Print, number: u8, start: usize, size: usize, log: &[u8]) -> Result<(), Stop>
    ensures { result ≢ Err Stop.OutOfMemory }
{
    row(
        rt,
        &[u64::from(number), start as u64, size as u64],
        sha256::digest(log),
    )
}

// Prints the answer of a fetch and the digest of what was lent.
pub fn fetched(rt: &impl Print, x: Fetched, log: &[u8], out: &[u8]) -> Result<(), Stop>
    ensures { result ≢ Err Stop.OutOfMemory }
{
    row(
        rt,
        &[u64::from(x.number), x.count as u64],
        lent_digest(log, &[], out),
    )
}
