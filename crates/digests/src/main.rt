// Prints the SHA-256 digest of sample messages, a line each: digest, two spaces, and the message's name. The last four are made at once.
// The file stdout beside src/ has what coreutils' sha256sum makes of the same messages: see tools/expected-digests.
#![tactic(auto)]

use std::fmt;

// A digest, in hex. The library's `hex` would want an allocator, or a buffer that is then read as text.
#[derive(Clone, Copy)]
struct Hex([u8; 32]);

impl fmt::Display for Hex {
    fn fmt<W: fmt::Write>(&self, f: &mut fmt::Formatter<W>) -> fmt::Result {
        for b in &self.0 {
            write!(f, "{b:02x}")?;
        }
        Ok(())
    }
}

// A line for the digest d of the message with the name NAME and the number n behind it. One that cannot be written is passed
// over.
fn show_digest(rt: &impl Print, d: [u8; 32], name: &str, n: usize) {
    let _ = println!(rt; "{}  {name}{n}", Hex(d));
}

// A line for the message s.
fn show(rt: &impl Print, s: &[u8], name: &str, n: usize) {
    show_digest(rt, sha256::digest(s), name, n);
}

// Handed on as a slice, so that no proof counts its elements.
fn show_million(rt: &impl Print, s: &[u8; 1000000]) {
    show(rt, s, "letters-a-", 1000000);
}

// A million letters.
fn show_letters(rt: &impl Print) {
    show_million(rt, &[b'a'; 1000000]);
}

// Byte i of the pattern is 167 i + 13 modulo 256.
fn pattern() -> [u8; 200] {
    std::array::from_fn(|i| ((i * 167 + 13) % 256) as u8)
}

fn show_pattern(rt: &impl Print, s: &[u8]) {
    show(rt, s, "pattern-", s.len());
}

// A line for each beginning of p, the empty one and p itself included.
fn show_beginnings(rt: &impl Print, p: &[u8]) {
    for n in 0..=p.len() {
        show_pattern(rt, &p[..n]);
    }
}

// Byte i of frame k is 167 i + 3 k + 13 modulo 256.
fn frame(k: u8) -> [u8; 512] {
    std::array::from_fn(|i| ((i * 167 + usize::from(k) * 3 + 13) % 256) as u8)
}

// A line for the first 480 bytes of each of four frames, by the four lanes.
fn show_frames(rt: &impl Print) {
    let frames = [0, 1, 2, 3].map(frame);
    let four = lanes::digest4(frames.each_ref().map(|frame| &frame[..480]));
    for (k, d) in four.0.iter().enumerate() {
        show_digest(rt, *d, "frame-", k);
    }
}

fn main(rt: HostRuntime) {
    show(&rt, b"abc", "bits-", 24);
    show(
        &rt,
        b"abcdbcdecdefdefgefghfghighijhijkijkljklmklmnlmnomnopnopq",
        "bits-",
        448,
    );
    show(
        &rt,
        b"abcdefghbcdefghicdefghijdefghijkefghijklfghijklmghijklmnhijklmnoijklmnopjklmnopqklmnopqrlmnopqrsmnopqrstnopqrstu",
        "bits-",
        896,
    );
    show(&rt, b"", "bits-", 0);
    show_letters(&rt);
    show_beginnings(&rt, &pattern());
    show_frames(&rt);
}
