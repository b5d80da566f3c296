// One frame judged in place: its check, its form, a block's or a blame's, and 7 and 8 by these. Every function takes slices of any length.
#![tactic(auto)]

ghost use Rattle.std.specs.Prelude.{◌≡◌};
ghost use Rattle.apollo.specs.Bytes as Bytes;
ghost use Rattle.apollo.specs.Frame as Frame;
ghost use Rattle.apollo.specs.Judging.{fault};
ghost use Rattle.apollo.specs.Refused.{refusal_of};
ghost use Rattle.sha256.specs.Fips.{sha256};
ghost use Rattle.frame_forms.specs.Forms.{form_of};

use apollo::size::{CHECK, ENTRY};
use apollo::{Kind, Refusal, Setup};

fn within(lo: u32, n: u32, hi: u32) -> bool
    ensures { result ≡ Bytes.within lo n hi }
{
    (lo..=hi).contains(&n)
}

// The check of x is d.
pub fn has_check(x: &[u8], d: [u8; 32]) -> bool
    ensures { result ≡ Bytes.same (Frame.digest x.now) d }
{
    slices::same_bytes(slices::part(x, CHECK, 32), &d)
}

// The check of x is right.
#[tactic(auto, unfolding(apollo::specs::Frame::checked))]
pub fn checked(x: &[u8]) -> bool
    ensures { result ≡ Frame.checked sha256 x.now }
{
    has_check(x, sha256::digest(slices::part(x, 0, CHECK)))
}

// x has the form of a block.
#[tactic(auto, unfolding(apollo::specs::Frame::block_form))]
pub fn block_form(s: Setup, x: &[u8]) -> bool
    ensures { result ≡ Frame.block_form s x.now }
{
    let r = frame::round(x);
    let n = frame::entry_length(x);
    if !frame::is_kind(x, Kind::Block) {
        return false;
    }
    if frame::signer(x) != rotation::leader(s, r) {
        return false;
    }
    if ENTRY < n {
        return false;
    }
    if !within(1, r, s.last_round.0) {
        return false;
    }
    if !within(1, frame::height(x), r) {
        return false;
    }
    slices::is_blank(x, 44 + n, CHECK)
}

// x has the form of a blame.
#[tactic(auto, unfolding(apollo::specs::Frame::blame_form))]
pub fn blame_form(s: Setup, x: &[u8]) -> bool
    ensures { result ≡ Frame.blame_form s x.now }
{
    if !frame::is_kind(x, Kind::Blame) {
        return false;
    }
    if 2 * u32::from(s.f) + 1 <= u32::from(frame::signer(x)) {
        return false;
    }
    if !slices::is_blank(x, 2, 4) {
        return false;
    }
    if !within(1, frame::round(x), s.last_round.0) {
        return false;
    }
    slices::is_blank(x, 8, CHECK)
}

// x has the form of that kind. By the kind: a test as a parameter would have to be named in two ways, in the code and in the clause.
fn has_form(kind: Kind, s: Setup, x: &[u8]) -> bool
    ensures { result ≡ form_of kind s x.now }
{
    match kind {
        Kind::Block => block_form(s, x),
        Kind::Blame => blame_form(s, x),
    }
}

// 7 and 8 of a frame that is to have the form of that kind. `checked`: its check is right.
#[inline(always)]
#[tactic(auto, unfolding(apollo::specs::Judging::fault))]
pub fn fault_known(kind: Kind, s: Setup, x: &[u8], checked: bool) -> Result<(), Refusal>
    requires { checked ≡ Frame.checked sha256 x.now }
    ensures { refusal_of result ≡ fault sha256 (form_of kind s) x.now }
{
    if !checked {
        return Err(Refusal::BadDigest);
    }
    if !has_form(kind, s, x) {
        return Err(Refusal::BadForm);
    }
    Ok(())
}

// The same of a frame whose check is not known.
pub fn fault(kind: Kind, s: Setup, x: &[u8]) -> Result<(), Refusal>
    ensures { refusal_of result ≡ fault sha256 (form_of kind s) x.now }
{
    fault_known(kind, s, x, checked(x))
}
