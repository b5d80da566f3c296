// The frames of some bytes, lowest first, each with whether its check is right. Checks are made ahead of their frames' turn, in four lanes
// where three frames or more are left, one by one where one or two are.
#![tactic(auto)]

ghost use Rattle.std.specs.Prelude.{◌≡◌, ◌<◌, length, map};
ghost use Rattle.std.specs.Array.Iter.{array_into_iter_items};
ghost use Rattle.std.specs.Iterator.{YieldsFirstBy, item_count};
ghost use Rattle.sha256.specs.Fips.{sha256};
ghost use Rattle.apollo.specs.Frame as Frame;
ghost use Rattle.apollo.specs.Frame.{frames_of};
ghost use Rattle.frame_checks.specs.Ahead.{checks_of, Known, with_check, given};

use apollo::size::{CHECK, FRAME};
use std::array::IntoIter;

// Whether the checks of four frames are right.
fn check_four(x: [&[u8; FRAME]; 4]) -> [bool; 4]
    ensures { result ≡ map (λ x. Frame.checked sha256 x.now) x.entry }
{
    let d = lanes::digest4(x.map(|frame| &frame[..CHECK])).0;
    std::array::from_fn(|i| frame_forms::has_check(x[i], d[i]))
}

// The first four frames: whether each is there and its check is right. Of three frames the first stands in the fourth lane too.
fn check_ahead(frames: &[[u8; FRAME]]) -> [bool; 4]
    ensures { result ≡ checks_of frames.now }
{
    match frames {
        [] => [false; 4],
        [a] => [frame_forms::checked(a), false, false, false],
        [a, b] => [
            frame_forms::checked(a),
            frame_forms::checked(b),
            false,
            false,
        ],
        [a, b, c] => {
            let [first, second, third, _] = check_four([a, b, c, a]);
            [first, second, third, false]
        }
        [a, b, c, d, ..] => check_four([a, b, c, d]),
    }
}

// The frames that are left, and the checks of the first of them that are made.
#[derive(Drop)]
pub struct Checked<'a> {
    frames: &'a [[u8; FRAME]],
    ahead: IntoIter<bool, 4>,
    ghost right: { Known (array_into_iter_items ahead) frames.now },
}

impl<'a> Checked<'a> {
    // All whole frames.
    pub fn new(bytes: &'a [u8]) -> Self
        ensures { result.frames.now ≡ frames_of bytes.now }
    {
        let frames = bytes.as_chunks::<FRAME>().0;
        Checked {
            frames,
            ahead: check_ahead(frames).into_iter(),
        }
    }

    // The check of the first frame is made where it is not yet, with those of the three behind it.
    fn look_ahead(&mut self)
        ensures { (self.new.frames.now ≡ self.old.frames.now) × (0 < length (array_into_iter_items self.new.ahead)) }
    {
        if self.ahead.len() == 0 {
            self.ahead = check_ahead(self.frames).into_iter();
        }
    }
}

impl<'a> Iterator for Checked<'a> {
    type Item = (&'a [u8; FRAME], bool);

    ghost next_gives = { YieldsFirstBy given (λ s. map with_check s.frames.now) };

    ghost remaining = { item_count (λ s. map with_check s.frames.now) };

    fn next(&mut self) -> Option<(&'a [u8; FRAME], bool)> {
        let (x, rest) = self.frames.split_first()?;
        self.look_ahead();
        let checked = self.ahead.next().unwrap();
        self.frames = rest;
        Some((x, checked))
    }
}
