// The frames that were sent.
use apollo::size::{FRAME, OUT};

// A replica emits at most a blame and a block for each of the 6 rounds, so there is room for all.
const ROOM: usize = 36;

// The frames sent so far, the oldest first. A replica's queue is what another sent of those that it is not past.
#[derive(Drop)]
pub struct Sent {
    frames: [[u8; FRAME]; ROOM],
    count: usize,
}

impl Sent {
    pub fn none() -> Self {
        Sent {
            frames: [[0; FRAME]; ROOM],
            count: 0,
        }
    }

    fn push(&mut self, x: &[u8; FRAME]) {
        if let Some(slot) = self.frames.get_mut(self.count) {
            *slot = *x;
            self.count += 1;
        }
    }

    // The first frames of an out buffer are sent.
    pub fn send(&mut self, out: &[u8; OUT], count: u8) {
        for x in out.as_chunks::<FRAME>().0.iter().take(usize::from(count)) {
            self.push(x);
        }
    }

    // The oldest frame behind the first `past` that another replica than `id` signed, and how many frames lie before its end.
    pub fn oldest(&self, past: usize, id: u8) -> Option<(&[u8; FRAME], usize)> {
        let rest = self.frames.get(past..self.count)?;
        let skipped = rest.iter().position(|x| frame::signer(x) != id)?;
        Some((&rest[skipped], past + skipped + 1))
    }
}
