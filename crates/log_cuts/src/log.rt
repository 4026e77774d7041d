// A log as it is written: its start, and the entries so far.
ghost use Rattle.std.specs.Prelude.{◌≤◌};

use log_writer::{put_entry, put_start};

// How many bytes a log here has at most.
const MOST: usize = 512;

#[derive(Clone, Copy, PartialEq, Eq)]
pub struct Log {
    bytes: [u8; MOST],
    len: usize,
    ghost in_bounds: { len ≤ 512 },
}

impl Log {
    // With no entry.
    pub fn new() -> Log {
        let mut bytes = [0; MOST];
        let len = put_start(&mut bytes).unwrap_or(0);
        Log { bytes, len }
    }

    // One entry more; none where it is refused.
    pub fn push(&mut self, seconds: u32, frame: &[u8]) {
        self.len += put_entry(seconds, frame, &mut self.bytes[self.len..]).unwrap_or(0);
    }

    pub fn as_slice(&self) -> &[u8] {
        &self.bytes[..self.len]
    }
}
