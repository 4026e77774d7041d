// The writer of a kit log: its start, and one entry, each all or nothing at the front of the buffer. A log is a start and then entries, each put behind
// the one before.
#![tactic(auto)]

ghost use Rattle.std.specs.Prelude.{◌≡◌};
ghost use Rattle.writing.specs.Writing.{written_row, write_of};
ghost use Rattle.log_writer.specs.Writer.{start_image, entry_image};

use base::{copy_in, fits};
use refusals::Refusal;
use stream::LIMIT;
use valid::is_valid;

// The start of a log: the number 1.
pub fn put_start(out: &mut [u8]) -> Result<usize, Refusal>
    ensures { (written_row result, out.new) ≡ write_of start_image out.old }
{
    groups::put(1, out, 0)
}

// One entry: the seconds since the entry before, the length of the frame, and the frame, which is one whole valid frame.
#[tactic(auto, using(crate::proofs::Frames::as_tested, crate::proofs::Writes::entry_refused, crate::proofs::Writes::entry_short, crate::proofs::Writes::room, crate::proofs::Writes::few))]
pub fn put_entry(seconds: u32, frame: &[u8], out: &mut [u8]) -> Result<usize, Refusal>
    ensures { (written_row result, out.new) ≡ write_of (entry_image seconds frame.now) out.old }
{
    if !is_valid(LIMIT, frame) {
        return Err(Refusal::InvalidFrame);
    }
    let n = frame.len();
    let since = u64::from(seconds);
    let length = n as u64;
    let behind = groups::size(since);
    let head = behind + groups::size(length);
    if !fits(out.len(), head, n) {
        return Err(Refusal::BufferOverflow);
    }
    // there is room, so neither is refused
    let _ = groups::put(since, out, 0);
    let _ = groups::put(length, out, behind);
    copy_in(out, head, frame, n);
    Ok(head + n)
}
