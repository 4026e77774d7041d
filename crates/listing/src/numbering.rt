// What stands before the lines: nothing, or the position where each answer began, and a space. A numbering is the position where the next answer begins,
// and none where lines have none.
ghost use Rattle.std.specs.Prelude.{◌≡◌, ◌+◌, ◌-◌, ◌≤◌, length};
ghost use Rattle.lines.specs.Lines.{longest};
ghost use Rattle.lines.specs.Put.{Puts};
ghost use Rattle.listing.specs.Numbering.{lead, room_for, is_countable, Reaches, moved_on};

use lines::line::{LONGEST, LONGEST_POSITION, put_position};
use numbered::is_within;

// The longest line, with what stands before it.
pub(crate) fn room_for(numbering: Option<u64>) -> usize
    ensures { result ≡ room_for numbering }
{
    match numbering {
        None => LONGEST,
        Some(_) => LONGEST_POSITION + LONGEST,
    }
}

// Whether all bytes can be numbered that are held or offered.
pub(crate) fn is_countable(numbering: Option<u64>, held: usize, input: usize) -> bool
    ensures { result ≡ is_countable numbering held input }
{
    match numbering {
        None => true,
        Some(position) => is_within(position, held, input),
    }
}

// The numbering once some bytes were held and some taken, and as many as are not left were dropped.
pub(crate) fn moved_on(
    numbering: Option<u64>,
    held: usize,
    taken: usize,
    left: usize,
) -> Option<u64>
    requires { Reaches numbering held taken left }
    ensures { result ≡ moved_on numbering (held + taken - left) }
{
    let position = numbering?;
    Some(position + held as u64 + taken as u64 - left as u64)
}

// What stands before a line, where there is room for the longest.
pub(crate) fn put_lead(numbering: Option<u64>, out: &mut [u8], at: usize) -> usize
    requires { at + room_for numbering ≤ length out.old }
    ensures { (Puts out.old at (lead numbering) out.new result) × (result + longest ≤ at + room_for numbering) }
{
    match numbering {
        None => at,
        Some(position) => put_position(position, out, at),
    }
}
