// The lines of a comparison, at a place of a lent buffer that has room for them. Each function answers the place behind what it wrote.
ghost use Rattle.std.specs.Prelude.{◌++◌, ◌+◌, ◌≤◌, ◌<◌, length};
ghost use Rattle.reading.specs.Reading.{limit, first};
ghost use Rattle.lines.specs.Lines.{leading, line_end, held_line, longest};
ghost use Rattle.lines.specs.Put.{Puts};
ghost use Rattle.pairs.specs.Pairs.{side_of};
ghost use Rattle.pairs.specs.Comparison.{tail_word, bare, side_text, beside, last_line};
ghost use Rattle.comparing.specs.Next.{Finds};
ghost use Rattle.comparing.specs.Call.{longest_pair, longest_tails, longest_last};

use crate::Counts;
use crate::next::Next;
use lines::line::{put_held, put_line, put_position, put_text};
use stream::step::asks_for_more;

// A side and a line's end, which the bar goes over where it is the left one.
fn put_side(next: Next, input: &[u8], out: &mut [u8], at: usize) -> usize
    requires { Finds input.now next × (at + longest ≤ length out.old) }
    ensures { (Puts out.old at (side_text (side_of (first limit input.now)) ++ line_end) out.new result) × ((at < result) × (result ≤ at + longest)) }
{
    let reply = next.reply;
    if asks_for_more(reply) {
        return put_text(b"-\n", out, at);
    }
    put_line(reply, input, &input[..0], out, at)
}

// The line of a place.
pub(crate) fn put_pair(
    place: u64,
    a: Next,
    left: &[u8],
    b: Next,
    right: &[u8],
    out: &mut [u8],
    at: usize,
) -> usize
    requires { (Finds left.now a × Finds right.now b) × (at + longest_pair ≤ length out.old) }
    ensures { (Puts out.old at (beside (leading place) (side_text (side_of (first limit left.now))) (side_text (side_of (first limit right.now)))) out.new result) × (result ≤ at + longest_pair) }
{
    let behind = put_position(place, out, at);
    let end = put_side(a, left, out, behind);
    let over = put_text(b" | ", out, end - 1);
    put_side(b, right, out, over)
}

// The line of the tails, by how many bytes they have.
pub(crate) fn put_tails(left: u8, right: u8, out: &mut [u8], at: usize) -> usize
    requires { at + longest_tails ≤ length out.old }
    ensures { (Puts out.old at (beside tail_word (bare (held_line left)) (bare (held_line right))) out.new result) × (result ≤ at + longest_tails) }
{
    let behind = put_text(b"tail ", out, at);
    let end = put_held(left, out, behind);
    let over = put_text(b" | ", out, end - 1);
    put_held(right, out, over)
}

// The last line.
pub(crate) fn put_last(counts: Counts, out: &mut [u8], at: usize) -> usize
    requires { at + longest_last ≤ length out.old }
    ensures { (Puts out.old at (last_line counts.agree counts.differ) out.new result) × (result ≤ at + longest_last) }
{
    let first = put_text(b"agree ", out, at);
    let second = put_position(counts.agree, out, first);
    let third = put_text(b"differ ", out, second);
    let end = put_position(counts.differ, out, third);
    put_text(b"\n", out, end - 1)
}
