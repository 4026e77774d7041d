// What stands first in what is left of an upload.
ghost use Rattle.std.specs.Prelude.{◌≡◌, true, ◌&&◌, not};
ghost use Rattle.refusals.specs.Row.{struct_of};
ghost use Rattle.reading.specs.Reading.{limit, first};
ghost use Rattle.stream.specs.Step.{asks_for_more};
ghost use Rattle.pairs.specs.Pairs.{pair, side_of, agrees};
ghost use Rattle.comparing.specs.Next.{Finds, head_of, same_row, is_frame, Again};

use base::is_same;
use refusals::{Row, row_of};
use stream::LIMIT;
use stream::step::{Reply, asks_for_more, step_in};

// The answer that stands there, as the stream says it of a piece with nothing held before it, and how many bytes it drops: none where there is no
// answer yet.
#[derive(Clone, Copy)]
pub(crate) struct Next {
    pub reply: Reply,
    pub size: usize,
}

// The places are of no use but to the call: nothing is held in them before it, and what is held behind it stands in the input too.
pub(crate) fn next_of(places: &mut [u8; LIMIT], input: &[u8]) -> Next
    ensures { Finds input.now result }
{
    let moved = step_in(places, 0, 0, input);
    let reply = moved.reply;
    if asks_for_more(reply) {
        return Next { reply, size: 0 };
    }
    Next {
        reply,
        size: moved.taken,
    }
}

// No answer is there, and more bytes may come.
pub(crate) fn is_hungry(reply: Reply, ends: bool) -> bool
    ensures { result ≡ (asks_for_more reply && not ends) }
{
    asks_for_more(reply) && !ends
}

// No answer is there on either side.
pub(crate) fn are_done(left: Reply, right: Reply) -> bool
    ensures { result ≡ (asks_for_more left && asks_for_more right) }
{
    asks_for_more(left) && asks_for_more(right)
}

fn is_frame(reply: Reply) -> bool
    ensures { result ≡ is_frame reply }
{
    matches!(reply, Reply::Frame(_))
}

// The answer is a frame, and the right upload goes on with its bytes: so their check byte is right there too.
pub(crate) fn is_again(next: Next, left: &[u8], right: &[u8]) -> bool
    requires { Finds left.now next }
    ensures { result ≡ true → Again left.now right.now next }
{
    let reply = next.reply;
    if !is_frame(reply) {
        return false;
    }
    let size = next.size;
    if right.len() < size {
        return false;
    }
    is_same(&left[..size], &right[..size])
}

// Number and values of an answer, but of a frame the number alone; a number of its own where there is no answer.
fn head_of(reply: Reply) -> Row
    ensures { result ≡ struct_of (head_of reply) }
{
    match reply {
        Reply::More => Row {
            number: 255,
            first: 0,
            second: 0,
        },
        Reply::Frame(_) => Row {
            number: 0,
            first: 0,
            second: 0,
        },
        Reply::Refused(refusal) => row_of(refusal),
    }
}

fn is_same_row(x: Row, y: Row) -> bool
    ensures { result ≡ same_row x y }
{
    x == y
}

// Whether two answers agree: number and values, of frames all bytes.
pub(crate) fn is_alike(a: Next, left: &[u8], b: Next, right: &[u8]) -> bool
    requires { Finds left.now a × Finds right.now b }
    ensures { result ≡ agrees (pair (side_of (first limit left.now)) (side_of (first limit right.now))) }
{
    let p = a.reply;
    let q = b.reply;
    let x = head_of(p);
    let y = head_of(q);
    if !is_same_row(x, y) {
        return false;
    }
    if x.number != 0 {
        return true;
    }
    let l = a.size;
    let r = b.size;
    is_same(&left[..l], &right[..r])
}
