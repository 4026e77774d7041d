// The lines of the answers to an input, as many as a buffer that the caller lends has room for, with or without positions before them.
#![tactic(auto)]

mod numbering;

ghost use Rattle.std.specs.Prelude.{◌≡◌, true, ◌+◌, ◌-◌, ◌≤◌, length};
ghost use Rattle.stream.specs.Step.{is_span};
ghost use Rattle.stream.specs.Places.{held_in};
ghost use Rattle.listing.specs.Numbering.{room_for, is_countable, last_line_of};
ghost use Rattle.listing.specs.Listing.{list_of};
ghost use Rattle.listing.specs.Fill.{Turns, Fills, Lists};

use crate::numbering::{is_countable, moved_on, put_lead, room_for};
use base::fits;
use lines::line::{put_held, put_line};
use refusals::Refusal;
use stream::step::{Moved, asks_for_more, is_span, step_in};

// Why a listing ended.
#[derive(Clone, Copy)]
pub enum Status {
    // All answers are given, and more input is asked for.
    More,
    // The buffer has no room for the longest line.
    Full,
}

// Where the held bytes stand now, the numbering of the next line, how many bytes of the input were taken, and how many were written.
#[derive(Clone, Copy)]
pub struct Listed {
    pub start: usize,
    pub end: usize,
    pub numbering: Option<u64>,
    pub taken: usize,
    pub written: usize,
    pub status: Status,
}

// One call of the stream, and the place behind its line.
#[derive(Clone, Copy)]
struct Turn {
    moved: Moved,
    at: usize,
}

fn list_one(
    places: &mut [u8],
    start: usize,
    end: usize,
    numbering: Option<u64>,
    input: &[u8],
    out: &mut [u8],
    at: usize,
) -> Turn
    requires { (is_span (length places.old) start end ≡ true) × (at + room_for numbering ≤ length out.old) }
    ensures { Turns places.old start end numbering input.now out.old at places.new out.new result }
{
    let moved = step_in(places, start, end, input);
    let reply = moved.reply;
    if asks_for_more(reply) {
        return Turn { moved, at };
    }
    let behind = put_lead(numbering, out, at);
    let next = put_line(reply, input, places, out, behind);
    Turn { moved, at: next }
}

// Calls, while there is room for the longest line.
fn fill(
    places: &mut [u8],
    start: usize,
    end: usize,
    numbering: Option<u64>,
    input: &[u8],
    out: &mut [u8],
) -> Listed
    requires { (is_span (length places.old) start end ≡ true) × (is_countable numbering (end - start) (length input.now) ≡ true) }
    ensures { Fills (length places.old) (list_of (length places.old) numbering (held_in places.old start end) input.now (length out.old)) input.now out.old places.new out.new result }
{
    let held = end - start;
    let room = room_for(numbering);
    let mut from = start;
    let mut to = end;
    let mut taken = 0;
    let mut at = 0;
    while room <= out.len() - at {
        let number = moved_on(numbering, held, taken, to - from);
        let one = list_one(places, from, to, number, &input[taken..], out, at);
        let moved = one.moved;
        from = moved.start;
        to = moved.end;
        taken += moved.taken;
        at = one.at;
        let reply = moved.reply;
        if asks_for_more(reply) {
            return Listed {
                start: from,
                end: to,
                numbering: number,
                taken,
                written: at,
                status: Status::More,
            };
        }
    }
    Listed {
        start: from,
        end: to,
        numbering: moved_on(numbering, held, taken, to - from),
        taken,
        written: at,
        status: Status::Full,
    }
}

// The lines of the answers to the held bytes and then the input. A refusal takes, writes and changes nothing. Where the held bytes stand is passed as
// `stream::step::step_in` takes it.
pub fn list_in(
    places: &mut [u8],
    start: usize,
    end: usize,
    numbering: Option<u64>,
    input: &[u8],
    out: &mut [u8],
) -> Result<Listed, Refusal>
    ensures { Lists places.old start end numbering input.now out.old places.new out.new result }
{
    if !is_span(places.len(), start, end) {
        return Err(Refusal::BadState);
    }
    if !is_countable(numbering, end - start, input.len()) {
        return Err(Refusal::PositionRange);
    }
    Ok(fill(places, start, end, numbering, input, out))
}

// The last line, of the held count, at the front of a buffer. Answers how many bytes were written: none where there is no room for the longest line.
pub fn list_last(numbering: Option<u64>, held: u8, out: &mut [u8]) -> usize
    ensures { ((result, out.new) ≡ last_line_of numbering held out.old) × (result ≤ room_for numbering) }
{
    if fits(out.len(), 0, room_for(numbering)) {
        let behind = put_lead(numbering, out, 0);
        return put_held(held, out, behind);
    }
    0
}
