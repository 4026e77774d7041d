// One call of the stream whose bytes are numbered: the call over lent places, and the position of the first held byte, else of the next byte.
#![tactic(auto)]

ghost use Rattle.std.specs.Prelude.{◌≡◌, ◌+◌, ◌-◌, ◌≤◌, length};
ghost use Rattle.reading.specs.Positions.{is_within};
ghost use Rattle.numbered.specs.Step.{StepsAt, stays};

use refusals::Refusal;
use stream::step::{Moved, Reply, is_span, step_in};

// A call, and the position afterwards.
#[derive(Clone, Copy)]
pub struct Advanced {
    pub moved: Moved,
    pub position: u64,
}

// What a call says, how many bytes of the input it took, and where its answer began: at the position before the call.
#[derive(Clone, Copy)]
pub struct Answered {
    pub position: u64,
    pub taken: usize,
    pub reply: Reply,
}

// Whether all bytes can be numbered: those held from a position on, and those offered. No sum is made that might have no room.
#[tactic(auto, unfolding(reading::specs::Positions::is_within))]
pub fn is_within(position: u64, held: usize, input: usize) -> bool
    ensures { result ≡ is_within position held input }
{
    let left = u64::MAX - position;
    let more = input as u64;
    more <= left && held as u64 <= left - more
}

// Nothing is taken or changed.
fn stay(start: usize, end: usize, position: u64, refusal: Refusal) -> Advanced
    ensures { result ≡ stays start end position refusal }
{
    Advanced {
        moved: Moved {
            start,
            end,
            taken: 0,
            reply: Reply::Refused(refusal),
        },
        position,
    }
}

// One call over lent places, whose count is the limit of a frame. What it dropped is what was held and taken, less what is held. Start, end and position come
// as their keeper has them, and any are answered.
pub fn step_at(places: &mut [u8], start: usize, end: usize, position: u64, input: &[u8]) -> Advanced
    ensures { StepsAt (length places.old) places.old start end position input.now places.new result }
{
    if !is_span(places.len(), start, end) {
        return stay(start, end, position, Refusal::BadState);
    }
    let held = end - start;
    if !is_within(position, held, input.len()) {
        return stay(start, end, position, Refusal::PositionRange);
    }
    let moved = step_in(places, start, end, input);
    let dropped = held + moved.taken - (moved.end - moved.start);
    Advanced {
        moved,
        position: position + dropped as u64,
    }
}
