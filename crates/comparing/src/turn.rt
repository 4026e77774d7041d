// One turn: what stands first in what is left of both uploads is looked at.
ghost use Rattle.std.specs.Prelude.{◌≡◌, ◌+◌, ◌≤◌, length};
ghost use Rattle.reading.specs.Reading.{limit, first};
ghost use Rattle.reading.specs.Positions.{greatest};
ghost use Rattle.comparing.specs.Call.{settles, closes, turn_of, goes_on, longest_turn};
ghost use Rattle.comparing.specs.Next.{Finds};
ghost use Rattle.comparing.specs.Parts.{Turns};

use crate::next::{Next, are_done, is_again, is_alike, is_hungry, next_of};
use crate::text::{put_last, put_pair, put_tails};
use crate::{Counts, Unread, Wants};
use base::{is_same, narrow};
use stream::LIMIT;

// How many bytes of each side are done with, the counts, the place behind the text, and what is asked for.
#[derive(Clone, Copy)]
pub(crate) struct Turned {
    pub left: usize,
    pub right: usize,
    pub counts: Counts,
    pub at: usize,
    pub wants: Wants,
}

pub(crate) fn goes_on(wants: Wants) -> bool
    ensures { result ≡ goes_on wants }
{
    matches!(wants, Wants::Room)
}

// Nothing is written or done with.
fn stay(counts: Counts, at: usize, wants: Wants) -> Turned
    ensures { result ≡ record { left = 0; right = 0; counts = counts; at = at; wants = wants } }
{
    Turned {
        left: 0,
        right: 0,
        counts,
        at,
        wants,
    }
}

// The pair of the tails, and the last line.
fn close(left: &[u8], right: &[u8], counts: Counts, out: &mut [u8], at: usize) -> Turned
    requires { ((length left.now ≤ 63) × (length right.now ≤ 63)) × ((at + longest_turn ≤ length out.old) × (counts.agree + counts.differ + 1 ≤ greatest)) }
    ensures { Turns (closes counts.agree counts.differ left.now right.now) out.old at out.new result }
{
    if is_same(left, right) {
        let counts = Counts {
            agree: counts.agree + 1,
            ..counts
        };
        let end = put_last(counts, out, at);
        return Turned {
            left: 0,
            right: 0,
            counts,
            at: end,
            wants: Wants::Nothing,
        };
    }
    let counts = Counts {
        differ: counts.differ + 1,
        ..counts
    };
    let behind = put_tails(narrow(left.len()), narrow(right.len()), out, at);
    let end = put_last(counts, out, behind);
    Turned {
        left: 0,
        right: 0,
        counts,
        at: end,
        wants: Wants::Nothing,
    }
}

// One pair.
fn settle(
    a: Next,
    left: &[u8],
    b: Next,
    right: &[u8],
    counts: Counts,
    out: &mut [u8],
    at: usize,
) -> Turned
    requires { (Finds left.now a × Finds right.now b) × ((at + longest_turn ≤ length out.old) × (counts.agree + counts.differ + 1 ≤ greatest)) }
    ensures { Turns (settles counts.agree counts.differ (first limit left.now) (first limit right.now)) out.old at out.new result }
{
    if is_alike(a, left, b, right) {
        return Turned {
            left: a.size,
            right: b.size,
            counts: Counts {
                agree: counts.agree + 1,
                ..counts
            },
            at,
            wants: Wants::Room,
        };
    }
    let end = put_pair(counts.agree + counts.differ + 1, a, left, b, right, out, at);
    Turned {
        left: a.size,
        right: b.size,
        counts: Counts {
            differ: counts.differ + 1,
            ..counts
        },
        at: end,
        wants: Wants::Room,
    }
}

// What comes of what stands first on both sides.
fn turn_by(
    a: Next,
    left: Unread<'_>,
    b: Next,
    right: Unread<'_>,
    counts: Counts,
    out: &mut [u8],
    at: usize,
) -> Turned
    requires { (Finds left.bytes.now a × Finds right.bytes.now b) × ((at + longest_turn ≤ length out.old) × (counts.agree + counts.differ + 1 ≤ greatest)) }
    ensures { Turns (turn_of counts.agree counts.differ left.entry.ends right.entry.ends left.entry.bytes.now right.entry.bytes.now) out.old at out.new result }
{
    let l = a.reply;
    let r = b.reply;
    if is_hungry(l, left.ends) {
        return stay(counts, at, Wants::Left);
    }
    if is_hungry(r, right.ends) {
        return stay(counts, at, Wants::Right);
    }
    if are_done(l, r) {
        return close(left.bytes, right.bytes, counts, out, at);
    }
    settle(a, left.bytes, b, right.bytes, counts, out, at)
}

pub(crate) fn turn(
    places: &mut [u8; LIMIT],
    left: Unread<'_>,
    right: Unread<'_>,
    counts: Counts,
    out: &mut [u8],
    at: usize,
) -> Turned
    requires { (at + longest_turn ≤ length out.old) × (counts.agree + counts.differ + 1 ≤ greatest) }
    ensures { Turns (turn_of counts.agree counts.differ left.entry.ends right.entry.ends left.entry.bytes.now right.entry.bytes.now) out.old at out.new result }
{
    let a = next_of(places, left.bytes);
    if is_again(a, left.bytes, right.bytes) {
        return Turned {
            left: a.size,
            right: a.size,
            counts: Counts {
                agree: counts.agree + 1,
                ..counts
            },
            at,
            wants: Wants::Room,
        };
    }
    let b = next_of(places, right.bytes);
    turn_by(a, left, b, right, counts, out, at)
}
