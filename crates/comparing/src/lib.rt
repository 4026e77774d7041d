// Two uploads of one flight, compared answer by answer: as much of the text of where they differ as what is there of both gives, and a buffer has room
// for. What is unread of an upload stands in the caller's bytes: nothing of it is held here.
#![tactic(auto)]

mod next;
mod text;
mod turn;

ghost use Rattle.std.specs.Prelude.{◌≡◌, true, length};
ghost use Rattle.comparing.specs.Call.{is_counted, compared_of, filled_of, Within};

use crate::turn::{goes_on, turn};
use numbered::is_within;
use refusals::Refusal;
use stream::LIMIT;

// No turn writes more: the lines of the tails and of the counts. Where a buffer has fewer bytes, room is asked for.
pub const LONGEST_TURN: usize = 95;

// What a comparison asks for.
#[derive(Clone, Copy)]
pub enum Wants {
    // More bytes of the left upload, or of the right one: there is no answer in those that are left of it.
    Left,
    Right,
    // Room for the longest lines that a turn writes.
    Room,
    // Nothing: the text is whole.
    Nothing,
    // Nothing was changed.
    Refused(Refusal),
}

// What is left of an upload: the bytes that are there, and whether nothing comes behind them.
#[derive(Clone, Copy)]
pub struct Unread<'a> {
    pub bytes: &'a [u8],
    pub ends: bool,
}

// How many pairs agreed so far, and how many differed.
#[derive(Clone, Copy)]
pub struct Counts {
    pub agree: u64,
    pub differ: u64,
}

// How many bytes of each upload are done with, how many pairs agreed and differed so far, how many bytes were written, and what is asked for.
#[derive(Clone, Copy)]
pub struct Compared {
    pub left: usize,
    pub right: usize,
    pub counts: Counts,
    pub written: usize,
    pub wants: Wants,
}

// Whether all pairs can be counted: those so far, as many as there are bytes, and the tails'. No sum is made that might have no room.
fn is_counted(counts: Counts, left: usize, right: usize) -> bool
    ensures { result ≡ is_counted counts.agree counts.differ left right }
{
    let Counts { agree, differ } = counts;
    if u64::MAX - agree <= differ {
        return false;
    }
    is_within(agree + differ + 1, left, right)
}

// Turns, while there is room for the longest lines.
fn fill(left: Unread<'_>, right: Unread<'_>, counts: Counts, out: &mut [u8]) -> Compared
    requires { is_counted counts.agree counts.differ (length left.bytes.now) (length right.bytes.now) ≡ true }
    ensures { ((result, out.new) ≡ filled_of left.entry.bytes.now left.entry.ends right.entry.bytes.now right.entry.ends counts.agree counts.differ out.old) × Within (length left.entry.bytes.now) (length right.entry.bytes.now) (length out.old) result }
{
    let mut places = [0u8; LIMIT];
    let mut l = 0;
    let mut r = 0;
    let mut so_far = counts;
    let mut at = 0;
    while LONGEST_TURN <= out.len() - at {
        let one = turn(
            &mut places,
            Unread {
                bytes: &left.bytes[l..],
                ends: left.ends,
            },
            Unread {
                bytes: &right.bytes[r..],
                ends: right.ends,
            },
            so_far,
            out,
            at,
        );
        l += one.left;
        r += one.right;
        so_far = one.counts;
        at = one.at;
        let wants = one.wants;
        if !goes_on(wants) {
            return Compared {
                left: l,
                right: r,
                counts: so_far,
                written: at,
                wants,
            };
        }
    }
    Compared {
        left: l,
        right: r,
        counts: so_far,
        written: at,
        wants: Wants::Room,
    }
}

// The text of where what is left of two uploads differs, behind so many pairs that agreed and that differed.
pub fn compare_in(left: Unread<'_>, right: Unread<'_>, counts: Counts, out: &mut [u8]) -> Compared
    ensures { ((result, out.new) ≡ compared_of left.entry.bytes.now left.entry.ends right.entry.bytes.now right.entry.ends counts.agree counts.differ out.old) × Within (length left.entry.bytes.now) (length right.entry.bytes.now) (length out.old) result }
{
    if is_counted(counts, left.bytes.len(), right.bytes.len()) {
        return fill(left, right, counts, out);
    }
    Compared {
        left: 0,
        right: 0,
        counts,
        written: 0,
        wants: Wants::Refused(Refusal::PositionRange),
    }
}
