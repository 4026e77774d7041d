// The call over the places of the host's state, whose position it leaves (the recorded answers have none): what it answers, how much it takes, and the
// frame's bytes or what is held afterwards.
use crate::case::{Case, Expected};
use host_state::{END, PLACES, SIZE, START};
use refusals::row_of;
use stream::step::{Place, Reply};

fn is_number(e: Expected, number: u8, first: usize, second: usize) -> bool {
    e.number == number && usize::from(e.first) == first && usize::from(e.second) == second
}

fn is_frame(e: Expected, in_state: u8, len: usize) -> bool {
    e.number == 0 && e.in_state == in_state && usize::from(e.len) == len
}

fn is_said(e: Expected, reply: Reply) -> bool {
    match reply {
        Reply::More => is_number(e, 255, 0, 0),
        Reply::Frame(Place::InPiece(len)) => is_frame(e, 0, len),
        Reply::Frame(Place::InHeld { len, .. }) => is_frame(e, 1, len),
        Reply::Refused(refusal) => {
            let row = row_of(refusal);
            is_number(e, row.number, row.first, row.second)
        }
    }
}

// The frame's bytes, or where there is no frame the held bytes.
fn shown<'a>(state: &'a [u8; SIZE], input: &'a [u8], reply: Reply) -> Option<&'a [u8]> {
    let places = &state[PLACES..];
    match reply {
        Reply::Frame(Place::InPiece(len)) => input.get(..len),
        Reply::Frame(Place::InHeld { at, len }) => places.get(at..)?.get(..len),
        Reply::More | Reply::Refused(_) => {
            places.get(usize::from(state[START])..usize::from(state[END]))
        }
    }
}

pub fn calls(state: &mut [u8; SIZE], case: &Case<'_>) -> bool {
    let replied = host_state::step(state, case.a);
    replied.taken == usize::from(case.expected.taken)
        && is_said(case.expected, replied.reply)
        && shown(state, case.a, replied.reply) == Some(case.c)
}
