// What a call of the stream says, in eight bytes. These are packed in each arm: packed behind the match, a call of few bytes takes longer.
ghost use Rattle.std.specs.Prelude.{◌≡◌};
ghost use Rattle.host_answer.specs.Reply.{told_by};

use crate::answer::{MORE, carried, pack, placed, said};
use base::narrow;
use host_state::PLACES;
use stream::step::{Place, Replied, Reply};

// The eight bytes, and how many bytes the answer dropped: a refusal of a valid state's stream drops one.
#[derive(Clone, Copy)]
pub struct Told {
    pub answer: u64,
    pub dropped: usize,
}

#[tactic(auto, unfolding(crate::specs::Reply::answer_reply, crate::specs::Reply::dropped_in))]
pub fn answer_call(replied: Replied) -> Told
    ensures { result ≡ told_by replied }
{
    let taken = narrow(replied.taken);
    match replied.reply {
        Reply::More => Told {
            answer: pack(said(MORE, taken, 0, 0)),
            dropped: 0,
        },
        Reply::Frame(Place::InPiece(len)) => Told {
            answer: pack(placed(taken, 0, 0, narrow(len))),
            dropped: len,
        },
        Reply::Frame(Place::InHeld { at, len }) => Told {
            answer: pack(placed(taken, 1, narrow(at % 256 + PLACES), narrow(len))),
            dropped: len,
        },
        Reply::Refused(refusal) => Told {
            answer: pack(carried(refusal, taken)),
            dropped: 1,
        },
    }
}
