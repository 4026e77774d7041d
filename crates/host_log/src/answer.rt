// What the log's entries answer, in eight bytes.
ghost use Rattle.std.specs.Prelude.{◌≡◌};
ghost use Rattle.host_answer.specs.Answer.{packed, answer_row, in_bytes};
ghost use Rattle.host_log.specs.Calls.{ending_row};
ghost use Rattle.host_log.specs.Answer.{answer_log, seconds_by};

use crate::Replied;
use crate::head::PLACES;
use base::narrow;
use host_answer::answer::{MORE, carried, count, pack, placed, refuse, said};
use log_reader::{Answer, Place};
use refusals::Refusal;

#[tactic(auto, unfolding(crate::specs::Answer::answer_of))]
pub fn answer_log(replied: Replied) -> u64
    ensures { result ≡ packed (in_bytes (answer_log replied)) }
{
    let answer = replied.answer;
    let taken = narrow(replied.taken);
    match answer {
        Answer::More => pack(said(MORE, taken, 0, 0)),
        Answer::Entry { seconds: _, place } => match place {
            Place::InPiece { at, len } => pack(placed(taken, 0, narrow(at), narrow(len))),
            Place::InHeld(len) => pack(placed(taken, 1, PLACES as u8, narrow(len))),
        },
        Answer::Refused(refusal) => pack(carried(refusal, taken)),
    }
}

pub fn answer_ending(ending: Result<(), Refusal>) -> u64
    ensures { result ≡ packed (answer_row (ending_row ending)) }
{
    match ending {
        Ok(()) => count(0),
        Err(refusal) => refuse(refusal),
    }
}

// An entry's seconds, in the number that the host lends; of any other answer it stays.
pub fn give_seconds(answer: Answer, seconds: &mut u32)
    ensures { seconds.new ≡ seconds_by answer seconds.old }
{
    if let Answer::Entry { seconds: those, .. } = answer {
        *seconds = those;
    }
}
