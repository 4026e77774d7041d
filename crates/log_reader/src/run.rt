// A call on a state: one byte after the other, and a frame that stands whole in the piece at once.
ghost use Rattle.std.specs.Prelude.{◌≡◌, true};
ghost use Rattle.log_reader.specs.State.{is_state};
ghost use Rattle.log_reader.specs.Reader.{Runs};
ghost use Rattle.log_reader.specs.Parts.{answer_at};

use crate::held::feed_frame;
use crate::number::{feed_number, number_of};
use crate::piece::{in_piece, refuse};
use crate::{Answer, Answered, Place, Reader, Turn, Wanted};
use refusals::Refusal;

// What is said where the piece ends.
fn answer_at(reader: Reader) -> Answer
    ensures { result ≡ answer_at reader }
{
    match reader {
        Reader::Refused(refusal) => Answer::Refused(refusal),
        _ => Answer::More,
    }
}

pub(crate) fn run(places: &mut [u8], reader: Reader, input: &[u8]) -> Answered
    requires { is_state places.old reader ≡ true }
    ensures { Runs places.old reader input.now places.new result }
{
    let mut at = reader;
    for (i, &byte) in input.iter().enumerate() {
        let turn = match at {
            Reader::Number {
                wanted,
                value,
                groups,
            } => Turn::On(feed_number(wanted, value, groups, byte)),
            Reader::Frame {
                seconds,
                size,
                held,
            } => {
                if held == 0 && size <= input.len() - i {
                    return in_piece(seconds, size, input, i);
                }
                feed_frame(places, seconds, size, held, byte)
            }
            Reader::Refused(refusal) => return refuse(refusal, i),
            Reader::Ended => return refuse(Refusal::InvalidLog, i),
        };
        match turn {
            Turn::On(further) => at = further,
            Turn::Entry { seconds, len } => {
                return Answered {
                    reader: number_of(Wanted::Seconds),
                    taken: i + 1,
                    answer: Answer::Entry {
                        seconds,
                        place: Place::InHeld(len),
                    },
                };
            }
        }
    }
    Answered {
        reader: at,
        taken: input.len(),
        answer: answer_at(at),
    }
}
