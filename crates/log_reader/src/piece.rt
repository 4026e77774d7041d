// A frame that stands whole in the piece: nothing is copied.
ghost use Rattle.std.specs.Prelude.{◌≡◌, ◌+◌, ◌≤◌, length};
ghost use Rattle.reading.specs.Reading.{limit};
ghost use Rattle.log_reader.specs.Parts.{InOne};

use crate::number::number_of;
use crate::{Answer, Answered, Place, Reader, Wanted};
use crc::checked;
use packets::is_address;
use refusals::Refusal;

// A refusal, of which the reader stands refused.
pub(crate) fn refuse(refusal: Refusal, taken: usize) -> Answered
    ensures { result ≡ record { reader = Reader.Refused refusal; taken = taken; answer = Answer.Refused refusal } }
{
    Answered {
        reader: Reader::Refused(refusal),
        taken,
        answer: Answer::Refused(refusal),
    }
}

// The size bytes of the input from place i on.
#[tactic(auto, using(crate::proofs::Pieces::piece_unlisted, crate::proofs::Pieces::piece_second, crate::proofs::Pieces::piece_right))]
pub(crate) fn in_piece(seconds: u32, size: usize, input: &[u8], i: usize) -> Answered
    requires { (4 ≤ size) × ((size ≤ limit) × (i + size ≤ length input.now)) }
    ensures { InOne seconds size input.now i result }
{
    if !is_address(input[i]) {
        return refuse(Refusal::InvalidFrame, i + 1);
    }
    if usize::from(input[i + 1]) + 2 != size {
        return refuse(Refusal::InvalidFrame, i + 2);
    }
    let end = i + size;
    let start = i + 2;
    let last = end - 1;
    match checked(&input[start..last], input[last]) {
        Ok(()) => Answered {
            reader: number_of(Wanted::Seconds),
            taken: end,
            answer: Answer::Entry {
                seconds,
                place: Place::InPiece { at: i, len: size },
            },
        },
        Err(_) => refuse(Refusal::InvalidFrame, end),
    }
}
