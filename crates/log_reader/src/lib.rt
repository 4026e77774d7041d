// The reader of a kit log: a state by value, over 64 places that the caller lends for the bytes of a frame that is begun; a call over one piece, and the
// end. What is right is crate `log`. The places stand beside the reader and not in it: the caller lends them, and a host keeps them in bytes of its own.
#![tactic(auto)]

mod held;
mod number;
mod piece;
mod run;

ghost use Rattle.std.specs.Prelude.{◌≡◌};
ghost use Rattle.log_reader.specs.State.{can_go_on, of_logs, is_state};
ghost use Rattle.log_reader.specs.Reader.{bytes_at, Nexts, Closes};
ghost use Rattle.log_reader.specs.Parts.{end_reader, ending_at};

use base::part_of;
use held::is_held_fine;
use number::weight_of;
use refusals::Refusal;
use run::run;
use stream::LIMIT;

// Which number is read: the first, the seconds of an entry, or the length of its frame, with its seconds.
#[derive(Clone, Copy)]
pub enum Wanted {
    Version,
    Seconds,
    Size(u32),
}

#[derive(Clone, Copy)]
pub enum Reader {
    // In a number: its value so far, and how many of its groups have come.
    Number {
        wanted: Wanted,
        value: u32,
        groups: u8,
    },
    // In a frame of size bytes, of which that many are held, at the front of the places.
    Frame {
        seconds: u32,
        size: usize,
        held: usize,
    },
    // Until a reset.
    Refused(Refusal),
    // The caller has said that the log ends, and it was one.
    Ended,
}

// Where the frame of an entry stands: in the piece, or at the front of the places.
#[derive(Clone, Copy)]
pub enum Place {
    InPiece { at: usize, len: usize },
    InHeld(usize),
}

// What a call says.
#[derive(Clone, Copy)]
pub enum Answer {
    // All of the piece is taken, and more is asked for.
    More,
    Entry { seconds: u32, place: Place },
    Refused(Refusal),
}

#[derive(Clone, Copy)]
pub struct Answered {
    pub reader: Reader,
    pub taken: usize,
    pub answer: Answer,
}

#[derive(Clone, Copy)]
pub struct Closed {
    pub reader: Reader,
    pub ending: Result<(), Refusal>,
}

// What one byte makes of a reader.
#[derive(Clone, Copy)]
enum Turn {
    On(Reader),
    Entry { seconds: u32, len: usize },
}

// A reader before the first byte.
pub fn reset() -> Reader
    ensures { result ≡ Reader.Number Wanted.Version 0 0 }
{
    Reader::Number {
        wanted: Wanted::Version,
        value: 0,
        groups: 0,
    }
}

fn can_go_on(value: u32, groups: u8) -> bool
    ensures { result ≡ can_go_on value groups }
{
    groups <= 4 && u64::from(value) < weight_of(groups)
}

#[tactic(auto, using(crate::proofs::Readers::not_of_logs), unfolding(crate::specs::State::of_logs))]
fn of_logs(refusal: Refusal) -> bool
    ensures { result ≡ of_logs refusal }
{
    matches!(refusal, Refusal::InvalidLog | Refusal::InvalidFrame)
}

// Whether the reader is one that some log leads to, over these places.
#[tactic(auto, unfolding(crate::specs::State::is_state))]
pub fn is_state(places: &[u8], reader: Reader) -> bool
    ensures { result ≡ is_state places.now reader }
{
    if places.len() < LIMIT {
        return false;
    }
    match reader {
        Reader::Number { value, groups, .. } => can_go_on(value, groups),
        Reader::Frame { size, held, .. } => {
            4 <= size && size <= LIMIT && held < size && is_held_fine(places, size, held)
        }
        Reader::Refused(refusal) => of_logs(refusal),
        Reader::Ended => true,
    }
}

// One call: up to the next entry, a refusal, or the end of the piece.
pub fn next(places: &mut [u8], reader: Reader, input: &[u8]) -> Answered
    ensures { Nexts places.old reader input.now places.new result }
{
    if !is_state(places, reader) {
        return Answered {
            reader,
            taken: 0,
            answer: Answer::Refused(Refusal::BadState),
        };
    }
    run(places, reader, input)
}

fn end_reader(reader: Reader) -> Reader
    ensures { result ≡ end_reader reader }
{
    match reader {
        Reader::Number {
            wanted: Wanted::Seconds,
            groups: 0,
            ..
        } => Reader::Ended,
        Reader::Number { .. } | Reader::Frame { .. } => Reader::Refused(Refusal::InvalidLog),
        Reader::Refused(_) | Reader::Ended => reader,
    }
}

fn ending_at(reader: Reader) -> Result<(), Refusal>
    ensures { result ≡ ending_at reader }
{
    match reader {
        Reader::Refused(refusal) => Err(refusal),
        _ => Ok(()),
    }
}

// The log ends here.
#[tactic(auto, using(crate::proofs::Turns::end_finishes))]
pub fn end(places: &[u8], reader: Reader) -> Closed
    ensures { Closes places.now reader result }
{
    if !is_state(places, reader) {
        return Closed {
            reader,
            ending: Err(Refusal::BadState),
        };
    }
    let closed = end_reader(reader);
    Closed {
        reader: closed,
        ending: ending_at(closed),
    }
}

// The frame of an entry, as a part of the caller's piece or of the places.
pub fn frame<'a>(place: Place, piece: &'a [u8], places: &'a [u8]) -> &'a [u8]
    ensures { result.now ≡ bytes_at place piece.now places.now }
{
    match place {
        Place::InPiece { at, len } => part_of(piece, at, len),
        Place::InHeld(len) => part_of(places, 0, len),
    }
}
