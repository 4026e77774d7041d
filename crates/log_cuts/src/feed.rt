// A log read in pieces of one size. Each entry is written again as it comes, behind those before: so two readings gave the same entries exactly if they
// left the same bytes, and those of an accepted log are that log.
ghost use Rattle.std.specs.Prelude.{◌≤◌, length};

use crate::log::Log;
use crate::show::end_number;
use base::part_of;
use log_reader::{Answer, Answered, Place, Reader, end, frame, next, reset};
use refusals::Refusal;
use std::io;
use stream::LIMIT;

// A reader, with the places that it is lent.
#[derive(Clone, Copy)]
pub struct Reading {
    places: [u8; LIMIT],
    reader: Reader,
}

// How many bytes were taken, and the entries, written again.
#[derive(Clone, Copy)]
pub struct Fed {
    pub taken: usize,
    pub again: Log,
}

// What a reading came to, with the number of its end.
#[derive(Clone, Copy, PartialEq, Eq)]
pub struct Seen {
    pub taken: usize,
    pub again: Log,
    pub end: u8,
}

impl Reading {
    pub fn new() -> Reading {
        Reading {
            places: [0; LIMIT],
            reader: reset(),
        }
    }

    #[tactic(auto, using(crate::proofs::Taken::takes_within))]
    pub fn next(&mut self, piece: &[u8]) -> Answered
        ensures { result.taken ≤ length piece.now }
    {
        let answered = next(&mut self.places, self.reader, piece);
        self.reader = answered.reader;
        answered
    }

    // The frame that a call found in the piece or among the places.
    fn frame<'a>(&'a self, place: Place, piece: &'a [u8]) -> &'a [u8] {
        frame(place, piece, &self.places)
    }

    pub fn end(&mut self) -> Result<(), Refusal> {
        let closed = end(&self.places, self.reader);
        self.reader = closed.reader;
        closed.ending
    }

    // The log in pieces of so many bytes; the last has what is left. Each entry is shown as it comes.
    pub fn feed<F: FnMut(u32, &[u8]) -> io::Result<()>>(
        &mut self,
        log: &[u8],
        size: usize,
        mut show: F,
    ) -> io::Result<Fed>
        requires size { 1 ≤ size }
        requires show { F.IsAlwaysCallable show }
    {
        let mut taken = 0;
        let mut again = Log::new();
        for _ in 0..5000 {
            let piece = part_of(log, taken, size - taken % size);
            let answered = self.next(piece);
            taken += answered.taken;
            match answered.answer {
                Answer::More if taken < log.len() => {}
                Answer::Entry { seconds, place } => {
                    let frame = self.frame(place, piece);
                    show(seconds, frame)?;
                    again.push(seconds, frame);
                }
                Answer::More | Answer::Refused(_) => break,
            }
        }
        Ok(Fed { taken, again })
    }
}

// All of the log, and then its end.
pub fn read_in<F: FnMut(u32, &[u8]) -> io::Result<()>>(
    log: &[u8],
    size: usize,
    show: F,
) -> io::Result<Seen>
    requires size { 1 ≤ size }
    requires show { F.IsAlwaysCallable show }
{
    let mut reading = Reading::new();
    let fed = reading.feed(log, size, show)?;
    Ok(Seen {
        taken: fed.taken,
        again: fed.again,
        end: end_number(reading.end()),
    })
}
