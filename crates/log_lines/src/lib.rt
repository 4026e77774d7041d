// The lines of a log: those of the entries in a part of it, in a buffer that the caller lends, and the last one.
#![tactic(auto)]

mod entry;

ghost use Rattle.std.specs.Prelude.{◌≡◌, true, ◌*◌, ◌≤◌, length};
ghost use Rattle.lines.specs.Put.{put_within};
ghost use Rattle.log_reader.specs.State.{is_state};
ghost use Rattle.log_lines.specs.Text.{longest_entry, refusal_line, ending_line};
ghost use Rattle.log_lines.specs.Part.{front_of, Turns, Lines, Lists};

use base::{copy_in, fits};
use entry::{is_entry, put_answer, status_of};
use log_reader::{Answered, Reader, is_state, next};
use refusals::Refusal;

// No line of an entry is longer.
pub const LONGEST_ENTRY: usize = 27;

// The reader behind the part, how many bytes were written, and why the part ended: all of it is listed, and the log goes on or ends; or the log is refused, or
// nothing was changed, where no line could be listed.
#[derive(Clone, Copy)]
pub struct Listed {
    pub reader: Reader,
    pub written: usize,
    pub status: Result<(), Refusal>,
}

// One call of the reader, and the place behind its line.
#[derive(Clone, Copy)]
struct Turn {
    answered: Answered,
    at: usize,
}

fn list_one(places: &mut [u8], reader: Reader, input: &[u8], out: &mut [u8], at: usize) -> Turn
    ensures { Turns places.old reader input.now out.old at places.new out.new result }
{
    let answered = next(places, reader, input);
    let answer = answered.answer;
    let next_at = put_answer(answer, input, places, out, at);
    Turn {
        answered,
        at: next_at,
    }
}

// Calls, until one gives no entry. Each entry takes one byte at least, so there is room for its line.
#[tactic(auto, using(crate::proofs::Going::begin))]
fn list_entries(places: &mut [u8], reader: Reader, part: &[u8], out: &mut [u8]) -> Listed
    requires { (is_state places.old reader ≡ true) × (longest_entry * length part.now ≤ length out.old) }
    ensures { Lines places.old reader part.now out.old places.new out.new result }
{
    let mut state = reader;
    let mut taken = 0;
    let mut at = 0;
    // No index: a step is as long as what the call took.
    while taken <= part.len() {
        let one = list_one(places, state, &part[taken..], out, at);
        let answered = one.answered;
        state = answered.reader;
        taken += answered.taken;
        at = one.at;
        let answer = answered.answer;
        if !is_entry(answer) {
            return Listed {
                reader: state,
                written: at,
                status: status_of(answer),
            };
        }
    }
    Listed {
        reader: state,
        written: at,
        status: Ok(()),
    }
}

fn refuse(reader: Reader, refusal: Refusal) -> Listed
    ensures { result ≡ record { reader = reader; written = 0; status = Err refusal } }
{
    Listed {
        reader,
        written: 0,
        status: Err(refusal),
    }
}

// The lines of the entries in a part of a log, at the front of the buffer, which has 27 bytes for each byte of the part.
#[tactic(auto, using(crate::proofs::Going::bad_state_lem, crate::proofs::Going::no_room))]
pub fn list_part(places: &mut [u8], reader: Reader, part: &[u8], out: &mut [u8]) -> Listed
    ensures { Lists places.old reader part.now out.old places.new out.new result }
{
    if !is_state(places, reader) {
        return refuse(reader, Refusal::BadState);
    }
    if out.len() / LONGEST_ENTRY < part.len() {
        return refuse(reader, Refusal::BufferOverflow);
    }
    list_entries(places, reader, part, out)
}

// A text at the front of the buffer. Answers how many bytes were written: none where there is no room.
fn put_front(out: &mut [u8], text: &[u8]) -> usize
    ensures { (result, out.new) ≡ front_of text.now out.old }
{
    if fits(out.len(), 0, text.len()) {
        copy_in(out, 0, text, text.len());
        return text.len();
    }
    0
}

// No line for a refusal that is not of logs.
fn put_refusal(refusal: Refusal, out: &mut [u8]) -> usize
    ensures { (result, out.new) ≡ front_of (refusal_line refusal) out.old }
{
    match refusal {
        Refusal::InvalidLog => put_front(out, b"refused 9\n"),
        Refusal::InvalidFrame => put_front(out, b"refused 10\n"),
        _ => 0,
    }
}

// The last line, at the front of the buffer. Answers how many bytes were written: none where there is no room.
#[tactic(auto, unfolding(crate::specs::Text::ending_line))]
pub fn put_last(ending: Result<(), Refusal>, out: &mut [u8]) -> usize
    ensures { (result, out.new) ≡ front_of (ending_line ending) out.old }
{
    match ending {
        Ok(()) => put_front(out, b"end\n"),
        Err(refusal) => put_refusal(refusal, out),
    }
}
