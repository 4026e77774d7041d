// The lines of a log, from a file or from standard input, on standard output, through fixed buffers. What a read yields and what becomes of a write is
// outside any contract. The lines of a piece are those of `log_lines::list_part`, promised there; promised here are where the reader stands after a
// piece, how the log ends, and the status. That lines are handed to a write is seen in the stored run.
// What was read is listed and written before more is read. A log that is refused is read no further.
#![tactic(auto)]

mod command;

ghost use Rattle.std.specs.Prelude.{◌≡◌, true, ◌*◌, ◌≤◌, length, IfOk};
ghost use Rattle.reading.specs.Reading.{limit};
ghost use Rattle.log_lines.specs.Text.{longest_entry};
ghost use Rattle.log_lines.specs.Part.{Lists};
ghost use Rattle.log_lines.specs.declared.Listed.{Listed};
ghost use Rattle.log_reader.specs.State.{state_of, is_state};
ghost use Rattle.log_io.specs.declared.Stopped.TheVariants as stopped;
ghost use Rattle.log_io.specs.State.{next_by, next_after, Ready, Leaves, state_after, Ends};

use log_lines::{list_part, put_last};
use log_reader::{Reader, end, reset};
use program::{Console, Failed, Input, print, read_some};
use refusals::Refusal;
use stream::LIMIT;

// How many bytes are read at a time, and the buffer that has room for the lines of these.
const PIECE: usize = 2048;

const ROOM: usize = 65536;

// The longest last line.
const LAST: usize = 11;

// Why a listing did not come to the end of a whole log.
#[derive(Clone, Copy)]
enum Stopped {
    // A read or a write failed. The cause is told by then.
    Failed(Failed),
    // The log is refused, as the last line says, which is written.
    Refused(Refusal),
}

impl From<Failed> for Stopped {
    ghost from_gives = { λ failed result. result ≡ stopped.Failed failed };

    fn from(failed: Failed) -> Stopped {
        Stopped::Failed(failed)
    }
}

impl From<Refusal> for Stopped {
    ghost from_gives = { λ refusal result. result ≡ stopped.Refused refusal };

    fn from(refusal: Refusal) -> Stopped {
        Stopped::Refused(refusal)
    }
}

// What comes after a piece.
#[derive(Clone, Copy)]
enum Next {
    // Another read.
    Read,
    // The last line: the log is refused.
    End,
}

// Where the reader stands behind a piece, and what comes then.
#[derive(Clone, Copy)]
struct State {
    reader: Reader,
    next: Next,
}

// A log that is refused is read no further.
fn next_by(status: Result<(), Refusal>) -> Next
    ensures { result ≡ next_by status }
{
    match status {
        Ok(()) => Next::Read,
        Err(_) => Next::End,
    }
}

// .. nor is any, once a write has failed.
fn next_after(written: Result<(), Failed>, status: Result<(), Refusal>) -> Result<Next, Failed>
    ensures { result ≡ next_after written status }
{
    written?;
    Ok(next_by(status))
}

// All lines of a piece, and a write of them. The buffer has them, and the reader stands behind the piece, whatever becomes of the write.
fn list_piece(
    console: &Console<'_>,
    places: &mut [u8],
    out: &mut [u8],
    reader: Reader,
    piece: &[u8],
) -> Result<State, Failed>
    requires { Ready places.old reader (length piece.now) (length out.old) }
    ensures left { (listed : Listed) × (Lists places.old reader piece.now out.old places.new out.new listed × (Leaves places.old reader piece.now places.new listed.reader × IfOk result (λ state. state ≡ state_after listed))) }
    ensures ok { IfOk result (λ state. Leaves places.old reader piece.now places.new state.reader) }
{
    let listed = list_part(places, reader, piece, out);
    let written = print(console, &out[..listed.written]);
    let next = next_after(written, listed.status)?;
    let reader = listed.reader;
    Ok(State { reader, next })
}

// Reads to the end of the input, or to a refusal. Answers where the reader stands then. The loop counts its
// turns, to a number that no run uses up.
fn list_reads(
    console: &Console<'_>,
    input: &mut Input<'_>,
    places: &mut [u8],
    out: &mut [u8],
    piece: &mut [u8],
) -> Result<Reader, Failed>
    requires { (limit ≤ length places.old) × (longest_entry * length piece.old ≤ length out.old) }
    ensures { IfOk result (λ reader. is_state places.new reader ≡ true) }
{
    let mut reader = reset();
    for _ in 0..u64::MAX {
        let count = read_some(console, input, piece)?;
        if count == 0 {
            return Ok(reader);
        }
        let state = list_piece(console, places, out, reader, &piece[..count])?;
        reader = state.reader;
        match state.next {
            Next::Read => {}
            Next::End => return Ok(reader),
        }
    }
    Err(Failed::Read)
}

fn write_last(console: &Console<'_>, ending: Result<(), Refusal>) -> Result<(), Failed> {
    let mut line = [0u8; LAST];
    let n = put_last(ending, &mut line);
    print(console, &line[..n])
}

// The last line, and what it says.
fn end_log(console: &Console<'_>, places: &[u8], reader: Reader) -> Result<(), Stopped>
    requires { is_state places.now reader ≡ true }
    ensures { Ends (state_of places.now reader) result }
{
    let ending = end(places, reader).ending;
    write_last(console, ending)?;
    Ok(ending?)
}

// Lists what the input yields.
fn list_input(console: &Console<'_>, input: &mut Input<'_>) -> Result<(), Stopped> {
    let mut places = [0u8; LIMIT];
    let mut out = [0u8; ROOM];
    let mut piece = [0u8; PIECE];
    let reader = list_reads(console, input, &mut places, &mut out, &mut piece)?;
    end_log(console, &places, reader)
}

// The program. Answers its status: 0 where a log was read to its end and written, 1 where it was refused or a file, a read or a write failed, 2 for bad
// usage.
pub fn crsf_log(rt: &HostRuntime) -> u8
    ensures { result ≤ 2 }
{
    command::command(&Console { rt, name: b"log" })
}
