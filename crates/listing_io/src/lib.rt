// The listing of a file or of standard input on standard output, through fixed buffers, with positions before its lines or without. What a read yields
// and what becomes of a write is outside any contract; the lines of what was read, handed to a write, are promised, and so is what is held after a
// piece, and the position there. What was read is listed and written before more is read. A read or a write that fails ends the listing.
#![tactic(auto)]

mod command;

ghost use Rattle.std.specs.Prelude.{◌≡◌, ◌≤◌, ◌<◌, length, Result, Ok, IfOk, IfSome};
ghost use Rattle.reading.specs.Reading.{limit};
ghost use Rattle.refusals.specs.declared.Refusal.{Refusal};
ghost use Rattle.listing.specs.Fill.{Lists};
ghost use Rattle.listing.specs.declared.Listed.{Listed};
ghost use Rattle.listing_io.specs.declared.Stopped.TheVariants as stopped;
ghost use Rattle.listing_io.specs.State.{Sound, Becomes, left_by, Leaves, first_number};

use lines::line::{LONGEST, LONGEST_POSITION};
use listing::{Listed, Status, list_in, list_last};
use program::{Console, Failed, Input, print, read_some};
use refusals::Refusal;
use stream::LIMIT;

// How many bytes are read, or written, at a time.
const ROOM: usize = 65536;

// Why a listing stopped before the end of the input, or before its last line was written.
#[derive(Clone, Copy)]
enum Stopped {
    // By a read or a write. The cause is told by then.
    Failed(Failed),
    // The input has more bytes than there are positions.
    Unnumbered,
}

impl From<Failed> for Stopped {
    ghost from_gives = { λ failed result. result ≡ stopped.Failed failed };

    fn from(failed: Failed) -> Stopped {
        Stopped::Failed(failed)
    }
}

impl From<Refusal> for Stopped {
    ghost from_gives = { λ refusal result. result ≡ stopped.Unnumbered };

    fn from(_refusal: Refusal) -> Stopped {
        Stopped::Unnumbered
    }
}

// Where the held bytes stand, and the numbering of the next line.
#[derive(Clone, Copy)]
struct State {
    start: usize,
    end: usize,
    numbering: Option<u64>,
}

// One turn: as many lines as the buffer has room for, and a write of them. The buffer has them whatever becomes of the write.
fn list_part(
    console: &Console<'_>,
    places: &mut [u8],
    out: &mut [u8],
    state: State,
    input: &[u8],
) -> Result<Listed, Stopped>
    requires { Sound (length places.old) state.start state.end }
    ensures text { (listed : Result Listed Refusal) × (Lists places.old state.start state.end state.numbering input.now out.old places.new out.new listed × Becomes listed result) }
    ensures ok { IfOk result (λ listed. Lists places.old state.start state.end state.numbering input.now out.old places.new out.new (Ok listed)) }
{
    let listed = list_in(places, state.start, state.end, state.numbering, input, out)?;
    print(console, &out[..listed.written])?;
    Ok(listed)
}

// What a piece leaves behind a turn, once no line of it is to come.
fn left_by(status: Status, state: State) -> Option<State>
    ensures { result ≡ left_by status state }
{
    match status {
        Status::More => Some(state),
        Status::Full => None,
    }
}

// All lines of a piece. The loop counts its turns, to a number that no run uses up.
fn list_piece(
    console: &Console<'_>,
    places: &mut [u8],
    out: &mut [u8],
    before: State,
    piece: &[u8],
) -> Result<State, Stopped>
    requires { Sound (length places.old) before.start before.end }
    ensures { IfOk result (λ state. Leaves places.old before.start before.end before.numbering piece.now places.new state) }
{
    let mut state = before;
    let mut taken = 0;
    for _ in 0..u64::MAX {
        let listed = list_part(console, places, out, state, &piece[taken..])?;
        state = State {
            start: listed.start,
            end: listed.end,
            numbering: listed.numbering,
        };
        taken += listed.taken;
        if let Some(left) = left_by(listed.status, state) {
            return Ok(left);
        }
    }
    Err(Stopped::Failed(Failed::Write))
}

// One read, and the lines of what came: none where the input has ended.
fn list_read(
    console: &Console<'_>,
    input: &mut Input<'_>,
    places: &mut [u8],
    out: &mut [u8],
    piece: &mut [u8],
    state: State,
) -> Result<Option<State>, Stopped>
    requires { Sound (length places.old) state.start state.end }
    ensures { IfOk result (λ next. IfSome next (λ state. Sound (length places.old) state.start state.end)) }
{
    let count = read_some(console, input, piece)?;
    if count == 0 {
        return Ok(None);
    }
    let next = list_piece(console, places, out, state, &piece[..count])?;
    Ok(Some(next))
}

// Reads to the end of the input.
fn list_reads(
    console: &Console<'_>,
    input: &mut Input<'_>,
    places: &mut [u8],
    out: &mut [u8],
    piece: &mut [u8],
    numbering: Option<u64>,
) -> Result<State, Stopped>
    requires { 4 ≤ length places.old }
    ensures { IfOk result (λ state. Sound (length places.old) state.start state.end) }
{
    let mut state = State {
        start: 0,
        end: 0,
        numbering,
    };
    for _ in 0..u64::MAX {
        match list_read(console, input, places, out, piece, state)? {
            Some(next) => state = next,
            None => return Ok(state),
        }
    }
    Err(Stopped::Failed(Failed::Read))
}

// The last line, where the input has ended.
fn write_last(console: &Console<'_>, numbering: Option<u64>, held: u8) -> Result<(), Failed> {
    let mut line = [0u8; LONGEST_POSITION + LONGEST];
    let n = list_last(numbering, held, &mut line);
    print(console, &line[..n])
}

// What stands before the first line: nothing, or the position of the first byte.
fn first_number(is_numbered: bool) -> Option<u64>
    ensures { result ≡ first_number is_numbered }
{
    is_numbered.then_some(0)
}

// Lists what the input yields. Answers how many bytes are held at its end.
fn list_input(
    console: &Console<'_>,
    input: &mut Input<'_>,
    is_numbered: bool,
) -> Result<u8, Stopped>
    ensures { IfOk result (λ held. held < limit) }
{
    let mut places = [0u8; LIMIT];
    let mut out = [0u8; ROOM];
    let mut piece = [0u8; ROOM];
    let numbering = first_number(is_numbered);
    let state = list_reads(console, input, &mut places, &mut out, &mut piece, numbering)?;
    let held = (state.end - state.start) as u8;
    write_last(console, state.numbering, held)?;
    Ok(held)
}

// The program list. Answers its status: 0 where everything was read and written, 1 where a file, a read or a write failed, 2 for bad usage.
pub fn crsf_list(rt: &HostRuntime) -> u8
    ensures { result ≤ 2 }
{
    command::command(
        &Console { rt, name: b"list" },
        false,
        b"usage: list [FILE]; list --help says more\n",
        b"list 0.8.0\n",
    )
}

// The program where: the same, with the position before each line. Its status is 1 too where the input has more bytes than there are positions. Its
// entry is in crate where_io: in a program of its own the loop is compiled for that alone, and list is as fast as without positions.
pub fn list_where(rt: &HostRuntime) -> u8
    ensures { result ≤ 2 }
{
    command::command(
        &Console { rt, name: b"where" },
        true,
        b"usage: where [FILE]; where --help says more\n",
        b"where 0.8.0\n",
    )
}
