// Positions: the worked cases; saved forms at both sides of each edge, older ones among them, one cut at each place and one with a byte more; calls at the
// last positions of a stream, on pieces that just can be numbered and that just can't; a state that holds a byte beyond the last position; the longest form.
ghost use Rattle.std.specs.Prelude.{◌+◌, ◌≤◌};

use crate::show::{At, BEFORE, Brief, Refused, State, Written, front, show_left};
use numbered::Answered;
use parser::{CrsfParser, held_len, next_raw_packet, position, reset};
use std::{fmt, io};
use stream::LIMIT;
use stream::step::{Place, Reply};

// How long a saved form is at most.
const LONGEST: usize = 75;

// ---- Saved forms

// A restore over a parser that holds a byte and stands at 7; then what that is saved as.
fn restores(rt: &impl Print, form: &[u8]) -> io::Result<()> {
    let before = CrsfParser {
        buffer: [0x0E; LIMIT],
        start: 2,
        end: 3,
        position: 7,
    };
    let out = saved::restore(before, form);
    print!(rt; "form {}: ", Brief(form))?;
    match out.restored {
        Ok(n) => print!(rt; "restored {n}")?,
        Err(refusal) => print!(rt; "{}", Refused(refusal))?,
    }
    print!(rt; ", {}, saved ", State(out.parser))?;
    let mut again = [BEFORE; LONGEST];
    match saved::save(out.parser, &mut again) {
        Ok(n) => println!(rt; "{}", Brief(front(Ok(n), &again))),
        Err(refusal) => println!(rt; "{}", Refused(refusal)),
    }
}

// A form whose position has ten groups, the eight between the first and the last alike; it holds nothing, or C8.
fn of_ten_groups(rt: &impl Print, first: u8, between: u8, last: u8, count: u8) -> io::Result<()>
    requires { count ≤ 1 }
{
    let mut form = [between; 13];
    form[0] = 0x40;
    form[1] = first;
    form[10] = last;
    form[11] = count;
    form[12] = 0xC8;
    restores(rt, &form[..12 + usize::from(count)])
}

// 0, 127, 128, 2^63, 2^64 - 2 and 2^64 - 1.
fn accepted(rt: &impl Print) -> io::Result<()> {
    restores(rt, &[0x40, 0, 0])?;
    restores(rt, &[0x40, 0x7F, 0])?;
    restores(rt, &[0x40, 0x7F, 1, 0xC8])?;
    restores(rt, &[0x40, 0x80, 1, 0])?;
    restores(rt, &[0x40, 0x80, 1, 1, 0xC8])?;
    for (first, between, last, count) in [
        (0x80, 0x80, 1, 0),
        (0x80, 0x80, 1, 1),
        (0xFE, 0xFF, 1, 1),
        (0xFF, 0xFF, 1, 0),
    ] {
        of_ten_groups(rt, first, between, last, count)?;
    }
    Ok(())
}

// A form whose position has eleven groups, the first nine alike; it holds nothing.
fn of_eleven_groups(rt: &impl Print, group: u8, tenth: u8, last: u8) -> io::Result<()> {
    let mut form = [group; 13];
    form[0] = 0x40;
    form[10] = tenth;
    form[11] = last;
    form[12] = 0;
    restores(rt, &form)
}

// One byte beyond the last position; positions of 2^64, of eleven groups, and not in their shortest form; counts that are not, and of 64.
fn malformed(rt: &impl Print) -> io::Result<()> {
    of_ten_groups(rt, 0xFF, 0xFF, 1, 1)?;
    of_ten_groups(rt, 0x80, 0x80, 2, 0)?;
    of_eleven_groups(rt, 0x80, 0x80, 1)?;
    of_eleven_groups(rt, 0xFF, 0x81, 0)?;
    restores(rt, &[0x40, 0x80, 0, 0])?;
    restores(rt, &[0x40, 0, 0x80, 0])?;
    let mut many = [0; 67];
    many[0] = 0x40;
    many[2] = 0x40;
    restores(rt, &many)
}

// 65536 and three held bytes; every cut of that, and a byte more.
fn cuts(rt: &impl Print) -> io::Result<()> {
    let form = [0x40, 0x80, 0x80, 4, 3, 0xC8, 0x0C, 0x14, 0];
    for len in 0..=form.len() {
        restores(rt, &form[..len])?;
    }
    Ok(())
}

// Without a position; the last is as long as such a form can be.
fn older(rt: &impl Print) -> io::Result<()> {
    restores(rt, &[0])?;
    restores(rt, &[1, 0x40])?;
    restores(rt, &[3, 0xC8, 0x0C, 0x14])?;
    restores(rt, &[3, 0xC8, 0x0C])?;
    restores(rt, &[3, 0xC8, 0x0C, 0x14, 0])?;
    let mut many = [0; LIMIT];
    many[0] = 63;
    restores(rt, &many)
}

// ---- Calls

// What a call said, and where its answer began.
#[derive(Clone, Copy)]
struct Said(Answered);

impl fmt::Display for Said {
    fn fmt<W: fmt::Write>(&self, f: &mut fmt::Formatter<W>) -> fmt::Result {
        match self.0.reply {
            Reply::More => write!(f, "more")?,
            Reply::Frame(Place::InPiece(len) | Place::InHeld { len, .. }) => {
                write!(f, "frame of {len}")?
            }
            Reply::Refused(refusal) => write!(f, "{}", Refused(refusal))?,
        }
        write!(f, " {}, taken {}", At(self.0.position), self.0.taken)
    }
}

fn is_same(p: CrsfParser, q: CrsfParser) -> bool {
    p.buffer == q.buffer && (p.start, p.end, p.position) == (q.start, q.end, q.position)
}

fn calls(rt: &impl Print, p: CrsfParser, piece: &[u8]) -> io::Result<CrsfParser> {
    let out = next_raw_packet(p, piece);
    print!(rt;
        "{}, given {}: {}, ",
        State(p),
        Brief(piece),
        Said(out.answered)
    )?;
    if is_same(p, out.parser) {
        println!(rt; "unchanged")?;
    } else {
        println!(rt; "{}", State(out.parser))?;
    }
    Ok(out.parser)
}

// C8, a length byte and zeros: where the length is right a whole frame, since its check byte is 0.
fn zeros(length: u8) -> [u8; LIMIT] {
    let mut bytes = [0; LIMIT];
    bytes[0] = 0xC8;
    bytes[1] = length;
    bytes
}

fn standing(length: u8, start: usize, end: usize, position: u64) -> CrsfParser {
    CrsfParser {
        buffer: zeros(length),
        start,
        end,
        position,
    }
}

// A parser that holds so many bytes of a frame is given so many more of them.
fn gives(rt: &impl Print, length: u8, held: usize, position: u64, count: usize) -> io::Result<()>
    requires { held + count ≤ 64 }
{
    let bytes = zeros(length);
    let p = standing(length, 0, held, position);
    calls(rt, p, &bytes[held..held + count])?;
    Ok(())
}

// 2^64 - 64, and all 63 bytes that can be numbered from there on.
fn last_places(rt: &impl Print) -> io::Result<()> {
    for (length, held, count) in [
        (61, 0, 63),
        (62, 0, 63),
        (62, 0, 64),
        (61, 62, 1),
        (61, 62, 2),
        (62, 63, 0),
        (62, 63, 1),
    ] {
        gives(rt, length, held, 18446744073709551552, count)?;
    }
    Ok(())
}

// 2^64 - 5, from where a frame of four bytes can be numbered, and 2^64 - 4.
fn last_frame(rt: &impl Print) -> io::Result<()> {
    for (held, position, count) in [
        (0, 18446744073709551611, 4),
        (2, 18446744073709551611, 2),
        (0, 18446744073709551612, 3),
        (0, 18446744073709551612, 4),
        (2, 18446744073709551612, 1),
        (2, 18446744073709551612, 2),
    ] {
        gives(rt, 2, held, position, count)?;
    }
    Ok(())
}

// 2^64 - 3 up to 2^64 - 1.
fn last_bytes(rt: &impl Print) -> io::Result<()> {
    gives(rt, 0, 0, 18446744073709551613, 2)?;
    gives(rt, 0, 1, 18446744073709551613, 1)?;
    calls(rt, standing(2, 0, 0, 18446744073709551614), &[0xFF])?;
    for (held, position, count) in [
        (1, 18446744073709551614, 0),
        (1, 18446744073709551614, 1),
        (0, u64::MAX, 0),
        (0, u64::MAX, 1),
        (1, u64::MAX, 0),
        (1, u64::MAX, 1),
    ] {
        gives(rt, 2, held, position, count)?;
    }
    Ok(())
}

// What is no state is refused before what can't be numbered.
fn no_states(rt: &impl Print) -> io::Result<()> {
    calls(rt, standing(2, 1, 0, u64::MAX), &[0])?;
    calls(rt, standing(2, 1, 0, u64::MAX), &[])?;
    calls(rt, standing(2, 0, 65, u64::MAX), &[0])?;
    Ok(())
}

// ---- Saves

fn saves(rt: &impl Print, p: CrsfParser, room: usize) -> io::Result<()> {
    print!(rt; "{}, saved in {room}", State(p))?;
    show_left(rt, room, |buffer| Written(saved::save(p, buffer)))
}

// A state with a byte beyond the last position, and what can be done with it.
fn beyond(rt: &impl Print) -> io::Result<()> {
    let p = standing(2, 0, 1, u64::MAX);
    println!(rt;
        "held {} {}, after a reset {}",
        held_len(p),
        At(position(p)),
        State(reset(p))
    )?;
    saves(rt, p, 13)?;
    saves(rt, p, 0)
}

fn rooms(rt: &impl Print) -> io::Result<()> {
    saves(rt, standing(2, 0, 0, u64::MAX), 12)?;
    for room in [0, 4, 5, 6] {
        saves(rt, standing(2, 0, 1, 128), room)?;
    }
    saves(rt, standing(2, 1, 0, 128), 6)?;
    saves(rt, standing(62, 0, 64, 0), 76)
}

// 63 held bytes from 2^64 - 64 on; and from 2^64 - 63 on, where the last of them can't be numbered.
fn longest(rt: &impl Print) -> io::Result<()> {
    let p = standing(62, 0, 63, 18446744073709551552);
    for room in [74, 75, 76] {
        saves(rt, p, room)?;
    }
    saves(rt, standing(62, 0, 63, 18446744073709551553), 76)?;
    let mut form = [0; LONGEST];
    let _ = saved::save(p, &mut form);
    restores(rt, &form)?;
    form[1] = 0xC1;
    restores(rt, &form)
}

// The other worked cases of RULES 9 and 18.
fn worked_forms(rt: &impl Print) -> io::Result<()> {
    restores(rt, &[3, 0xC8, 2, 0])?;
    restores(rt, &[0x40, 5, 3, 0xC8, 2, 0])?;
    restores(rt, &[0x40, 0])?;
    restores(rt, &[0x40, 0, 1])?;
    restores(rt, &[0x40, 0, 0, 0xC8])
}

fn worked_calls(rt: &impl Print) -> io::Result<()> {
    let mut behind = standing(2, 0, 0, 0);
    for piece in [&[0xC8, 2, 0, 0, 0x55][..], &[0x55], &[]] {
        behind = calls(rt, behind, piece)?;
    }
    let mut wrong = standing(2, 0, 2, 4);
    for piece in [&[0, 1][..], &[], &[], &[]] {
        wrong = calls(rt, wrong, piece)?;
    }
    calls(rt, standing(2, 0, 0, u64::MAX), &[0x55])?;
    Ok(())
}

pub fn cases(rt: &impl Print) -> io::Result<()> {
    worked_forms(rt)?;
    worked_calls(rt)?;
    accepted(rt)?;
    malformed(rt)?;
    cuts(rt)?;
    older(rt)?;
    last_places(rt)?;
    last_frame(rt)?;
    last_bytes(rt)?;
    no_states(rt)?;
    beyond(rt)?;
    rooms(rt)?;
    longest(rt)
}
