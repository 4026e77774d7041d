// What is printed more than once: bytes, a refusal, what a writer says and leaves, and a parser's state.
use parser::CrsfParser;
use program::heedless::Byte;
use refusals::{Refusal, row_of};
use std::{fmt, io};

// Bytes in hexadecimal, with a space behind each.
#[derive(Clone, Copy)]
pub struct Hex<'a>(pub &'a [u8]);

impl fmt::Display for Hex<'_> {
    fn fmt<W: fmt::Write>(&self, f: &mut fmt::Formatter<W>) -> fmt::Result {
        for byte in self.0 {
            write!(f, "{} ", Byte(*byte))?;
        }
        Ok(())
    }
}

// The bytes, or how many there are if they are many.
#[derive(Clone, Copy)]
pub struct Brief<'a>(pub &'a [u8]);

impl fmt::Display for Brief<'_> {
    fn fmt<W: fmt::Write>(&self, f: &mut fmt::Formatter<W>) -> fmt::Result {
        match self.0.len() {
            0 => write!(f, "nothing "),
            1..=16 => write!(f, "{}", Hex(self.0)),
            n => write!(f, "{n} bytes "),
        }
    }
}

// A refusal, with what it carries.
#[derive(Clone, Copy)]
pub struct Refused(pub Refusal);

impl fmt::Display for Refused {
    fn fmt<W: fmt::Write>(&self, f: &mut fmt::Formatter<W>) -> fmt::Result {
        let row = row_of(self.0);
        write!(f, "refused {} {} {}", row.number, row.first, row.second)
    }
}

// A position.
#[derive(Clone, Copy)]
pub struct At(pub u64);

impl fmt::Display for At {
    fn fmt<W: fmt::Write>(&self, f: &mut fmt::Formatter<W>) -> fmt::Result {
        write!(f, "@{}", self.0)
    }
}

// After a colon, how many bytes were written, or the number of the refusal.
#[derive(Clone, Copy)]
pub struct Written(pub Result<usize, Refusal>);

impl fmt::Display for Written {
    fn fmt<W: fmt::Write>(&self, f: &mut fmt::Formatter<W>) -> fmt::Result {
        match self.0 {
            Ok(n) => write!(f, ": bytes {n}"),
            Err(refusal) => write!(f, ": refused {}", row_of(refusal).number),
        }
    }
}

// What a parser holds, and where it stands.
#[derive(Clone, Copy)]
pub struct State(pub CrsfParser);

impl fmt::Display for State {
    fn fmt<W: fmt::Write>(&self, f: &mut fmt::Formatter<W>) -> fmt::Result {
        let p = self.0;
        match p.buffer.get(p.start..p.end) {
            Some(held) => write!(f, "holds {}{}", Brief(held), At(p.position)),
            None => write!(f, "start {} end {} {}", p.start, p.end, At(p.position)),
        }
    }
}

// The bytes that were written; none where it was refused.
pub fn front(written: Result<usize, Refusal>, buffer: &[u8]) -> &[u8] {
    match written {
        Ok(n) => buffer.get(..n).unwrap_or(&[]),
        Err(_) => &[],
    }
}

// What stands in a buffer before it is written.
pub const BEFORE: u8 = 0xEE;

// No buffer has more places.
const PLACES: usize = 210;

// What a writer says, given a buffer of so many places, and what the buffer then has.
pub fn show_left<S: fmt::Display + Drop, F: FnOnce(&mut [u8]) -> S>(
    rt: &impl Print,
    room: usize,
    write: F,
) -> io::Result<()>
    requires { F.IsAlwaysCallable write }
{
    let mut places = [BEFORE; PLACES];
    let buffer = &mut places[..room.min(PLACES)];
    let said = write(buffer);
    println!(rt; "{said}, left {}", Hex(buffer))
}
