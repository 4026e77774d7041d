// Reads the standard input cut in pieces of several sizes, by a parser by value, by one that is lent to each call, and by one that is saved and restored
// after each piece: a line for each cut, with every answer. An answer is @ and its position, then a refusal's number and two values (0 where it carries
// fewer), or 0 and a frame's bytes. However the input is cut, the same answers come in the same order at the same positions, and the same bytes are
// held. model.py made the stored output, without this code.
#![tactic(auto)]

ghost use Rattle.std.specs.Prelude.{◌≤◌};
ghost use Rattle.parser.specs.Parser.{Nexts};

use numbered::Answered;
use parser::{CrsfParser, Stepped, held_len, next_raw_packet, position, reset};
use program::heedless::{Byte, Heedless};
use refusals::row_of;
use std::{fmt, io};
use stream::step::{Reply, asks_for_more};
use view::frame;

// How the parser is kept from call to call, and from piece to piece.
#[derive(Clone, Copy)]
enum Way {
    ByValue,
    Lent,
    Saved,
}

impl fmt::Display for Way {
    fn fmt<W: fmt::Write>(&self, f: &mut fmt::Formatter<W>) -> fmt::Result {
        match self {
            Way::ByValue => write!(f, "by value, "),
            Way::Lent => write!(f, "lent, "),
            Way::Saved => write!(f, "saved, "),
        }
    }
}

// Bytes in hexadecimal.
#[derive(Clone, Copy)]
struct Hex<'a>(&'a [u8]);

impl fmt::Display for Hex<'_> {
    fn fmt<W: fmt::Write>(&self, f: &mut fmt::Formatter<W>) -> fmt::Result {
        for byte in self.0 {
            fmt::Display::fmt(&Byte(*byte), f)?;
        }
        Ok(())
    }
}

// How much of the standard input is read.
const MOST: usize = 4096;

// How long a saved form is at most.
const LONGEST: usize = 75;

// Where an answer began, and the answer: what a call said of the piece, or of the held bytes' places after it.
fn print_answer(
    rt: &impl Print,
    answered: Answered,
    piece: &[u8],
    places: &[u8],
) -> io::Result<()> {
    let position = answered.position;
    let reply = answered.reply;
    match reply {
        Reply::More => Ok(()),
        Reply::Frame(_) => {
            print!(rt; "@{position} ")?;
            print!(rt; "0 {}, ", Hex(frame(reply, piece, places)))
        }
        Reply::Refused(refusal) => {
            let row = row_of(refusal);
            print!(rt; "@{position} {} {} {}, ", row.number, row.first, row.second)
        }
    }
}

// One call of a parser that is lent and handed back.
fn lend(p: CrsfParser, input: &[u8]) -> Stepped
    ensures { Nexts p input.now result }
{
    let mut q = p;
    let answered = q.next_raw_packet(input);
    Stepped {
        parser: q,
        answered,
    }
}

fn next(p: CrsfParser, way: Way, input: &[u8]) -> Stepped
    ensures { Nexts p input.now result }
{
    match way {
        Way::ByValue | Way::Saved => next_raw_packet(p, input),
        Way::Lent => lend(p, input),
    }
}

// A new parser that goes on from the saved form. Where a save or a restore is refused, a new stream begins, and the positions show it.
fn saved_and_restored(p: CrsfParser) -> CrsfParser {
    let mut form = [0u8; LONGEST];
    match saved::save(p, &mut form) {
        Ok(size) if size <= LONGEST => saved::restore(parser::new(), &form[..size]).parser,
        _ => parser::new(),
    }
}

// The parser for the next piece.
fn kept(p: CrsfParser, way: Way) -> CrsfParser {
    match way {
        Way::ByValue | Way::Lent => p,
        Way::Saved => saved_and_restored(p),
    }
}

// Calls on one piece, until the parser asks for more.
#[tactic(auto, using(parser::proofs::Held::takes_within))]
fn feed(rt: &impl Print, before: CrsfParser, way: Way, piece: &[u8]) -> io::Result<CrsfParser> {
    let mut p = before;
    let mut rest = piece;
    for _ in 0..5000 {
        let out = next(p, way, rest);
        p = out.parser;
        print_answer(rt, out.answered, rest, &p.buffer)?;
        if asks_for_more(out.answered.reply) {
            break;
        }
        rest = &rest[out.answered.taken..];
    }
    Ok(p)
}

// A new stream, whatever the parser held before.
fn feed_all(
    rt: &impl Print,
    before: CrsfParser,
    way: Way,
    input: &[u8],
    size: usize,
) -> io::Result<CrsfParser>
    requires { 1 ≤ size }
{
    let mut p = reset(before);
    for piece in input.chunks(size) {
        p = kept(feed(rt, p, way, piece)?, way);
    }
    Ok(p)
}

fn report(
    rt: &impl Print,
    before: CrsfParser,
    way: Way,
    input: &[u8],
    size: usize,
) -> io::Result<CrsfParser>
    requires { 1 ≤ size }
{
    print!(rt; "{way}{size}: ")?;
    let p = feed_all(rt, before, way, input, size)?;
    print!(rt; "{} held ", held_len(p))?;
    println!(rt; "@{}", position(p))?;
    Ok(p)
}

fn report_all(rt: &impl Print, way: Way, input: &[u8]) -> io::Result<()> {
    let mut p = parser::new();
    for size in [1, 2, 3, 7, 16, 64, 4096] {
        p = report(rt, p, way, input, size)?;
    }
    Ok(())
}

fn main(rt: HostRuntime) {
    let rt = Heedless(rt);
    let mut input = [0u8; MOST];
    let len = rt.fill(&mut input);
    for way in [Way::ByValue, Way::Lent, Way::Saved] {
        let _ = report_all(&rt, way, &input[..len]);
    }
}
