// What every program for people shares: text on standard output, bytes from a file or from standard input, what failed and why on standard error, and
// what the arguments ask for. What the system does with a read or a write, and which arguments there are, is outside any contract. A read or a write
// that a signal interrupted is asked again. The programs that are tests have theirs in `heedless`.
#![tactic(auto)]

mod argument;
mod cause;
pub mod heedless;
mod source;
pub mod words;

ghost use Rattle.std.specs.Prelude.{◌≡◌, ◌≤◌, OnOk, IfOk};
ghost use Rattle.std.specs.Result.{is_ok};
ghost use Rattle.program.specs.Counts.{IsPrefixLen};
ghost use Rattle.std.specs.Io.KnownBytes.{Appends};
ghost use Rattle.program.specs.Answers.{printed};

pub use argument::{Asked, asked_by, is_given, read_arguments};
pub use source::{Input, Source, open_source};
use std::io;
use std::io::{ErrorKind, Read, Write};

// What a program speaks to: the system, and the program's name, which stands before what it says on standard error.
#[derive(Clone, Copy)]
pub struct Console<'a> {
    pub rt: &'a HostRuntime,
    pub name: &'a [u8],
}

// A read or a write that failed. The cause is told by then.
#[derive(Clone, Copy)]
pub enum Failed {
    Read,
    Write,
}

// Writes all of the bytes.
pub fn write_text<W: Write>(to: &mut W, bytes: &[u8]) -> io::Result<()>
    ensures { OnOk result (Appends (W.contents to.old) (W.contents to.new) bytes.now) }
{
    to.write_all(bytes)
}

// .. to standard output. Where that fails the cause is told.
pub fn print(console: &Console<'_>, text: &[u8]) -> Result<(), Failed> {
    match write_text(&mut console.rt.stdout(), text) {
        Ok(()) => Ok(()),
        Err(error) => {
            tell(console, b"standard output", error);
            Err(Failed::Write)
        }
    }
}

// One read: how many bytes it brought to the front of the piece, none where the input has ended. Where it fails the cause is told. The loop counts its
// turns, to a number that no run uses up.
pub fn read_some(
    console: &Console<'_>,
    input: &mut Input<'_>,
    piece: &mut [u8],
) -> Result<usize, Failed>
    ensures { IfOk result (λ count. IsPrefixLen count piece.new) }
{
    for _ in 0..u64::MAX {
        match input.source.read(piece) {
            Ok(count) => return Ok(count),
            Err(error) => {
                if error.kind() != ErrorKind::Interrupted {
                    tell(console, input.name, error);
                    return Err(Failed::Read);
                }
            }
        }
    }
    Err(Failed::Read)
}

// Text on standard error. What becomes of it changes nothing.
pub fn say(console: &Console<'_>, text: &[u8]) {
    let _ = write_text(&mut console.rt.stderr(), text);
}

// What failed, and why.
pub fn tell(console: &Console<'_>, what: &[u8], error: io::Error) {
    say(console, console.name);
    say(console, b": ");
    say(console, what);
    say(console, b": ");
    cause::say_cause(console, error);
    say(console, b"\n");
}

// Opens a file to read. Where that fails the cause is told.
pub fn open<'a>(console: &Console<'_>, path: &'a [u8]) -> Option<Input<'a>> {
    match open_source(console, path) {
        Ok(source) => Some(Input { source, name: path }),
        Err(error) => {
            tell(console, path, error);
            None
        }
    }
}

// The status of a text that was printed or not.
pub fn after_print(written: Result<(), Failed>) -> u8
    ensures { (result ≡ printed (is_ok written)) × (result ≤ 1) }
{
    match written {
        Ok(()) => 0,
        Err(_) => 1,
    }
}
