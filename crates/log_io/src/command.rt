// The arguments of the program that lists a log, what it reports on standard error, and its status.
ghost use Rattle.std.specs.Prelude.{◌≡◌, ◌≤◌};
ghost use Rattle.log_io.specs.State.{status_at};

use crate::{Stopped, list_input};
use program::{Asked, Console, Failed, Input, Source, after_print, open, print, read_arguments};

fn status_at(listed: Result<(), Stopped>) -> u8
    ensures { (result ≡ status_at listed) × (result ≤ 1) }
{
    match listed {
        Ok(()) => 0,
        Err(_) => 1,
    }
}

fn list_from(console: &Console<'_>, mut input: Input<'_>) -> u8
    ensures { result ≤ 2 }
{
    status_at(list_input(console, &mut input))
}

fn list_standard(console: &Console<'_>) -> u8
    ensures { result ≤ 2 }
{
    let input = Input {
        source: Source::Standard(console.rt.stdin()),
        name: b"standard input",
    };
    list_from(console, input)
}

fn list_file(console: &Console<'_>, path: &[u8]) -> u8
    ensures { result ≤ 2 }
{
    match open(console, path) {
        Some(input) => list_from(console, input),
        None => 1,
    }
}

fn print_help(console: &Console<'_>) -> Result<(), Failed> {
    print(
        console,
        b"usage: log [FILE]

Lists the entries of a kit log: of FILE, or of standard input where FILE is - or is not named. Each line is written as soon
as it is known:
  5 frame C8 16 22   an entry: seconds since the one before, and its frame: address, packet type, payload length
  end                the last line: the log is whole
  refused 9          the last line: a malformed number, a first number other than 1, an end inside an entry, or nothing
  refused 10         the last line: a length that is not 4 to 64, or an entry's bytes are not one whole valid frame

  --help, --version

Status: 0 if the log is whole and its lines are written, 1 if it is refused, FILE can't be opened, or a read or a write failed,
2 for bad usage.
",
    )
}

pub(crate) fn command(console: &Console<'_>) -> u8
    ensures { result ≤ 2 }
{
    let mut word = [0u8; 4096];
    match read_arguments(
        console,
        b"usage: log [FILE]; log --help says more\n",
        &mut word,
    ) {
        Asked::Input => list_standard(console),
        Asked::File(path) => list_file(console, path),
        Asked::Help => after_print(print_help(console)),
        Asked::Version => after_print(print(console, b"log 0.8.0\n")),
        Asked::Failed => 1,
        Asked::Refused => 2,
    }
}
