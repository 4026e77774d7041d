// The arguments of the listing programs, what they report on standard error, and their status.
ghost use Rattle.std.specs.Prelude.{◌≡◌, ◌≤◌};
ghost use Rattle.listing_io.specs.State.{status_at};

use crate::{Stopped, list_input};
use program::{
    Asked, Console, Failed, Input, Source, after_print, open, print, read_arguments, say,
};

// A read or a write that fails is told there.
fn tell_unnumbered(console: &Console<'_>, input: &[u8]) {
    say(console, console.name);
    say(console, b": ");
    say(console, input);
    say(console, b": more bytes than there are positions\n");
}

fn status_of(ended: Result<u8, Stopped>) -> u8
    ensures value { result ≡ status_at ended }
    ensures upper_bound { result ≤ 2 }
{
    match ended {
        Ok(_) => 0,
        Err(_) => 1,
    }
}

fn list_from(console: &Console<'_>, mut input: Input<'_>, is_numbered: bool) -> u8
    ensures { result ≤ 2 }
{
    let ended = list_input(console, &mut input, is_numbered);
    if matches!(ended, Err(Stopped::Unnumbered)) {
        tell_unnumbered(console, input.name);
    }
    status_of(ended)
}

fn list_standard(console: &Console<'_>, is_numbered: bool) -> u8
    ensures { result ≤ 2 }
{
    let input = Input {
        source: Source::Standard(console.rt.stdin()),
        name: b"standard input",
    };
    list_from(console, input, is_numbered)
}

fn list_file(console: &Console<'_>, is_numbered: bool, path: &[u8]) -> u8
    ensures { result ≤ 2 }
{
    match open(console, path) {
        Some(input) => list_from(console, input, is_numbered),
        None => 1,
    }
}

fn print_purpose(console: &Console<'_>, is_numbered: bool) -> Result<(), Failed> {
    if is_numbered {
        return print(
            console,
            b"usage: where [FILE]

Lists the CRSF frames of an upload, or of standard input where FILE is - or is not named, as list does, and says of each
line where it begins, in bytes from 0. Each line is written as soon as it is known:
  0 frame C8 16 22   a frame: address, packet type, payload length
  26 sync 55         a byte that is not an address
  27 length 00       after an address, a length byte that is not 2 to 62
  28 crc 00 01       the check byte should be the first and is the second
  99 held 3          the last line: the input has ended, and this many bytes, from there on, wait for the rest of a frame
An upload of 2^64 bytes or more has no such last line, and the status is 1.
",
        );
    }
    print(
        console,
        b"usage: list [FILE]

Lists the CRSF frames of an upload, or of standard input where FILE is - or is not named. Each line is written as soon
as it is known:
  frame C8 16 22   a frame: address, packet type, payload length
  sync 55          a byte that is not an address
  length 3F        after an address, a length byte that is not 2 to 62
  crc 00 01        the check byte should be the first and is the second
  held 3           the last line: the input has ended, and this many bytes wait for the rest of a frame
",
    )
}

fn print_help(console: &Console<'_>, is_numbered: bool) -> Result<(), Failed> {
    print_purpose(console, is_numbered)?;
    print(
        console,
        b"
  --help, --version

Status: 0 if everything was read and written, 1 if FILE can't be opened or a read or a write failed, 2 for bad usage.
",
    )
}

// A program: whether it puts positions before its lines, and what it says of its usage and its version.
pub(crate) fn command(console: &Console<'_>, is_numbered: bool, usage: &[u8], version: &[u8]) -> u8
    ensures { result ≤ 2 }
{
    let mut word = [0u8; 4096];
    match read_arguments(console, usage, &mut word) {
        Asked::Input => list_standard(console, is_numbered),
        Asked::File(path) => list_file(console, is_numbered, path),
        Asked::Help => after_print(print_help(console, is_numbered)),
        Asked::Version => after_print(print(console, version)),
        Asked::Failed => 1,
        Asked::Refused => 2,
    }
}
