// The arguments of the program diff, what it reports, and its status.
ghost use Rattle.std.specs.Prelude.{◌≡◌, ◌≤◌, length};
ghost use Rattle.std.specs.Result.{is_ok};
ghost use Rattle.program.specs.Answers.{NamesWithin};
ghost use Rattle.diff_io.specs.State.{status_of, is_upload, status_printed};

use crate::{Found, Stopped, compare_inputs};
use program::{
    Asked, Console, Failed, Input, Source, after_print, asked_by, is_given, open_source, print, say,
};
use std::env::Env;
use std::io::Read;

const USAGE: [u8; 46] = *b"usage: diff LEFT RIGHT; diff --help says more\n";

fn print_help(console: &Console<'_>) -> Result<(), Failed> {
    print(
        console,
        b"usage: diff LEFT RIGHT

Compares two uploads of one flight, answer by answer, and writes where they differ; - is standard input. The answers are
those of list, counted from 1:
  1 frame C8 16 22 | frame C8 16 22   the first answers are frames of other bytes
  2 frame C8 16 22 | crc 00 01        the second answers: on the left a frame, on the right a wrong check byte
  3 - | sync 55                       the left upload has ended
  tail held 3 | held 0                bytes that wait at the end for the rest of a frame, compared by their bytes
  agree 9 differ 4                    the last line: how many pairs agree and differ, that of the tails included
Each line is written as soon as it is known. The one line is unopened 1, or unopened 2, if LEFT, or RIGHT, can't be opened
or is not named.

  --help, --version

Status: 0 if there is no difference, 1 if there is one, 2 if a file can't be opened, if a read or a write failed, or for bad
usage.
",
    )
}

// A read or a write that fails is told there.
fn tell_uncounted(console: &Console<'_>) {
    say(console, console.name);
    say(console, b": more pairs than can be counted\n");
}

fn status_of(ended: Result<Found, Stopped>) -> u8
    ensures { (result ≡ status_of ended) × (result ≤ 2) }
{
    match ended {
        Ok(Found::Same) => 0,
        Ok(Found::Other) => 1,
        Err(_) => 2,
    }
}

// The one line of an upload that can't be opened.
fn unopened(console: &Console<'_>, line: &[u8]) -> u8
    ensures { result ≡ 2 }
{
    let _ = print(console, line);
    2
}

// The number of the system's error of a descriptor that is closed.
const CLOSED: i32 = 9;

// A read of no bytes says whether standard input is open.
fn is_input_open(console: &Console<'_>) -> bool {
    let mut none = [0u8; 1];
    match console.rt.stdin().read(&mut none[..0]) {
        Ok(_) => true,
        Err(error) => error.raw_os_error() != Some(CLOSED),
    }
}

fn is_input(asked: Asked<'_>) -> bool {
    matches!(asked, Asked::Input)
}

// Whether standard input is there, where it is asked for. That is asked before any file is opened, which may get its number where it is closed.
fn has_input(console: &Console<'_>, left: Asked<'_>, right: Asked<'_>) -> bool {
    if is_input(left) || is_input(right) {
        return is_input_open(console);
    }
    true
}

fn open_file<'a>(console: &Console<'_>, path: &'a [u8]) -> Option<Input<'a>> {
    match open_source(console, path) {
        Ok(source) => Some(Input { source, name: path }),
        Err(_) => None,
    }
}

fn open_input<'a>(console: &Console<'_>, has_input: bool) -> Option<Input<'a>> {
    if has_input {
        return Some(Input {
            source: Source::Standard(console.rt.stdin()),
            name: b"standard input",
        });
    }
    None
}

// An upload, where it can be opened.
fn open_upload<'a>(console: &Console<'_>, asked: Asked<'a>, has_input: bool) -> Option<Input<'a>> {
    match asked {
        Asked::Input => open_input(console, has_input),
        Asked::File(path) => open_file(console, path),
        _ => None,
    }
}

// Both are opened before anything is written. Standard input is one upload at most.
pub(crate) fn compare_both(console: &Console<'_>, left: Asked<'_>, right: Asked<'_>) -> u8
    ensures { result ≤ 2 }
{
    let has_input = has_input(console, left, right);
    let Some(mut left_input) = open_upload(console, left, has_input) else {
        return unopened(console, b"unopened 1\n");
    };
    if is_input(left) && is_input(right) {
        return unopened(console, b"unopened 2\n");
    }
    let Some(mut right_input) = open_upload(console, right, has_input) else {
        return unopened(console, b"unopened 2\n");
    };
    let ended = compare_inputs(console, &mut left_input, &mut right_input);
    if matches!(ended, Err(Stopped::Uncounted)) {
        tell_uncounted(console);
    }
    status_of(ended)
}

// Argument i, which comes to the buffer. One that is missing or too long is an upload that can't be opened.
fn read_upload<'a>(console: &Console<'_>, i: usize, word: &'a mut [u8]) -> Asked<'a>
    ensures { NamesWithin (length word.old) result }
{
    match console.rt.arg(i, word) {
        Ok(len) => asked_by(console, &USAGE, &word[..len]),
        Err(_) => Asked::Failed,
    }
}

// An upload, and nothing else, is asked for.
fn is_upload(asked: Asked<'_>) -> bool
    ensures { result ≡ is_upload asked.entry }
{
    matches!(asked, Asked::Input | Asked::File(_) | Asked::Failed)
}

// The status of a text that was printed or not.
fn after_text(written: Result<(), Failed>) -> u8
    ensures { (result ≡ status_printed (is_ok written)) × (result ≤ 2) }
{
    if after_print(written) == 0 {
        return 0;
    }
    2
}

// Anything else that an argument asks for.
fn answer(console: &Console<'_>, asked: Asked<'_>) -> u8
    ensures { result ≤ 2 }
{
    match asked {
        Asked::Help => after_text(print_help(console)),
        Asked::Version => after_text(print(console, b"diff 0.8.0\n")),
        _ => 2,
    }
}

// Options are looked at before any file is opened.
pub(crate) fn command(console: &Console<'_>) -> u8
    ensures { result ≤ 2 }
{
    if is_given(console, 3) {
        say(console, console.name);
        say(console, b": more than two arguments\n");
        say(console, &USAGE);
        return 2;
    }
    let mut left_word = [0u8; 4096];
    let left = read_upload(console, 1, &mut left_word);
    if !is_upload(left) {
        return answer(console, left);
    }
    let mut right_word = [0u8; 4096];
    let right = read_upload(console, 2, &mut right_word);
    if !is_upload(right) {
        return answer(console, right);
    }
    compare_both(console, left, right)
}
