// What the arguments of a program ask for: one argument, and all of a program that takes one file.
ghost use Rattle.std.specs.Prelude.{◌≡◌, length};
ghost use Rattle.program.specs.Answers.{asked_by, NamesWithin};

use crate::words::is_option;
use crate::{Console, say, tell};
use base::is_same;
use std::env::{Env, FillError};
use std::io;

// The number of the system's error of a name that is too long.
const TOO_LONG: i32 = 36;

// What is asked.
#[derive(Clone, Copy)]
pub enum Asked<'a> {
    // To read standard input.
    Input,
    // To read the file of that name.
    File(&'a [u8]),
    Help,
    Version,
    // An argument that can't be read.
    Failed,
    // Bad usage, as standard error says.
    Refused,
}

// Bad usage.
fn refuse<'a>(console: &Console<'_>, usage: &[u8]) -> Asked<'a>
    ensures { result ≡ Asked.Refused }
{
    say(console, usage);
    Asked::Refused
}

fn refuse_option<'a>(console: &Console<'_>, usage: &[u8], word: &[u8]) -> Asked<'a>
    ensures { result ≡ Asked.Refused }
{
    say(console, console.name);
    say(console, b": there is no option ");
    say(console, word);
    say(console, b"\n");
    refuse(console, usage)
}

// What one argument asks for. Standard error names an unknown option, and has the usage line behind that.
#[tactic(auto, unfolding(crate::specs::Answers::asked_by))]
pub fn asked_by<'a>(console: &Console<'_>, usage: &[u8], word: &'a [u8]) -> Asked<'a>
    ensures { result ≡ asked_by word.entry }
{
    if is_same(word, b"-") {
        return Asked::Input;
    }
    if is_same(word, b"--help") {
        return Asked::Help;
    }
    if is_same(word, b"--version") {
        return Asked::Version;
    }
    if is_option(word) {
        return refuse_option(console, usage, word);
    }
    Asked::File(word)
}

// Whether there is an argument of that number. The program's name is number 0.
pub fn is_given(console: &Console<'_>, number: usize) -> bool {
    let mut front = [0u8; 1];
    !matches!(
        console.rt.arg(number, &mut front),
        Err(FillError::NotPresent)
    )
}

// The first argument, where there is one. It comes to the buffer.
fn read_argument<'a>(console: &Console<'_>, usage: &[u8], word: &'a mut [u8]) -> Asked<'a>
    ensures { NamesWithin (length word.old) result }
{
    match console.rt.arg(1, word) {
        Ok(len) => asked_by(console, usage, &word[..len]),
        Err(FillError::NotPresent) => Asked::Input,
        Err(FillError::TooLong) => {
            let error = io::Error::from_raw_os_error(TOO_LONG);
            tell(console, b"the argument", error);
            Asked::Failed
        }
    }
}

// What the arguments ask for. The first comes to the buffer.
pub fn read_arguments<'a>(console: &Console<'_>, usage: &[u8], word: &'a mut [u8]) -> Asked<'a>
    ensures { NamesWithin (length word.old) result }
{
    if !is_given(console, 2) {
        return read_argument(console, usage, word);
    }
    say(console, console.name);
    say(console, b": more than one argument\n");
    refuse(console, usage)
}
