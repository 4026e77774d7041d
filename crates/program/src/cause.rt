// Why a call of the system failed, in words.
use crate::{Console, say};
use std::alloc::{AllocError, Global};
use std::io;

// The system's words alone: the library puts the number of the error behind them.
fn words_of(alloc: Global, error: io::Error) -> Result<String, AllocError> {
    let text = format!(in alloc; "{error}")?;
    let Some(code) = error.raw_os_error() else {
        return Ok(text);
    };
    let number = format!(in alloc; " (os error {code})")?;
    match text.strip_suffix(number.as_str()) {
        Some(words) => String::from_str(alloc, words),
        None => Ok(text),
    }
}

// Without memory for the words it says as much.
pub(crate) fn say_cause(console: &Console<'_>, error: io::Error) {
    match words_of(console.rt.alloc(), error) {
        Ok(words) => say(console, words.as_bytes()),
        Err(_) => say(console, b"out of memory"),
    }
}
