// Kit logs written and read, in several cuts. The standard input has items, each behind a byte that counts its bytes. An item is a letter and then bytes:
// `h` a heading, `w` which seconds and a frame, to be written as an entry, `r` a log to be read, `e` a log after whose end more is asked. A line for each, and a last one for
// the log of all entries. model.py made the input and the stored output, without this code.
#![tactic(auto)]

mod cuts;
mod ended;
mod feed;
mod log;
mod show;
mod written;

use log::Log;
use program::heedless::Heedless;
use std::io;
use std::io::Write;

// How much of the standard input is read.
const MOST: usize = 65536;

fn heading(rt: &impl Print, text: &[u8]) -> io::Result<()> {
    let mut out = io::writer(rt);
    out.write_all(b"-- ")?;
    out.write_all(text)?;
    out.write_all(b"\n")
}

// An item; an entry goes to the log.
fn item(rt: &impl Print, stored: &[u8], log: &mut Log) -> io::Result<()> {
    let Some((&kind, bytes)) = stored.split_first() else {
        return Ok(());
    };
    match kind {
        b'h' => heading(rt, bytes),
        b'w' => {
            let (&which, frame) = bytes.split_first().unwrap_or((&0, &[]));
            written::line(rt, which, frame, log)
        }
        b'r' => cuts::line(rt, bytes),
        b'e' => ended::line(rt, bytes),
        _ => Ok(()),
    }
}

// The log of all entries.
fn items(rt: &impl Print, all: &[u8]) -> io::Result<Log> {
    let mut log = Log::new();
    let mut rest = all;
    while let Some((&size, behind)) = rest.split_first() {
        let (stored, next) = behind.split_at(behind.len().min(usize::from(size)));
        item(rt, stored, &mut log)?;
        rest = next;
    }
    Ok(log)
}

fn report_all(rt: &impl Print, all: &[u8]) -> io::Result<()> {
    let log = items(rt, all)?;
    cuts::line(rt, log.as_slice())
}

fn main(rt: HostRuntime) {
    let rt = Heedless(rt);
    let mut input = [0u8; MOST];
    let len = rt.fill(&mut input);
    let _ = report_all(&rt, &input[..len]);
}
