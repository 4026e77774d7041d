// What is said once a log has ended: a second end, an empty piece, a byte, and an end after that.
use crate::feed::Reading;
use crate::show::{Hex, end_number};
use log_reader::Answer;
use refusals::row_of;
use std::io;

fn show_end(rt: &impl Print, reading: &mut Reading) -> io::Result<()> {
    print!(rt; ", end {}", end_number(reading.end()))
}

fn show_piece(rt: &impl Print, reading: &mut Reading, piece: &[u8]) -> io::Result<()> {
    print!(rt; ", piece {}- ", Hex(piece))?;
    let answered = reading.next(piece);
    match answered.answer {
        Answer::More => print!(rt; "more")?,
        Answer::Entry { .. } => print!(rt; "an entry")?,
        Answer::Refused(refusal) => print!(rt; "{}", row_of(refusal).number)?,
    }
    print!(rt; " taken {}", answered.taken)
}

pub fn line(rt: &impl Print, log: &[u8]) -> io::Result<()> {
    print!(rt; "{}:", Hex(log))?;
    let mut reading = Reading::new();
    let fed = reading.feed(
        log,
        4096,
        |seconds, frame| print!(rt; " {seconds} {},", Hex(frame)),
    )?;
    print!(rt; " taken {}", fed.taken)?;
    show_end(rt, &mut reading)?;
    show_end(rt, &mut reading)?;
    show_piece(rt, &mut reading, b"")?;
    show_piece(rt, &mut reading, b"\x01")?;
    show_piece(rt, &mut reading, b"")?;
    show_end(rt, &mut reading)?;
    println!(rt)
}
