// The published vectors of the check byte, and beside what each gave what was expected: the catalogue's check value of CRC-8/DVB-S2, each frame in the doc
// comments of the Rust's src/parser.rs, and a frame with a wrong check byte (RULES 4).
use crate::show::Hex;
use program::heedless::Byte;
use std::{fmt, io};

// A remainder, and beside it another byte.
#[derive(Clone, Copy)]
struct Beside {
    calculated: u8,
    between: &'static str,
    other: u8,
}

impl fmt::Display for Beside {
    fn fmt<W: fmt::Write>(&self, f: &mut fmt::Formatter<W>) -> fmt::Result {
        let calculated = Byte(self.calculated);
        write!(
            f,
            " calculated {calculated}{}{}",
            self.between,
            Byte(self.other)
        )
    }
}

// The remainder of the bytes, beside the one that the catalogue names.
fn value(rt: &impl Print, name: &str, bytes: &[u8], expected: u8) -> io::Result<()> {
    let calculated = crc::checksum(bytes);
    let verdict = if calculated == expected {
        " same\n"
    } else {
        " DIFFERENT\n"
    };
    let beside = Beside {
        calculated,
        between: " expected ",
        other: expected,
    };
    print!(rt; "{name}{beside}{verdict}")
}

// A whole frame with no payload, as each of these is: its check byte covers the type.
fn frame(rt: &impl Print, bytes: [u8; 4]) -> io::Result<()> {
    print!(rt; "{}", Hex(&bytes))?;
    match crc::checked(&bytes[2..3], bytes[3]) {
        Ok(()) => print!(rt; "right\n"),
        Err(wrong) => {
            let beside = Beside {
                calculated: wrong.calculated,
                between: " carried ",
                other: wrong.carried,
            };
            println!(rt; "wrong{beside}")
        }
    }
}

pub fn vectors(rt: &impl Print) -> io::Result<()> {
    value(rt, "check value of 123456789:", b"123456789", 0xBC)?;
    for bytes in [[0xC8, 2, 0, 0], [0xC8, 2, 0, 0], [0xC8, 2, 0, 1]] {
        frame(rt, bytes)?;
    }
    Ok(())
}
