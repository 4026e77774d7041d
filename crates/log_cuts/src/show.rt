// What is printed: bytes, and the number of an end.
use program::heedless::Byte;
use refusals::{Refusal, row_of};
use std::fmt;

// Bytes in hexadecimal.
#[derive(Clone, Copy)]
pub struct Hex<'a>(pub &'a [u8]);

impl fmt::Display for Hex<'_> {
    fn fmt<W: fmt::Write>(&self, f: &mut fmt::Formatter<W>) -> fmt::Result {
        for byte in self.0 {
            fmt::Display::fmt(&Byte(*byte), f)?;
        }
        Ok(())
    }
}

// The number of an end, which is 0 where what was read is a log.
pub fn end_number(ending: Result<(), Refusal>) -> u8 {
    match ending {
        Ok(()) => 0,
        Err(refusal) => row_of(refusal).number,
    }
}
