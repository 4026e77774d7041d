// Standard input and output for a program that is a test: it goes on whatever becomes of a read or a write, and its status says nothing of them. Each
// part of a text (a literal, a number, the digits of a byte) is written by itself: a write that fails takes no other part with it.
ghost use Rattle.std.specs.Prelude.{◌<◌, IsOk};
ghost use Rattle.program.specs.Counts.{IsPrefixLen};

use std::fmt::{Display, Formatter};
use std::io::Read;
use std::str::from_utf8;
use std::{fmt, io};

#[derive(Clone, Copy)]
pub struct Heedless(pub HostRuntime);

// A write that fails is passed over.
impl Print for Heedless {
    fn print<D: Display + Drop>(&self, value: D) -> io::Result<()>
        ensures { IsOk result }
    {
        let mut parts = Formatter::new(*self);
        let _ = parts.write(value);
        Ok(())
    }

    fn println<D: Display + Drop>(&self, value: D) -> io::Result<()>
        ensures { IsOk result }
    {
        let mut parts = Formatter::new(*self);
        let _ = parts.writeln(value);
        Ok(())
    }

    fn write_all(&self, bytes: &[u8]) -> io::Result<()>
        ensures { IsOk result }
    {
        self.write_part(bytes);
        Ok(())
    }
}

// What a formatter gives at once is a part.
impl fmt::Write for Heedless {
    fn write_str(&mut self, part: &str) -> fmt::Result
        ensures { IsOk result }
    {
        self.write_part(part.as_bytes());
        Ok(())
    }
}

impl Heedless {
    // Writes until all is written, or until a write fails or takes nothing. An interrupted write counts as a failed one.
    fn write_part(&self, bytes: &[u8]) {
        let mut written = 0;
        while written < bytes.len() {
            match self.0.write_some(&bytes[written..]) {
                Ok(0) | Err(_) => break,
                Ok(count) => written += count,
            }
        }
    }

    // Reads until the buffer is full, the input ends or a read fails. An interrupted read counts as a failed one. How many bytes came to its front.
    pub fn fill(&self, buffer: &mut [u8]) -> usize
        ensures { IsPrefixLen result buffer.new }
    {
        let mut input = self.0.stdin();
        let mut filled = 0;
        while filled < buffer.len() {
            match input.read(&mut buffer[filled..]) {
                Ok(0) | Err(_) => break,
                Ok(count) => filled += count,
            }
        }
        filled
    }
}

// A byte in hexadecimal: its two digits are one part.
#[derive(Clone, Copy)]
pub struct Byte(pub u8);

fn digit(n: u8) -> u8
    requires { n < 16 }
{
    if n < 10 { b'0' + n } else { b'a' + (n - 10) }
}

impl Display for Byte {
    fn fmt<W: fmt::Write>(&self, f: &mut Formatter<W>) -> fmt::Result {
        let digits = [digit(self.0 / 16), digit(self.0 % 16)];
        // All are ASCII. Not `{:02x}`, which gives a zero in front as a part of its own.
        f.write_str(from_utf8(&digits).unwrap_or(""))
    }
}
