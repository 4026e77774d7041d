// Both sides of each edge of the rules, and that 0 reads as -10000 dm. What the library gives is written line by line.
ghost use Rattle.std.specs.Prelude.{◌<◌};

use crate::show::{Hex, front};
use altitude::{Decimetres, baro_altitude, pack_altitude};
use channels::RcChannelsPacked;
use layout::CrsfPacket;
use lines::line::put_held;
use listing::list_in;
use records::battery::Battery;
use std::fmt::InlineText;
use std::io::Write;
use std::{fmt, io};
use stream::LIMIT;

// Two bytes in hexadecimal, as one part of a text.
#[derive(Clone, Copy)]
struct Word(u16);

impl fmt::Display for Word {
    fn fmt<W: fmt::Write>(&self, f: &mut fmt::Formatter<W>) -> fmt::Result {
        let Word(word) = *self;
        f.write_str(InlineText::<4>::of(format_args!("{word:04x}")).as_str())
    }
}

// The listing of a whole stream.
fn gives(rt: &impl Print, input: &[u8]) -> io::Result<()> {
    print!(rt; "{}gives\n", Hex(input))?;
    let mut places = [0u8; LIMIT];
    let mut out = [0u8; 256];
    let mut stdout = io::writer(rt);
    let Ok(listed) = list_in(&mut places, 0, 0, None, input, &mut out) else {
        return Ok(());
    };
    stdout.write_all(&out[..listed.written])?;
    let n = put_held((listed.end - listed.start) as u8, &mut out, 0);
    stdout.write_all(&out[..n])
}

fn only_channel(rt: &impl Print, index: usize) -> io::Result<()>
    requires { index < 16 }
{
    let mut channels = [0u16; 16];
    channels[index] = 2047;
    let mut buffer = [0u8; 22];
    let written = RcChannelsPacked(channels).to_bytes(&mut buffer);
    println!(rt; "{}", Hex(front(written, &buffer)))
}

fn unpacked(rt: &impl Print, word: u16, expected: i32) -> io::Result<()> {
    let verdict = if baro_altitude(word).0 == expected {
        " as expected\n"
    } else {
        " DIFFERENT\n"
    };
    print!(rt; "{}{verdict}", Word(word))
}

fn battery(rt: &impl Print, id: u8) -> io::Result<()> {
    let record = Battery {
        voltage: 120,
        current: 15,
        capacity_used: 0x010203,
        remaining: 50,
        id,
    };
    let mut buffer = [0u8; 16];
    let written = record.to_bytes(&mut buffer);
    println!(rt; "{}", Hex(front(written, &buffer)))
}

pub fn cases(rt: &impl Print) -> io::Result<()> {
    gives(rt, &[0xC8, 0x02, 0x00, 0x00])?;
    gives(rt, &[0xC8, 0x02, 0x00, 0x01])?;
    gives(rt, &[0xC8, 0x01])?;
    gives(rt, &[0x00, 0x00])?;
    gives(rt, &[0xC8, 0x3F])?;
    gives(rt, &[0xC8, 0x3E])?;
    gives(rt, &[0xC8])?;
    gives(rt, &[0xC8, 0x02, 0x00, 0x00, 0x55, 0xC8, 0x02, 0x00])?;
    for index in [0, 15] {
        only_channel(rt, index)?;
    }
    for decimetres in [22767, 22768, 327655, 327656] {
        println!(rt; "{}", Word(pack_altitude(Decimetres(decimetres))))?;
    }
    for (word, expected) in [(0xFFFF, 327670), (0, -10000)] {
        unpacked(rt, word, expected)?;
    }
    for id in [0, 5] {
        battery(rt, id)?;
    }
    Ok(())
}
