// Bursts of channels: none, one, eight and nine sets, into buffers that they fill, into those with a place less and into longer ones, to an address and
// to a byte that is none; with a channel of 2048 in the first set, in the last that is counted and in one beyond; and numbers that are too few, enough and
// more.
ghost use Rattle.std.specs.Prelude.{◌<◌, ◌≤◌};

use crate::show::show_left;
use bursts::{write_rc_channels_burst, write_rc_channels_burst_values};
use program::heedless::Byte;
use refusals::{Refusal, row_of};
use std::{fmt, io};

// After a colon, how many bytes were written, or the refusal and what it carries.
#[derive(Clone, Copy)]
struct Written(Result<usize, Refusal>);

impl fmt::Display for Written {
    fn fmt<W: fmt::Write>(&self, f: &mut fmt::Formatter<W>) -> fmt::Result {
        match self.0 {
            Ok(n) => write!(f, ": bytes {n}"),
            Err(refusal) => {
                let row = row_of(refusal);
                write!(f, ": refused {} {} {}", row.number, row.first, row.second)
            }
        }
    }
}

fn burst(
    rt: &impl Print,
    sets: [[u16; 16]; 8],
    count: usize,
    dest: u8,
    room: usize,
) -> io::Result<()> {
    print!(rt; "sets {count} to {} in {room}", Byte(dest))?;
    show_left(rt, room, |buffer| {
        Written(write_rc_channels_burst(buffer, dest, sets, count))
    })
}

// The first so many of these numbers.
fn numbers(
    rt: &impl Print,
    channels: &[u16; 128],
    len: usize,
    count: usize,
    dest: u8,
) -> io::Result<()>
    requires { len ≤ 128 }
{
    let room = 27;
    print!(rt; "numbers {len} sets {count} to {} in {room}", Byte(dest))?;
    let channels = &channels[..len];
    show_left(rt, room, |buffer| {
        Written(write_rc_channels_burst_values(buffer, dest, channels, count))
    })
}

fn in_range(rt: &impl Print, sets: [[u16; 16]; 8]) -> io::Result<()> {
    for (count, dest, room) in [
        (0, 0xC8, 0),
        (0, 0xC8, 2),
        (0, 0xC9, 2),
        (1, 0xC8, 0),
        (1, 0xC8, 25),
        (1, 0xC8, 26),
        (1, 0xC8, 27),
        (2, 0xEE, 51),
        (2, 0xEE, 52),
        (8, 0xC8, 0),
        (8, 0xC8, 207),
        (8, 0xC8, 208),
        (8, 0xC8, 210),
        (8, 0xC9, 207),
        (9, 0xC8, 2),
        (9, 0xC8, 210),
        (9, 0xC9, 2),
    ] {
        burst(rt, sets, count, dest, room)?;
    }
    Ok(())
}

// With one channel of 2048 more, which stays.
fn above(rt: &impl Print, sets: &mut [[u16; 16]; 8], set: usize, channel: usize) -> io::Result<()>
    requires set { set < 8 }
    requires channel { channel < 16 }
{
    sets[set][channel] = 2048;
    println!(rt; "2048 as channel {channel} of set {set}")?;
    for (count, dest, room) in [
        (1, 0xC8, 26),
        (2, 0xC8, 51),
        (2, 0xC9, 52),
        (7, 0xC8, 182),
        (8, 0xC8, 208),
        (9, 0xC8, 2),
    ] {
        burst(rt, *sets, count, dest, room)?;
    }
    Ok(())
}

fn counted(rt: &impl Print) -> io::Result<()> {
    let mut channels = [992u16; 128];
    for (len, count) in [(15, 1), (16, 1), (17, 1), (31, 2), (32, 2), (127, 8)] {
        numbers(rt, &channels, len, count, 0xC8)?;
    }
    for (len, count, dest) in [
        (15, 1, 0xC9),
        (0, 0, 0xC8),
        (0, 1152921504606846976, 0xC8),
        (16, 18446744073709551615, 0xC8),
    ] {
        numbers(rt, &channels, len, count, dest)?;
    }
    channels[16] = 2048;
    numbers(rt, &channels, 17, 1, 0xC8)?;
    numbers(rt, &channels, 32, 2, 0xC8)
}

pub fn cases(rt: &impl Print) -> io::Result<()> {
    let steps = [
        0, 1, 2, 4, 8, 16, 32, 64, 128, 256, 512, 1024, 2046, 2047, 992, 172,
    ];
    let sets = [
        steps, [2047; 16], [0; 16], [992; 16], [1365; 16], [682; 16], [1024; 16], [1811; 16],
    ];
    in_range(rt, sets)?;
    for (set, channel) in [(0, 0), (1, 15)] {
        let mut one = sets;
        above(rt, &mut one, set, channel)?;
    }
    let mut more = sets;
    for (set, channel) in [(7, 3), (2, 0), (1, 15)] {
        above(rt, &mut more, set, channel)?;
    }
    counted(rt)
}
