// Series at both sides of each edge: payloads that end in an unfinished value, and payloads with the least and the most that is read; counts of values
// that are made, and that are written into buffers with and without room; then values at the edges of their type.
use crate::show::{Hex, Written, front, show_left};
use frames::write_packet_to_buffer;
use layout::CrsfPacket;
use program::heedless::Byte;
use refusals::{Refusal, row_of};
use series::rpm::Rpm;
use series::temp::Temp;
use series::voltages::Voltages;
use std::io;

// What the kinds of series have in common here.
trait Series: CrsfPacket {
    // With the space after it: together they are one part of a text.
    const NAME: &'static str;

    // A record that is made of so many values, up to one more than any has.
    fn made_of(count: usize) -> Result<Self, Refusal>;

    // A record of this count, whether or not it can have so many.
    fn counted(count: usize) -> Self;

    fn count(self) -> usize;
}

impl Series for Rpm {
    const NAME: &'static str = "rpm ";

    fn made_of(count: usize) -> Result<Rpm, Refusal> {
        Rpm::new(1, &[7; 20][..count.min(20)])
    }

    fn counted(count: usize) -> Rpm {
        Rpm {
            rpm_source_id: 1,
            rpm_values: [7; 19],
            count,
        }
    }

    fn count(self) -> usize {
        self.count
    }
}

impl Series for Temp {
    const NAME: &'static str = "temp ";

    fn made_of(count: usize) -> Result<Temp, Refusal> {
        Temp::new(1, &[7; 21][..count.min(21)])
    }

    fn counted(count: usize) -> Temp {
        Temp {
            temp_source_id: 1,
            temperatures: [7; 20],
            count,
        }
    }

    fn count(self) -> usize {
        self.count
    }
}

impl Series for Voltages {
    const NAME: &'static str = "voltages ";

    fn made_of(count: usize) -> Result<Voltages, Refusal> {
        Voltages::new(1, &[7; 30][..count.min(30)])
    }

    fn counted(count: usize) -> Voltages {
        Voltages {
            voltage_source_id: 1,
            voltage_values: [7; 29],
            count,
        }
    }

    fn count(self) -> usize {
        self.count
    }
}

// How many values were read of the first bytes, and what the record then writes; or the number of the refusal.
fn read<S: Series>(rt: &impl Print, bytes: &[u8], len: usize) -> io::Result<()> {
    print!(rt; "{}{len} bytes: ", S::NAME)?;
    match S::from_bytes(&bytes[..len.min(bytes.len())]) {
        Err(refusal) => println!(rt; "refused {}", row_of(refusal).number),
        Ok(record) => {
            let mut buffer = [0u8; 64];
            let written = record.to_bytes(&mut buffer);
            println!(rt;
                "values {}, written {}",
                record.count(),
                Hex(front(written, &buffer))
            )
        }
    }
}

// How many values a record was made of, or the number of the refusal.
fn made<S: Series>(rt: &impl Print, count: usize) -> io::Result<()> {
    print!(rt; "{}{count} values: ", S::NAME)?;
    match S::made_of(count) {
        Err(refusal) => println!(rt; "refused {}", row_of(refusal).number),
        Ok(record) => println!(rt; "made of {}", record.count()),
    }
}

// A record of this count, written into a buffer of so many places.
fn counted<S: Series>(rt: &impl Print, count: usize, room: usize) -> io::Result<()> {
    print!(rt; "{}{count} counted in {room}", S::NAME)?;
    show_left(rt, room, |buffer| {
        Written(S::counted(count).to_bytes(buffer))
    })
}

// And as a frame to this destination.
fn framed<S: Series>(rt: &impl Print, count: usize, room: usize, dest: u8) -> io::Result<()> {
    print!(rt; "{}{count} framed in {room} to {}", S::NAME, Byte(dest))?;
    show_left(rt, room, |buffer| {
        Written(write_packet_to_buffer(buffer, dest, S::counted(count)))
    })
}

// What is written of a record of one value.
fn value<S: Series>(rt: &impl Print, made: Result<S, Refusal>) -> io::Result<()> {
    let mut buffer = [0u8; 16];
    let written = match made {
        Ok(record) => record.to_bytes(&mut buffer),
        Err(refusal) => Err(refusal),
    };
    println!(rt; "{}", Hex(front(written, &buffer)))
}

fn payloads(rt: &impl Print, bytes: &[u8]) -> io::Result<()> {
    for len in [0, 1, 2, 3, 4, 5, 6, 7, 58, 59, 60, 61] {
        read::<Rpm>(rt, bytes, len)?;
    }
    for len in [2, 3, 4, 41, 42, 43] {
        read::<Temp>(rt, bytes, len)?;
    }
    for len in [2, 3, 4, 59, 60, 61] {
        read::<Voltages>(rt, bytes, len)?;
    }
    Ok(())
}

fn counts(rt: &impl Print) -> io::Result<()> {
    for count in [0, 1, 19, 20] {
        made::<Rpm>(rt, count)?;
    }
    for count in [0, 1, 20, 21] {
        made::<Temp>(rt, count)?;
    }
    for count in [0, 1, 29, 30] {
        made::<Voltages>(rt, count)?;
    }
    Ok(())
}

// No room, a byte too little and just enough.
fn rooms(rt: &impl Print) -> io::Result<()> {
    for (count, room) in [
        (0, 0),
        (0, 1),
        (1, 0),
        (1, 3),
        (1, 4),
        (19, 0),
        (19, 57),
        (19, 58),
        (20, 0),
        (20, 60),
        (20, 61),
    ] {
        counted::<Rpm>(rt, count, room)?;
    }
    for (count, room) in [(0, 0), (0, 1), (1, 2), (1, 3), (20, 40), (20, 41), (21, 43)] {
        counted::<Temp>(rt, count, room)?;
    }
    for (count, room) in [(0, 0), (0, 1), (1, 2), (1, 3), (29, 58), (29, 59), (30, 61)] {
        counted::<Voltages>(rt, count, room)?;
    }
    Ok(())
}

fn frames_of_rpm(rt: &impl Print) -> io::Result<()> {
    for (count, room, dest) in [
        (0, 0, 0xC9),
        (0, 0, 0xC8),
        (0, 4, 0xC8),
        (0, 5, 0xC8),
        (1, 0, 0xC8),
        (1, 7, 0xC8),
        (1, 8, 0xC8),
        (19, 0, 0xC8),
        (19, 61, 0xC8),
        (19, 62, 0xC8),
        (20, 0, 0xC8),
        (20, 64, 0xC8),
        (20, 65, 0xC8),
    ] {
        framed::<Rpm>(rt, count, room, dest)?;
    }
    Ok(())
}

fn minimums(rt: &impl Print) -> io::Result<()> {
    let rpm = Rpm::MIN_PAYLOAD_SIZE;
    let temp = Temp::MIN_PAYLOAD_SIZE;
    let voltages = Voltages::MIN_PAYLOAD_SIZE;
    println!(rt; "minimum of rpm {rpm}, of temp {temp}, of voltages {voltages}")
}

fn values(rt: &impl Print) -> io::Result<()> {
    for rpm in [-1, -8388608, 8388607] {
        value(rt, Rpm::new(1, &[rpm]))?;
    }
    for temperature in [-1, -32768, 32767] {
        value(rt, Temp::new(1, &[temperature]))?;
    }
    for voltage in [0, 3850, 32768, 65535] {
        value(rt, Voltages::new(1, &[voltage]))?;
    }
    Ok(())
}

// 61 bytes, each one more than the one before it: a value from another place would show.
pub fn cases(rt: &impl Print) -> io::Result<()> {
    minimums(rt)?;
    payloads(
        rt,
        b"abcdefghijklmnopqrstuvwxyz{|}~\x7F\x80\x81\x82\x83\x84\x85\x86\x87\x88\x89\x8A\x8B\x8C\x8D\x8E\x8F\x90\x91\x92\x93\x94\x95\x96\x97\x98\x99\x9A\x9B\x9C\x9D",
    )?;
    counts(rt)?;
    rooms(rt)?;
    frames_of_rpm(rt)?;
    values(rt)
}
