// Batteries at both sides of the largest capacity that 24 bits hold, with an id and without: payloads and frames, to an address and to a byte that is
// none, into buffers that they fill and into those with a place less; and frames into buffers with and without room for head and check byte.
use crate::show::{Written, show_left};
use frames::write_packet_to_buffer;
use layout::CrsfPacket;
use program::heedless::Byte;
use records::battery::Battery;
use std::io;

fn payload(rt: &impl Print, record: Battery, room: usize) -> io::Result<()> {
    print!(rt;
        "battery {} id {} written in {room}",
        record.capacity_used, record.id
    )?;
    show_left(rt, room, |buffer| Written(record.to_bytes(buffer)))
}

fn framed(rt: &impl Print, record: Battery, room: usize, dest: u8) -> io::Result<()> {
    print!(rt;
        "battery {} id {} framed in {room} to {}",
        record.capacity_used,
        record.id,
        Byte(dest)
    )?;
    show_left(rt, room, |buffer| {
        Written(write_packet_to_buffer(buffer, dest, record))
    })
}

// Of 8 bytes, as it is newly made, and of 9.
fn capacity(rt: &impl Print, capacity_used: u32) -> io::Result<()> {
    let short = Battery::new(120, 15, capacity_used, 50);
    for room in [8, 7] {
        payload(rt, short, room)?;
    }
    for (room, dest) in [(12, 0xC8), (11, 0xC8), (12, 0xC9), (11, 0xC9)] {
        framed(rt, short, room, dest)?;
    }
    let long = Battery { id: 5, ..short };
    for room in [9, 8] {
        payload(rt, long, room)?;
    }
    for (room, dest) in [
        (13, 0xC8),
        (12, 0xC8),
        (13, 0xC9),
        (12, 0xC9),
        (0, 0xC8),
        (3, 0xC8),
        (4, 0xC8),
        (3, 0xC9),
    ] {
        framed(rt, long, room, dest)?;
    }
    Ok(())
}

pub fn cases(rt: &impl Print) -> io::Result<()> {
    for capacity_used in [16777215, 16777216, 4294967295] {
        capacity(rt, capacity_used)?;
    }
    Ok(())
}
