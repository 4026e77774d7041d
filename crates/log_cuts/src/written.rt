// Entries as they are written, and the log of them all.
use crate::log::Log;
use crate::show::Hex;
use base::part_of;
use log_writer::put_entry;
use refusals::row_of;
use std::io;

// No entry is longer.
const LONGEST: usize = 72;

// Both sides of the numbers of one group and of two, and the ends.
fn seconds_of(which: u8) -> u32 {
    match which {
        0 => 0,
        1 => 127,
        2 => 128,
        3 => 16383,
        4 => 16384,
        _ => u32::MAX,
    }
}

// The entry in so many bytes, or the number of the refusal. How many bytes it has; none where it is refused.
fn show_in(rt: &impl Print, seconds: u32, frame: &[u8], room: usize) -> io::Result<usize> {
    let mut space = [0u8; LONGEST];
    let space = &mut space[..room.min(LONGEST)];
    match put_entry(seconds, frame, space) {
        Ok(n) => {
            print!(rt; "{}", Hex(part_of(space, 0, n)))?;
            Ok(n)
        }
        Err(refusal) => {
            print!(rt; "{}", row_of(refusal).number)?;
            Ok(0)
        }
    }
}

// The same, after words that say how many bytes there are.
fn show_room(rt: &impl Print, seconds: u32, frame: &[u8], room: usize) -> io::Result<usize> {
    print!(rt; ", in {room} bytes ")?;
    show_in(rt, seconds, frame, room)
}

// One entry: as written where there is room, with one byte less, and in no bytes. It goes to the log of all entries.
pub fn line(rt: &impl Print, which: u8, frame: &[u8], log: &mut Log) -> io::Result<()> {
    let seconds = seconds_of(which);
    print!(rt; "{seconds} {}: ", Hex(frame))?;
    let n = show_in(rt, seconds, frame, LONGEST)?;
    if 0 < n {
        show_room(rt, seconds, frame, n - 1)?;
    }
    show_room(rt, seconds, frame, 0)?;
    log.push(seconds, frame);
    println!(rt)
}
