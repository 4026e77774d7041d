// A line for each log: its entries, how many bytes the reader took, the number of the end; whether the cuts make a difference, and whether its entries,
// written again, are that log.
use crate::feed::read_in;
use crate::show::Hex;
use std::io;

// In pieces of 1 byte, and then of other sizes.
pub fn line(rt: &impl Print, log: &[u8]) -> io::Result<()> {
    print!(rt; "{}:", Hex(log))?;
    let seen = read_in(
        log,
        1,
        |seconds, frame| print!(rt; " {seconds} {},", Hex(frame)),
    )?;
    print!(rt; " taken {}, end {}", seen.taken, seen.end)?;
    for size in [2, 5, 16, 71, 4096] {
        if read_in(log, size, |_, _| Ok(()))? != seen {
            print!(rt; ", ANOTHER in pieces of {size}")?;
        }
    }
    if seen.end == 0 {
        let again = if seen.again.as_slice() == log {
            ", written again the same"
        } else {
            ", written again ANOTHER"
        };
        print!(rt; "{again}")?;
    }
    println!(rt)
}
