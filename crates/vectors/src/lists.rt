// What the lists answer for every byte, a line for each: the byte, whether it is an address, and the header of the packet type.
use packets::Header;
use program::heedless::Byte;
use std::io;

fn line(rt: &impl Print, byte: u8) -> io::Result<()> {
    let listed = if packets::is_address(byte) {
        " address"
    } else {
        " no"
    };
    let header = match packets::header_of(byte) {
        Header::Short => " short\n",
        Header::Extended => " extended\n",
        Header::Unlisted => " unlisted\n",
    };
    print!(rt; "{}{listed}{header}", Byte(byte))
}

pub fn every_byte(rt: &impl Print) -> io::Result<()> {
    for byte in 0..=u8::MAX {
        line(rt, byte)?;
    }
    Ok(())
}
