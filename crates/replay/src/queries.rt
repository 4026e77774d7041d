// Addresses, headers of packet types, check bytes, altitudes.
use crate::case::Case;
use altitude::{Decimetres, baro_altitude, pack_altitude};
use base::byte_at;
use numbers::{get_i32, get_u16};
use packets::{Header, header_of, is_address};

fn header_number(header: Header) -> u8 {
    match header {
        Header::Unlisted => 0,
        Header::Short => 1,
        Header::Extended => 2,
    }
}

pub fn answers(case: &Case<'_>) -> bool {
    let bytes = case.a;
    let expected = case.c;
    match case.kind {
        3 => header_number(header_of(byte_at(bytes, 0))) == byte_at(expected, 0),
        4 => u8::from(is_address(byte_at(bytes, 0))) == byte_at(expected, 0),
        6 => pack_altitude(Decimetres(get_i32(bytes, 0))) == get_u16(expected, 0),
        7 => baro_altitude(get_u16(bytes, 0)).0 == get_i32(expected, 0),
        _ => crc::checksum(bytes) == byte_at(expected, 0),
    }
}
