// The two tables of sixteen entries. Each is a `match`, which lies in read-only memory, where an array would be stored to the stack each time that
// it is bound. Two tables, and so two functions.
ghost use Rattle.std.specs.Prelude.{◌≡◌, ◌*◌, ◌<◌};
ghost use Rattle.crc.specs.Remainder.{shifts};

// What eight shifts make of a register of four bits, ..
fn low(i: u8) -> u8
    requires { i < 16 }
    ensures { result ≡ shifts 8 i }
{
    match i {
        0 => 0x00,
        1 => 0xD5,
        2 => 0x7F,
        3 => 0xAA,
        4 => 0xFE,
        5 => 0x2B,
        6 => 0x81,
        7 => 0x54,
        8 => 0x29,
        9 => 0xFC,
        10 => 0x56,
        11 => 0x83,
        12 => 0xD7,
        13 => 0x02,
        14 => 0xA8,
        _ => 0x7D,
    }
}

// .. and of one that has them in its upper half.
fn high(i: u8) -> u8
    requires { i < 16 }
    ensures { result ≡ shifts 8 (i * 16) }
{
    match i {
        0 => 0x00,
        1 => 0x52,
        2 => 0xA4,
        3 => 0xF6,
        4 => 0x9D,
        5 => 0xCF,
        6 => 0x39,
        7 => 0x6B,
        8 => 0xEF,
        9 => 0xBD,
        10 => 0x4B,
        11 => 0x19,
        12 => 0x72,
        13 => 0x20,
        14 => 0xD6,
        _ => 0x84,
    }
}

// What eight shifts make of any register: times x^8.
pub(crate) fn shifted(i: u8) -> u8
    ensures { result ≡ shifts 8 i }
{
    high(i / 16) ^ low(i % 16)
}
