// Questions about bytes and altitudes. These have plain answers.
ghost use Rattle.std.specs.Prelude.{◌≡◌};
ghost use Rattle.altitude.specs.Altitude.{metres_of, decimetres_of, pack_of};
ghost use Rattle.crc.specs.Remainder.{remainder};
ghost use Rattle.packets.specs.Listed.{listed, header_of};
ghost use Rattle.host.specs.Query.{header_number};

use altitude::Decimetres;
use packets::Header;

#[unsafe(no_mangle)]
pub extern "C" fn crsf_is_address(byte: u8) -> bool
    ensures { result ≡ listed byte }
{
    packets::is_address(byte)
}

// 0 unlisted, 1 short, 2 extended.
#[tactic(auto, unfolding(crate::specs::Query::header_number))]
#[unsafe(no_mangle)]
pub extern "C" fn crsf_header_of(packet_type: u8) -> u8
    ensures { result ≡ header_number (header_of packet_type) }
{
    match packets::header_of(packet_type) {
        Header::Unlisted => 0,
        Header::Short => 1,
        Header::Extended => 2,
    }
}

// The check byte of a type and its payload.
#[unsafe(no_mangle)]
pub extern "C" fn crsf_checksum(bytes: &[u8]) -> u8
    ensures { result ≡ remainder bytes.now }
{
    crc::checksum(bytes)
}

// Decimetres as a barometric record carries them.
#[unsafe(no_mangle)]
pub extern "C" fn crsf_pack_altitude(decimetres: i32) -> u16
    ensures { result ≡ pack_of decimetres }
{
    altitude::pack_altitude(Decimetres(decimetres))
}

// What a barometric record carries, in decimetres.
#[unsafe(no_mangle)]
pub extern "C" fn crsf_baro_decimetres(packed: u16) -> i32
    ensures { result ≡ decimetres_of packed }
{
    altitude::baro_altitude(packed).0
}

// What a GPS record carries, in metres.
#[unsafe(no_mangle)]
pub extern "C" fn crsf_gps_metres(raw: u16) -> i32
    ensures { result ≡ metres_of raw }
{
    altitude::gps_altitude(raw).0
}
