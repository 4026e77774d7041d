// Records read from payloads, the refusal or every field, and written as frames from fields, the refusal or the count, and the whole buffer afterwards.
ghost use Rattle.std.specs.Prelude.{◌≡◌};

use crate::case::{Case, Expected, has_number};
use crate::fields::Fields;
use base::byte_at;
use channels::RcChannelsPacked;
use frames::write_packet_to_buffer;
use layout::CrsfPacket;
use positions::gps::Gps;
use positions::gps_extended::GpsExtended;
use records::baro_altitude::BaroAltitude;
use records::battery::Battery;
use records::link_statistics::LinkStatistics;
use refusals::Refusal;
use std::array;

// A record whose fields stand in a case.
pub trait Recorded: CrsfPacket + PartialEq {
    fn of(f: Fields<'_>) -> Self;
}

impl Recorded for LinkStatistics {
    fn of(f: Fields<'_>) -> LinkStatistics {
        LinkStatistics {
            uplink_rssi_1: f.u8(0),
            uplink_rssi_2: f.u8(1),
            uplink_link_quality: f.u8(2),
            uplink_snr: f.i8(3),
            active_antenna: f.u8(4),
            rf_mode: f.u8(5),
            uplink_tx_power: f.u8(6),
            downlink_rssi: f.u8(7),
            downlink_link_quality: f.u8(8),
            downlink_snr: f.i8(9),
        }
    }
}

impl Recorded for RcChannelsPacked {
    fn of(f: Fields<'_>) -> RcChannelsPacked {
        RcChannelsPacked(array::from_fn(|i| f.u16(i)))
    }
}

impl Recorded for Gps {
    fn of(f: Fields<'_>) -> Gps {
        Gps {
            latitude: f.i32(0),
            longitude: f.i32(1),
            groundspeed: f.u16(2),
            heading: f.u16(3),
            altitude: f.u16(4),
            satellites: f.u8(5),
        }
    }
}

impl Recorded for GpsExtended {
    fn of(f: Fields<'_>) -> GpsExtended {
        GpsExtended {
            fix_type: f.u8(0),
            n_speed: f.i16(1),
            e_speed: f.i16(2),
            v_speed: f.i16(3),
            h_speed_acc: f.i16(4),
            track_acc: f.i16(5),
            alt_ellipsoid: f.i16(6),
            h_acc: f.i16(7),
            v_acc: f.i16(8),
            reserved: f.u8(9),
            h_dop: f.u8(10),
            v_dop: f.u8(11),
        }
    }
}

impl Recorded for Battery {
    fn of(f: Fields<'_>) -> Battery {
        Battery {
            voltage: f.i16(0),
            current: f.i16(1),
            capacity_used: f.u32(2),
            remaining: f.u8(3),
            id: f.u8(4),
        }
    }
}

impl Recorded for BaroAltitude {
    fn of(f: Fields<'_>) -> BaroAltitude {
        BaroAltitude {
            altitude_packed: f.u16(0),
            vertical_speed_packed: f.i8(1),
        }
    }
}

pub fn reads<P: Recorded>(case: &Case<'_>) -> bool {
    let number = case.expected.number;
    match P::from_bytes(case.a) {
        Err(refusal) => has_number(refusal, number),
        Ok(record) => number == 0 && record == P::of(Fields(case.c)),
    }
}

fn is_expected(e: Expected, written: Result<usize, Refusal>) -> bool {
    match written {
        Ok(n) => e.number == 0 && usize::from(e.len) == n,
        Err(refusal) => has_number(refusal, e.number),
    }
}

// Whether a writer, given the destination, says and leaves what is expected. The second part has the destination, and the byte that fills the buffer;
// the buffer is as long as the expected one.
pub fn is_written<F: FnOnce(&mut [u8], u8) -> Result<usize, Refusal>>(
    case: &Case<'_>,
    write: F,
) -> bool
    requires { F.IsAlwaysCallable write }
{
    let mut places = [byte_at(case.b, 1); 80];
    let Some(buffer) = places.get_mut(..case.c.len()) else {
        return false;
    };
    is_expected(case.expected, write(buffer, byte_at(case.b, 0))) && *buffer == *case.c
}

pub fn writes<P: Recorded>(case: &Case<'_>) -> bool {
    let record = P::of(Fields(case.a));
    is_written(case, |buffer, dest| {
        write_packet_to_buffer(buffer, dest, record)
    })
}
