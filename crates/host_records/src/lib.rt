// The numbers of a record, at the front of a lent slice. Each record says its own, and hands them out in one line: a trait for that would have as many
// impls.
#![tactic(auto)]

ghost use Rattle.std.specs.Prelude.{◌≡◌, ◌<◌};
ghost use Rattle.positions.specs.Gps.{gps_values};
ghost use Rattle.positions.specs.GpsExtended.{gps_extended_values};
ghost use Rattle.records.specs.LinkStatistics.{link_statistics_values};
ghost use Rattle.records.specs.Battery.{battery_values, battery_read, too_large};
ghost use Rattle.records.specs.BaroAltitude.{baro_altitude_values};
ghost use Rattle.series.specs.Series.{series_read};
ghost use Rattle.series.specs.Rpm.{rpm_kind};
ghost use Rattle.series.specs.Temp.{temp_kind};
ghost use Rattle.series.specs.Voltages.{voltages_kind};
ghost use Rattle.host_answer.specs.Answer.{packed, in_bytes};
ghost use Rattle.host_records.specs.Read.{given_short, given_all, gives, answer_series, gives_series};

use base::{copy_in, narrow};
use channels::RcChannelsPacked;
use host_answer::answer::{HostAnswer, count, pack, refuse};
use layout::CrsfPacket;
use positions::gps::Gps;
use positions::gps_extended::GpsExtended;
use records::baro_altitude::BaroAltitude;
use records::battery::Battery;
use records::link_statistics::LinkStatistics;
use refusals::Refusal;
use series::Series;
use series::rpm::Rpm;
use series::temp::Temp;
use series::voltages::Voltages;

// All of the values, and how many they are.
fn give_all<T: Copy>(values: &[T], out: &mut [T]) -> u64
    ensures { (result, out.new) ≡ given_short values.now out.old }
{
    let size = values.len();
    if out.len() < size {
        return refuse(Refusal::BufferOverflow);
    }
    copy_in(out, 0, values, size);
    count(size)
}

#[tactic(auto, unfolding(records::specs::LinkStatistics::link_statistics_values))]
fn link_statistics_values(x: LinkStatistics) -> [i32; 10]
    ensures { result ≡ link_statistics_values x }
{
    [
        i32::from(x.uplink_rssi_1),
        i32::from(x.uplink_rssi_2),
        i32::from(x.uplink_link_quality),
        i32::from(x.uplink_snr),
        i32::from(x.active_antenna),
        i32::from(x.rf_mode),
        i32::from(x.uplink_tx_power),
        i32::from(x.downlink_rssi),
        i32::from(x.downlink_link_quality),
        i32::from(x.downlink_snr),
    ]
}

pub fn give_link_statistics(x: LinkStatistics, out: &mut [i32]) -> u64
    ensures { (result, out.new) ≡ given_all (link_statistics_values x) out.old }
{
    give_all(&link_statistics_values(x), out)
}

#[tactic(auto, unfolding(positions::specs::Gps::gps_values))]
fn gps_values(x: Gps) -> [i32; 6]
    ensures { result ≡ gps_values x }
{
    [
        x.latitude,
        x.longitude,
        i32::from(x.groundspeed),
        i32::from(x.heading),
        i32::from(x.altitude),
        i32::from(x.satellites),
    ]
}

pub fn give_gps(x: Gps, out: &mut [i32]) -> u64
    ensures { (result, out.new) ≡ given_all (gps_values x) out.old }
{
    give_all(&gps_values(x), out)
}

#[tactic(auto, unfolding(positions::specs::GpsExtended::gps_extended_values))]
fn gps_extended_values(x: GpsExtended) -> [i32; 12]
    ensures { result ≡ gps_extended_values x }
{
    [
        i32::from(x.fix_type),
        i32::from(x.n_speed),
        i32::from(x.e_speed),
        i32::from(x.v_speed),
        i32::from(x.h_speed_acc),
        i32::from(x.track_acc),
        i32::from(x.alt_ellipsoid),
        i32::from(x.h_acc),
        i32::from(x.v_acc),
        i32::from(x.reserved),
        i32::from(x.h_dop),
        i32::from(x.v_dop),
    ]
}

pub fn give_gps_extended(x: GpsExtended, out: &mut [i32]) -> u64
    ensures { (result, out.new) ≡ given_all (gps_extended_values x) out.old }
{
    give_all(&gps_extended_values(x), out)
}

#[tactic(auto, unfolding(records::specs::Battery::battery_values))]
fn battery_values(x: Battery) -> [i32; 5]
    requires { x.capacity_used < too_large }
    ensures { result ≡ battery_values x }
{
    [
        i32::from(x.voltage),
        i32::from(x.current),
        x.capacity_used as i32,
        i32::from(x.remaining),
        i32::from(x.id),
    ]
}

// Of a payload: a capacity that was read has room in an i32, while one of any record may not.
pub fn give_battery(payload: &[u8], out: &mut [i32]) -> u64
    ensures { (result, out.new) ≡ gives (battery_read payload.now) out.old }
{
    match Battery::from_bytes(payload) {
        Ok(x) => give_all(&battery_values(x), out),
        Err(refusal) => refuse(refusal),
    }
}

#[tactic(auto, unfolding(records::specs::BaroAltitude::baro_altitude_values))]
fn baro_altitude_values(x: BaroAltitude) -> [i32; 2]
    ensures { result ≡ baro_altitude_values x }
{
    [
        i32::from(x.altitude_packed),
        i32::from(x.vertical_speed_packed),
    ]
}

pub fn give_baro_altitude(x: BaroAltitude, out: &mut [i32]) -> u64
    ensures { (result, out.new) ≡ given_all (baro_altitude_values x) out.old }
{
    give_all(&baro_altitude_values(x), out)
}

pub fn give_channels(channels: RcChannelsPacked, out: &mut [u16]) -> u64
    ensures { (result, out.new) ≡ given_all channels.0 out.old }
{
    give_all(&channels.0, out)
}

// How many values of a series were read, and the source id; or the refusal.
fn answer_series(read: Result<Series, Refusal>) -> u64
    ensures { result ≡ packed (in_bytes (answer_series read)) }
{
    match read {
        Ok(Series { id, count }) => pack(HostAnswer {
            number: 0,
            taken: 0,
            in_state: 0,
            at: 0,
            len: narrow(count),
            first: id,
            second: 0,
        }),
        Err(refusal) => refuse(refusal),
    }
}

// The values of a payload go straight to the slice.
pub fn give_rpm(payload: &[u8], out: &mut [i32]) -> u64
    ensures { (result, out.new) ≡ gives_series (series_read rpm_kind payload.now out.old) }
{
    answer_series(Rpm::read_values(payload, out))
}

pub fn give_temp(payload: &[u8], out: &mut [i16]) -> u64
    ensures { (result, out.new) ≡ gives_series (series_read temp_kind payload.now out.old) }
{
    answer_series(Temp::read_values(payload, out))
}

pub fn give_voltages(payload: &[u8], out: &mut [u16]) -> u64
    ensures { (result, out.new) ≡ gives_series (series_read voltages_kind payload.now out.old) }
{
    answer_series(Voltages::read_values(payload, out))
}
