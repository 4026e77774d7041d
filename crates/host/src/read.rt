// Readers of payloads: a record's numbers, in the order of its fields, at the front of a lent slice. A payload that is too short is refused first,
// then a slice that is too short; nothing is written then.
ghost use Rattle.std.specs.Prelude.{◌≡◌};
ghost use Rattle.records.specs.LinkStatistics.{link_statistics_read};
ghost use Rattle.positions.specs.Gps.{gps_read};
ghost use Rattle.positions.specs.GpsExtended.{gps_extended_read};
ghost use Rattle.records.specs.Battery.{battery_read};
ghost use Rattle.records.specs.BaroAltitude.{baro_altitude_read};
ghost use Rattle.channels.specs.Channels.{channels_read};
ghost use Rattle.series.specs.Series.{series_read};
ghost use Rattle.series.specs.Rpm.{rpm_kind};
ghost use Rattle.series.specs.Temp.{temp_kind};
ghost use Rattle.series.specs.Voltages.{voltages_kind};
ghost use Rattle.host_records.specs.Read.{gives, gives_channels, gives_series};

use channels::RcChannelsPacked;
use host_answer::answer::refuse;
use host_records::{
    give_baro_altitude, give_battery, give_channels, give_gps, give_gps_extended,
    give_link_statistics, give_rpm, give_temp, give_voltages,
};
use layout::CrsfPacket;
use positions::gps::Gps;
use positions::gps_extended::GpsExtended;
use records::baro_altitude::BaroAltitude;
use records::link_statistics::LinkStatistics;

#[unsafe(no_mangle)]
pub extern "C" fn crsf_read_link_statistics(payload: &[u8], out: &mut [i32]) -> u64
    ensures { (result, out.new) ≡ gives (link_statistics_read payload.now) out.old }
{
    match LinkStatistics::from_bytes(payload) {
        Ok(x) => give_link_statistics(x, out),
        Err(refusal) => refuse(refusal),
    }
}

#[unsafe(no_mangle)]
pub extern "C" fn crsf_read_gps(payload: &[u8], out: &mut [i32]) -> u64
    ensures { (result, out.new) ≡ gives (gps_read payload.now) out.old }
{
    match Gps::from_bytes(payload) {
        Ok(x) => give_gps(x, out),
        Err(short) => refuse(short),
    }
}

#[unsafe(no_mangle)]
pub extern "C" fn crsf_read_gps_extended(payload: &[u8], out: &mut [i32]) -> u64
    ensures { (result, out.new) ≡ gives (gps_extended_read payload.now) out.old }
{
    match GpsExtended::from_bytes(payload) {
        Ok(x) => give_gps_extended(x, out),
        Err(refusal) => refuse(refusal),
    }
}

#[unsafe(no_mangle)]
pub extern "C" fn crsf_read_battery(payload: &[u8], out: &mut [i32]) -> u64
    ensures { (result, out.new) ≡ gives (battery_read payload.now) out.old }
{
    give_battery(payload, out)
}

#[unsafe(no_mangle)]
pub extern "C" fn crsf_read_baro_altitude(payload: &[u8], out: &mut [i32]) -> u64
    ensures { (result, out.new) ≡ gives (baro_altitude_read payload.now) out.old }
{
    match BaroAltitude::from_bytes(payload) {
        Ok(x) => give_baro_altitude(x, out),
        Err(refusal) => refuse(refusal),
    }
}

#[unsafe(no_mangle)]
pub extern "C" fn crsf_read_rc_channels_packed(payload: &[u8], out: &mut [u16]) -> u64
    ensures { (result, out.new) ≡ gives_channels (channels_read payload.now) out.old }
{
    match RcChannelsPacked::from_bytes(payload) {
        Ok(channels) => give_channels(channels, out),
        Err(refusal) => refuse(refusal),
    }
}

// Of a series, the values; how many they are, and the source id, stand in the answer.
#[unsafe(no_mangle)]
pub extern "C" fn crsf_read_rpm(payload: &[u8], out: &mut [i32]) -> u64
    ensures { (result, out.new) ≡ gives_series (series_read rpm_kind payload.now out.old) }
{
    give_rpm(payload, out)
}

#[unsafe(no_mangle)]
pub extern "C" fn crsf_read_temp(payload: &[u8], out: &mut [i16]) -> u64
    ensures { (result, out.new) ≡ gives_series (series_read temp_kind payload.now out.old) }
{
    give_temp(payload, out)
}

#[unsafe(no_mangle)]
pub extern "C" fn crsf_read_voltages(payload: &[u8], out: &mut [u16]) -> u64
    ensures { (result, out.new) ≡ gives_series (series_read voltages_kind payload.now out.old) }
{
    give_voltages(payload, out)
}
