// Writers of whole frames: a record's numbers, each as a parameter of its own, and the frame's address. A bad address is refused first, then a
// record that can't be written, then a buffer that is too short; nothing is written then.
ghost use Rattle.std.specs.Prelude.{◌≡◌, length};
ghost use Rattle.records.specs.LinkStatistics.{link_statistics_type, link_statistics_image};
ghost use Rattle.positions.specs.Gps.{gps_type, gps_image};
ghost use Rattle.positions.specs.GpsExtended.{gps_extended_type, gps_extended_image};
ghost use Rattle.records.specs.Battery.{battery_type, battery_image};
ghost use Rattle.records.specs.BaroAltitude.{baro_altitude_type, baro_altitude_image};
ghost use Rattle.channels.specs.Channels.{channels_type, channels_count};
ghost use Rattle.series.specs.Series.{new_image};
ghost use Rattle.series.specs.Rpm.{rpm_type, rpm_kind};
ghost use Rattle.series.specs.Temp.{temp_type, temp_kind};
ghost use Rattle.series.specs.Voltages.{voltages_type, voltages_kind};
ghost use Rattle.writing.specs.Writing.{write_of};
ghost use Rattle.bursts.specs.Burst.{values_image};
ghost use Rattle.host_answer.specs.Answer.{answers};
ghost use Rattle.host.specs.Write.{link_statistics_from, gps_from, gps_extended_from, battery_from, baro_altitude_from};
ghost use Rattle.host.specs.Write.{writes, refused_for, sixteen_image};

use base::copy_in;
use channels::RcChannelsPacked;
use frames::{write_packet_to_buffer, write_values_to_buffer};
use host_answer::answer::answer_result;
use packets::is_address;
use positions::gps::Gps;
use positions::gps_extended::GpsExtended;
use records::baro_altitude::BaroAltitude;
use records::battery::Battery;
use records::link_statistics::LinkStatistics;
use refusals::Refusal;
use series::rpm::Rpm;
use series::temp::Temp;
use series::voltages::Voltages;

#[unsafe(no_mangle)]
pub extern "C" fn crsf_write_link_statistics(
    buffer: &mut [u8],
    dest: u8,
    uplink_rssi_1: u8,
    uplink_rssi_2: u8,
    uplink_link_quality: u8,
    uplink_snr: i8,
    active_antenna: u8,
    rf_mode: u8,
    uplink_tx_power: u8,
    downlink_rssi: u8,
    downlink_link_quality: u8,
    downlink_snr: i8,
) -> u64
    ensures { (result, buffer.new) ≡ writes dest link_statistics_type (link_statistics_image
        (link_statistics_from uplink_rssi_1 uplink_rssi_2 uplink_link_quality uplink_snr active_antenna rf_mode
        uplink_tx_power downlink_rssi downlink_link_quality downlink_snr)) buffer.old }
{
    answer_result(write_packet_to_buffer(
        buffer,
        dest,
        LinkStatistics {
            uplink_rssi_1,
            uplink_rssi_2,
            uplink_link_quality,
            uplink_snr,
            active_antenna,
            rf_mode,
            uplink_tx_power,
            downlink_rssi,
            downlink_link_quality,
            downlink_snr,
        },
    ))
}

#[unsafe(no_mangle)]
pub extern "C" fn crsf_write_gps(
    buffer: &mut [u8],
    dest: u8,
    latitude: i32,
    longitude: i32,
    groundspeed: u16,
    heading: u16,
    altitude: u16,
    satellites: u8,
) -> u64
    ensures { (result, buffer.new) ≡ writes dest gps_type (gps_image
        (gps_from latitude longitude groundspeed heading altitude satellites)) buffer.old }
{
    answer_result(write_packet_to_buffer(
        buffer,
        dest,
        Gps {
            latitude,
            longitude,
            groundspeed,
            heading,
            altitude,
            satellites,
        },
    ))
}

#[unsafe(no_mangle)]
pub extern "C" fn crsf_write_gps_extended(
    buffer: &mut [u8],
    dest: u8,
    fix_type: u8,
    n_speed: i16,
    e_speed: i16,
    v_speed: i16,
    h_speed_acc: i16,
    track_acc: i16,
    alt_ellipsoid: i16,
    h_acc: i16,
    v_acc: i16,
    reserved: u8,
    h_dop: u8,
    v_dop: u8,
) -> u64
    ensures { (result, buffer.new) ≡ writes dest gps_extended_type (gps_extended_image
        (gps_extended_from fix_type n_speed e_speed v_speed h_speed_acc track_acc alt_ellipsoid h_acc v_acc
        reserved h_dop v_dop)) buffer.old }
{
    answer_result(write_packet_to_buffer(
        buffer,
        dest,
        GpsExtended {
            fix_type,
            n_speed,
            e_speed,
            v_speed,
            h_speed_acc,
            track_acc,
            alt_ellipsoid,
            h_acc,
            v_acc,
            reserved,
            h_dop,
            v_dop,
        },
    ))
}

#[unsafe(no_mangle)]
pub extern "C" fn crsf_write_battery(
    buffer: &mut [u8],
    dest: u8,
    voltage: i16,
    current: i16,
    capacity_used: u32,
    remaining: u8,
    id: u8,
) -> u64
    ensures { (result, buffer.new) ≡ writes dest battery_type (battery_image
        (battery_from voltage current capacity_used remaining id)) buffer.old }
{
    answer_result(write_packet_to_buffer(
        buffer,
        dest,
        Battery {
            voltage,
            current,
            capacity_used,
            remaining,
            id,
        },
    ))
}

#[unsafe(no_mangle)]
pub extern "C" fn crsf_write_baro_altitude(
    buffer: &mut [u8],
    dest: u8,
    altitude_packed: u16,
    vertical_speed_packed: i8,
) -> u64
    ensures { (result, buffer.new) ≡ writes dest baro_altitude_type (baro_altitude_image
        (baro_altitude_from altitude_packed vertical_speed_packed)) buffer.old }
{
    answer_result(write_packet_to_buffer(
        buffer,
        dest,
        BaroAltitude {
            altitude_packed,
            vertical_speed_packed,
        },
    ))
}

const CHANNELS: usize = 16;

fn sixteen(channels: &[u16]) -> RcChannelsPacked
    requires { length channels.now ≡ channels_count }
    ensures { result ≡ record { 0 = channels.now } }
{
    let mut all = [0u16; CHANNELS];
    copy_in(&mut all, 0, channels, CHANNELS);
    RcChannelsPacked(all)
}

// The answer where there is no record to write: the address is tested first all the same.
fn no_record(dest: u8, refusal: Refusal) -> Result<usize, Refusal>
    ensures { result ≡ refused_for dest refusal }
{
    if !is_address(dest) {
        return Err(Refusal::BadAddress);
    }
    Err(refusal)
}

// Any other count of channels is refused.
#[unsafe(no_mangle)]
pub extern "C" fn crsf_write_rc_channels_packed(
    buffer: &mut [u8],
    dest: u8,
    channels: &[u16],
) -> u64
    ensures { (result, buffer.new) ≡ writes dest channels_type (sixteen_image channels.now) buffer.old }
{
    if channels.len() != CHANNELS {
        return answer_result(no_record(dest, Refusal::InvalidPayloadLength));
    }
    answer_result(write_packet_to_buffer(buffer, dest, sixteen(channels)))
}

// A burst: the frames of `count` sets of sixteen channels, which stand in one slice. More than eight sets are refused, and fewer numbers than theirs.
#[unsafe(no_mangle)]
pub extern "C" fn crsf_write_rc_channels_burst(
    buffer: &mut [u8],
    dest: u8,
    channels: &[u16],
    count: usize,
) -> u64
    ensures { (result, buffer.new) ≡ answers (write_of (values_image dest channels.now count) buffer.old) }
{
    answer_result(bursts::write_rc_channels_burst_values(buffer, dest, channels, count))
}

// No value, and more than 19, are refused.
#[unsafe(no_mangle)]
pub extern "C" fn crsf_write_rpm(
    buffer: &mut [u8],
    dest: u8,
    rpm_source_id: u8,
    rpm_values: &[i32],
) -> u64
    ensures { (result, buffer.new) ≡ writes dest rpm_type
        (new_image rpm_kind rpm_source_id rpm_values.now) buffer.old }
{
    answer_result(write_values_to_buffer::<Rpm>(buffer, dest, rpm_source_id, rpm_values))
}

// No value, and more than 20, are refused.
#[unsafe(no_mangle)]
pub extern "C" fn crsf_write_temp(
    buffer: &mut [u8],
    dest: u8,
    temp_source_id: u8,
    temperatures: &[i16],
) -> u64
    ensures { (result, buffer.new) ≡ writes dest temp_type
        (new_image temp_kind temp_source_id temperatures.now) buffer.old }
{
    answer_result(write_values_to_buffer::<Temp>(buffer, dest, temp_source_id, temperatures))
}

// No value, and more than 29, are refused.
#[unsafe(no_mangle)]
pub extern "C" fn crsf_write_voltages(
    buffer: &mut [u8],
    dest: u8,
    voltage_source_id: u8,
    voltage_values: &[u16],
) -> u64
    ensures { (result, buffer.new) ≡ writes dest voltages_type
        (new_image voltages_kind voltage_source_id voltage_values.now) buffer.old }
{
    answer_result(write_values_to_buffer::<Voltages>(
        buffer,
        dest,
        voltage_source_id,
        voltage_values,
    ))
}
