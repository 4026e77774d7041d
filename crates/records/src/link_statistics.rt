// Link statistics (0x14), 10 bytes. Uplink is from the ground to the aircraft.
ghost use Rattle.std.specs.Prelude.{◌≡◌, [], ◌∷◌, ◌≤◌, pos, length, take, drop};
ghost use Rattle.base.specs.Parts.{pasted};
ghost use Rattle.layout.specs.Layout.{size_of, record_bytes};
ghost use Rattle.records.specs.Small.{link_statistics_small};
ghost use Rattle.records.specs.LinkStatistics.{link_statistics_layout, link_statistics_values, link_statistics_decoded, link_statistics_type, link_statistics_read, link_statistics_image};

use layout::CrsfPacket;
use refusals::Refusal;

#[derive(Clone, Copy, PartialEq, Eq)]
pub struct LinkStatistics {
    // dBm times -1.
    pub uplink_rssi_1: u8,
    pub uplink_rssi_2: u8,
    // Percent.
    pub uplink_link_quality: u8,
    // dB.
    pub uplink_snr: i8,
    pub active_antenna: u8,
    // 0 is 4 frames per second, 1 is 50, 2 is 150.
    pub rf_mode: u8,
    // 0 is 0 mW, 1 is 10, 2 is 25, 3 is 100, 4 is 500, 5 is 1000, 6 is 2000, 7 is 250, 8 is 50.
    pub uplink_tx_power: u8,
    pub downlink_rssi: u8,
    pub downlink_link_quality: u8,
    pub downlink_snr: i8,
}

impl LinkStatistics {
    #[tactic(auto, unfolding(crate::specs::LinkStatistics::link_statistics_values))]
    pub fn new(
        uplink_rssi_1: u8,
        uplink_rssi_2: u8,
        uplink_link_quality: u8,
        uplink_snr: i8,
        active_antenna: u8,
        rf_mode: u8,
        uplink_tx_power: u8,
        downlink_rssi: u8,
        downlink_link_quality: u8,
        downlink_snr: i8,
    ) -> Self
        ensures { link_statistics_values result
            ≡ pos uplink_rssi_1 ∷ pos uplink_rssi_2 ∷ pos uplink_link_quality ∷ uplink_snr ∷ pos active_antenna
            ∷ pos rf_mode ∷ pos uplink_tx_power ∷ pos downlink_rssi ∷ pos downlink_link_quality ∷ downlink_snr ∷ [] }
    {
        Self {
            uplink_rssi_1,
            uplink_rssi_2,
            uplink_link_quality,
            uplink_snr,
            active_antenna,
            rf_mode,
            uplink_tx_power,
            downlink_rssi,
            downlink_link_quality,
            downlink_snr,
        }
    }

    // The first five fields, bytes 0 to 4.
    fn put_first_five(self, buffer: &mut [u8])
        requires { size_of link_statistics_layout ≤ length buffer.old }
        ensures { buffer.new
            ≡ pasted buffer.old 0 (record_bytes (take 5 link_statistics_layout) (take 5 (link_statistics_values self))) }
    {
        numbers::put_u8(buffer, 0, self.uplink_rssi_1);
        numbers::put_u8(buffer, 1, self.uplink_rssi_2);
        numbers::put_u8(buffer, 2, self.uplink_link_quality);
        numbers::put_i8(buffer, 3, self.uplink_snr);
        numbers::put_u8(buffer, 4, self.active_antenna);
    }

    // The other five, bytes 5 to 9.
    fn put_other_five(self, buffer: &mut [u8])
        requires { size_of link_statistics_layout ≤ length buffer.old }
        ensures { buffer.new
            ≡ pasted buffer.old 5 (record_bytes (drop 5 link_statistics_layout) (drop 5 (link_statistics_values self))) }
    {
        numbers::put_u8(buffer, 5, self.rf_mode);
        numbers::put_u8(buffer, 6, self.uplink_tx_power);
        numbers::put_u8(buffer, 7, self.downlink_rssi);
        numbers::put_u8(buffer, 8, self.downlink_link_quality);
        numbers::put_i8(buffer, 9, self.downlink_snr);
    }
}

impl CrsfPacket for LinkStatistics {
    ghost PACKET_TYPE = { link_statistics_type };

    ghost image = { link_statistics_image };

    ghost reads = { λ payload r. link_statistics_decoded r ≡ link_statistics_read payload };

    ghost small = { link_statistics_small };

    const PACKET_TYPE: u8 = 0x14;

    const MIN_PAYLOAD_SIZE: usize = 10;

    #[tactic(auto, unfolding(crate::specs::LinkStatistics::link_statistics_values, layout::specs::Decoded::decoded_by))]
    fn from_bytes(payload: &[u8]) -> Result<Self, Refusal> {
        if payload.len() < Self::MIN_PAYLOAD_SIZE {
            return Err(Refusal::InvalidPayloadLength);
        }
        let uplink_rssi_1 = numbers::get_u8(payload, 0);
        let uplink_rssi_2 = numbers::get_u8(payload, 1);
        let uplink_link_quality = numbers::get_u8(payload, 2);
        let uplink_snr = numbers::get_i8(payload, 3);
        let active_antenna = numbers::get_u8(payload, 4);
        let rf_mode = numbers::get_u8(payload, 5);
        let uplink_tx_power = numbers::get_u8(payload, 6);
        let downlink_rssi = numbers::get_u8(payload, 7);
        let downlink_link_quality = numbers::get_u8(payload, 8);
        let downlink_snr = numbers::get_i8(payload, 9);
        Ok(Self {
            uplink_rssi_1,
            uplink_rssi_2,
            uplink_link_quality,
            uplink_snr,
            active_antenna,
            rf_mode,
            uplink_tx_power,
            downlink_rssi,
            downlink_link_quality,
            downlink_snr,
        })
    }

    fn to_bytes(self, buffer: &mut [u8]) -> Result<usize, Refusal> {
        if buffer.len() < Self::MIN_PAYLOAD_SIZE {
            return Err(Refusal::BufferOverflow);
        }
        self.put_first_five(buffer);
        self.put_other_five(buffer);
        Ok(Self::MIN_PAYLOAD_SIZE)
    }
}
