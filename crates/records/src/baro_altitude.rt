// Barometric altitude and vertical speed (0x09), 3 bytes.
ghost use Rattle.std.specs.Prelude.{◌≡◌, [], ◌∷◌, pos};
ghost use Rattle.altitude.specs.Altitude.{decimetres_of, pack_of};
ghost use Rattle.records.specs.Small.{baro_altitude_small};
ghost use Rattle.records.specs.BaroAltitude.{baro_altitude_values, baro_altitude_decoded, baro_altitude_type, baro_altitude_read, baro_altitude_image};

use altitude::Decimetres;
use layout::CrsfPacket;
use refusals::Refusal;

#[derive(Clone, Copy, PartialEq, Eq)]
pub struct BaroAltitude {
    // Above the starting point, packed: see `get_altitude_dm`.
    pub altitude_packed: u16,
    // Carried as it is.
    pub vertical_speed_packed: i8,
}

impl BaroAltitude {
    #[tactic(auto, unfolding(crate::specs::BaroAltitude::baro_altitude_values))]
    pub fn new(altitude_packed: u16, vertical_speed_packed: i8) -> Self
        ensures { baro_altitude_values result ≡ pos altitude_packed ∷ vertical_speed_packed ∷ [] }
    {
        Self {
            altitude_packed,
            vertical_speed_packed,
        }
    }

    pub fn get_altitude_dm(self) -> Decimetres
        ensures { result.0 ≡ decimetres_of self.altitude_packed }
    {
        altitude::baro_altitude(self.altitude_packed)
    }

    pub fn get_altitude_packed(altitude: Decimetres) -> u16
        ensures { result ≡ pack_of altitude.0 }
    {
        altitude::pack_altitude(altitude)
    }
}

impl CrsfPacket for BaroAltitude {
    ghost PACKET_TYPE = { baro_altitude_type };

    ghost image = { baro_altitude_image };

    ghost reads = { λ payload r. baro_altitude_decoded r ≡ baro_altitude_read payload };

    ghost small = { baro_altitude_small };

    const PACKET_TYPE: u8 = 0x09;

    const MIN_PAYLOAD_SIZE: usize = 3;

    #[tactic(auto, unfolding(crate::specs::BaroAltitude::baro_altitude_values, layout::specs::Decoded::decoded_by))]
    fn from_bytes(payload: &[u8]) -> Result<Self, Refusal> {
        if payload.len() < Self::MIN_PAYLOAD_SIZE {
            return Err(Refusal::InvalidPayloadLength);
        }
        let altitude_packed = numbers::get_u16(payload, 0);
        let vertical_speed_packed = numbers::get_i8(payload, 2);
        Ok(Self {
            altitude_packed,
            vertical_speed_packed,
        })
    }

    fn to_bytes(self, buffer: &mut [u8]) -> Result<usize, Refusal> {
        if buffer.len() < Self::MIN_PAYLOAD_SIZE {
            return Err(Refusal::BufferOverflow);
        }
        numbers::put_u16(buffer, 0, self.altitude_packed);
        numbers::put_i8(buffer, 2, self.vertical_speed_packed);
        Ok(Self::MIN_PAYLOAD_SIZE)
    }
}
