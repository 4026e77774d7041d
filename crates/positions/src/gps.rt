// GPS (0x02), 15 bytes.
ghost use Rattle.std.specs.Prelude.{◌≡◌, [], ◌∷◌, pos};
ghost use Rattle.altitude.specs.Altitude.{metres_of};
ghost use Rattle.positions.specs.Small.{gps_small};
ghost use Rattle.positions.specs.Gps.{gps_values, gps_decoded, gps_type, gps_read, gps_image};

use altitude::Metres;
use layout::CrsfPacket;
use refusals::Refusal;

#[derive(Clone, Copy, PartialEq, Eq)]
pub struct Gps {
    // Degrees times 10^7.
    pub latitude: i32,
    pub longitude: i32,
    // 0.01 km/h.
    pub groundspeed: u16,
    // 0.01 degrees.
    pub heading: u16,
    // Metres with 1000 added.
    pub altitude: u16,
    pub satellites: u8,
}

impl Gps {
    #[tactic(auto, unfolding(crate::specs::Gps::gps_values))]
    pub fn new(
        latitude: i32,
        longitude: i32,
        groundspeed: u16,
        heading: u16,
        altitude: u16,
        satellites: u8,
    ) -> Self
        ensures { gps_values result ≡ latitude ∷ longitude ∷ pos groundspeed ∷ pos heading ∷ pos altitude ∷ pos satellites ∷ [] }
    {
        Self {
            latitude,
            longitude,
            groundspeed,
            heading,
            altitude,
            satellites,
        }
    }

    pub fn get_altitude_m(self) -> Metres
        ensures { result.0 ≡ metres_of self.altitude }
    {
        altitude::gps_altitude(self.altitude)
    }
}

impl CrsfPacket for Gps {
    ghost PACKET_TYPE = { gps_type };

    ghost image = { gps_image };

    ghost reads = { λ payload r. gps_decoded r ≡ gps_read payload };

    ghost small = { gps_small };

    const PACKET_TYPE: u8 = 0x02;

    const MIN_PAYLOAD_SIZE: usize = 15;

    // Bytes past the layout are ignored.
    #[tactic(auto, unfolding(crate::specs::Gps::gps_values, layout::specs::Decoded::decoded_by))]
    fn from_bytes(payload: &[u8]) -> Result<Self, Refusal> {
        if payload.len() < Self::MIN_PAYLOAD_SIZE {
            return Err(Refusal::InvalidPayloadLength);
        }
        let latitude = numbers::get_i32(payload, 0);
        let longitude = numbers::get_i32(payload, 4);
        let groundspeed = numbers::get_u16(payload, 8);
        let heading = numbers::get_u16(payload, 10);
        let altitude = numbers::get_u16(payload, 12);
        let satellites = numbers::get_u8(payload, 14);
        Ok(Self {
            latitude,
            longitude,
            groundspeed,
            heading,
            altitude,
            satellites,
        })
    }

    fn to_bytes(self, buffer: &mut [u8]) -> Result<usize, Refusal> {
        if buffer.len() < Self::MIN_PAYLOAD_SIZE {
            return Err(Refusal::BufferOverflow);
        }
        numbers::put_i32(buffer, 0, self.latitude);
        numbers::put_i32(buffer, 4, self.longitude);
        numbers::put_u16(buffer, 8, self.groundspeed);
        numbers::put_u16(buffer, 10, self.heading);
        numbers::put_u16(buffer, 12, self.altitude);
        numbers::put_u8(buffer, 14, self.satellites);
        Ok(Self::MIN_PAYLOAD_SIZE)
    }
}
