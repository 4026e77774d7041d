// GPS extended (0x06), 20 bytes.
ghost use Rattle.std.specs.Prelude.{◌≡◌, [], ◌∷◌, ◌≤◌, pos, length, take, drop};
ghost use Rattle.base.specs.Parts.{pasted};
ghost use Rattle.layout.specs.Layout.{size_of, record_bytes};
ghost use Rattle.positions.specs.Small.{gps_extended_small};
ghost use Rattle.positions.specs.GpsExtended.{gps_extended_layout, gps_extended_values, gps_extended_decoded, gps_extended_type, gps_extended_read, gps_extended_image};

use layout::CrsfPacket;
use refusals::Refusal;

#[derive(Clone, Copy, PartialEq, Eq)]
pub struct GpsExtended {
    // Quality of the fix.
    pub fix_type: u8,
    // cm/s, north, east and up positive.
    pub n_speed: i16,
    pub e_speed: i16,
    pub v_speed: i16,
    // cm/s.
    pub h_speed_acc: i16,
    // 0.1 degrees.
    pub track_acc: i16,
    // Metres above the ellipsoid.
    pub alt_ellipsoid: i16,
    // cm.
    pub h_acc: i16,
    pub v_acc: i16,
    pub reserved: u8,
    // 0.1.
    pub h_dop: u8,
    pub v_dop: u8,
}

impl GpsExtended {
    #[tactic(auto, unfolding(crate::specs::GpsExtended::gps_extended_values))]
    pub fn new(
        fix_type: u8,
        n_speed: i16,
        e_speed: i16,
        v_speed: i16,
        h_speed_acc: i16,
        track_acc: i16,
        alt_ellipsoid: i16,
        h_acc: i16,
        v_acc: i16,
        reserved: u8,
        h_dop: u8,
        v_dop: u8,
    ) -> Self
        ensures { gps_extended_values result
            ≡ pos fix_type ∷ n_speed ∷ e_speed ∷ v_speed ∷ h_speed_acc ∷ track_acc
            ∷ alt_ellipsoid ∷ h_acc ∷ v_acc ∷ pos reserved ∷ pos h_dop ∷ pos v_dop ∷ [] }
    {
        Self {
            fix_type,
            n_speed,
            e_speed,
            v_speed,
            h_speed_acc,
            track_acc,
            alt_ellipsoid,
            h_acc,
            v_acc,
            reserved,
            h_dop,
            v_dop,
        }
    }

    // The first six fields, bytes 0 to 10.
    fn put_speeds(self, buffer: &mut [u8])
        requires { size_of gps_extended_layout ≤ length buffer.old }
        ensures { buffer.new
            ≡ pasted buffer.old 0 (record_bytes (take 6 gps_extended_layout) (take 6 (gps_extended_values self))) }
    {
        numbers::put_u8(buffer, 0, self.fix_type);
        numbers::put_i16(buffer, 1, self.n_speed);
        numbers::put_i16(buffer, 3, self.e_speed);
        numbers::put_i16(buffer, 5, self.v_speed);
        numbers::put_i16(buffer, 7, self.h_speed_acc);
        numbers::put_i16(buffer, 9, self.track_acc);
    }

    // The other six, bytes 11 to 19.
    fn put_places(self, buffer: &mut [u8])
        requires { size_of gps_extended_layout ≤ length buffer.old }
        ensures { buffer.new
            ≡ pasted buffer.old 11 (record_bytes (drop 6 gps_extended_layout) (drop 6 (gps_extended_values self))) }
    {
        numbers::put_i16(buffer, 11, self.alt_ellipsoid);
        numbers::put_i16(buffer, 13, self.h_acc);
        numbers::put_i16(buffer, 15, self.v_acc);
        numbers::put_u8(buffer, 17, self.reserved);
        numbers::put_u8(buffer, 18, self.h_dop);
        numbers::put_u8(buffer, 19, self.v_dop);
    }
}

impl CrsfPacket for GpsExtended {
    ghost PACKET_TYPE = { gps_extended_type };

    ghost image = { gps_extended_image };

    ghost reads = { λ payload r. gps_extended_decoded r ≡ gps_extended_read payload };

    ghost small = { gps_extended_small };

    const PACKET_TYPE: u8 = 0x06;

    const MIN_PAYLOAD_SIZE: usize = 20;

    #[tactic(auto, unfolding(crate::specs::GpsExtended::gps_extended_values, layout::specs::Decoded::decoded_by))]
    fn from_bytes(payload: &[u8]) -> Result<Self, Refusal> {
        if payload.len() < Self::MIN_PAYLOAD_SIZE {
            return Err(Refusal::InvalidPayloadLength);
        }
        let fix_type = numbers::get_u8(payload, 0);
        let n_speed = numbers::get_i16(payload, 1);
        let e_speed = numbers::get_i16(payload, 3);
        let v_speed = numbers::get_i16(payload, 5);
        let h_speed_acc = numbers::get_i16(payload, 7);
        let track_acc = numbers::get_i16(payload, 9);
        let alt_ellipsoid = numbers::get_i16(payload, 11);
        let h_acc = numbers::get_i16(payload, 13);
        let v_acc = numbers::get_i16(payload, 15);
        let reserved = numbers::get_u8(payload, 17);
        let h_dop = numbers::get_u8(payload, 18);
        let v_dop = numbers::get_u8(payload, 19);
        Ok(Self {
            fix_type,
            n_speed,
            e_speed,
            v_speed,
            h_speed_acc,
            track_acc,
            alt_ellipsoid,
            h_acc,
            v_acc,
            reserved,
            h_dop,
            v_dop,
        })
    }

    fn to_bytes(self, buffer: &mut [u8]) -> Result<usize, Refusal> {
        if buffer.len() < Self::MIN_PAYLOAD_SIZE {
            return Err(Refusal::BufferOverflow);
        }
        self.put_speeds(buffer);
        self.put_places(buffer);
        Ok(Self::MIN_PAYLOAD_SIZE)
    }
}
