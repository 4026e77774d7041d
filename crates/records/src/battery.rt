// Battery (0x08), 8 bytes, or 9 with an id.
ghost use Rattle.std.specs.Prelude.{◌≡◌, [], ◌∷◌, ◌≤◌, pos, length, take};
ghost use Rattle.base.specs.Parts.{pasted};
ghost use Rattle.layout.specs.Layout.{size_of, record_bytes};
ghost use Rattle.writing.specs.Writing.{written_row, write_of};
ghost use Rattle.records.specs.Small.{battery_small};
ghost use Rattle.records.specs.Battery.{short_layout, battery_values, battery_decoded, battery_type, battery_read, battery_image};

use layout::CrsfPacket;
use refusals::Refusal;

#[derive(Clone, Copy, PartialEq, Eq)]
pub struct Battery {
    // 0.1 V and 0.1 A.
    pub voltage: i16,
    pub current: i16,
    // mAh. A record may have any; one above MAX_CAPACITY is not written.
    pub capacity_used: u32,
    // Percent.
    pub remaining: u8,
    // 0 where there is none: it is then not written. The byte that is carried, as in the Rust, and so no Option.
    pub id: u8,
}

impl Battery {
    pub const SIZE_WITH_ID: usize = 9;

    // What the three bytes of a capacity hold.
    pub const MAX_CAPACITY: u32 = 0xFF_FFFF;

    // A record with no id.
    #[tactic(auto, unfolding(crate::specs::Battery::battery_values))]
    pub fn new(voltage: i16, current: i16, capacity_used: u32, remaining: u8) -> Self
        ensures { battery_values result ≡ voltage ∷ current ∷ pos capacity_used ∷ pos remaining ∷ pos 0 ∷ [] }
    {
        Self {
            voltage,
            current,
            capacity_used,
            remaining,
            id: 0,
        }
    }

    // The fields that every battery record has, bytes 0 to 7.
    fn put_short(self, buffer: &mut [u8])
        requires { size_of short_layout ≤ length buffer.old }
        ensures { buffer.new ≡ pasted buffer.old 0 (record_bytes short_layout (take 4 (battery_values self))) }
    {
        numbers::put_i16(buffer, 0, self.voltage);
        numbers::put_i16(buffer, 2, self.current);
        numbers::put_u24(buffer, 4, self.capacity_used);
        numbers::put_u8(buffer, 7, self.remaining);
    }
}

impl CrsfPacket for Battery {
    ghost PACKET_TYPE = { battery_type };

    ghost image = { battery_image };

    ghost reads = { λ payload r. battery_decoded r ≡ battery_read payload };

    ghost small = { battery_small };

    const PACKET_TYPE: u8 = 0x08;

    const MIN_PAYLOAD_SIZE: usize = 8;

    #[tactic(auto, unfolding(crate::specs::Battery::battery_values, crate::specs::Battery::battery_read, layout::specs::Decoded::decoded_by))]
    fn from_bytes(payload: &[u8]) -> Result<Self, Refusal> {
        if payload.len() < Self::MIN_PAYLOAD_SIZE {
            return Err(Refusal::InvalidPayloadLength);
        }
        let voltage = numbers::get_i16(payload, 0);
        let current = numbers::get_i16(payload, 2);
        let capacity_used = numbers::get_u24(payload, 4);
        let remaining = numbers::get_u8(payload, 7);
        if payload.len() < Self::SIZE_WITH_ID {
            return Ok(Self {
                voltage,
                current,
                capacity_used,
                remaining,
                id: 0,
            });
        }
        let id = numbers::get_u8(payload, 8);
        Ok(Self {
            voltage,
            current,
            capacity_used,
            remaining,
            id,
        })
    }

    // The trait's clause once more, at this record: the must-fail edit battery_room_first turns it.
    fn to_bytes(self, buffer: &mut [u8]) -> Result<usize, Refusal>
        ensures { (written_row result, buffer.new) ≡ write_of (battery_image self) buffer.old }
    {
        if self.capacity_used > Self::MAX_CAPACITY {
            return Err(Refusal::CapacityRange);
        }
        let id = self.id;
        if id == 0 {
            if buffer.len() < Self::MIN_PAYLOAD_SIZE {
                return Err(Refusal::BufferOverflow);
            }
            self.put_short(buffer);
            Ok(Self::MIN_PAYLOAD_SIZE)
        } else {
            if buffer.len() < Self::SIZE_WITH_ID {
                return Err(Refusal::BufferOverflow);
            }
            self.put_short(buffer);
            numbers::put_u8(buffer, 8, id);
            Ok(Self::SIZE_WITH_ID)
        }
    }
}
