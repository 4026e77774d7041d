// What every record is to the outside: a payload's bytes to a record, and back. The layouts themselves, and what a reader answers, stand in specs/, and
// their laws in proofs/.
#![tactic(auto)]

ghost use Rattle.std.specs.Prelude.{◌≡◌, ℕ, List, Result};
ghost use Rattle.refusals.specs.declared.Refusal.{Refusal};
ghost use Rattle.writing.specs.Writing.{Image, written_row, write_of};
ghost use Rattle.layout.specs.Packet.{Small};

use refusals::Refusal;

pub trait CrsfPacket: Copy {
    // The type's number in a frame.
    ghost PACKET_TYPE: { ℕ };

    // What there is to write of a record.
    ghost image: { Self → Image };

    // What a reader may answer for a payload: each record says it of its own layout.
    ghost reads: { List ℕ → Result Self Refusal → Type 0 };

    const PACKET_TYPE: u8;

    // The least payload that is read.
    const MIN_PAYLOAD_SIZE: usize;

    fn from_bytes(payload: &[u8]) -> Result<Self, Refusal>
        ensures { reads payload.now result };

    // All of the payload's bytes at the front of the buffer, or a refusal, and then no byte is changed.
    fn to_bytes(self, buffer: &mut [u8]) -> Result<usize, Refusal>
        ensures { (written_row result, buffer.new) ≡ write_of (image self) buffer.old };

    // A payload fits a frame.
    ghost small: { (x : Self) → Small (image x) };
}
