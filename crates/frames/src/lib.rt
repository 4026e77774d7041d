// Whole frames of records: address, length, type, payload, check byte. All or nothing, and nothing past the frame. As in the Rust, one function writes them,
// generic over the record; a second writes a new series straight from its values.
// Once the address is known to be good, the record's own writer is lent the places of the payload, behind the head and before the check byte:
// it writes there, or refuses as it would anywhere and changes no byte.
#![tactic(auto)]

mod frame;

ghost use Rattle.std.specs.Prelude.{◌≡◌, ◌∷◌};
ghost use Rattle.base.specs.Parts.{placed};
ghost use Rattle.reading.specs.Frame.{frame};
ghost use Rattle.writing.specs.Writing.{written_row, write_of};
ghost use Rattle.channels.specs.Channels.{channels_type, channel_bytes, low_bits};
ghost use Rattle.series.specs.Series.{new_image};
ghost use Rattle.frames.specs.Frames.{framed};

use channels::RcChannelsPacked;
use frame::{HEAD, OVERHEAD, seal, sealed};
use layout::CrsfPacket;
use packets::is_address;
use refusals::Refusal;
use series::valued::{Valued, write_values};

// A frame of channels: 26 bytes.
pub const CHANNELS_FRAME: usize = RcChannelsPacked::MIN_PAYLOAD_SIZE + OVERHEAD;

pub fn write_packet_to_buffer<P: CrsfPacket>(
    buffer: &mut [u8],
    dest: u8,
    packet: P,
) -> Result<usize, Refusal>
    ensures { (written_row result, buffer.new) ≡ write_of (framed dest P.PACKET_TYPE (P.image packet)) buffer.old }
{
    if !is_address(dest) {
        return Err(Refusal::BadAddress);
    }
    // No room for head and check byte: the record's own writer is lent no place, and refuses.
    if buffer.len() < OVERHEAD {
        return packet.to_bytes(&mut buffer[..0]);
    }
    let last = buffer.len() - 1;
    let written = packet.to_bytes(&mut buffer[HEAD..last]);
    sealed(buffer, dest, P::PACKET_TYPE, written)
}

// The frame of a new series straight from its values: one at least, and no more than such a record holds.
pub fn write_values_to_buffer<R: Valued + CrsfPacket>(
    buffer: &mut [u8],
    dest: u8,
    id: u8,
    values: &[R::Value],
) -> Result<usize, Refusal>
    ensures { (written_row result, buffer.new) ≡ write_of (framed dest R.PACKET_TYPE (new_image R.kind id values.now)) buffer.old }
{
    if !is_address(dest) {
        return Err(Refusal::BadAddress);
    }
    if buffer.len() < OVERHEAD {
        return write_values::<R>(&mut buffer[..0], id, values);
    }
    let last = buffer.len() - 1;
    let written = write_values::<R>(&mut buffer[HEAD..last], id, values);
    sealed(buffer, dest, R::PACKET_TYPE, written)
}

// The frame of what 11 bits have of each channel, to any byte, at the front of a buffer that has room for it; a shorter one is left as it is. For writers,
// which have tested all three.
pub fn put_rc_channels(buffer: &mut [u8], dest: u8, packet: RcChannelsPacked)
    ensures { buffer.new ≡ placed buffer.old 0 (frame dest (channels_type ∷ channel_bytes (low_bits packet.0))) }
{
    if buffer.len() < CHANNELS_FRAME {
        return;
    }
    packet.put(&mut buffer[HEAD..CHANNELS_FRAME - 1]);
    seal(
        buffer,
        dest,
        RcChannelsPacked::PACKET_TYPE,
        RcChannelsPacked::MIN_PAYLOAD_SIZE,
    );
}
