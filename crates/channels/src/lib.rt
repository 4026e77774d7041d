// RC channels (0x16): sixteen channels of 11 bits in 22 bytes.
#![tactic(auto)]

ghost use Rattle.std.specs.Prelude.{◌≡◌, ◌+◌, ◌*◌, ◌≤◌, ◌<◌, length, get_or};
ghost use Rattle.base.specs.Parts.{part, pasted, placed};
ghost use Rattle.layout.specs.Decoded.{read_row, read_record};
ghost use Rattle.channels.specs.Digits.{Below, digits};
ghost use Rattle.channels.specs.Small.{channels_small};
ghost use Rattle.channels.specs.Channels.{channels_type, channels_of, channel_bytes, channels_count, channels_size, no_channels, channels_read, low_bits, place_above, channels_image};

use layout::CrsfPacket;
use refusals::Refusal;

const COUNT: usize = 16;

// The greatest number of 11 bits.
const GREATEST: u16 = 2047;

// Raw channel values. Those up to 2047 can be written.
#[derive(Clone, Copy, PartialEq, Eq)]
pub struct RcChannelsPacked(pub [u16; COUNT]);

// Channel `i` starts at bit 11 i and lies within three bytes.
fn channel_of(payload: &[u8], i: usize) -> u16
    requires { i < 16 }
    ensures { result ≡ get_or (channels_of payload.now) i 0 }
{
    let bit = i * 11;
    let at = bit / 8;
    let low = u32::from(base::byte_at(payload, at));
    let middle = u32::from(base::byte_at(payload, at + 1));
    let high = u32::from(base::byte_at(payload, at + 2));
    let window = low + middle * 256 + high * 65536;
    ((window >> (bit % 8)) % 2048) as u16
}

// Channels that can be written: each is a number of 11 bits.
#[derive(Clone, Copy)]
struct ElevenBits {
    channels: [u16; COUNT],
    ghost below: { Below 11 channels },
}

impl ElevenBits {
    fn at(&self, i: usize) -> u64
        requires { i < channels_count }
        ensures { (result ≡ get_or self.now.channels i 0) × (result < 2048) }
    {
        u64::from(self.channels[i])
    }

    // The 33 bits of three channels.
    fn three(&self, at: usize) -> u64
        requires { at + 2 < channels_count }
        ensures { (result ≡ get_or self.now.channels at 0 + get_or self.now.channels (at + 1) 0 * 2048 + get_or self.now.channels (at + 2) 0 * 4194304) × (result < 8589934592) }
    {
        self.at(at) + self.at(at + 1) * 2048 + self.at(at + 2) * 4194304
    }

    // The first six bytes as one number: 33 bits of three channels, and 15 of the next.
    fn first_word(&self) -> u64
        ensures { digits 8 6 result ≡ part (channel_bytes self.now.channels) 0 6 }
    {
        self.three(0) + self.three(3) % 32768 * 8589934592
    }

    // The eight bytes behind them: what is left of channel 4 on, and two bits of channel 10.
    fn middle_word(&self) -> u64
        ensures { digits 8 8 result ≡ part (channel_bytes self.now.channels) 6 8 }
    {
        self.three(4) / 16 + self.three(7) * 536870912 + self.at(10) % 4 * 4611686018427387904
    }

    // The last eight bytes: what is left of channel 10 on.
    fn last_word(&self) -> u64
        ensures { digits 8 8 result ≡ part (channel_bytes self.now.channels) 14 8 }
    {
        self.three(10) / 4 + self.three(13) * 2147483648
    }

    // The 22 bytes: six, eight and eight.
    fn put(&self, buffer: &mut [u8])
        requires { channels_size ≤ length buffer.old }
        ensures { buffer.new ≡ pasted buffer.old 0 (channel_bytes self.now.channels) }
    {
        buffer[..6].copy_from_slice(&self.first_word().to_le_bytes()[..6]);
        buffer[6..14].copy_from_slice(&self.middle_word().to_le_bytes());
        buffer[14..22].copy_from_slice(&self.last_word().to_le_bytes());
    }
}

// What 11 bits have of each channel. By place, and not by `map`: so the compiler takes eight channels at a time, and `map` each on its own.
fn low_bits(channels: [u16; COUNT]) -> [u16; COUNT]
    ensures { result ≡ low_bits channels }
{
    let mut low = [0u16; COUNT];
    for i in 0..COUNT {
        low[i] = channels[i] % 2048;
    }
    low
}

impl RcChannelsPacked {
    pub const COUNT: usize = COUNT;

    // The place of the first channel above 2047.
    pub fn first_above(self) -> Option<usize>
        ensures { result ≡ place_above self.0 }
    {
        self.0.iter().position(|channel| *channel > GREATEST)
    }

    #[tactic(auto, using(crate::proofs::Laws::low_below))]
    fn low_bits(self) -> ElevenBits
        ensures { result.channels ≡ low_bits self.0 }
    {
        ElevenBits {
            channels: low_bits(self.0),
        }
    }

    // What 11 bits have of each channel, at the front of a buffer that has room for it; a shorter one is left as it is. For writers, which have
    // tested both.
    pub fn put(self, buffer: &mut [u8])
        ensures { buffer.new ≡ placed buffer.old 0 (channel_bytes (low_bits self.0)) }
    {
        let room = buffer.len();
        if room < Self::MIN_PAYLOAD_SIZE {
            return;
        }
        self.low_bits().put(buffer);
    }
}

impl CrsfPacket for RcChannelsPacked {
    ghost PACKET_TYPE = { channels_type };

    ghost image = { channels_image };

    ghost reads = { λ payload r. (read_row r, read_record no_channels r) ≡ channels_read payload };

    ghost small = { channels_small };

    const PACKET_TYPE: u8 = 0x16;

    const MIN_PAYLOAD_SIZE: usize = 22;

    fn from_bytes(payload: &[u8]) -> Result<RcChannelsPacked, Refusal> {
        if payload.len() < Self::MIN_PAYLOAD_SIZE {
            return Err(Refusal::InvalidPayloadLength);
        }
        let whole = &payload[..Self::MIN_PAYLOAD_SIZE];
        let mut channels = [0u16; COUNT];
        for (i, channel) in channels.iter_mut().enumerate() {
            *channel = channel_of(whole, i);
        }
        Ok(RcChannelsPacked(channels))
    }

    fn to_bytes(self, buffer: &mut [u8]) -> Result<usize, Refusal> {
        if let Some(bad) = self.first_above() {
            return Err(Refusal::ChannelRange(bad));
        }
        if buffer.len() < Self::MIN_PAYLOAD_SIZE {
            return Err(Refusal::BufferOverflow);
        }
        let channels = self.0;
        ElevenBits { channels }.put(buffer);
        Ok(Self::MIN_PAYLOAD_SIZE)
    }
}
