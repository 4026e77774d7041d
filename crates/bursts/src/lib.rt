// A burst: RC channels of up to eight sets as frames one after another. All or nothing, and nothing past the last frame.
#![tactic(auto)]

ghost use Rattle.std.specs.Prelude.{◌≡◌, ◌+◌, ◌*◌, ◌≤◌, length};
ghost use Rattle.base.specs.Parts.{part, pasted};
ghost use Rattle.reading.specs.Frame.{joined};
ghost use Rattle.writing.specs.Writing.{written_row, write_of};
ghost use Rattle.channels.specs.Channels.{channels_count, place_above};
ghost use Rattle.bursts.specs.Burst.{most_sets, frame_size, first_bad, set_bad, place_bad, set_frames, burst_image, sixteens, values_image};

use base::copy_in;
use channels::RcChannelsPacked;
use frames::{CHANNELS_FRAME, put_rc_channels};
use packets::is_address;
use refusals::Refusal;

// The most sets of one burst.
pub const SETS: usize = 8;

const CHANNELS: usize = RcChannelsPacked::COUNT;

// The channels of so many sets.
const ALL: usize = SETS * CHANNELS;

// The set that begins at a place.
fn set_at(channels: &[u16], at: usize) -> RcChannelsPacked
    requires { at + channels_count ≤ length channels.now }
    ensures { result ≡ record { 0 = part channels.now at channels_count } }
{
    let mut set = [0u16; CHANNELS];
    // Not `copy_from_slice`, which tests whether the two overlap, and brings the set through memory.
    copy_in(&mut set, 0, &channels[at..at + CHANNELS], CHANNELS);
    RcChannelsPacked(set)
}

// The place of the first counted set with a channel above 2047. No more is asked of a set here: so its sixteen channels take one test, and not a test each.
// The count stands beside the numbers, as a host gives it.
fn bad_set(channels: &[u16], count: usize) -> Option<usize>
    requires { (count ≤ most_sets) × (count * channels_count ≤ length channels.now) }
    ensures { result ≡ set_bad (sixteens count channels.now) }
{
    for k in 0..count {
        if set_at(channels, k * CHANNELS).first_above().is_some() {
            return Some(k);
        }
    }
    None
}

// The place of the first channel above 2047 in the set that begins at a place. Never inlined: so the test of all sets keeps no channel for it.
#[inline(never)]
fn above_at(channels: &[u16], at: usize) -> Option<usize>
    requires { at + channels_count ≤ length channels.now }
    ensures { result ≡ place_above (part channels.now at channels_count) }
{
    set_at(channels, at).first_above()
}

// .. with the place of its first such channel.
fn first_bad(channels: &[u16], count: usize) -> Option<(usize, usize)>
    requires { (count ≤ most_sets) × (count * channels_count ≤ length channels.now) }
    ensures { result ≡ place_bad (sixteens count channels.now) }
{
    let set = bad_set(channels, count)?;
    let channel = above_at(channels, set * CHANNELS)?;
    Some((set, channel))
}

// The frames of the counted sets, each in its place.
fn put_sets(buffer: &mut [u8], dest: u8, channels: &[u16], count: usize)
    requires count_le_most_sets { (count ≤ most_sets) × (count * channels_count ≤ length channels.now) }
    requires frame_size_in_bounds { (count * frame_size ≤ length buffer.old) × (count ≤ first_bad (sixteens count channels.now)) }
    ensures { buffer.new ≡ pasted buffer.old 0 (joined (set_frames dest (sixteens count channels.now))) }
{
    for k in 0..count {
        let at = k * CHANNELS_FRAME;
        put_rc_channels(&mut buffer[at..], dest, set_at(channels, k * CHANNELS));
    }
}

// The channels stand in one slice, set behind set. Every one of the counted sets is tested before a byte is written; what stands behind them is not
// looked at.
pub fn write_rc_channels_burst_values(
    buffer: &mut [u8],
    dest: u8,
    channels: &[u16],
    count: usize,
) -> Result<usize, Refusal>
    ensures { (written_row result, buffer.new) ≡ write_of (values_image dest channels.now count) buffer.old }
{
    if !is_address(dest) {
        return Err(Refusal::BadAddress);
    }
    // Before any product: a count may be any number.
    if count > SETS {
        return Err(Refusal::InvalidPayloadLength);
    }
    if channels.len() < count * CHANNELS {
        return Err(Refusal::InvalidPayloadLength);
    }
    if let Some((bad, above)) = first_bad(channels, count) {
        let set = bad as u16;
        let channel = above as u16;
        return Err(Refusal::SetChannelRange { set, channel });
    }
    let size = count * CHANNELS_FRAME;
    if buffer.len() < size {
        return Err(Refusal::BufferOverflow);
    }
    put_sets(buffer, dest, channels, count);
    Ok(size)
}

// The sets one behind another.
fn flat(sets: [[u16; CHANNELS]; SETS]) -> [u16; ALL]
    ensures { sixteens most_sets result ≡ sets }
{
    // Not `as_flattened`: the length of what it gives was not to be proved.
    let mut numbers = [0u16; ALL];
    for (k, set) in sets.iter().enumerate() {
        let at = k * CHANNELS;
        numbers[at..at + CHANNELS].copy_from_slice(set);
    }
    numbers
}

// The same of sets by value. Those beyond the count are not looked at.
pub fn write_rc_channels_burst(
    buffer: &mut [u8],
    dest: u8,
    sets: [[u16; CHANNELS]; SETS],
    count: usize,
) -> Result<usize, Refusal>
    ensures { (written_row result, buffer.new) ≡ write_of (burst_image dest sets count) buffer.old }
{
    let numbers = flat(sets);
    write_rc_channels_burst_values(buffer, dest, &numbers, count)
}
