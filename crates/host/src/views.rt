// What is shown of a raw channel and of any bytes: microseconds, and the raw view of a frame.
ghost use Rattle.std.specs.Prelude.{◌≡◌, [], ◌∷◌};
ghost use Rattle.view.specs.View.{raw_of};
ghost use Rattle.host_records.specs.Read.{given_all};
ghost use Rattle.host.specs.Views.{raw_bytes, answer_raw, GivesMicroseconds};

use host_answer::answer::{count, refuse};
use refusals::Refusal;

// One number, at the front of the slice.
fn give_one(bits: u32, out: &mut [u32]) -> u64
    ensures { (result, out.new) ≡ given_all (bits ∷ []) out.old }
{
    let Some(first) = out.first_mut() else {
        return refuse(Refusal::BufferOverflow);
    };
    *first = bits;
    count(1)
}

// The microseconds of a raw channel value: the bits of the f32, at the front of `out`. A value above 2047 is refused first, then a slice without a place.
#[unsafe(no_mangle)]
pub extern "C" fn crsf_channel_microseconds(raw: u16, out: &mut [u32]) -> u64
    ensures { GivesMicroseconds raw out.old (result, out.new) }
{
    match micros::to_microseconds(raw) {
        Ok(us) => give_one(f32::to_bits(us), out),
        Err(refusal) => refuse(refusal),
    }
}

// Number 0, address, type and check byte, lowest first.
#[tactic(auto, unfolding(host_answer::specs::Answer::lowest_first))]
fn raw_bytes(address: u8, kind: u8, check: u8) -> u64
    ensures { result ≡ raw_bytes address kind check }
{
    256 * (u64::from(address) + 256 * (u64::from(kind) + 256 * u64::from(check)))
}

// What any four bytes or more show as a frame. Fewer are refused.
#[unsafe(no_mangle)]
pub extern "C" fn crsf_raw_view(bytes: &[u8]) -> u64
    ensures { result ≡ answer_raw (raw_of bytes.now) }
{
    match view::raw_view(bytes) {
        Ok(view) => raw_bytes(view.address, view.kind, view.check),
        Err(refusal) => refuse(refusal),
    }
}
