// A frame whose bytes are held, as they come, at the front of the places.
ghost use Rattle.std.specs.Prelude.{◌≡◌, true, ◌∷◌, [], ◌++◌, ◌≤◌, ◌<◌, length, take};
ghost use Rattle.log_reader.specs.State.{is_state, held_fine};
ghost use Rattle.log_reader.specs.Parts.{may_follow, LastByte, FedFrame};

use crate::{Reader, Turn};
use crc::checked;
use packets::is_address;
use refusals::Refusal;

#[tactic(auto, using(crate::proofs::Readers::held_unlisted, crate::proofs::Readers::held_one, crate::proofs::Readers::held_two))]
pub(crate) fn is_held_fine(places: &[u8], size: usize, held: usize) -> bool
    requires { (held < size) × (size ≤ length places.now) }
    ensures { result ≡ held_fine size places.now held }
{
    held == 0 || is_address(places[0]) && (held < 2 || usize::from(places[1]) + 2 == size)
}

// The whole frame is there; the places hold it, with its check byte last.
#[tactic(auto, using(crate::proofs::FrameSteps::judged_right))]
fn judge(places: &[u8], seconds: u32, size: usize, carried: u8) -> Turn
    requires { LastByte places.now size carried }
    ensures { FedFrame places.now seconds size (take size places.now) places.now result }
{
    let last = size - 1;
    match checked(&places[2..last], carried) {
        Ok(()) => Turn::Entry { seconds, len: size },
        Err(_) => Turn::On(Reader::Refused(Refusal::InvalidFrame)),
    }
}

// Whether the byte that comes behind that many of a frame may stand there; of the last byte this says nothing.
fn may_follow(size: usize, held: usize, byte: u8) -> bool
    ensures { result ≡ may_follow size held byte }
{
    match held {
        0 => is_address(byte),
        1 => usize::from(byte) + 2 == size,
        _ => true,
    }
}

// Inlined into the one loop that calls it: as a call it takes its answer through memory, byte by byte.
#[inline(always)]
#[tactic(auto, using(crate::proofs::FrameSteps::begun, crate::proofs::FrameSteps::frame_judged))]
pub(crate) fn feed_frame(
    places: &mut [u8],
    seconds: u32,
    size: usize,
    held: usize,
    byte: u8,
) -> Turn
    requires { is_state places.old (Reader.Frame seconds size held) ≡ true }
    ensures { FedFrame places.old seconds size (take held places.old ++ byte ∷ []) places.new result }
{
    places[held] = byte;
    if !may_follow(size, held, byte) {
        return Turn::On(Reader::Refused(Refusal::InvalidFrame));
    }
    let count = held + 1;
    if count < size {
        return Turn::On(Reader::Frame {
            seconds,
            size,
            held: count,
        });
    }
    judge(places, seconds, size, byte)
}
