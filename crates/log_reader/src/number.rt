// A number of a log, byte by byte, and what it means once it is whole.
ghost use Rattle.std.specs.Prelude.{◌≡◌, true, ◌≤◌};
ghost use Rattle.log_reader.specs.State.{weight_of, can_go_on};
ghost use Rattle.log_reader.specs.Parts.{Means, FedNumber};

use crate::{Reader, Wanted};
use groups::Step;
use refusals::Refusal;
use stream::LIMIT;

// No number of a log is greater.
const GREATEST: u64 = u32::MAX as u64;

// What the next group is worth, where that many have come.
#[tactic(auto, using(crate::proofs::Readers::shifted))]
pub(crate) fn weight_of(groups: u8) -> u64
    requires { groups ≤ 4 }
    ensures { result ≡ weight_of groups }
{
    1 << (7 * groups)
}

pub(crate) fn number_of(wanted: Wanted) -> Reader
    ensures { result ≡ Reader.Number wanted 0 0 }
{
    Reader::Number {
        wanted,
        value: 0,
        groups: 0,
    }
}

#[tactic(auto, using(crate::proofs::Readers::means_no_frame, crate::proofs::Readers::means_frame))]
fn frame_of(seconds: u32, n: u32) -> Reader
    ensures { Means (Wanted.Size seconds) n result }
{
    let size = n as usize;
    if size < 4 || LIMIT < size {
        return Reader::Refused(Refusal::InvalidFrame);
    }
    Reader::Frame {
        seconds,
        size,
        held: 0,
    }
}

// What a well-formed number means.
#[tactic(auto, using(crate::proofs::Readers::means_one, crate::proofs::Readers::means_other, crate::proofs::Readers::means_seconds))]
fn meant(wanted: Wanted, n: u32) -> Reader
    ensures { Means wanted n result }
{
    match wanted {
        Wanted::Version if n == 1 => number_of(Wanted::Seconds),
        Wanted::Version => Reader::Refused(Refusal::InvalidLog),
        Wanted::Seconds => number_of(Wanted::Size(n)),
        Wanted::Size(seconds) => frame_of(seconds, n),
    }
}

// One byte more of a number.
#[tactic(auto, using(crate::proofs::Readers::number_one, crate::proofs::Readers::goes_fits, crate::proofs::Readers::number_small, crate::proofs::Readers::number_done, crate::proofs::Readers::number_bad))]
pub(crate) fn feed_number(wanted: Wanted, value: u32, groups: u8, byte: u8) -> Reader
    requires { can_go_on value groups ≡ true }
    ensures { FedNumber wanted value groups byte result }
{
    // most numbers have one group
    if groups == 0 && byte < 128 {
        return meant(wanted, u32::from(byte));
    }
    match groups::next(GREATEST, u64::from(value), weight_of(groups), byte) {
        Step::GoesOn { value, .. } => Reader::Number {
            wanted,
            value: value as u32,
            groups: groups + 1,
        },
        Step::Done(n) => meant(wanted, n as u32),
        Step::Malformed => Reader::Refused(Refusal::InvalidLog),
    }
}
