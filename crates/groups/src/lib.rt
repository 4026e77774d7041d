// Numbers in groups of seven bits: specs/Groups says what they are, specs/Reading how one is read, byte by byte or at the front of a string.
#![tactic(auto)]

ghost use Rattle.std.specs.Prelude.{◌≡◌, ◌+◌, ◌%◌, ◌≤◌, ◌<◌, length};
ghost use Rattle.base.specs.Parts.{pasted};
ghost use Rattle.writing.specs.Writing.{written_row};
ghost use Rattle.groups.specs.Groups.{groups};
ghost use Rattle.groups.specs.Reading.{valued, final, further, step_of, front_of};
ghost use Rattle.groups.specs.Reading as reading;
ghost use Rattle.groups.specs.Writing.{put_of};

use base::fits;
use refusals::Refusal;

// What one byte makes of a number that is begun.
#[derive(Clone, Copy)]
pub enum Step {
    // It goes on: its value so far, and what its next group is worth (1, 128, 128 * 128 ..).
    GoesOn { value: u64, weight: u64 },
    Done(u64),
    Malformed,
}

// A number at the front of a string, which takes up that many bytes.
#[derive(Clone, Copy)]
pub struct Number {
    pub value: u64,
    pub size: usize,
}

// Why none stands there.
#[derive(Clone, Copy)]
pub enum Fault {
    // The string ends inside a number.
    Unfinished,
    Malformed,
}

#[tactic(auto, using(crate::proofs::Steps::over, crate::proofs::Steps::over_by, crate::proofs::Steps::within, crate::proofs::Steps::room_by))]
fn judge_value(greatest: u64, value: u64, weight: u64, b: u64) -> Step
    requires { 1 ≤ weight }
    ensures { result ≡ valued greatest value weight b }
{
    if greatest < value || (greatest - value) / weight < b {
        return Step::Malformed;
    }
    Step::Done(value + b * weight)
}

#[tactic(auto, using(crate::proofs::Steps::zero_last_lem, crate::proofs::Steps::zero_first, crate::proofs::Steps::some_last))]
fn last(greatest: u64, value: u64, weight: u64, byte: u8) -> Step
    requires { 1 ≤ weight }
    ensures { result ≡ final greatest value weight byte }
{
    if byte == 0 && 1 < weight {
        return Step::Malformed;
    }
    judge_value(greatest, value, weight, u64::from(byte))
}

#[tactic(auto, using(crate::proofs::Steps::many, crate::proofs::Steps::on))]
fn another(greatest: u64, value: u64, weight: u64, byte: u8) -> Step
    requires { (value < weight) × ((128 ≤ byte) × (byte < 256)) }
    ensures { result ≡ further greatest value weight byte }
{
    if greatest / 128 < weight {
        return Step::Malformed;
    }
    Step::GoesOn {
        value: value + (u64::from(byte) - 128) * weight,
        weight: 128 * weight,
    }
}

// One byte more of a number up to the greatest. A number begins with the value 0 and the weight 1. The two come apart: a log's reader keeps how many groups
// have come, and any two are answered.
#[tactic(auto, using(crate::proofs::Steps::step_low, crate::proofs::Steps::step_high, crate::proofs::Steps::no_state))]
pub fn next(greatest: u64, value: u64, weight: u64, byte: u8) -> Step
    ensures { result ≡ step_of greatest value weight byte }
{
    if weight <= value {
        return Step::Malformed;
    }
    if byte < 128 {
        return last(greatest, value, weight, byte);
    }
    another(greatest, value, weight, byte)
}

// The number up to the greatest that stands at the front of a string.
#[tactic(auto, using(crate::proofs::Fronts::front_on, crate::proofs::Fronts::front_number, crate::proofs::Fronts::front_malformed, crate::proofs::Fronts::front_unfinished))]
pub fn read(greatest: u64, s: &[u8]) -> Result<Number, Fault>
    ensures { result ≡ front_of (length s.now) (reading.read greatest s.now) }
{
    let mut value = 0;
    let mut weight = 1;
    for (i, &byte) in s.iter().enumerate() {
        match next(greatest, value, weight, byte) {
            Step::GoesOn {
                value: v,
                weight: w,
            } => {
                value = v;
                weight = w;
            }
            Step::Done(n) => {
                return Ok(Number {
                    value: n,
                    size: i + 1,
                });
            }
            Step::Malformed => return Err(Fault::Malformed),
        }
    }
    Err(Fault::Unfinished)
}

// How many bytes the number takes up.
#[tactic(auto, using(crate::proofs::Steps::groups_few, crate::proofs::Steps::one_long, crate::proofs::Steps::more_long))]
pub fn size(n: u64) -> usize
    ensures { result ≡ length (groups n) }
{
    if n < 128 {
        return 1;
    }
    size(n / 128) + 1
}

fn low_group(n: u64) -> u8
    ensures { result ≡ n % 128 }
{
    (n % 128) as u8
}

#[tactic(auto, using(crate::proofs::Groups::rest_less, crate::proofs::Groups::low_small, crate::proofs::Steps::one_long, crate::proofs::Steps::more_long, crate::proofs::Steps::put_last, crate::proofs::Steps::put_rest))]
fn put_all(n: u64, out: &mut [u8], at: usize)
    requires { at + length (groups n) ≤ length out.old }
    ensures { out.new ≡ pasted out.old at (groups n) }
{
    let mut left = n;
    let mut i = at;
    // How many groups there are shows only as the number runs out: no slice of known length to go over.
    while 128 <= left {
        out[i] = low_group(left) + 128;
        left /= 128;
        i += 1;
    }
    out[i] = low_group(left);
}

// The number, from place at on.
#[tactic(auto, using(crate::proofs::Steps::put_none))]
pub fn put(n: u64, out: &mut [u8], at: usize) -> Result<usize, Refusal>
    ensures { (written_row result, out.new) ≡ put_of n at out.old }
{
    let count = size(n);
    if fits(out.len(), at, count) {
        put_all(n, out, at);
        return Ok(count);
    }
    Err(Refusal::BufferOverflow)
}
