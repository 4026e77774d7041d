// What every entry for a host answers: eight bytes, and these as one number.
ghost use Rattle.std.specs.Prelude.{◌≡◌, ◌+◌, ◌*◌, ◌^◌, ◌%◌, ◌<◌};
ghost use Rattle.refusals.specs.Row.{row_of};
ghost use Rattle.writing.specs.Writing.{written_row};
ghost use Rattle.saved.specs.Save.{restored_row};
ghost use Rattle.host_answer.specs.Answer.{packed, answer_row, in_bytes, answer_number, answer_place, answer_count, answer_carried, answer_refusal};

use base::narrow;
use refusals::{Refusal, row_of};

// What every entry answers. The eighth byte is 0. A field that an answer does not speak of is 0.
#[derive(Clone, Copy)]
pub struct HostAnswer {
    // 0, or a refusal's number; 255 where a call asks for more
    pub number: u8,
    // how many bytes of the input were taken
    pub taken: u8,
    // 1 where a frame stands in the state, 0 where it stands in the input
    pub in_state: u8,
    // where a frame begins there
    pub at: u8,
    // how many bytes a frame has, or were written, or are held; or how many numbers were read
    pub len: u8,
    // what a refusal carries, each value by its low byte; the source id of a series that was read
    pub first: u8,
    pub second: u8,
}

// The number of an answer that asks for more.
pub const MORE: u8 = 255;

fn below(low: u8, rest: u64) -> u64
    requires { rest < 2 ^ 56 }
    ensures { result ≡ low + 256 * rest }
{
    low as u64 + 256 * rest
}

// The eight bytes as one number, lowest first.
#[tactic(auto, unfolding(crate::specs::Answer::lowest_first))]
pub fn pack(t: HostAnswer) -> u64
    ensures { result ≡ packed t }
{
    below(
        t.number,
        below(
            t.taken,
            below(
                t.in_state,
                below(t.at, below(t.len, below(t.first, below(t.second, 0)))),
            ),
        ),
    )
}

// A number, and what it carries.
pub fn said(number: u8, taken: u8, first: u8, second: u8) -> HostAnswer
    ensures { result ≡ answer_number number taken first second }
{
    HostAnswer {
        number,
        taken,
        in_state: 0,
        at: 0,
        len: 0,
        first,
        second,
    }
}

// A frame's place, or a count of bytes.
pub fn placed(taken: u8, in_state: u8, at: u8, len: u8) -> HostAnswer
    ensures { result ≡ answer_place taken in_state at len }
{
    HostAnswer {
        number: 0,
        taken,
        in_state,
        at,
        len,
        first: 0,
        second: 0,
    }
}

// Only a count.
pub fn count(n: usize) -> u64
    ensures { result ≡ packed (answer_count (n % 256)) }
{
    pack(placed(0, 0, 0, narrow(n)))
}

// A refusal, by its row: this is the one place where an answer gets a refusal's number and values.
pub fn carried(refusal: Refusal, taken: u8) -> HostAnswer
    ensures { result ≡ answer_carried taken (row_of refusal) }
{
    let row = row_of(refusal);
    said(row.number, taken, narrow(row.first), narrow(row.second))
}

// Only a refusal.
pub fn refuse(refusal: Refusal) -> u64
    ensures { result ≡ packed (answer_refusal refusal) }
{
    pack(carried(refusal, 0))
}

// How many bytes were written, or are held now, or why none are: what a writer, a save, a restore, a reset and the count of held bytes say.
#[tactic(auto, using(crate::proofs::Rows::refusal_row), unfolding(writing::specs::Writing::written_row, saved::specs::Save::restored_row, crate::specs::Answer::answer_row))]
pub fn answer_result(said: Result<usize, Refusal>) -> u64
    ensures written { result ≡ packed (in_bytes (answer_row (written_row said))) }
    ensures restored { result ≡ packed (in_bytes (answer_row (restored_row said))) }
{
    match said {
        Ok(n) => count(n),
        Err(refusal) => refuse(refusal),
    }
}
