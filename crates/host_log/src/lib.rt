// A log's reader for a host: its state as lent bytes, one call, the end and a reset over it, and what they answer, in eight bytes. Where each field of the
// state stands is said in `head` alone.
#![tactic(auto)]

pub mod answer;
pub mod head;

ghost use Rattle.std.specs.Prelude.{◌≡◌};
ghost use Rattle.host_log.specs.State.{has_form, is_state};
ghost use Rattle.host_log.specs.Calls.{bad_state, bad_end, StateSteps, StateEnds, ending_row, reset_state};

use head::{PLACES, SIZE, put_reader, reader_in};
use log_reader::Answer;
use refusals::Refusal;

// What a call took and says.
#[derive(Clone, Copy)]
pub struct Replied {
    pub taken: usize,
    pub answer: Answer,
}

// Whether these bytes have the size of a state, and a stage that there is.
#[tactic(auto, unfolding(crate::specs::State::has_form))]
fn has_form(state: &[u8]) -> bool
    ensures { result ≡ has_form state.now }
{
    state.len() == SIZE && state[0] <= 6
}

// Whether these bytes are a state that some log leads to.
#[tactic(auto, using(crate::proofs::States::form_size))]
pub fn is_state(state: &[u8]) -> bool
    ensures { result ≡ is_state state.now }
{
    has_form(state) && log_reader::is_state(&state[PLACES..], reader_in(state))
}

// Whether the reader refused its state.
fn is_bad_state(answer: Answer) -> bool
    ensures { result ≡ bad_state answer }
{
    matches!(answer, Answer::Refused(Refusal::BadState))
}

// One call: up to the next entry, a refusal, or the end of the piece. The reader tests the state: where it refuses that, the head stays too.
#[tactic(auto, using(crate::proofs::States::form_size))]
pub fn step(state: &mut [u8], input: &[u8]) -> Replied
    ensures { StateSteps state.old input.now state.new result }
{
    if !has_form(state) {
        return Replied {
            taken: 0,
            answer: Answer::Refused(Refusal::BadState),
        };
    }
    let reader = reader_in(state);
    let answered = log_reader::next(&mut state[PLACES..], reader, input);
    let answer = answered.answer;
    if is_bad_state(answer) {
        return Replied {
            taken: answered.taken,
            answer,
        };
    }
    let further = answered.reader;
    put_reader(state, further);
    Replied {
        taken: answered.taken,
        answer,
    }
}

fn is_bad_end(ending: Result<(), Refusal>) -> bool
    ensures { result ≡ bad_end ending }
{
    matches!(ending, Err(Refusal::BadState))
}

// The log ends here. As in a call, the reader tests the state: where it refuses that, the head stays too.
#[tactic(auto, using(crate::proofs::States::form_size))]
pub fn end(state: &mut [u8]) -> Result<(), Refusal>
    ensures { StateEnds state.old state.new result }
{
    if !has_form(state) {
        return Err(Refusal::BadState);
    }
    let reader = reader_in(state);
    let closed = log_reader::end(&state[PLACES..], reader);
    if is_bad_end(closed.ending) {
        return closed.ending;
    }
    let last = closed.reader;
    put_reader(state, last);
    closed.ending
}

// A state before the first byte, whatever it was.
#[tactic(auto, using(crate::proofs::States::reset_refused, crate::proofs::States::reset_done))]
pub fn reset(state: &mut [u8]) -> Result<(), Refusal>
    ensures { (ending_row result, state.new) ≡ reset_state state.old }
{
    if state.len() != SIZE {
        return Err(Refusal::BadState);
    }
    put_reader(state, log_reader::reset());
    Ok(())
}
