// One call of the stream over the host's state, with its position. The position moves after the eight bytes are made: so the machine code goes straight from
// each answer to its bytes (docs/SPEED.md).
ghost use Rattle.std.specs.Prelude.{◌≡◌, [], ◌∷◌};
ghost use Rattle.base.specs.Parts.{placed};
ghost use Rattle.host_answer.specs.Reply.{Calls};

use crate::answer::refuse;
use crate::reply::answer_call;
use host_state::{has_size, is_beyond, is_state, move_to, position_of, step};
use refusals::Refusal;

// Where an answer began, at the front of out, if there is a place.
fn tell(began: u64, out: &mut [u64])
    ensures { out.new ≡ placed out.old 0 (began ∷ []) }
{
    if let Some(first) = out.first_mut() {
        *first = began;
    }
}

pub fn call(state: &mut [u8], input: &[u8], position: &mut [u64]) -> u64
    ensures { Calls state.old input.now position.old state.new position.new result }
{
    if !has_size(state) {
        return refuse(Refusal::BadState);
    }
    if is_beyond(state, input) {
        return refuse(Refusal::PositionRange);
    }
    if !is_state(state) {
        return refuse(Refusal::BadState);
    }
    let began = position_of(state);
    let told = answer_call(step(state, input));
    if told.dropped == 0 {
        return told.answer;
    }
    tell(began, position);
    move_to(state, began + told.dropped as u64);
    told.answer
}
