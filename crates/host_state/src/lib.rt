// The host's state: lent bytes that hold start, end, the places of the held bytes, and the position of the first of them. Its size, and where each of
// these stands, are said here alone.
#![tactic(auto)]

ghost use Rattle.std.specs.Prelude.{◌≡◌, ◌-◌};
ghost use Rattle.base.specs.Parts.{placed};
ghost use Rattle.numbers.specs.BigEndian.{bytes_of};
ghost use Rattle.writing.specs.Writing.{written_row, write_of};
ghost use Rattle.saved.specs.Save.{restored_row};
ghost use Rattle.host_state.specs.State.{position_at, start_in, end_in, position_in, has_size, is_state};
ghost use Rattle.host_state.specs.Step.{is_beyond, PlacesStep};
ghost use Rattle.host_state.specs.Saving.{held_row_of, position_image, reset_state, state_image, restore_state};

use base::{byte_at, narrow, wide};
use numbered::is_within;
use numbers::{get_u64, put_u64};
use refusals::Refusal;
use saved::form::{position_in, restore_in, save_in};
use stream::LIMIT;
use stream::step::{Replied, Reply, is_span, step_in};

pub const START: usize = 0;

pub const END: usize = 1;

pub const PLACES: usize = 2;

pub const POSITION: usize = PLACES + LIMIT;

pub const SIZE: usize = POSITION + 8;

// 2^63 - 65: up to this position no input can reach past the last one.
const NEAR: u64 = 9_223_372_036_854_775_743;

// Whether these are as many bytes as a state has.
pub fn has_size(state: &[u8]) -> bool
    ensures { result ≡ has_size state.now }
{
    state.len() == SIZE
}

// Whether these bytes are a valid state: of that size, and start and end mark a part of the places.
#[tactic(auto, unfolding(crate::specs::State::is_state))]
pub fn is_state(state: &[u8]) -> bool
    ensures { result ≡ is_state state.now }
{
    has_size(state) && is_span(LIMIT, wide(state[START]), wide(state[END]))
}

// Where the state stands in the stream: at its first held byte, else at the next byte.
pub fn position_of(state: &[u8]) -> u64
    ensures { result ≡ position_in state.now }
{
    get_u64(state, POSITION)
}

// The state stands elsewhere in the stream.
pub fn move_to(state: &mut [u8], position: u64)
    ensures { state.new ≡ placed state.old position_at (bytes_of 8 position) }
{
    put_u64(state, POSITION, position);
}

// What start and end say: 0 where the end stands before the start.
fn count(state: &[u8]) -> usize
    ensures { result ≡ end_in state.now - start_in state.now }
{
    wide(byte_at(state, END)).saturating_sub(wide(byte_at(state, START)))
}

// A valid state, and input behind which its position would be above 2^64 - 1. Up to NEAR none is: a slice has fewer than 2^63 bytes, and a state holds 64
// at most.
#[tactic(auto, unfolding(crate::specs::Step::is_beyond, crate::specs::Step::can_number))]
pub fn is_beyond(state: &[u8], input: &[u8]) -> bool
    ensures { result ≡ is_beyond state.now input.now }
{
    let position = position_of(state);
    if position <= NEAR {
        return false;
    }
    is_state(state) && !is_within(position, count(state), input.len())
}

// One call over the places: the first answer of the held bytes followed by the input. The position stays: whoever calls moves it.
pub fn step(state: &mut [u8], input: &[u8]) -> Replied
    ensures { PlacesStep state.old input.now state.new result }
{
    if !has_size(state) {
        return Replied {
            taken: 0,
            reply: Reply::Refused(Refusal::BadState),
        };
    }
    let start = wide(state[START]);
    let end = wide(state[END]);
    let moved = step_in(&mut state[PLACES..POSITION], start, end, input);
    state[START] = narrow(moved.start);
    state[END] = narrow(moved.end);
    Replied {
        taken: moved.taken,
        reply: moved.reply,
    }
}

// How many bytes are held.
#[tactic(auto, unfolding(crate::specs::State::is_state, crate::specs::Saving::held_row_of, saved::specs::Save::restored_row))]
pub fn held(state: &[u8]) -> Result<usize, Refusal>
    ensures { restored_row result ≡ held_row_of state.now }
{
    if !is_state(state) {
        return Err(Refusal::BadState);
    }
    Ok(wide(state[END]) - wide(state[START]))
}

// Where the state stands in the stream, at the front of out.
#[tactic(auto, unfolding(crate::specs::Saving::position_image, writing::specs::Writing::written_row, writing::specs::Writing::write_of))]
pub fn position(state: &[u8], out: &mut [u64]) -> Result<usize, Refusal>
    ensures { (written_row result, out.new) ≡ write_of (position_image state.now) out.old }
{
    if !is_state(state) {
        return Err(Refusal::BadState);
    }
    let Some(first) = out.first_mut() else {
        return Err(Refusal::BufferOverflow);
    };
    *first = position_of(state);
    Ok(1)
}

// Forgets the held bytes. A new stream begins.
#[tactic(auto, unfolding(crate::specs::Saving::reset_state, saved::specs::Save::restored_row))]
pub fn reset(state: &mut [u8]) -> Result<usize, Refusal>
    ensures { (restored_row result, state.new) ≡ reset_state state.old }
{
    if !has_size(state) {
        return Err(Refusal::BadState);
    }
    state[START] = 0;
    state[END] = 0;
    move_to(state, 0);
    Ok(0)
}

// The saved form of the held bytes and of their position, at the front of out.
#[tactic(auto, unfolding(crate::specs::Saving::state_image, writing::specs::Writing::written_row, writing::specs::Writing::write_of))]
pub fn save(state: &[u8], out: &mut [u8]) -> Result<usize, Refusal>
    ensures { (written_row result, out.new) ≡ write_of (state_image state.now) out.old }
{
    if !has_size(state) {
        return Err(Refusal::BadState);
    }
    let start = wide(state[START]);
    let end = wide(state[END]);
    let position = position_of(state);
    save_in(&state[PLACES..POSITION], start, end, position, out)
}

// The state holds what a saved form says.
#[tactic(auto, unfolding(crate::specs::Saving::restore_state, saved::specs::Save::restored_row))]
pub fn restore(state: &mut [u8], form: &[u8]) -> Result<usize, Refusal>
    ensures { (restored_row result, state.new) ≡ restore_state form.now state.old }
{
    if !has_size(state) {
        return Err(Refusal::BadState);
    }
    let count = restore_in(&mut state[PLACES..POSITION], form)?;
    state[START] = 0;
    state[END] = narrow(count);
    move_to(state, position_in(form));
    Ok(count)
}
