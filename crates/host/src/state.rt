// The stream, over the host's state: 74 lent bytes.
ghost use Rattle.std.specs.Prelude.{◌≡◌};
ghost use Rattle.writing.specs.Writing.{write_of};
ghost use Rattle.host_state.specs.Saving.{held_row_of, position_image, reset_state, state_image, restore_state};
ghost use Rattle.host_answer.specs.Answer.{packed, answer_row, answers};
ghost use Rattle.host_answer.specs.Reply.{Calls};

use host_answer::answer::answer_result;
use host_answer::call::call;

// One call: the first answer of the held bytes followed by the input. Where it began goes to the front of `position`, if there is a place.
#[unsafe(no_mangle)]
pub extern "C" fn crsf_next_raw_packet(state: &mut [u8], input: &[u8], position: &mut [u64]) -> u64
    ensures { Calls state.old input.now position.old state.new position.new result }
{
    call(state, input, position)
}

// Forgets the held bytes. A new stream begins.
#[unsafe(no_mangle)]
pub extern "C" fn crsf_reset(state: &mut [u8]) -> u64
    ensures { (result, state.new) ≡ answers (reset_state state.old) }
{
    answer_result(host_state::reset(state))
}

// The saved form of the held bytes and of their position, at the front of `out`.
#[unsafe(no_mangle)]
pub extern "C" fn crsf_save(state: &[u8], out: &mut [u8]) -> u64
    ensures { (result, out.new) ≡ answers (write_of (state_image state.now) out.old) }
{
    answer_result(host_state::save(state, out))
}

// The state holds what a saved form says.
#[unsafe(no_mangle)]
pub extern "C" fn crsf_restore(state: &mut [u8], form: &[u8]) -> u64
    ensures { (result, state.new) ≡ answers (restore_state form.now state.old) }
{
    answer_result(host_state::restore(state, form))
}

// How many bytes are held.
#[unsafe(no_mangle)]
pub extern "C" fn crsf_held(state: &[u8]) -> u64
    ensures { result ≡ packed (answer_row (held_row_of state.now)) }
{
    answer_result(host_state::held(state))
}

// Where the state stands in the stream, at the front of `position`.
#[unsafe(no_mangle)]
pub extern "C" fn crsf_position(state: &[u8], position: &mut [u64]) -> u64
    ensures { (result, position.new) ≡ answers (write_of (position_image state.now) position.old) }
{
    answer_result(host_state::position(state, position))
}
