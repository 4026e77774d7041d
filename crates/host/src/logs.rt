// The kit log, over the host's state of its reader: 75 lent bytes.
ghost use Rattle.std.specs.Prelude.{◌≡◌};
ghost use Rattle.writing.specs.Writing.{write_of};
ghost use Rattle.log_writer.specs.Writer.{start_image, entry_image};
ghost use Rattle.host_answer.specs.Answer.{answers};
ghost use Rattle.host_log.specs.Calls.{reset_state};
ghost use Rattle.host_log.specs.Answer.{Calls, EndCalls};

use host_answer::answer::answer_result;
use host_log::answer::{answer_ending, answer_log, give_seconds};

// One call: up to the next entry, a refusal, or the end of the piece. An entry's seconds go to the number that is lent for them.
#[unsafe(no_mangle)]
pub extern "C" fn crsf_log_next(state: &mut [u8], input: &[u8], seconds: &mut u32) -> u64
    ensures { Calls state.old input.now seconds.old state.new seconds.new result }
{
    let replied = host_log::step(state, input);
    let answer = replied.answer;
    give_seconds(answer, seconds);
    answer_log(replied)
}

// The log ends here.
#[unsafe(no_mangle)]
pub extern "C" fn crsf_log_end(state: &mut [u8]) -> u64
    ensures { EndCalls state.old state.new result }
{
    answer_ending(host_log::end(state))
}

// A state before the first byte.
#[unsafe(no_mangle)]
pub extern "C" fn crsf_log_reset(state: &mut [u8]) -> u64
    ensures { (result, state.new) ≡ answers (reset_state state.old) }
{
    answer_ending(host_log::reset(state))
}

// The start of a log, at the front of `out`.
#[unsafe(no_mangle)]
pub extern "C" fn crsf_log_start(out: &mut [u8]) -> u64
    ensures { (result, out.new) ≡ answers (write_of start_image out.old) }
{
    answer_result(log_writer::put_start(out))
}

// One entry of a log, at the front of `out`.
#[unsafe(no_mangle)]
pub extern "C" fn crsf_log_entry(seconds: u32, frame: &[u8], out: &mut [u8]) -> u64
    ensures { (result, out.new) ≡ answers (write_of (entry_image seconds frame.now) out.old) }
{
    answer_result(log_writer::put_entry(seconds, frame, out))
}
