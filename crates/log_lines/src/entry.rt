// What the listing makes of one answer of the reader.
ghost use Rattle.std.specs.Prelude.{◌≡◌, ◌+◌, ◌≤◌};
ghost use Rattle.lines.specs.Put.{put_within};
ghost use Rattle.kit_log.specs.Call.{given};
ghost use Rattle.log_reader.specs.Reader.{said_by};
ghost use Rattle.log_lines.specs.Text.{longest_entry, entry_line, entry_lines};
ghost use Rattle.log_lines.specs.Part.{gave, status_by};

use crate::LONGEST_ENTRY;
use base::fits;
use lines::line::{put_frame_line, put_number};
use log_reader::{Answer, frame};
use refusals::Refusal;

pub(crate) fn is_entry(answer: Answer) -> bool
    ensures { result ≡ gave answer }
{
    matches!(answer, Answer::Entry { .. })
}

pub(crate) fn status_of(answer: Answer) -> Result<(), Refusal>
    ensures { result ≡ status_by answer }
{
    match answer {
        Answer::Refused(refusal) => Err(refusal),
        _ => Ok(()),
    }
}

// An entry's line.
fn put_entry(seconds: u32, frame: &[u8], out: &mut [u8], at: usize) -> usize
    ensures { ((result, out.new) ≡ put_within longest_entry (entry_line (record { seconds = seconds; frame = frame.now })) at out.old) × (result ≤ at + longest_entry) }
{
    if fits(out.len(), at, LONGEST_ENTRY) {
        let next = put_number(seconds, out, at);
        return put_frame_line(frame, out, next);
    }
    at
}

// The line of what a call says, if any.
#[tactic(auto, using(crate::proofs::Laws::one_line, lines::proofs::Puts::within_nothing), unfolding(log_reader::specs::Reader::said_by, kit_log::specs::Call::given, crate::specs::Text::entry_lines))]
pub(crate) fn put_answer<'a>(
    answer: Answer,
    piece: &'a [u8],
    places: &'a [u8],
    out: &mut [u8],
    at: usize,
) -> usize
    ensures { ((result, out.new) ≡ put_within longest_entry (entry_lines (given (said_by piece.now places.now answer))) at out.old) × (result ≤ at + longest_entry) }
{
    match answer {
        Answer::Entry { seconds, place } => put_entry(
            seconds,
            frame(place, piece, places),
            out,
            at,
        ),
        _ => at,
    }
}
