// The saved form of the bytes that stand in lent places, and of where in the stream they begin: the mark, the position in groups of seven bits, then the
// older form. The older form alone is still accepted, and begins at position 0.
ghost use Rattle.std.specs.Prelude.{◌≡◌};
ghost use Rattle.writing.specs.Writing.{written_row, write_of};
ghost use Rattle.saved.specs.Form.{is_marked, can_save, position_in, older_in};
ghost use Rattle.saved.specs.Save.{save_image, restored_row, restore_of};

use crate::held::{held_bytes, is_savable};
use base::{copy_in, fits};
use groups::Number;
use numbered::is_within;
use refusals::Refusal;

// The number that a form with a position begins with: no older form does.
const MARK: u8 = 64;

// The position of a form, and its older form, which stands behind it: no bytes where the position is malformed.
#[derive(Clone, Copy)]
struct Head<'a> {
    position: u64,
    older: &'a [u8],
}

// Whether start and end are those of a state, fewer bytes than the limit are held, and all of them can be numbered.
#[tactic(auto, unfolding(crate::specs::Form::is_savable, crate::specs::Form::can_save))]
fn can_save(limit: usize, start: usize, end: usize, position: u64) -> bool
    ensures { result ≡ can_save limit start end position }
{
    is_savable(limit, start, end) && is_within(position, end - start, 0)
}

// The saved form of the bytes from start up to end, which begin at that position of the stream, at the front of out. Any start, end and position are
// answered, so no type binds them.
pub fn save_in(
    places: &[u8],
    start: usize,
    end: usize,
    position: u64,
    out: &mut [u8],
) -> Result<usize, Refusal>
    ensures { (written_row result, out.new) ≡ write_of (save_image places.now start end position) out.old }
{
    if !can_save(places.len(), start, end, position) {
        return Err(Refusal::BadState);
    }
    let count = end - start;
    let at = groups::size(position) + 1;
    let from = at + groups::size(count as u64);
    if !fits(out.len(), from, count) {
        return Err(Refusal::BufferOverflow);
    }
    out[0] = MARK;
    let _ = groups::put(position, out, 1);
    let _ = groups::put(count as u64, out, at);
    copy_in(out, from, &places[start..end], count);
    Ok(from + count)
}

#[tactic(auto, unfolding(crate::specs::Form::is_marked))]
fn is_marked(form: &[u8]) -> bool
    ensures { result ≡ is_marked form.now }
{
    form.first() == Some(&MARK)
}

// Inlined into its two callers: as a call it hands its answer back through memory, and a restore needed more stack.
#[inline(always)]
fn head_of<'a>(form: &'a [u8]) -> Head<'a>
    ensures position { result.position ≡ position_in form.now }
    ensures older { result.older.now ≡ older_in form.now }
{
    if !is_marked(form) {
        return Head {
            position: 0,
            older: form,
        };
    }
    let behind = &form[1..];
    match groups::read(u64::MAX, behind) {
        Ok(Number { value, size }) => Head {
            position: value,
            older: &behind[size..],
        },
        Err(_) => Head {
            position: 0,
            older: &[],
        },
    }
}

// The position that a form begins at: 0 for the older one.
pub fn position_in(form: &[u8]) -> u64
    ensures { result ≡ position_in form.now }
{
    head_of(form).position
}

// The bytes of a saved form, at the front of the places: held from place 0 up to the count.
pub fn restore_in(places: &mut [u8], form: &[u8]) -> Result<usize, Refusal>
    ensures { (restored_row result, places.new) ≡ restore_of form.now places.old }
{
    let head = head_of(form);
    match held_bytes(places.len(), head.older) {
        Some(held) if is_within(head.position, held.len(), 0) => {
            copy_in(places, 0, held, held.len());
            Ok(held.len())
        }
        _ => Err(Refusal::BadState),
    }
}
