// The older form, of the held bytes alone: their count in groups of seven bits, then the bytes. A form with a position ends with it.
ghost use Rattle.std.specs.Prelude.{◌≡◌, true, false, MatchOption};
ghost use Rattle.saved.specs.Form.{is_savable, is_held_form, held_bytes};

use groups::Number;

#[tactic(auto, unfolding(crate::specs::Form::is_savable))]
pub(crate) fn is_savable(limit: usize, start: usize, end: usize) -> bool
    ensures { result ≡ is_savable limit start end }
{
    start <= end && end <= limit && end - start < limit
}

// The held bytes of a form, which stand behind their count. There are none where the form is not accepted.
pub(crate) fn held_bytes<'a>(limit: usize, form: &'a [u8]) -> Option<&'a [u8]>
    ensures { MatchOption result (is_held_form limit form.now ≡ false) (λ held. (is_held_form limit form.now ≡ true) × (held.now ≡ held_bytes limit form.now)) }
{
    let greatest = limit.checked_sub(1)?;
    let Ok(Number { value, size }) = groups::read(greatest as u64, form) else {
        return None;
    };
    let held = &form[size..];
    if held.len() as u64 != value {
        return None;
    }
    Some(held)
}
