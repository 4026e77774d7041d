// What a frame has about its payload, and what its writer answers.
ghost use Rattle.std.specs.Prelude.{◌≡◌, [], ◌∷◌, ◌+◌, ◌≤◌, ◌<◌, length};
ghost use Rattle.std.proofs.Math.Seq.{slice};
ghost use Rattle.base.specs.Parts.{part, pasted};
ghost use Rattle.crc.specs.Remainder.{remainder};
ghost use Rattle.reading.specs.Frame.{frame};
ghost use Rattle.reading.specs.Reading.{limit};
ghost use Rattle.frames.specs.Frames.{overhead, most_payload, whole_in, sealed_of};

use base::narrow;
use crc::checksum_fresh;
use refusals::Refusal;

// Address, length byte and type.
pub(crate) const HEAD: usize = 3;

// The head and the check byte.
pub(crate) const OVERHEAD: usize = 4;

fn put_head(buffer: &mut [u8], dest: u8, count: u8, kind: u8)
    requires { 3 ≤ length buffer.old }
    ensures { buffer.new ≡ pasted buffer.old 0 (dest ∷ count ∷ kind ∷ []) }
{
    buffer[0] = dest;
    buffer[1] = count;
    buffer[2] = kind;
}

// The check byte of what stands from the type on, in its place.
fn put_check(buffer: &mut [u8], last: usize)
    requires { (2 ≤ last) × (last < length buffer.old) }
    ensures { buffer.new ≡ pasted buffer.old last (remainder (slice 2 last buffer.old) ∷ []) }
{
    let check = checksum_fresh(&buffer[2..last]);
    buffer[last] = check;
}

// The frame of the size bytes that stand in their place already, behind the head's.
pub(crate) fn seal(buffer: &mut [u8], dest: u8, kind: u8, size: usize)
    requires { (size ≤ most_payload) × (size + overhead ≤ length buffer.old) }
    ensures { buffer.new ≡ pasted buffer.old 0 (frame dest (kind ∷ part buffer.old 3 size)) }
{
    put_head(buffer, dest, narrow(size + 2), kind);
    put_check(buffer, size + HEAD);
}

// The frame of what a record's own writer left in the payload's places, or its refusal.
#[tactic(auto, unfolding(crate::specs::Frames::sealed_of))]
pub(crate) fn sealed(
    buffer: &mut [u8],
    dest: u8,
    kind: u8,
    written: Result<usize, Refusal>,
) -> Result<usize, Refusal>
    requires { (whole_in written ≤ limit) × (whole_in written ≤ length buffer.old) }
    ensures { (result, buffer.new) ≡ sealed_of dest kind written buffer.old }
{
    let size = written?;
    seal(buffer, dest, kind, size);
    Ok(size + OVERHEAD)
}
