// Parts of lent bytes: the frame that a call answered with, and a raw view of any bytes.
#![tactic(auto)]

ghost use Rattle.std.specs.Prelude.{◌≡◌};
ghost use Rattle.stream.specs.Step.{bytes_at};
ghost use Rattle.view.specs.View.{frame_of, raw_row, raw_of, payload_of};

use base::part_of;
use refusals::Refusal;
use stream::step::{Place, Reply};

fn bytes_at<'a>(place: Place, piece: &'a [u8], places: &'a [u8]) -> &'a [u8]
    ensures { result.now ≡ bytes_at place piece.now places.now }
{
    match place {
        Place::InPiece(len) => part_of(piece, 0, len),
        Place::InHeld { at, len } => part_of(places, at, len),
    }
}

// The frame that a call answered with, as a part of the caller's piece or of the held bytes' places. Of any other reply, no bytes.
#[tactic(auto, unfolding(crate::specs::View::frame_of))]
pub fn frame<'a>(reply: Reply, piece: &'a [u8], places: &'a [u8]) -> &'a [u8]
    ensures { result.now ≡ frame_of reply piece.now places.now }
{
    match reply {
        Reply::Frame(place) => bytes_at(place, piece, places),
        Reply::More | Reply::Refused(_) => &[],
    }
}

// What any four bytes or more show as a frame. Nothing else is checked.
#[derive(Clone, Copy)]
pub struct RawView {
    pub address: u8,
    pub kind: u8,
    pub check: u8,
}

#[tactic(auto, unfolding(crate::specs::View::raw_row, crate::specs::View::raw_of))]
pub fn raw_view(s: &[u8]) -> Result<RawView, Refusal>
    ensures { raw_row result ≡ raw_of s.now }
{
    let [address, _, kind, .., check] = s else {
        return Err(Refusal::InvalidPayloadLength);
    };
    Ok(RawView {
        address: *address,
        kind: *kind,
        check: *check,
    })
}

// The bytes between byte 2 and the last, or none of fewer than four bytes.
#[tactic(auto, unfolding(crate::specs::View::payload_of))]
pub fn payload(s: &[u8]) -> &[u8]
    ensures { result.now ≡ payload_of s.now }
{
    match s {
        [_, _, _, payload @ .., _] => payload,
        _ => &[],
    }
}
