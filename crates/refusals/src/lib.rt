// The refusals, with what each carries, and each as numbers. A new one is a variant here, an arm of `row_of` and a line of specs/Row.
#![tactic(auto)]

ghost use Rattle.std.specs.Prelude.{◌≡◌};
ghost use Rattle.refusals.specs.Row.{row_of, struct_of};

#[derive(Clone, Copy, PartialEq, Eq)]
pub enum Refusal {
    // The byte that is no address.
    InvalidSync(u8),
    // The length byte.
    InvalidPacketLength(u8),
    InvalidCrc { calculated: u8, carried: u8 },
    InvalidPayloadLength,
    BufferOverflow,
    // The place of the first channel that is too large.
    ChannelRange(usize),
    BadAddress,
    BadState,
    // A log that is none: a malformed number, another first number than 1, an end where none may be, a byte behind the end.
    InvalidLog,
    // Bytes that are not one whole valid frame, or that no frame has so many of.
    InvalidFrame,
    // A capacity that has no room in a battery's 24 bits.
    CapacityRange,
    // As ChannelRange, of several sets: the first set that has such a channel, and its place there. Its two numbers are as narrow as they are for the
    // machine code's sake (docs/SPEED.md).
    SetChannelRange { set: u16, channel: u16 },
    // Input behind which the position would be above 2^64 - 1.
    PositionRange,
}

// A refusal as numbers: its own, and what it carries; 0 where it carries no more.
#[derive(Clone, Copy, PartialEq, Eq)]
pub struct Row {
    pub number: u8,
    pub first: usize,
    pub second: usize,
}

#[inline(always)]
fn numbered(number: u8, first: usize, second: usize) -> Row
    ensures { result ≡ record { number = number; first = first; second = second } }
{
    Row {
        number,
        first,
        second,
    }
}

// The one place that gives a refusal its number: no `From`, whose name would not say that it numbers. Each arm makes its own row, and no tuple is taken
// apart behind them: so the machine code of a call goes straight from each refusal to its bytes (docs/SPEED.md).
pub fn row_of(refusal: Refusal) -> Row
    ensures { result ≡ struct_of (row_of refusal) }
{
    match refusal {
        Refusal::InvalidSync(byte) => numbered(1, usize::from(byte), 0),
        Refusal::InvalidPacketLength(length) => numbered(2, usize::from(length), 0),
        Refusal::InvalidCrc {
            calculated,
            carried,
        } => numbered(3, usize::from(calculated), usize::from(carried)),
        Refusal::InvalidPayloadLength => numbered(4, 0, 0),
        Refusal::BufferOverflow => numbered(5, 0, 0),
        Refusal::ChannelRange(index) => numbered(6, index, 0),
        Refusal::BadAddress => numbered(7, 0, 0),
        Refusal::BadState => numbered(8, 0, 0),
        Refusal::InvalidLog => numbered(9, 0, 0),
        Refusal::InvalidFrame => numbered(10, 0, 0),
        Refusal::CapacityRange => numbered(11, 0, 0),
        Refusal::SetChannelRange { set, channel } => numbered(
            6,
            usize::from(set),
            usize::from(channel),
        ),
        Refusal::PositionRange => numbered(12, 0, 0),
    }
}
