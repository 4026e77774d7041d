// A raw channel value in microseconds.
#![tactic(auto)]

ghost use Rattle.micros.specs.Micros.{microseconds_row, Answers};

use refusals::Refusal;

// The greatest raw value: 11 bits.
const GREATEST: u16 = 2047;

pub fn to_microseconds(raw: u16) -> Result<f32, Refusal>
    ensures { Answers raw (microseconds_row result) }
{
    if raw > GREATEST {
        return Err(Refusal::ChannelRange(0));
    }
    let x = raw as f32;
    Ok((x - 992.0) * 5.0 / 8.0 + 1500.0)
}
