// One whole valid frame, as a test.
#![tactic(auto)]

ghost use Rattle.std.specs.Prelude.{◌≡◌};
ghost use Rattle.valid.specs.Valid.{Decides};
ghost use Rattle.reading.specs.Frame.{Valid};

use crc::checked;
use packets::is_address;

// Whether the bytes are one whole valid frame of at most limit bytes.
pub fn is_valid(limit: usize, bytes: &[u8]) -> bool
    ensures { Decides (Valid limit bytes.now) result }
{
    let n = bytes.len();
    if n < 4 || limit < n || !is_address(bytes[0]) || usize::from(bytes[1]) + 2 != n {
        return false;
    }
    let last = n - 1;
    checked(&bytes[2..last], bytes[last]).is_ok()
}
