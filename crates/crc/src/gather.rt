// A word that has a string's check byte. The bytes come in eight at a time, the first the highest; those before the last whole eights come first.
ghost use Rattle.std.specs.Prelude.{◌≡◌, ◌+◌, ◌-◌, ◌%◌, ◌^◌, ◌≤◌, ◌<◌, length, take};
ghost use Rattle.base.specs.Parts.{part};
ghost use Rattle.numbers.specs.BigEndian.{be_of};
ghost use Rattle.crc.specs.Remainder.{remainder};
ghost use Rattle.crc.specs.Word.{word_check};

use crate::word::times_x64;

// The first n bytes, one by one.
fn first_bytes(s: &[u8], n: usize) -> u64
    requires { (n ≤ length s.now) × (n ≤ 8) }
    ensures { result ≡ be_of (take n s.now) }
{
    let mut w = 0;
    for i in 0..n {
        w = w * 256 + u64::from(s[i]);
    }
    w
}

fn four(s: &[u8], i: usize) -> u64
    requires { i + 4 ≤ length s.now }
    ensures { (result ≡ be_of (part s.now i 4)) × (result < 2 ^ 32) }
{
    let two = u64::from(s[i]) * 256 + u64::from(s[i + 1]);
    let three = two * 256 + u64::from(s[i + 2]);
    three * 256 + u64::from(s[i + 3])
}

// The eight bytes from place i on, which become one read: a loop over them does so in some places only.
fn eight(s: &[u8], i: usize) -> u64
    requires { i + 8 ≤ length s.now }
    ensures { result ≡ be_of (part s.now i 8) }
{
    four(s, i) * 0x1_0000_0000 + four(s, i + 4)
}

// The word of all bytes, from that of those before place `from`. Eights are left.
fn by_eights(s: &[u8], from: usize, first: u64) -> u64
    requires from_in_bounds { (from ≤ length s.now) × ((length s.now - from) % 8 ≡ 0) }
    requires first_value { word_check first ≡ remainder (take from s.now) }
    ensures { word_check result ≡ remainder s.now }
{
    let n = s.len();
    let mut i = from;
    let mut w = first;
    // In steps of eight, whose bytes `eight` reads at known places: that is what becomes one read (docs/SPEED.md).
    while i < n {
        w = times_x64(w) ^ eight(s, i);
        i += 8;
    }
    w
}

// The bytes before the last whole eights are read one by one.
pub(crate) fn fresh_word_of(s: &[u8]) -> u64
    ensures { word_check result ≡ remainder s.now }
{
    let i = s.len() % 8;
    by_eights(s, i, first_bytes(s, i))
}

// The first bytes, 1 to 8 of them, are the upper end of the first eight, which are read at once.
pub(crate) fn word_of(s: &[u8]) -> u64
    ensures { word_check result ≡ remainder s.now }
{
    let n = s.len();
    if n < 8 {
        return first_bytes(s, n);
    }
    let i = (n - 1) % 8 + 1;
    by_eights(s, i, eight(s, 0) >> ((8 - i) * 8))
}
