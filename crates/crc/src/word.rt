// A word of 64 bits as a polynomial: bit k is the coefficient of x^k, so `^` is the sum, and `<< k` is times x^k where no bit is lost. What it leaves
// over P (lib.rt) is kept in fewer bits, by what a power of x leaves: where x^k leaves x^j + x^i + 1, what stands above the k low bits goes back in
// three copies.
ghost use Rattle.std.specs.Prelude.{◌≡◌, ◌^◌, ◌<◌};
ghost use Rattle.crc.specs.Remainder.{shifts};
ghost use Rattle.crc.specs.Word.{residue, word_check};

use crate::tables::shifted;

// Times x^64, to make room for eight bytes: x^96 leaves x^3, and x^64 leaves x^6 + x + 1.
pub(crate) fn times_x64(w: u64) -> u64
    ensures { word_check result ≡ shifts 64 (word_check w) }
{
    let a = w >> 32;
    let b = w % 0x1_0000_0000;
    (a << 3) ^ b ^ (b << 1) ^ (b << 6)
}

// Three folds, and no one function of the powers: what x^k leaves, and how many bits come in, it would have to ask of its callers.
//
// In 38 bits: x^32 leaves x^6 + x^2 + 1.
fn fold_32(w: u64) -> u64
    ensures { (residue 8 result ≡ residue 8 w) × (result < 2 ^ 38) }
{
    let a = w >> 32;
    let b = w % 0x1_0000_0000;
    a ^ (a << 2) ^ (a << 6) ^ b
}

// 46 bits in 29: x^24 leaves x^7 + x + 1.
fn fold_24(w: u64) -> u64
    requires { w < 2 ^ 46 }
    ensures { (residue 8 result ≡ residue 8 w) × (result < 2 ^ 29) }
{
    let a = w >> 24;
    let b = w % 0x100_0000;
    a ^ (a << 1) ^ (a << 7) ^ b
}

// 29 bits in 16: x^16 leaves x^3 + x + 1.
fn fold_16(w: u64) -> u64
    requires { w < 2 ^ 29 }
    ensures { (residue 8 result ≡ residue 8 w) × (result < 2 ^ 16) }
{
    let a = w >> 16;
    let b = w % 0x1_0000;
    a ^ (a << 1) ^ (a << 3) ^ b
}

// The check byte of the bytes that the word has: what is left of it, times x^8.
pub(crate) fn check_of(w: u64) -> u8
    ensures { result ≡ word_check w }
{
    let v = fold_16(fold_24(fold_32(w) << 8));
    shifted(((v >> 8) % 256) as u8) ^ (v % 256) as u8
}
