// Numbers of 1 to 4 bytes, or of 8, in a slice, highest byte first. One reader and one writer serve every width. Bytes that a slice lacks are not read, and a
// number that has no room is not written at all.
#![tactic(auto)]

ghost use Rattle.std.specs.Prelude.{◌≡◌, ◌+◌, ◌/◌, ◌^◌, ◌≤◌, ◌<◌, length};
ghost use Rattle.numbers.specs.Width.{width_of};
ghost use Rattle.numbers.specs.BigEndian.{be_of, bytes_of};
ghost use Rattle.numbers.specs.TwosComplement.{signed_of, twos_of};
ghost use Rattle.base.specs.Parts.{part, pasted, placed};

use base::{fits, part_of};

// The width from 1 to 4 that is nearest.
fn width_of(width: usize) -> usize
    ensures { result ≡ width_of width }
{
    width.clamp(1, 4)
}

// The number that these bytes are.
fn read(bytes: &[u8]) -> u64
    requires { length bytes.now ≤ 8 }
    ensures { result ≡ be_of bytes.now }
{
    let mut n = 0;
    for &byte in bytes {
        n = n * 256 + u64::from(byte);
    }
    n
}

// The number of the `width` bytes from `at`, or of those that are there.
fn read_some(s: &[u8], at: usize, width: usize) -> u64
    requires { width ≤ 8 }
    ensures { result ≡ be_of (part s.now at width) }
{
    // Where all are there, as many as the caller's width: the compiler then reads them without a loop.
    if fits(s.len(), at, width) {
        return read(&s[at..at + width]);
    }
    read(part_of(s, at, width))
}

// The unsigned number of the `width` bytes from `at`, or of those that are there. A place beside the slice, and no part of it: one past the end is answered.
pub fn get(s: &[u8], at: usize, width: usize) -> u32
    ensures { result ≡ be_of (part s.now at (width_of width)) }
{
    read_some(s, at, width_of(width)) as u32
}

// One line for each type, over the one reader: numbers of 24 bits have no type of their own, so a trait would need as many impls, and two types more.
pub fn get_u8(s: &[u8], at: usize) -> u8
    ensures { result ≡ be_of (part s.now at 1) }
{
    get(s, at, 1) as u8
}

pub fn get_u16(s: &[u8], at: usize) -> u16
    ensures { result ≡ be_of (part s.now at 2) }
{
    get(s, at, 2) as u16
}

pub fn get_u24(s: &[u8], at: usize) -> u32
    ensures { result ≡ be_of (part s.now at 3) }
{
    get(s, at, 3)
}

pub fn get_u32(s: &[u8], at: usize) -> u32
    ensures { result ≡ be_of (part s.now at 4) }
{
    get(s, at, 4)
}

pub fn get_u64(s: &[u8], at: usize) -> u64
    ensures { result ≡ be_of (part s.now at 8) }
{
    read_some(s, at, 8)
}

// From the last byte to the first.
fn write(out: &mut [u8], at: usize, width: usize, n: u64)
    requires { at + width ≤ length out.old }
    ensures { out.new ≡ pasted out.old at (bytes_of width n) }
{
    let mut rest = n;
    for i in (0..width).rev() {
        out[at + i] = (rest % 256) as u8;
        rest /= 256;
    }
}

// Writes the low `width` bytes of `n` from `at`, where there is room for all of them.
pub fn put(out: &mut [u8], at: usize, width: usize, n: u32)
    ensures { out.new ≡ placed out.old at (bytes_of (width_of width) n) }
{
    let whole = width_of(width);
    if fits(out.len(), at, whole) {
        write(out, at, whole, u64::from(n));
    }
}

pub fn put_u8(out: &mut [u8], at: usize, v: u8)
    ensures { out.new ≡ placed out.old at (bytes_of 1 v) }
{
    put(out, at, 1, u32::from(v));
}

pub fn put_u16(out: &mut [u8], at: usize, v: u16)
    ensures { out.new ≡ placed out.old at (bytes_of 2 v) }
{
    put(out, at, 2, u32::from(v));
}

// The low 24 bits of `v`.
pub fn put_u24(out: &mut [u8], at: usize, v: u32)
    ensures { out.new ≡ placed out.old at (bytes_of 3 v) }
{
    put(out, at, 3, v);
}

pub fn put_u32(out: &mut [u8], at: usize, v: u32)
    ensures { out.new ≡ placed out.old at (bytes_of 4 v) }
{
    put(out, at, 4, v);
}

pub fn put_u64(out: &mut [u8], at: usize, v: u64)
    ensures { out.new ≡ placed out.old at (bytes_of 8 v) }
{
    if fits(out.len(), at, 8) {
        write(out, at, 8, v);
    }
}

// The first number of a width that stands for a negative one: half of the width's numbers lie below it.
fn half(width: usize) -> u32
    requires { (0 < width) × (width ≤ 4) }
    ensures { result ≡ 256 ^ width / 2 }
{
    1 << (8 * width - 1)
}

// The number that `n` stands for in two's complement of `width` bytes.
fn signed(n: u32, width: usize) -> i32
    requires { (0 < width) × (width ≤ 4) × (n < 256 ^ width) }
    ensures { result ≡ signed_of width n }
{
    let h = half(width);
    if n < h {
        n as i32
    } else {
        -1 - ((h - 1 - (n - h)) as i32)
    }
}

// The same number as `get`'s, with its sign.
pub fn get_signed(s: &[u8], at: usize, width: usize) -> i32
    ensures { result ≡ signed_of (width_of width) (be_of (part s.now at (width_of width))) }
{
    signed(get(s, at, width), width_of(width))
}

pub fn get_i8(s: &[u8], at: usize) -> i8
    ensures { result ≡ signed_of 1 (be_of (part s.now at 1)) }
{
    get_signed(s, at, 1) as i8
}

pub fn get_i16(s: &[u8], at: usize) -> i16
    ensures { result ≡ signed_of 2 (be_of (part s.now at 2)) }
{
    get_signed(s, at, 2) as i16
}

pub fn get_i24(s: &[u8], at: usize) -> i32
    ensures { result ≡ signed_of 3 (be_of (part s.now at 3)) }
{
    get_signed(s, at, 3)
}

pub fn get_i32(s: &[u8], at: usize) -> i32
    ensures { result ≡ signed_of 4 (be_of (part s.now at 4)) }
{
    get_signed(s, at, 4)
}

// The 32 bits of `v` in two's complement.
fn bits(v: i32) -> u32
    ensures { result ≡ twos_of 4 v }
{
    v.cast_unsigned()
}

// Writes the low `width` bytes of `v` in two's complement, as `put`.
pub fn put_signed(out: &mut [u8], at: usize, width: usize, v: i32)
    ensures { out.new ≡ placed out.old at (bytes_of (width_of width) (twos_of (width_of width) v)) }
{
    put(out, at, width, bits(v));
}

pub fn put_i8(out: &mut [u8], at: usize, v: i8)
    ensures { out.new ≡ placed out.old at (bytes_of 1 (twos_of 1 v)) }
{
    put_signed(out, at, 1, i32::from(v));
}

pub fn put_i16(out: &mut [u8], at: usize, v: i16)
    ensures { out.new ≡ placed out.old at (bytes_of 2 (twos_of 2 v)) }
{
    put_signed(out, at, 2, i32::from(v));
}

// The low 24 bits of `v`.
pub fn put_i24(out: &mut [u8], at: usize, v: i32)
    ensures { out.new ≡ placed out.old at (bytes_of 3 (twos_of 3 v)) }
{
    put_signed(out, at, 3, v);
}

pub fn put_i32(out: &mut [u8], at: usize, v: i32)
    ensures { out.new ≡ placed out.old at (bytes_of 4 (twos_of 4 v)) }
{
    put_signed(out, at, 4, v);
}
