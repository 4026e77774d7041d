// A case of the sample: its kind, the eight bytes that an entry for a host is to answer, and three parts.
ghost use Rattle.std.specs.Prelude.{◌≡◌, ◌+◌, min, length};
ghost use Rattle.std.specs.Iterator.{at_most};

use refusals::{Refusal, row_of};

// What an answer is to be: a refusal's number, or 0 for a frame or a record, or 255 where more is asked for.
#[derive(Clone, Copy)]
pub struct Expected {
    pub number: u8,
    pub taken: u8,
    pub in_state: u8,
    pub len: u8,
    pub first: u8,
    pub second: u8,
}

#[derive(Clone, Copy)]
pub struct Case<'a> {
    pub kind: u8,
    pub expected: Expected,
    pub a: &'a [u8],
    pub b: &'a [u8],
    pub c: &'a [u8],
}

// The cases of a page, which a kind of 0 ends. What is not there of a case reads as 0, and its parts have what is there.
#[derive(Clone, Copy)]
pub struct Cases<'a>(pub &'a [u8]);

// The kind, three lengths and the eight bytes, of which the fourth is free and the last is 0.
const HEAD: usize = 12;

// So many of the bytes, or all where there are fewer, and the others.
fn cut(bytes: &[u8], count: usize) -> (&[u8], &[u8])
    ensures front { length result.0.now ≡ min count (length bytes.now) }
    ensures all { length result.0.now + length result.1.now ≡ length bytes.now }
{
    bytes.split_at(count.min(bytes.len()))
}

impl<'a> Iterator for Cases<'a> {
    type Item = Case<'a>;

    ghost remaining = { λ s. at_most (length s.0.now) };

    fn next(&mut self) -> Option<Case<'a>> {
        if self.0.is_empty() {
            return None;
        }
        let (front, rest) = cut(self.0, HEAD);
        let mut head = [0; HEAD];
        head[..front.len()].copy_from_slice(front);
        let [
            kind,
            a,
            b,
            c,
            number,
            taken,
            in_state,
            _,
            len,
            first,
            second,
            _,
        ] = head;
        if kind == 0 {
            return None;
        }
        let (a, rest) = cut(rest, usize::from(a));
        let (b, rest) = cut(rest, usize::from(b));
        let (c, rest) = cut(rest, usize::from(c));
        self.0 = rest;
        Some(Case {
            kind,
            expected: Expected {
                number,
                taken,
                in_state,
                len,
                first,
                second,
            },
            a,
            b,
            c,
        })
    }
}

// Whether a refusal has this number.
pub fn has_number(refusal: Refusal, number: u8) -> bool {
    row_of(refusal).number == number
}
