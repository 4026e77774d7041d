// The fields of a case: each has 4 bytes, highest first, and a narrow one is the last of them; what is not there reads as 0.
ghost use Rattle.std.specs.Prelude.{◌<◌};

use base::byte_at;
use numbers::{get_i8, get_i16, get_i32, get_u16, get_u32};

// One more than any record has values, so that too many stay too many.
pub const PLACES: usize = 30;

#[derive(Clone, Copy)]
pub struct Fields<'a>(pub &'a [u8]);

impl Fields<'_> {
    // How many there are.
    pub fn count(self) -> usize {
        self.0.len() / 4
    }

    pub fn u8(self, i: usize) -> u8
        requires { i < 64 }
    {
        byte_at(self.0, 4 * i + 3)
    }

    pub fn i8(self, i: usize) -> i8
        requires { i < 64 }
    {
        get_i8(self.0, 4 * i + 3)
    }

    pub fn u16(self, i: usize) -> u16
        requires { i < 64 }
    {
        get_u16(self.0, 4 * i + 2)
    }

    pub fn i16(self, i: usize) -> i16
        requires { i < 64 }
    {
        get_i16(self.0, 4 * i + 2)
    }

    pub fn u32(self, i: usize) -> u32
        requires { i < 64 }
    {
        get_u32(self.0, 4 * i)
    }

    pub fn i32(self, i: usize) -> i32
        requires { i < 64 }
    {
        get_i32(self.0, 4 * i)
    }
}
