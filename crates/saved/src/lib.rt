// The saved form of a parser: what it holds and where it stands, written so that a later run goes on where this one was.
#![tactic(auto)]

pub mod form;
mod held;
pub mod lent;

ghost use Rattle.std.specs.Prelude.{◌≡◌};
ghost use Rattle.writing.specs.Writing.{written_row, write_of};
ghost use Rattle.saved.specs.Save.{save_image, restored_row};
ghost use Rattle.saved.specs.Parser.{resume_of};

use form::{position_in, restore_in, save_in};
use parser::CrsfParser;
use refusals::Refusal;

// The parser after a restore, and what the restore says.
#[derive(Clone, Copy)]
pub struct Resumed {
    pub parser: CrsfParser,
    pub restored: Result<usize, Refusal>,
}

pub fn save(p: CrsfParser, out: &mut [u8]) -> Result<usize, Refusal>
    ensures { (written_row result, out.new) ≡ write_of (save_image p.buffer p.start p.end p.position) out.old }
{
    save_in(&p.buffer, p.start, p.end, p.position, out)
}

pub fn restore(p: CrsfParser, form: &[u8]) -> Resumed
    ensures { (restored_row result.restored, result.parser) ≡ resume_of p form.now }
{
    let mut buffer = p.buffer;
    let restored = restore_in(&mut buffer, form);
    let parser = match restored {
        Ok(count) => CrsfParser {
            buffer,
            start: 0,
            end: count,
            position: position_in(form),
        },
        Err(_) => p,
    };
    Resumed { parser, restored }
}
