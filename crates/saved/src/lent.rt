// The save and the restore of a parser that the host keeps: it is lent, as to each call, and a restore changes it in place. Thin over the forms by
// value.
ghost use Rattle.saved.specs.Lent.{Saves, Resumes};

use parser::CrsfParser;
use refusals::Refusal;

// What the parser holds, and where it stands, is written as its saved form.
pub fn save(p: &CrsfParser, out: &mut [u8]) -> Result<usize, Refusal>
    ensures { Saves p.now out.old result out.new }
{
    crate::save(*p, out)
}

// The parser goes on from a saved form. Of a malformed one it stays as it is.
pub fn restore(p: &mut CrsfParser, form: &[u8]) -> Result<usize, Refusal>
    ensures { Resumes p.old form.now p.new result }
{
    let out = crate::restore(*p, form);
    *p = out.parser;
    out.restored
}
