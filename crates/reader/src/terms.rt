// The line of a term, whose words go straight into the slice that will hold it.
ghost use Rattle.std.specs.Prelude.{◌≡◌};
ghost use Rattle.format.specs.Files.{File, WellDeclared};
ghost use Rattle.format.specs.Kept.{declarations_of};
ghost use Rattle.reader.specs.Code.Lines.{Placed};

use crate::faults::{Fault, refused};
use crate::files::TERM_SIZE;
use declarations::{SIZE, names_of};
use term::terms::is_term;
use text::tokens::read_tokens;
use words::clear_from;

// How many words the term has.
pub fn take_term(
    text: &[u8],
    line: usize,
    ds: &[u16; SIZE],
    out: &mut [u16; TERM_SIZE],
) -> Result<usize, Fault>
    ensures { (f : File) → WellDeclared f → ds.now ≡ declarations_of f → Placed f line text.now
        result out.new }
{
    clear_from(out, 0);
    let Some(n) = read_tokens(text, out) else {
        return Err(refused(5, line));
    };
    if !is_term(names_of(ds), out, n) {
        return Err(refused(8, line));
    }
    Ok(n)
}
