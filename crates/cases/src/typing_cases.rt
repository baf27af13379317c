// Cases that type a term. A case is its declarations; the length that is told; how many words the slice begins with, and these. An answer is
// code, side, step, at, length, depth, the kind, and the lengths and words of the index of the rows and of that of the columns.
use crate::declared::next_declarations;
use crate::input::{Input, front, next_number, next_words};
use crate::output::{Output, also, also_words, end_line};
use std::io::{self, Write};
use typing::terms::{TermType, Typing, sizes_of, type_term};

// An index: its length, then its words, which a type holds in an array with the length in its kind.
fn index(output: &mut Output, n: usize, ws: &[u16; 63]) -> io::Result<()> {
    also(output, n)?;
    also_words(output, front(ws, n))
}

// A type: its kind as the constructor numbers it, then both indices, an absent one as length 0.
fn type_of(output: &mut Output, of: &TermType) -> io::Result<()> {
    let sizes = sizes_of(of.kind);
    also(output, usize::from(sizes.number))?;
    index(output, sizes.rows, &of.rows)?;
    index(output, sizes.columns, &of.columns)
}

pub fn write(output: &mut Output, t: Typing) -> io::Result<()> {
    let Typing {
        code,
        side,
        step,
        at,
        length,
        depth,
        of,
    } = t;
    write!(output, "{code} {side} {step} {at} {length} {depth}")?;
    type_of(output, &of)?;
    end_line(output)
}

// The slice is the whole array, with zeros behind the words that are read.
#[inline(never)]
pub fn answer(input: &mut Input, output: &mut Output) -> io::Result<()> {
    let ds = next_declarations(input)?;
    let length = next_number(input)?;
    let mut ws = [0u16; 4096];
    next_words(input, &mut ws)?;
    write(output, type_term(&ds, &ws, length))
}
