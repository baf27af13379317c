// Writes answers to standard output, as decimal numbers with a space between them.
use crate::input::front;
use std::io::{self, LineWriter, Stdout, Write};

// Standard output, which every function that writes is handed. A line is passed on when it ends, so whoever hands in cases one by one gets
// each answer at once.
pub type Output = LineWriter<Stdout>;

// The first number of a line.
pub fn first(output: &mut Output, value: usize) -> io::Result<()> {
    write!(output, "{value}")
}

// One more number of a line that has some.
pub fn also(output: &mut Output, value: usize) -> io::Result<()> {
    write!(output, " {value}")
}

pub fn end_line(output: &mut Output) -> io::Result<()> {
    writeln!(output)
}

// The words of a slice, behind a line's first number.
pub fn also_words(output: &mut Output, ws: &[u16]) -> io::Result<()> {
    for word in ws {
        write!(output, " {word}")?;
    }
    Ok(())
}

// How many words a slice has up to the last that is not zero, and these. So all its words are told: those behind are zeros.
pub fn also_slice(output: &mut Output, ws: &[u16]) -> io::Result<()> {
    let used = ws
        .iter()
        .rposition(|word| *word != 0)
        .map_or(0, |last| last + 1);
    also(output, used)?;
    also_words(output, front(ws, used))
}
