// The cases of runs of words. 30 clears a slice from an offset; of two slices 31 copies the second over the first, and 32 is their first
// difference.
use crate::input::{Input, next_number};
use crate::output::{Output, also_words, first};
use crate::term_cases::slices::{MOST, read_slice};
use std::io;
use words::{clear_from, copy_words, first_difference};

// The length of the slice, and its words after the call.
fn clear(input: &mut Input, output: &mut Output) -> io::Result<()> {
    let mut room = [0u16; MOST];
    let ws = read_slice(input, &mut room)?;
    let from = next_number(input)?;
    clear_from(ws, from);
    first(output, ws.len())?;
    also_words(output, ws)
}

// How many words were copied, and the words of the first slice after the call.
fn copy(output: &mut Output, dst: &mut [u16], src: &[u16]) -> io::Result<()> {
    first(output, copy_words(dst, src))?;
    also_words(output, dst)
}

fn answer_both(input: &mut Input, output: &mut Output, op: usize) -> io::Result<()> {
    let mut room = [0u16; MOST];
    let mut more_room = [0u16; MOST];
    let a = read_slice(input, &mut room)?;
    let b = read_slice(input, &mut more_room)?;
    match op {
        31 => copy(output, a, b),
        _ => first(output, first_difference(a, b)),
    }
}

pub fn answer(input: &mut Input, output: &mut Output, op: usize) -> io::Result<()> {
    match op {
        30 => clear(input, output),
        _ => answer_both(input, output, op),
    }
}
