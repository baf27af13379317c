// Cases that call the public functions of `term` and `words`. Behind its kind a case is `name=` and numbers: the first says what is called,
// and the others are what it is called with (the modules have the numbers). The answer is `name=` and numbers. The stored output was worked
// out by hand from document 01, "Terms as words"; the comments of the stored input name the sentences. What is called
// goes to the modules as its number, since those of the stored input may not change.
mod heads;
mod parts;
mod runs;
mod slices;
mod terms;

use crate::input::{Input, copy_name, next_number};
use crate::output::{Output, end_line};
use std::io;

fn call(input: &mut Input, output: &mut Output, op: usize) -> io::Result<()> {
    match op {
        0..=9 => parts::answer(input, output, op),
        10..=19 => terms::answer(input, output, op),
        20..=29 => heads::answer(input, output, op),
        _ => runs::answer(input, output, op),
    }
}

#[inline(never)]
pub fn answer(input: &mut Input, output: &mut Output) -> io::Result<()> {
    copy_name(input, output)?;
    let op = next_number(input)?;
    call(input, output, op)?;
    end_line(output)
}
