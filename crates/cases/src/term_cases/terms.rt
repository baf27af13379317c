// The cases of terms and of names. How many types, bases and variables are declared comes first; then 10 tests a term, of a slice and a
// length, 11 a word, and 12 all words of a slice. The answer is 1 for true and 0 for false.
use crate::input::{Input, narrow, next_number};
use crate::output::{Output, first};
use crate::term_cases::slices::{MOST, read_slice};
use std::io;
use term::terms::{Names, all_declared, is_declared, is_term};

fn read_names(input: &mut Input) -> io::Result<Names> {
    let types = next_number(input)?;
    let bases = next_number(input)?;
    let variables = next_number(input)?;
    Ok(Names {
        types,
        bases,
        variables,
    })
}

fn term(input: &mut Input) -> io::Result<bool> {
    let mut room = [0u16; MOST];
    let names = read_names(input)?;
    let ws = read_slice(input, &mut room)?;
    let n = next_number(input)?;
    Ok(is_term(names, ws, n))
}

fn word(input: &mut Input) -> io::Result<bool> {
    let names = read_names(input)?;
    let word = narrow(next_number(input)?);
    Ok(is_declared(names, word))
}

fn all_words(input: &mut Input) -> io::Result<bool> {
    let mut room = [0u16; MOST];
    let names = read_names(input)?;
    let ws = read_slice(input, &mut room)?;
    Ok(all_declared(names, ws))
}

fn accepted(input: &mut Input, op: usize) -> io::Result<bool> {
    match op {
        10 => term(input),
        11 => word(input),
        _ => all_words(input),
    }
}

pub fn answer(input: &mut Input, output: &mut Output, op: usize) -> io::Result<()> {
    let is_accepted = accepted(input, op)?;
    first(output, usize::from(is_accepted))
}
