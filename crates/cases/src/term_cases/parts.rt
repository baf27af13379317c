// The cases of parts. 0 looks a part up, with a slice and an offset; 1 looks one up on both sides, with two slices and an offset.
use crate::input::{Input, front, next_number};
use crate::output::{Output, also, also_words, first};
use crate::term_cases::slices::{MOST, read_slice};
use std::io;
use term::parts::{Side, part_at, part_end, part_of_side};

// The depth of a part, and its first word where it is not empty.
fn also_depth(output: &mut Output, depth: usize, part: &[u16]) -> io::Result<()> {
    also(output, depth)?;
    also_words(output, front(part, 1))
}

// A part's end, its length, its depth and its first word.
fn look_up(output: &mut Output, ws: &[u16], at: usize) -> io::Result<()> {
    first(output, part_end(ws, at))?;
    let mut depth = 0;
    let part = part_at(ws, at, &mut depth);
    also(output, part.len())?;
    also_depth(output, depth, part)
}

// The length, the depth and the first word of the part of the left side, and those of the part of the right side.
fn look_up_both<'a>(
    output: &mut Output,
    left: &'a [u16],
    right: &'a [u16],
    at: usize,
) -> io::Result<()> {
    let mut depth = 0;
    let of_left = part_of_side(Side::Left, left, right, at, &mut depth);
    first(output, of_left.len())?;
    also_depth(output, depth, of_left)?;
    let of_right = part_of_side(Side::Right, left, right, at, &mut depth);
    also(output, of_right.len())?;
    also_depth(output, depth, of_right)
}

fn answer_one(input: &mut Input, output: &mut Output) -> io::Result<()> {
    let mut room = [0u16; MOST];
    let ws = read_slice(input, &mut room)?;
    let at = next_number(input)?;
    look_up(output, ws, at)
}

fn answer_both(input: &mut Input, output: &mut Output) -> io::Result<()> {
    let mut room = [0u16; MOST];
    let mut more_room = [0u16; MOST];
    let left = read_slice(input, &mut room)?;
    let right = read_slice(input, &mut more_room)?;
    let at = next_number(input)?;
    look_up_both(output, left, right, at)
}

pub fn answer(input: &mut Input, output: &mut Output, op: usize) -> io::Result<()> {
    match op {
        0 => answer_one(input, output),
        _ => answer_both(input, output),
    }
}
