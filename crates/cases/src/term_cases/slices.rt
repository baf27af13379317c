// A slice of a case is its number of runs, and for each run a count and a word, so that a long slice is a short line.
use crate::input::{Input, fill, front_mut, narrow, next_count, next_number};
use std::io;

// The longest slice of a case has so many words.
pub const MOST: usize = 20000;

// Reads a run to the offsets from `from` on, and answers where it ends: at the end of the room where it would go on behind that.
fn read_run(input: &mut Input, ws: &mut [u16], from: usize) -> io::Result<usize> {
    let count = next_number(input)?;
    let to = from.saturating_add(count).min(ws.len());
    let word = narrow(next_number(input)?);
    fill(ws, from, to, word);
    Ok(to)
}

// The slice is read to the front of `room`, and what that has no place for is dropped.
pub fn read_slice<'a>(input: &mut Input, room: &'a mut [u16]) -> io::Result<&'a mut [u16]> {
    let n = next_count(input)?;
    let mut end = 0;
    for _ in 0..n {
        end = read_run(input, room, end)?;
    }
    Ok(front_mut(room, end))
}
