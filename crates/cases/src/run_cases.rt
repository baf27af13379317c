// Cases that run a derivation. A case is its declarations; for the left and then the right, the length that is told, how many words are put
// to the front of its slice, and these, and how many words the slice has, up to all of its room; the count of steps that is told; how many
// words of steps are lent, up to 9,000, and these. Each slice is the front of a room that is kept from case to case, so behind its words
// stands what the case before left there. An answer is a line of `answers`.
use crate::Rooms;
use crate::answers::write;
use crate::declared::next_declarations;
use crate::input::{Input, front_mut, next_number, next_words};
use crate::output::Output;
use std::io;
use step::run::run_steps;

// Puts the words of a side to the front of its room, and lends as much of the room as the case says, since a caller may lend a slice of any
// size.
fn next_slice<'a>(input: &mut Input, room: &'a mut [u16]) -> io::Result<&'a mut [u16]> {
    next_words(input, room)?;
    let size = next_number(input)?;
    Ok(front_mut(room, size))
}

#[inline(never)]
pub fn answer(input: &mut Input, output: &mut Output, rooms: &mut Rooms) -> io::Result<()> {
    let ds = next_declarations(input)?;
    let n = next_number(input)?;
    let left = next_slice(input, &mut rooms.left)?;
    let m = next_number(input)?;
    let right = next_slice(input, &mut rooms.right)?;
    let count = next_number(input)?;
    let mut room = [0u16; 9000];
    let steps = next_words(input, &mut room)?;
    let answer = run_steps(&ds, left, n, right, m, steps, count);
    write(output, answer, left, right)
}
