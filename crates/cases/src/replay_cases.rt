// Cases that replay a file. A case is the file's length, one line feed, and so many bytes, right behind which the next case begins. A length
// over 70,000 counts as 70,000, which is more than a file may have. The two work slices are the fronts of rooms that are kept from case to
// case. An answer is a line of `answers`.
use crate::Rooms;
use crate::answers::write;
use crate::input::{Input, front_mut, next_bytes, next_number};
use crate::output::Output;
use file::replay::replay;
use std::io;

#[inline(never)]
pub fn answer(input: &mut Input, output: &mut Output, rooms: &mut Rooms) -> io::Result<()> {
    let mut room = [0u8; 70000];
    let n = next_number(input)?;
    let file = next_bytes(input, &mut room, n)?;
    let left = front_mut(&mut rooms.left, 4096);
    let right = front_mut(&mut rooms.right, 4096);
    let answer = replay(file, left, right);
    write(output, answer, left, right)
}
