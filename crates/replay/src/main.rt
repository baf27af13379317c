// Replays the derivation on standard input and writes the six lines of its answer: code, side, step, at, and the two lengths in words.
#![tactic(auto)]

ghost use Rattle.std.specs.Prelude.{◌≤◌, IfOk, length};

use file::replay::replay;
use std::io::{self, Read, Stdin};

// Reads until `room` is full or the input ends, and says how many bytes there were. The library says nothing of that, so that there are no more than `room` has is said here.
fn read_full(input: Stdin, room: &mut [u8]) -> io::Result<usize>
    ensures { IfOk result (λ n. n ≤ length room.old) }
{
    let most = room.len();
    let read = io::copy(&mut input.take(most as u64), &mut &mut room[..])?;
    Ok(most.min(read as usize))
}

// One byte more than a file may have tells that it is too long. Into an array, so that nothing is allocated.
fn main(rt: HostRuntime) -> io::Result<()> {
    let mut room = [0u8; 65537];
    let n = read_full(rt.stdin(), &mut room)?;
    let mut left = [0u16; 4096];
    let mut right = [0u16; 4096];
    let answer = replay(&room[..n], &mut left, &mut right);
    // A call for each line, since each has a name of its own: a loop over pairs would write the names and the fields as often.
    println!(rt; "code={}", answer.code)?;
    println!(rt; "side={}", answer.side)?;
    println!(rt; "step={}", answer.step)?;
    println!(rt; "at={}", answer.at)?;
    println!(rt; "left={}", answer.left)?;
    println!(rt; "right={}", answer.right)
}
