// Answers the cases that standard input holds, a line each, and writes a line for each. A case is numbers: the first is its kind, and the
// module of the kind says what follows. A line that begins with no known kind, as one with `#` does, is a comment.
#![tactic(auto)]

mod answers;
mod declared;
mod input;
mod output;
mod replay_cases;
mod run_cases;
mod step_cases;
mod term_cases;
mod typing_cases;

use crate::input::{Input, number_or_end, skip_line};
use crate::output::Output;
use std::io::{self, BufReader, LineWriter, Write};

// The rooms of the two sides have so many words, and that of a step's slice: more than the slice is to have.
const ROOM: usize = 5000;

// What runs and replays are lent. Nobody clears the two sides between cases: a word that one left, and that the next was to write over, would
// show.
#[derive(Drop)]
pub struct Rooms {
    left: [u16; ROOM],
    right: [u16; ROOM],
}

// The table of kinds, none of which is inlined: the arrays of all of them would else stand on the stack together. `behind` is the byte that was taken behind the kind.
fn answer(
    input: &mut Input,
    output: &mut Output,
    kind: usize,
    behind: u8,
    rooms: &mut Rooms,
) -> io::Result<()> {
    match kind {
        1 => term_cases::answer(input, output),
        2 => typing_cases::answer(input, output),
        3 => step_cases::answer(input, output),
        4 => run_cases::answer(input, output, rooms),
        5 => replay_cases::answer(input, output, rooms),
        6 => step_cases::answer_preview(input, output),
        _ => skip_line(input, behind),
    }
}

// Case by case up to the end of the input. The loop counts, since nothing says that the input ends.
fn answer_all(input: &mut Input, output: &mut Output, rooms: &mut Rooms) -> io::Result<()> {
    for _ in 0..u64::MAX {
        let kind = number_or_end(input)?;
        let Some(behind) = kind.behind else {
            return Ok(());
        };
        answer(input, output, kind.value, behind, rooms)?;
    }
    Ok(())
}

fn main(rt: HostRuntime) -> io::Result<()> {
    let mut input = BufReader::new(rt.alloc(), rt.stdin())?;
    let mut output = LineWriter::new(rt.alloc(), rt.stdout())?;
    let mut rooms = Rooms {
        left: [0; ROOM],
        right: [0; ROOM],
    };
    answer_all(&mut input, &mut output, &mut rooms)?;
    output.flush()
}
