// Cases that take a step. A case is its declarations; the length that is told; how many words the slice begins with, and these; how many
// words it has, up to 5,000, and the word that fills the rest of it; the rule, the place, i and j. An answer is code, side, step, at, length,
// how many words the slice then has up to the last that is not zero, and these.
use crate::declared::next_declarations;
use crate::input::{Input, fill, front, front_mut, narrow, next_number, next_words};
use crate::output::{Output, also_slice, end_line};
use crate::{ROOM, typing_cases};
use lent::steps::Step;
use std::io::{self, Write};
use step::preview::preview_step;
use step::single::{Answer, take_step};

// What a case says behind its declarations, beside the words. The slice that is lent is the first `size` words of the room.
#[derive(Clone, Copy)]
struct StepCase {
    length: usize,
    size: usize,
    step: Step,
}

fn next_step(input: &mut Input) -> io::Result<Step> {
    let rule = narrow(next_number(input)?);
    let place = narrow(next_number(input)?);
    let i = narrow(next_number(input)?);
    let j = narrow(next_number(input)?);
    Ok(Step { rule, place, i, j })
}

fn write(output: &mut Output, answer: Answer, ws: &[u16]) -> io::Result<()> {
    let Answer {
        code,
        side,
        step,
        at,
        length,
    } = answer;
    write!(output, "{code} {side} {step} {at} {length}")?;
    also_slice(output, ws)?;
    end_line(output)
}

// The words go to the front of the room, which the caller lends, as it has the declarations: as fields of a StepCase both were copied, and a case of few words took half as long again and more. The slice
// is lent at the size that the case says, since a caller may lend one of any size. Not by `next_slice` of `run_cases`: the words behind those that are given are told here.
fn next_case(input: &mut Input, room: &mut [u16; ROOM]) -> io::Result<StepCase> {
    let length = next_number(input)?;
    let given = next_words(input, room)?.len();
    let size = next_number(input)?;
    let word = narrow(next_number(input)?);
    fill(room, given, size, word);
    let step = next_step(input)?;
    Ok(StepCase { length, size, step })
}

#[inline(never)]
pub fn answer(input: &mut Input, output: &mut Output) -> io::Result<()> {
    let ds = next_declarations(input)?;
    let mut room = [0u16; ROOM];
    let case = next_case(input, &mut room)?;
    let ws = front_mut(&mut room, case.size);
    let answer = take_step(&ds, ws, case.length, case.step);
    write(output, answer, ws)
}

// The same cases, for the preview of the step; its answer is written as typing's is.
#[inline(never)]
pub fn answer_preview(input: &mut Input, output: &mut Output) -> io::Result<()> {
    let ds = next_declarations(input)?;
    let mut room = [0u16; ROOM];
    let case = next_case(input, &mut room)?;
    let ws = front(&room, case.size);
    typing_cases::write(output, preview_step(&ds, ws, case.length, case.step))
}
