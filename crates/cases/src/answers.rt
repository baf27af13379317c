// The answer of a run or a replay as a line of numbers: code, side, step, at, left, right and, for each work slice, how many words it then
// has up to the last that is not zero, and these.
use crate::output::{Output, also_slice, end_line};
use std::io::{self, Write};
use step::run::Answer;

pub fn write(output: &mut Output, answer: Answer, left: &[u16], right: &[u16]) -> io::Result<()> {
    let Answer {
        code,
        side,
        step,
        at,
        left: n,
        right: m,
    } = answer;
    write!(output, "{code} {side} {step} {at} {n} {m}")?;
    also_slice(output, left)?;
    also_slice(output, right)?;
    end_line(output)
}
