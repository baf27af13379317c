// The line of a step, and the last line.
ghost use Rattle.std.specs.Prelude.{◌≡◌, ◌≤◌, length};
ghost use Rattle.text.specs.Numbers.{number_in};
ghost use Rattle.format.specs.Files.{File};
ghost use Rattle.format.specs.Reading.{take_end};
ghost use Rattle.reader.specs.Code.Lines.{Answers, SideRead, FieldRead, StepTaken};

use crate::faults::{Fault, refused};
use crate::files::STEPS_SIZE;
use cursor::Reader;
use lent::steps::{MOST_STEPS, Step, put_step};
use term::parts::Side;
use text::numbers::read_number;

// The number in a field of a step line, and where the next field begins: one past the end of the line where there is none, as the reader's own
// place says it (`cursor`). A place and not the reader: `FieldRead` says that it is a place in the same text, which of a reader handed on would be one more equation at each of five fields.
#[derive(Clone, Copy)]
struct Field {
    number: u16,
    next: usize,
}

// The side that a step line names.
fn read_side(text: &[u8]) -> Option<Side>
    ensures { SideRead text.now result }
{
    let piece = Reader { bytes: text, at: 0 }.next(b' ');
    let field = &text[..piece.end];
    match field {
        b"L" => Some(Side::Left),
        b"R" => Some(Side::Right),
        _ => None,
    }
}

fn read_field(text: &[u8], at: usize) -> Option<Field>
    ensures { FieldRead text.now at result }
{
    if text.len() < at {
        return None;
    }
    let piece = Reader { bytes: text, at }.next(b' ');
    let n = read_number(&text[at..piece.end])?;
    let number = u16::try_from(n).ok()?;
    Some(Field {
        number,
        next: piece.rest.at,
    })
}

// 01: "a step line that does not split into its five fields ends the reading". The steps so far are counted by `k` beside their words: memory is fixed, and the array has its size from the start.
pub fn take_step(
    text: &[u8],
    line: usize,
    steps: &mut [u16; STEPS_SIZE],
    k: usize,
) -> Result<(), Fault>
    ensures { StepTaken text.now line k steps.old result steps.new }
{
    if k == MOST_STEPS {
        return Err(refused(6, line));
    }
    let Some(side) = read_side(text) else {
        return Err(refused(5, line));
    };
    let Some(rule) = read_field(text, 2) else {
        return Err(refused(5, line));
    };
    let Some(place) = read_field(text, rule.next) else {
        return Err(refused(5, line));
    };
    let Some(i) = read_field(text, place.next) else {
        return Err(refused(5, line));
    };
    let Some(j) = read_field(text, i.next) else {
        return Err(refused(5, line));
    };
    if j.next <= text.len() {
        return Err(refused(5, line));
    }
    let step = Step {
        rule: rule.number,
        place: place.number,
        i: i.number,
        j: j.number,
    };
    // What it answers is dropped: there is room for the step, since `k` is less than `MOST_STEPS` and the array has words for as many.
    put_step(steps, k, side, step);
    Ok(())
}

// The last line, behind `k` steps.
pub fn take_end(text: &[u8], line: usize, k: usize) -> Result<(), Fault>
    requires { k ≤ 1000 }
    ensures { (f : File) → k ≡ length f.steps → Answers line (take_end f (number_in text.now)) result }
{
    let Some(n) = read_number(text) else {
        return Err(refused(5, line));
    };
    if n != k {
        return Err(refused(9, line));
    }
    Ok(())
}
