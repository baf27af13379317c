// The lines of a file one after the other.
ghost use Rattle.std.specs.Prelude.{◌≤◌};
ghost use Rattle.reader.specs.Code.Holding.{ValuedIn, LineRead};

use crate::declaring::{take_basis, take_types, take_variable};
use crate::faults::{Fault, refused};
use crate::files::{STEPS_SIZE, TERM_SIZE};
use crate::keys::{Key, Stage, key_of};
use crate::stepping::{take_end, take_step};
use crate::terms::take_term;
use declarations::SIZE;

// What was read so far: the stage, the lengths of the two terms, and how many steps there are. Not a stage and a `Read`: the line of each key changes one of the four, and would name the `Read` between.
#[derive(Clone, Copy)]
pub struct State {
    pub stage: Stage,
    pub left: usize,
    pub right: usize,
    pub steps: usize,
}

// The state behind the value of a key that may come next. The four lent arrays go one by one: a struct that lends them on would need four equations of ghost names in each contract.
fn take_value(
    key: Key,
    line: usize,
    value: &[u8],
    s: State,
    ds: &mut [u16; SIZE],
    left: &mut [u16; TERM_SIZE],
    right: &mut [u16; TERM_SIZE],
    steps: &mut [u16; STEPS_SIZE],
) -> Result<State, Fault>
    requires { s.steps ≤ 1000 }
    ensures { ValuedIn line key value.now s ds.old left.old right.old steps.old result ds.new left.new
        right.new steps.new }
{
    let mut next = State {
        stage: key.stage_after(),
        ..s
    };
    match key {
        Key::Types => take_types(value, line, ds)?,
        Key::Basis => take_basis(value, line, ds)?,
        Key::Var => take_variable(value, line, ds)?,
        Key::LeftTerm => next.left = take_term(value, line, ds, left)?,
        Key::RightTerm => next.right = take_term(value, line, ds, right)?,
        Key::Step => {
            take_step(value, line, steps, s.steps)?;
            next.steps += 1;
        }
        Key::End => take_end(value, line, s.steps)?,
    }
    Ok(next)
}

// The state behind a line, by its key.
pub fn take_line(
    text: &[u8],
    line: usize,
    s: State,
    ds: &mut [u16; SIZE],
    left: &mut [u16; TERM_SIZE],
    right: &mut [u16; TERM_SIZE],
    steps: &mut [u16; STEPS_SIZE],
) -> Result<State, Fault>
    requires { s.steps ≤ 1000 }
    ensures { LineRead text.now line s ds.old left.old right.old steps.old result ds.new left.new right.new steps.new }
{
    let Some((key, value)) = key_of(text) else {
        return Err(refused(4, line));
    };
    if !key.fits(s.stage) {
        return Err(refused(4, line));
    }
    take_value(key, line, value, s, ds, left, right, steps)
}
