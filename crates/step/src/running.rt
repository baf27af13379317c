// Steps one after the other on two typed sides. What was tested before the first stays true of both, so nothing is tested again.
ghost use Rattle.std.specs.Prelude.{◌≡◌, ◌+◌, ◌≤◌, length, get_or};
ghost use Rattle.types.specs.Sorts.{Sort};
ghost use Rattle.declarations.specs.Declarations.{context_in};
ghost use Rattle.rules.specs.Steps.{Sides, side_number};
ghost use Rattle.lent.specs.Lent.{asked, step_at, side_in};
ghost use Rattle.step.specs.Runs.{run_from};
ghost use Rattle.step.specs.Code.Running.{Ready, lengths_of, step_on, moved_by, moved_to, by_code, taken_to};

use crate::run::Answer;
use crate::stepping::{TERM_SIZE, step_on};
use families::writing::Refusal;
use lent::steps::{STEP_WORDS, Step};
use term::parts::Side;

// The lengths of the terms on the two sides. The slices stay beside it: each call lends one of them on, and one struct of both would be taken apart at each place that uses it.
#[derive(Clone, Copy)]
pub struct Lengths {
    pub left: usize,
    pub right: usize,
}

// The side that a step's first word names: whatever is not 2 is left. No `Option`: `lent` has tested each side of the steps before the first is taken.
fn side_named(word: u16) -> Side
    ensures { result ≡ side_in word }
{
    if word == 2 { Side::Right } else { Side::Left }
}

// A side as an answer tells it.
fn side_number(side: Side) -> usize
    ensures { result ≡ side_number side }
{
    match side {
        Side::Left => 1,
        Side::Right => 2,
    }
}

// The step whose words begin at `at`.
fn step_there(steps: &[u16], at: usize) -> Step
    requires { at + 5 ≤ length steps.now }
    ensures { asked result ≡ record {
      rule = get_or steps.now (at + 1) 0;
      place = get_or steps.now (at + 2) 0;
      i = get_or steps.now (at + 3) 0;
      j = get_or steps.now (at + 4) 0;
    } }
{
    Step {
        rule: steps[at + 1],
        place: steps[at + 2],
        i: steps[at + 3],
        j: steps[at + 4],
    }
}

// One step on a side: the lengths of both terms behind it, or why it is refused, which moves nothing.
fn move_side(
    ds: &[u16],
    left: &mut [u16],
    right: &mut [u16],
    long: Lengths,
    side: Side,
    s: Step,
    out: &mut [u16; TERM_SIZE],
) -> Result<Lengths, Refusal>
    requires { (p : Sides) × (S : Sort) × Ready ds.now left.old right.old long p S }
    ensures { (p : Sides) (S : Sort) → Ready ds.now left.old right.old long p S
        → (by_code result ≡ moved_to (step_on (context_in ds.now) p (record { side = side; step = asked s })).code (moved_by (context_in ds.now) p (record { side = side; step = asked s })))
        × Ready ds.now left.new right.new (lengths_of (moved_by (context_in ds.now) p (record { side = side; step = asked s })))
        (moved_by (context_in ds.now) p (record { side = side; step = asked s })) S }
{
    match side {
        Side::Left => Ok(Lengths {
            left: step_on(ds, left, long.left, s, out)?,
            ..long
        }),
        Side::Right => Ok(Lengths {
            right: step_on(ds, right, long.right, s, out)?,
            ..long
        }),
    }
}

// The lent steps from the k-th on up to `to`: the lengths of both terms behind them, or what is answered of the first bad one, which moves nothing.
pub fn take_from(
    ds: &[u16],
    left: &mut [u16],
    right: &mut [u16],
    begun: Lengths,
    steps: &[u16],
    from: usize,
    to: usize,
    out: &mut [u16; TERM_SIZE],
) -> Result<Lengths, Answer>
    requires { ((p : Sides) × (S : Sort) × Ready ds.now left.old right.old begun p S) × (from ≤ to) × (to ≤ 1000) × (step_at to ≤ length steps.now) }
    ensures { (p : Sides) (S : Sort) → Ready ds.now left.old right.old begun p S
        → (result ≡ taken_to (run_from (context_in ds.now) p steps.now from to))
        × Ready ds.now left.new right.new (lengths_of (run_from (context_in ds.now) p steps.now from to).sides) (run_from (context_in ds.now) p steps.now from to).sides S }
{
    let mut long = begun;
    // by `k`, and from `from`: the contract runs from any step to any, and an answer tells the step's number
    for k in from..to {
        let at = k * STEP_WORDS;
        let side = side_named(steps[at]);
        let s = step_there(steps, at);
        match move_side(ds, left, right, long, side, s, out) {
            Ok(next) => long = next,
            Err(refusal) => return Err(Answer {
                code: refusal.code(),
                side: side_number(side),
                step: k + 1,
                at: s.place as usize,
                left: long.left,
                right: long.right,
            }),
        }
    }
    Ok(long)
}
