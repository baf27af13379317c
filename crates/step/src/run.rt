// The run of a derivation's steps on two sides, for a caller who lends declarations, two work slices with their lengths, and the steps. Nothing is relied on.
ghost use Rattle.std.specs.Prelude.{◌≡◌, length};
ghost use Rattle.lent.specs.Lent.{lent};
ghost use Rattle.step.specs.Runs.{run_refusal, compared, run_answer, left_after, right_after};

use crate::running::{Lengths, take_from};
use crate::stepping::TERM_SIZE;
use lent::faults::{Fault, first_fault};
use words::{clear_from, first_difference, same};

// The answer: a code with its side, step and place, and the lengths of the two terms that are left. Its numbers are those that document 01 and the C interface fix, so it is no enum, and
// not one type with the answer of `single`, which has one length.
#[derive(Clone, Copy)]
pub struct Answer {
    pub code: usize,
    pub side: usize,
    pub step: usize,
    pub at: usize,
    pub left: usize,
    pub right: usize,
}

// An answer of a fault that is found before any step.
pub fn refused_with(f: Fault) -> Answer
    ensures { result ≡ run_refusal f }
{
    Answer {
        code: f.code,
        side: f.side,
        step: 0,
        at: f.at,
        left: 0,
        right: 0,
    }
}

// The ends compared, behind `step` good steps.
fn compare(left: &[u16], right: &[u16], step: usize) -> Answer
    ensures { result ≡ compared left.now (length left.now) right.now (length right.now) step }
{
    if same(left, right) {
        return Answer {
            code: 0,
            side: 0,
            step,
            at: 0,
            left: left.len(),
            right: right.len(),
        };
    }
    Answer {
        code: 30,
        side: 0,
        step,
        at: first_difference(left, right),
        left: left.len(),
        right: right.len(),
    }
}

// Takes the first `count` of the lent steps on the terms in the first `n` words of `left` and the first `m` of `right`, up to the first bad one, and compares the
// ends. Code 1 leaves both slices as they are, 5 to 13 leave zeros; else they hold the two terms that are left, with zeros behind, whatever stood there before.
pub fn run_steps(
    ds: &[u16],
    left: &mut [u16],
    n: usize,
    right: &mut [u16],
    m: usize,
    steps: &[u16],
    count: usize,
) -> Answer
    ensures { (result ≡ run_answer (lent ds.now left.old n right.old m steps.now count))
        × (left.new ≡ left_after (lent ds.now left.old n right.old m steps.now count))
        × (right.new ≡ right_after (lent ds.now left.old n right.old m steps.now count)) }
{
    if let Err(fault) = first_fault(ds, left, n, right, m, steps, count) {
        // two returns, as in `single`: with one for both, `returns-in-Err` stays open
        if fault.code == 1 {
            return refused_with(fault);
        }
        clear_from(left, 0);
        clear_from(right, 0);
        return refused_with(fault);
    }
    clear_from(left, n);
    clear_from(right, m);
    let mut out = [0u16; TERM_SIZE];
    let begun = Lengths { left: n, right: m };
    match take_from(ds, left, right, begun, steps, 0, count, &mut out) {
        Ok(long) => compare(&left[..long.left], &right[..long.right], count),
        Err(answer) => answer,
    }
}
