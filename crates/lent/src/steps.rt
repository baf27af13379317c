// Steps as lent words: 8 a step, the side (1 left, 2 right), the rule, the place, i and j, and room for what a step may carry later.
ghost use Rattle.std.specs.Prelude.{◌≡◌, true, ◌≤◌, ◌<◌, length};
ghost use Rattle.words.specs.Listed.{all_up_to};
ghost use Rattle.rules.specs.Steps.{side_number};
ghost use Rattle.lent.specs.Lent.{asked, step_at, is_side, sided, fault_number, steps_order, has_room, step_put};

use term::parts::Side;
use words::append;

// A step: the number of a rule, an offset in the term, and two indices among the children, each as a file can give it.
#[derive(Clone, Copy)]
pub struct Step {
    pub rule: u16,
    pub place: u16,
    pub i: u16,
    pub j: u16,
}

// Why steps are not in order.
#[derive(Clone, Copy, PartialEq, Eq, Debug)]
pub enum StepsFault {
    // More than 1,000.
    TooMany,
    // Fewer are lent than their number says.
    Missing,
    // One is neither of the left nor of the right side.
    NoSide,
}

impl StepsFault {
    // The code of the same fault in a file.
    pub fn code(self) -> usize
        ensures { result ≡ fault_number self }
    {
        match self {
            StepsFault::TooMany => 6,
            StepsFault::Missing => 9,
            StepsFault::NoSide => 5,
        }
    }
}

// The words of a step, used or not.
pub const STEP_WORDS: usize = 8;

pub const MOST_STEPS: usize = 1000;

// A function and no method of `Side`: its contract is `side_number` of `rules`, a crate above `term`, where `Side` is.
fn number(side: Side) -> u16
    ensures { result ≡ side_number side }
{
    match side {
        Side::Left => 1,
        Side::Right => 2,
    }
}

// Puts a step as the k-th of those that `steps` holds, and says whether there was room for it; where there was none nothing is changed. A bool, which `fejogbu_put_step`
// hands out as 1 or 0; the reader need not ask, since its own array has room for the most steps that a file may have.
pub fn put_step(steps: &mut [u16], k: usize, side: Side, s: Step) -> bool
    ensures { (result ≡ has_room steps.old k) × (steps.new ≡ step_put steps.old k (record { side = side; step = asked s })) }
{
    if MOST_STEPS <= k {
        return false;
    }
    let words = [number(side), s.rule, s.place, s.i, s.j, 0, 0, 0];
    let end = append(steps, k * STEP_WORDS, &words);
    end <= steps.len()
}

// A side is a word of a lent step, so a number as the layout has it.
fn is_side(word: u16) -> bool
    ensures { result ≡ is_side word }
{
    word == 1 || word == 2
}

// Whether each of the first `n` steps names a side. By their numbers, as `step_at` of specs/ has it: `chunks_exact` would want the slice of all `n` first, and be no shorter.
fn are_sided(steps: &[u16], n: usize) -> bool
    requires { (n ≤ 1000) × (step_at n ≤ length steps.now) }
    ensures { result ≡ all_up_to n (sided steps.now) }
{
    (0..n).all(|k| is_side(steps[k * STEP_WORDS]))
}

// Whether the first `n` of some lent steps are in order, and else why they are not.
#[tactic(auto, using(crate::proofs::Lending::too_many))]
pub fn steps_fault(steps: &[u16], n: usize) -> Result<(), StepsFault>
    ensures { result ≡ steps_order steps.now n }
{
    if MOST_STEPS < n {
        return Err(StepsFault::TooMany);
    }
    if steps.len() < n * STEP_WORDS {
        return Err(StepsFault::Missing);
    }
    if !are_sided(steps, n) {
        return Err(StepsFault::NoSide);
    }
    Ok(())
}
