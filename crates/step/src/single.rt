// The single step, for a caller who lends declarations, a work slice and a length. Nothing is relied on.
ghost use Rattle.std.specs.Prelude.{◌≡◌};
ghost use Rattle.step.specs.Answers.{step_refusal, answer_to, words_left};

use crate::stepping::{TERM_SIZE, step_on};
use lent::steps::Step;
use typing::terms::type_term;
use words::clear_from;

// The answer: a code with its side, step and place, and the length of the term that is left. Its numbers are those that document 01 and the C interface fix, so it is no enum, and not one
// type with the answer of `run`, which has two lengths.
#[derive(Clone, Copy)]
pub struct Answer {
    pub code: usize,
    pub side: usize,
    pub step: usize,
    pub at: usize,
    pub length: usize,
}

fn refused_with(code: usize, at: usize) -> Answer
    ensures { result ≡ step_refusal code at }
{
    Answer {
        code,
        side: 0,
        step: 0,
        at,
        length: 0,
    }
}

// Takes one step of the term in the first `n` words of `ws`. Code 1 leaves the slice as it is, 7 to 13 leave zeros; else the slice holds the term, or its
// result where the code is 0, with zeros behind, whatever stood there before.
pub fn take_step(ds: &[u16], ws: &mut [u16], n: usize, s: Step) -> Answer
    ensures { (result ≡ answer_to ds.now ws.old n s) × (ws.new ≡ words_left ds.now ws.old n s) }
{
    let typing = type_term(ds, ws, n);
    // two returns: with one for both, `returns-then-typing-ne0` stays open, since what was cleared is not told where the two ways join
    if typing.code == 1 {
        return refused_with(typing.code, typing.at);
    }
    if typing.code != 0 {
        clear_from(ws, 0);
        return refused_with(typing.code, typing.at);
    }
    clear_from(ws, n);
    let mut out = [0u16; TERM_SIZE];
    match step_on(ds, ws, n, s, &mut out) {
        Ok(length) => Answer {
            code: 0,
            side: 0,
            step: 1,
            at: 0,
            length,
        },
        Err(refusal) => Answer {
            code: refusal.code(),
            side: 0,
            step: 1,
            at: s.place as usize,
            length: n,
        },
    }
}
