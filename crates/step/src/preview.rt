// A step shown before it is taken: what it would answer, and the length, the depth and the type of what it would leave. The slice is lent to be read, so that nothing can be written.
ghost use Rattle.std.specs.Prelude.{◌≡◌, ◌++◌, ◌+◌, ◌≤◌, length};
ghost use Rattle.words.specs.Words.{laid};
ghost use Rattle.term.specs.Parts.{part_depth};
ghost use Rattle.step.specs.Previews.{preview_of};

use crate::stepping::{TERM_SIZE, make};
use families::keeps_depth;
use lent::steps::Step;
use term::parts::{depth_told, part_at};
use typing::terms::{Typing, type_term};
use words::append;

// The depth of the term whose words are these and then those, which fit the slice. A lookup tells it, once they stand there, over what stood there before.
fn depth_in(all: &mut [u16; TERM_SIZE], front: &[u16], back: &[u16]) -> usize
    requires { length front.now + length back.now ≤ 4096 }
    ensures { (result ≡ part_depth (front.now ++ back.now) 0)
        × (all.new ≡ laid (laid all.old 0 front.now) (length front.now) back.now) }
{
    let middle = append(all, 0, front);
    let end = append(all, middle, back);
    let mut depth = 0;
    part_at(&all[..end], 0, &mut depth);
    depth
}

// The same. One walk over both tells it of every term, and nothing is copied; whatever is deeper is laid together.
fn depth_of_both(front: &[u16], back: &[u16]) -> usize
    requires { length front.now + length back.now ≤ 4096 }
    ensures { result ≡ part_depth (front.now ++ back.now) 0 }
{
    if let Some(depth) = depth_told(front, back) {
        return depth;
    }
    let mut all = [0u16; TERM_SIZE];
    depth_in(&mut all, front, back)
}

// Shows one step of the term in the first `n` words of `ws`: every field is what taking the step on a copy answers, or what typing then tells of the copy.
#[tactic(auto, using(crate::proofs::Previewed::told_refused))]
pub fn preview_step(ds: &[u16], ws: &[u16], n: usize, s: Step) -> Typing
    ensures { result ≡ preview_of ds.now ws.now n s }
{
    let typing = type_term(ds, ws, n);
    if typing.code != 0 {
        return typing;
    }
    // a step keeps the type, and a refused one the length and the depth too
    let kept = Typing { step: 1, ..typing };
    let place = s.place as usize;
    let mut out = [0u16; TERM_SIZE];
    let end = match make(ds, &ws[..n], s, &mut out) {
        Ok(end) => end,
        Err(refusal) => return Typing {
            code: refusal.code(),
            at: place,
            ..kept
        },
    };
    let length = place + end;
    if keeps_depth(s.rule as usize) {
        return Typing { length, ..kept };
    }
    let depth = depth_of_both(&ws[..place], &out[..end]);
    Typing {
        length,
        depth,
        ..kept
    }
}
