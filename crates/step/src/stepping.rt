// A step on a typed term: the result is made apart, so that a refusal moves nothing.
ghost use Rattle.std.specs.Prelude.{◌≡◌, ◌++◌, ◌+◌, ◌-◌, ◌≤◌, ltb, length, take, replicate};
ghost use Rattle.words.specs.Words.{cleared};
ghost use Rattle.term.specs.Trees.{words, replace};
ghost use Rattle.term.specs.Parts.{part_depth};
ghost use Rattle.term.specs.Terms.{level_at};
ghost use Rattle.declarations.specs.Declarations.{context_in};
ghost use Rattle.typing.specs.Answers.{typing_of};
ghost use Rattle.rules.specs.Steps.{limited, step_of};
ghost use Rattle.lent.specs.Lent.{asked};
ghost use Rattle.step.specs.Answers.{held, between, step_in};
ghost use Rattle.step.specs.Code.Making.{Termed, Seated, Fresh, code_in, length_in, Made};

use crate::rewriting::{Rewritten, rewrite_part};
use families::writing::Refusal;
use lent::steps::Step;
use rulebook::{Family, row_of};
use term::parts::{level_at, part_at};
use words::{append, clear_from};

// The words of a term's slice, used or not, and of the scratch slice in which a result is made.
pub const TERM_SIZE: usize = 4096;

// Whether a part would pass 64 at a place. `old`, where its rule may leave a part deeper, is the depth of what stands there now. The depth of a part takes a walk over it, and the
// level of a place one back over all that stands before it, so they are asked for only where they decide: a part is no deeper than it has words, a place no more levels down than
// words stand before it, and what is there now is not too deep.
fn is_too_deep(term: &[u16], place: usize, old: Option<usize>, part: &[u16]) -> bool
    requires { Seated term.now place old part.now × (place ≤ 4096) × (length part.now ≤ 4096) }
    ensures { result ≡ ltb 64 (level_at term.now place + part_depth part.now 0) }
{
    let Some(old) = old else {
        return false;
    };
    // four tests one by one: with `||` a return is told by one of two facts, and `returns-then-place-part-le64` stays open
    if place + part.len() <= 64 {
        return false;
    }
    if part.len() <= old {
        return false;
    }
    let mut deep = 0;
    part_at(part, 0, &mut deep);
    if place + deep <= 64 {
        return false;
    }
    if deep <= old {
        return false;
    }
    64 < level_at(term, place) + deep
}

// The limits of the whole result, and the words behind the part. A part's new words stand in the front of `out`.
fn finish(
    term: &[u16],
    place: usize,
    made: Rewritten,
    out: &mut [u16; TERM_SIZE],
) -> Result<usize, Refusal>
    requires { Fresh term.now place made out.old }
    ensures { (f : Fresh term.now place made out.old) → Made f.tree (limited f.tree (replace f.tree place f.result)) place out.new result }
{
    let new = made.end;
    if TERM_SIZE < new {
        return Err(Refusal::TooBig);
    }
    if is_too_deep(term, place, made.depth, &out[..new]) {
        return Err(Refusal::TooBig);
    }
    let end = place + made.size;
    let done = append(out, new, &term[end..]);
    if TERM_SIZE - place < done {
        return Err(Refusal::TooBig);
    }
    Ok(done)
}

// The four refusals in their order, and the words of the result from the place on.
pub fn make(ds: &[u16], term: &[u16], s: Step, out: &mut [u16; TERM_SIZE]) -> Result<usize, Refusal>
    requires { Termed ds.now term.now }
    ensures { (x : Termed ds.now term.now) → Made x.tree (step_of (context_in ds.now) x.tree (asked s)) s.place out.new result }
{
    let row = row_of(s.rule as usize);
    if let Family::NoRule = row.family {
        return Err(Refusal::NoRule);
    }
    let place = s.place as usize;
    if term.len() <= place {
        return Err(Refusal::NoPart);
    }
    let made = rewrite_part(ds, term, s, row, out)?;
    finish(term, place, made, out)
}

// Clears a slice behind the new end of a result, before the result is copied. Behind its first `old` words the slice had zeros, and those are not written again. Whoever stops the
// program between the two sees no tail of the old term.
fn clear_behind(ws: &mut [u16], end: usize, old: usize)
    requires { (end ≤ length ws.old) × (old ≤ length ws.old) × (cleared ws.old old ≡ ws.old) }
    ensures { ws.new ≡ between ws.old end }
{
    clear_from(&mut ws[..old], end);
}

// Puts the words of a result from the place on into their slice, which had zeros behind its first `old` words, and zeros behind them. It clears first, then copies.
fn put(ws: &mut [u16], place: usize, src: &[u16], old: usize)
    requires { (place + length src.now ≤ length ws.old) × (old ≤ length ws.old) × (cleared ws.old old ≡ ws.old) }
    ensures { ws.new ≡ take place ws.old ++ (src.now ++ replicate (length ws.old - (place + length src.now)) 0) }
{
    clear_behind(ws, place + src.len(), old);
    append(ws, place, src);
}

// One step of the typed term in the first `n` words, which have zeros behind: the length of the term that is left, or why the step is refused, which leaves the term and its length.
pub fn step_on(
    ds: &[u16],
    ws: &mut [u16],
    n: usize,
    s: Step,
    out: &mut [u16; TERM_SIZE],
) -> Result<usize, Refusal>
    requires { ((typing_of ds.now ws.old n).code ≡ 0) × (cleared ws.old n ≡ ws.old) }
    ensures { (code_in result ≡ (step_in ds.now ws.old n s).code)
        × (length_in n result ≡ length (words (step_in ds.now ws.old n s).tree))
        × (ws.new ≡ held (step_in ds.now ws.old n s).tree) }
{
    let end = make(ds, &ws[..n], s, out)?;
    let place = s.place as usize;
    put(ws, place, &out[..end], n);
    Ok(place + end)
}
