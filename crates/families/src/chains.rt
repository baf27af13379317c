// The families at a sum or a product of many: one function each, over the offsets of the children. Each is handed the part and writes its result from the
// start of `out` on. Heads are given by their numbers, as a row and the words have them. What an `append` answers, where it ended, is handed to the next by hand: one struct of `out`
// and the place would borrow `out` for the whole function, and be taken apart by each call of `words`.
ghost use Rattle.std.specs.Prelude.{◌≡◌, ◌∷◌, ◌++◌, ◌-◌, ◌≤◌, length, take, drop};
ghost use Rattle.words.specs.Words.{Added};
ghost use Rattle.rules.specs.Table.{absorbing, merging, swapping};
ghost use Rattle.families.specs.Code.Families.{Does, Removes, chain_word, loose_word};

use crate::children::Part;
use crate::numbers::{DELTA, PRODUCT};
use crate::writing::Refusal;
use term::heads::SCALAR_ZERO;
use term::parts::part_end;
use typebook::is_sum;
use words::{append_run, append_word};

// A head and then the children of `ws` without its words from `start` up to `from`.
fn append_without(out: &mut [u16], head: u16, ws: &[u16], start: usize, from: usize) -> usize
    requires { (1 ≤ start) × (start ≤ from) × (from ≤ length ws.now) }
    ensures { Added out.old 0 (head ∷ (take (start - 1) (drop 1 ws.now) ++ drop from ws.now)) out.new result }
{
    let a = append_word(out, 0, head);
    let b = append_run(out, a, ws, 1, start);
    append_run(out, b, ws, from, ws.len())
}

// 4, 6, 55 to 57: child `i` goes, the fitting zero or one, from two or more.
#[tactic(auto, using(crate::proofs::Removed::only_child))]
pub fn remove(
    part: Part<'_>,
    parent: u16,
    child: u16,
    i: usize,
    out: &mut [u16],
) -> Result<usize, Refusal>
    ensures { Removes part.entry.words.now out.old out.new result parent child i }
{
    let head = part.words[0];
    let c = part
        .child_under(parent, i, child)
        .ok_or(Refusal::NoInstance)?;
    if head % 256 < 2 {
        return Err(Refusal::NoInstance);
    }
    Ok(append_without(out, head - 1, part.words, c.start, c.end))
}

// 5: child `i` is 0, and so is the product.
pub fn absorb(part: Part<'_>, i: usize, out: &mut [u16]) -> Result<usize, Refusal>
    ensures { Does part.entry.words.now out.old out.new result absorbing i 0 }
{
    part.child_under(PRODUCT, i, SCALAR_ZERO / 256)
        .ok_or(Refusal::NoInstance)?;
    Ok(append_word(out, 0, SCALAR_ZERO))
}

// Whether a word's head has any number of children in any order, as the typing rules have it of sums and products of many.
fn is_chain(word: u16) -> bool
    ensures { result ≡ chain_word word }
{
    is_sum(usize::from(word / 256))
}

// Whether a word's head may have its children in another order: a delta too.
fn is_loose(word: u16) -> bool
    ensures { result ≡ loose_word word }
{
    if word / 256 == DELTA {
        return true;
    }
    is_chain(word)
}

// 1: child `i`, of the parent's own head, is merged into it: its head's word goes, and the parent's counts its children too.
#[tactic(auto, using(crate::proofs::Merged::too_many))]
pub fn merge(part: Part<'_>, i: usize, out: &mut [u16]) -> Result<usize, Refusal>
    ensures { Does part.entry.words.now out.old out.new result merging i 0 }
{
    let head = part.words[0];
    if !is_chain(head) {
        return Err(Refusal::NoInstance);
    }
    let c = part
        .child_under(head / 256, i, head / 256)
        .ok_or(Refusal::NoInstance)?;
    let more = part.words[c.start] % 256;
    if 256 < head % 256 + more {
        return Err(Refusal::TooBig);
    }
    Ok(append_without(out, head - 1 + more, part.words, c.start, c.start + 1))
}

// 170: children `i` and `i` + 1 change places.
pub fn swap(part: Part<'_>, i: usize, out: &mut [u16]) -> Result<usize, Refusal>
    ensures { Does part.entry.words.now out.old out.new result swapping i 0 }
{
    if !is_loose(part.words[0]) {
        return Err(Refusal::NoInstance);
    }
    let c = part.child(i).ok_or(Refusal::NoInstance)?;
    if c.end == part.words.len() {
        return Err(Refusal::NoInstance);
    }
    let end = part_end(part.words, c.end);
    let a = append_run(out, 0, part.words, 0, c.start);
    let b = append_run(out, a, part.words, c.end, end);
    let d = append_run(out, b, part.words, c.start, c.end);
    Ok(append_run(out, d, part.words, end, part.words.len()))
}
