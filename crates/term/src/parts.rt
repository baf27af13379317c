// Parts of a run of words: where one ends, how deep it is, how far down it stands, and the two lookups.
ghost use Rattle.std.specs.Prelude.{◌≡◌, cond, ◌++◌, ◌+◌, ◌≤◌, eqb, length, get_or, IfSome};
ghost use Rattle.term.specs.Heads.{arity_of};
ghost use Rattle.term.specs.Parts.{part, part_depth, Handed, side};
ghost use Rattle.term.specs.Terms.{level_at};
ghost use Rattle.term.specs.Code.Deepest.{deepest_in};

use crate::ahead::{are_leaves, is_row};
use crate::heads::arity_of;

// One of the two sides of a derivation.
#[derive(Clone, Copy, PartialEq, Eq)]
pub enum Side {
    Left,
    Right,
}

// The end of the whole part that begins at `at`. It counts the parts still to come and so needs no stack, however deep the part is. No `for`: a step passes one word, or a row of them.
// Where none begins there it is `at` itself, the end of no words: most callers hand on the words up to it without a test, and an Option would be asked at each.
pub fn part_end(ws: &[u16], at: usize) -> usize
    ensures { result ≡ at + length (part ws.now at) }
{
    if ws.len() <= at {
        return at;
    }
    let mut need: usize = 1;
    let mut i = at;
    while 0 < need {
        if ws.len() - i < need {
            return at;
        }
        let Some(n) = arity_of(ws[i]) else {
            return at;
        };
        i += 1;
        need -= 1;
        if is_row(ws, i, n) {
            i += n;
        } else {
            need += n;
        }
    }
    i
}

// How many heads stand above the offset `at`: one walk back over the words before it, which counts the whole parts behind the nearest head that is not passed.
pub fn level_at(ws: &[u16], at: usize) -> usize
    ensures { result ≡ level_at ws.now at }
{
    let mut level = 0;
    let mut parts = 0;
    for &word in ws[..at.min(ws.len())].iter().rev() {
        if let Some(n) = arity_of(word) {
            if parts < n {
                level += 1;
                parts = 0;
            } else {
                parts = parts - n + 1;
            }
        }
    }
    level
}

// Where a part ends and how deep it is: its start and 0 where no whole part begins there, as `part_end` says it. No Option: `walk` has one already, whose None is that it does not tell.
#[derive(Clone, Copy)]
struct Extent {
    end: usize,
    depth: usize,
}

// How deep a part is whose head has `n` children, all of them leaves.
fn depth_over(n: usize) -> usize
    ensures { (result ≡ cond (eqb n 0) 1 2) × (result ≤ 2) }
{
    if n == 0 { 1 } else { 2 }
}

// How many children the word at an offset of two slices wants, one behind the other; none is known past their end.
fn arity_at(front: &[u16], back: &[u16], i: usize) -> Option<usize>
    ensures { result ≡ arity_of (get_or (front.now ++ back.now) i 0) }
{
    if i < front.len() {
        return arity_of(front[i]);
    }
    arity_of(*back.get(i - front.len())?)
}

// The extent of the part that begins at `at` of two slices, one behind the other, in one walk over its words: `left` parts are still to come under the nearest open head, and `outer` has the
// same of the `level` heads above it, the outermost first, as a `Vec` would if there were a heap. Where more are open at once than `outer` has room for, nothing is told.
// No `for`: a step passes one word, or a row of them, or none.
fn walk(front: &[u16], back: &[u16], at: usize, outer: &mut [u8]) -> Option<Extent>
    ensures { IfSome result (λ x. (x.end ≡ at + length (part (front.now ++ back.now) at)) × (x.depth ≡ part_depth (front.now ++ back.now) at)) }
{
    let mut left = 1;
    let mut level = 0;
    let mut deepest = 0;
    let mut i = at;
    loop {
        if left == 0 {
            if level == 0 {
                return Some(Extent {
                    end: i,
                    depth: deepest,
                });
            }
            level -= 1;
            left = usize::from(outer[level]);
        } else {
            let Some(n) = arity_at(front, back, i) else {
                return Some(Extent { end: at, depth: 0 });
            };
            i += 1;
            if are_leaves(front, back, i, n) {
                deepest = deepest.max(level + depth_over(n));
                left -= 1;
                i += n;
            } else {
                if outer.len() <= level {
                    return None;
                }
                outer[level] = (left - 1) as u8;
                level += 1;
                deepest = deepest.max(level);
                left = n;
            }
        }
    }
}

// The same with room for `N` heads that are open at once.
fn walk_within<const N: usize>(front: &[u16], back: &[u16], at: usize) -> Option<Extent>
    requires { N ≤ 4096 }
    ensures { IfSome result (λ x. (x.end ≡ at + length (part (front.now ++ back.now) at)) × (x.depth ≡ part_depth (front.now ++ back.now) at)) }
{
    let mut outer = [0; N];
    walk(front, back, at, &mut outer)
}

// The depth of the part that the words are, from the level of each: no memory, and a walk back for every word.
// By `map`, `max` and `unwrap_or` the check left two goals open that the loop does not have: `max-requires-clause-can`, that the closure may be called at each turn, and `returns`.
fn deepest_of(part: &[u16]) -> usize
    ensures { result ≡ deepest_in part.now (length part.now) }
{
    let mut deepest = 0;
    for k in 0..part.len() {
        deepest = deepest.max(level_at(part, k) + 1);
    }
    deepest
}

// The extent of the part that begins at `at`. A part of a term is at most 64 deep, and one walk tells it; whatever 4,096 words can hold takes another with more room. Only behind that,
// where no term is, the levels tell.
fn extent_at(ws: &[u16], at: usize) -> Extent
    ensures { (result.end ≡ at + length (part ws.now at)) × (result.depth ≡ part_depth ws.now at) }
{
    if let Some(near) = walk_within::<64>(ws, &[], at) {
        return near;
    }
    if let Some(far) = walk_within::<4096>(ws, &[], at) {
        return far;
    }
    let end = part_end(ws, at);
    let depth = if at < end {
        deepest_of(&ws[at..end])
    } else {
        0
    };
    Extent { end, depth }
}

// The part of the caller's words that begins at `at`, and its depth; an empty part where none begins there, and 0. The depth goes out beside it and
// in no pair: `fejogbu_part` and its like are lent the depth's place, and `Handed` of this public signature speaks of it. An empty part is cut from the caller's words too, as its `block` says.
pub fn part_at<'a>(ws: &'a [u16], at: usize, depth: &mut usize) -> &'a [u16]
    ensures { Handed ws.entry at result depth.new }
{
    let found = extent_at(ws, at);
    *depth = found.depth;
    let end = found.end;
    if at < end {
        return &ws[at..end];
    }
    &ws[0..0]
}

// The same of whichever side is named, from either slice.
pub fn part_of_side<'a>(
    named: Side,
    left: &'a [u16],
    right: &'a [u16],
    at: usize,
    depth: &mut usize,
) -> &'a [u16]
    ensures { Handed (side named left.entry right.entry) at result depth.new }
{
    match named {
        Side::Left => part_at(left, at, depth),
        Side::Right => part_at(right, at, depth),
    }
}

// The depth of the part with which two slices begin, one behind the other, where one walk tells it, as it does of every part of a term. Neither is copied.
pub fn depth_told(front: &[u16], back: &[u16]) -> Option<usize>
    ensures { IfSome result (λ d. d ≡ part_depth (front.now ++ back.now) 0) }
{
    let told = walk_within::<64>(front, back, 0)?;
    Some(told.depth)
}
