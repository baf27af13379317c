// Collecting: two summands of one X become one, with the sum of their factors.
ghost use Rattle.std.specs.Prelude.{◌≡◌, cond, ◌∷◌, ◌++◌, ◌+◌, ◌-◌, ◌≤◌, ◌<◌, eqb, length, take, drop};
ghost use Rattle.words.specs.Words.{Added};
ghost use Rattle.families.specs.Code.Children.{without_both, x_in};
ghost use Rattle.families.specs.Code.Families.{Collects};

use crate::children::{Child, Part};
use crate::numbers::SUM;
use crate::writing::Refusal;
use term::heads::{SCALAR_ONE, SCALING};
use term::parts::part_end;
use words::{append, append_run, append_word, same};

// The word of the sum that the two factors make: 7:2.
const SUM_OF_TWO: u16 = 0x0702;

// Where the X of a summand begins: where the summand does if it is to be plain, and behind its factor if it is to be a.X, whose word is `SCALING`.
fn x_of(ws: &[u16], start: usize, scaled: bool) -> Option<usize>
    requires { start < length ws.now }
    ensures { result ≡ x_in ws.now start scaled }
{
    if !scaled {
        return Some(start);
    }
    if ws[start] != SCALING {
        return None;
    }
    Some(part_end(ws, start + 1))
}

// The factor of a summand that begins at `start`, and its X at `x`: what stands between, or `one` where nothing does.
fn factor<'a>(ws: &'a [u16], one: &'a [u16], start: usize, x: usize) -> &'a [u16]
    requires { (start ≤ x) × (x ≤ length ws.now) }
    ensures { result.now ≡ cond (eqb x start) one.now (take (x - (start + 1)) (drop (start + 1) ws.now)) }
{
    if x == start {
        return one;
    }
    &ws[start + 1..x]
}

// A head and then the children of `ws` without these two.
fn append_others(out: &mut [u16], head: u16, ws: &[u16], first: Child, second: Child) -> usize
    requires { (1 ≤ first.start) × (first.start ≤ first.end) × (first.end ≤ second.start) × (second.start ≤ second.end) × (second.end ≤ length ws.now) }
    ensures { Added out.old 0 (head ∷ without_both ws.now first second) out.new result }
{
    let a = append_word(out, 0, head);
    let b = append_run(out, a, ws, 1, first.start);
    let c = append_run(out, b, ws, first.end, second.start);
    append_run(out, c, ws, second.end, ws.len())
}

// The sum of the factors `c` and `d` over `x`.
fn append_multiple(out: &mut [u16], at: usize, c: &[u16], d: &[u16], x: &[u16]) -> usize
    ensures { Added out.old at (4864 ∷ (1794 ∷ (c.now ++ (d.now ++ x.now)))) out.new result }
{
    let scale = append_word(out, at, SCALING);
    let sum = append_word(out, scale, SUM_OF_TWO);
    let one = append(out, sum, c);
    let both = append(out, one, d);
    append(out, both, x)
}

// 51 to 54: the summands `i` and `j`, scaled or plain, go, and the new one stands last.
pub fn collect(
    part: Part<'_>,
    i_scaled: bool,
    j_scaled: bool,
    i: usize,
    j: usize,
    out: &mut [u16],
) -> Result<usize, Refusal>
    ensures { Collects part.entry.words.now out.old out.new result i_scaled j_scaled i j }
{
    if part.words[0] / 256 != SUM || j <= i {
        return Err(Refusal::NoInstance);
    }
    // the later one first: where there is none, nothing is walked over
    let second = part.child(j).ok_or(Refusal::NoInstance)?;
    let first = part.child(i).ok_or(Refusal::NoInstance)?;
    let x = x_of(part.words, first.start, i_scaled).ok_or(Refusal::NoInstance)?;
    let y = x_of(part.words, second.start, j_scaled).ok_or(Refusal::NoInstance)?;
    if !same(&part.words[x..first.end], &part.words[y..second.end]) {
        return Err(Refusal::NoInstance);
    }
    let one = [SCALAR_ONE];
    let c = factor(part.words, &one, first.start, x);
    let d = factor(part.words, &one, second.start, y);
    let kept = append_others(out, part.words[0] - 1, part.words, first, second);
    Ok(append_multiple(out, kept, c, d, &part.words[x..first.end]))
}
