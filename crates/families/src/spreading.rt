// Spreading: a head over a sum becomes the sum of that head over each of the summands.
ghost use Rattle.std.specs.Prelude.{◌++◌, ◌-◌, ◌≤◌, ◌<◌, length, take, drop};
ghost use Rattle.words.specs.Words.{Added};
ghost use Rattle.families.specs.Code.Families.{Spreads};

use crate::children::Part;
use crate::writing::Refusal;
use term::parts::part_end;
use words::{append_run, append_word};

// The words of `ws` with those from `from` up to `to` in the place of those from `start` up to `end`.
fn append_around(
    out: &mut [u16],
    at: usize,
    ws: &[u16],
    start: usize,
    end: usize,
    from: usize,
    to: usize,
) -> usize
    requires { (start ≤ from) × (from ≤ to) × (to ≤ end) × (end ≤ length ws.now) }
    ensures { Added out.old at (take start ws.now ++ (take (to - from) (drop from ws.now) ++ drop end ws.now)) out.new result }
{
    let a = append_run(out, at, ws, 0, start);
    let b = append_run(out, a, ws, from, to);
    append_run(out, b, ws, end, ws.len())
}

// Child `k`, a sum, is spread over.
pub fn spread(
    part: Part<'_>,
    parent: u16,
    k: usize,
    sum: u16,
    into: u16,
    out: &mut [u16],
) -> Result<usize, Refusal>
    requires { into < 256 }
    ensures { Spreads part.entry.words.now out.old out.new result parent k sum into }
{
    let c = part.child_under(parent, k, sum).ok_or(Refusal::NoInstance)?;
    let start = c.start;
    let end = c.end;
    let mut done = append_word(out, 0, into * 256 + part.words[start] % 256);
    let mut next = start + 1;
    // no `for` over their number: each summand tells where the next begins, and the last ends where the sum does, so that a count would be one number more
    while next < end {
        let behind = part_end(part.words, next);
        done = append_around(out, done, part.words, start, end, next, behind);
        next = behind;
    }
    Ok(done)
}
