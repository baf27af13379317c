// The place of code 13: a bound basis without its sum around it, or a sum over a basis in eight bodies.
// Heads stand as their numbers, as document 01 and the definitions write them.
ghost use Rattle.std.specs.Prelude.{◌≡◌, ◌+◌, ◌≤◌, length};
ghost use Rattle.typing.specs.Code.Strays.{stray_word, bodies_in, Looked};

use crate::bodies::{enters, is_ninth};
use term::heads::arity_of;
use words::word_at;

// Whether a word's part is a stray one with so many bodies around it.
#[tactic(auto, unfolding(crate::specs::Code::Strays::stray_word))]
fn is_stray(word: u16, bodies: usize) -> bool
    ensures { result ≡ stray_word word bodies }
{
    if word / 256 == 28 {
        return bodies <= usize::from(word % 256);
    }
    is_ninth(usize::from(word / 256), bodies)
}

// How many bodies are around a word's child, behind `k` others.
#[tactic(auto, unfolding(crate::specs::Code::Strays::bodies_in))]
fn bodies_in(word: u16, k: usize, bodies: usize) -> usize
    requires { bodies ≤ 64 }
    ensures { result ≡ bodies_in word k bodies }
{
    if enters(usize::from(word / 256), k) {
        return bodies + 1;
    }
    bodies
}

// Looks through the part that begins at `at`, with so many bodies around it: its end, or the offset of its first stray part. It calls itself no deeper than the budget.
pub fn stray_in(ws: &[u16], at: usize, bodies: usize, budget: usize) -> Result<usize, usize>
    requires { (at ≤ length ws.now) × (length ws.now ≤ 4096) × (bodies + budget ≤ 64) }
    ensures { Looked ws.now at bodies budget result }
{
    if budget == 0 {
        return Ok(at);
    }
    let word = word_at(ws, at);
    let Some(n) = arity_of(word) else {
        return Ok(at);
    };
    if is_stray(word, bodies) {
        return Err(at);
    }
    let mut next = at + 1;
    for k in 0..n {
        next = stray_in(ws, next, bodies_in(word, k, bodies), budget - 1)?;
    }
    Ok(next)
}
