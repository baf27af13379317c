// The sums over a basis whose bodies hold a part. Each has a record on the stack, two words behind those of its index: how many words the index has, 0 where the sum lacks one, and where
// the next outer sum's record stands. A record is words of the stack, and so has a 0 where an `Option` would be.
// Heads stand as their numbers, as document 01 and the definitions write them.
ghost use Rattle.std.specs.Prelude.{◌≡◌, ℕ, ◌+◌, ◌-◌, ◌≤◌, ◌<◌, length};
ghost use Rattle.typing.specs.Code.Shapes.{Small, Room, Answers};
ghost use Rattle.typing.specs.Code.Chains.{budget_of, around_of, index_len, link_at, enters_at, Enterable, Entered, in_reach, ninth, Held};
ghost use Rattle.typing.specs.Code.Verdicts.{bound_shape};

use crate::sorts::Sorted;
use term::heads::Class;
use words::word_at;

// What a part is typed within is one number: how much deeper the call may go, how many bodies there are around the part, and where the record of the innermost sum stands. Handed down as a
// struct that went through memory at each call, typing took 241 instructions a word where without the sums it had taken 210 (docs/landings/2026-11-17-request-1.md).
#[tactic(auto, unfolding(crate::specs::Code::Chains::budget_of))]
pub fn budget_of(within: usize) -> usize
    ensures { result ≡ budget_of within }
{
    within % 128
}

#[tactic(auto, unfolding(crate::specs::Code::Chains::around_of))]
pub fn bodies_of(within: usize) -> usize
    ensures { result ≡ (around_of within).bodies }
{
    within / 128 % 128
}

#[tactic(auto, unfolding(crate::specs::Code::Chains::around_of))]
fn inner_of(within: usize) -> usize
    ensures { result ≡ (around_of within).inner }
{
    within / 16384
}

// How many words the index has that a sort is, and 0 for any other sort, as its record has it.
#[tactic(auto, unfolding(crate::specs::Code::Chains::index_len))]
fn index_len(s: Sorted) -> usize
    ensures { result ≡ index_len s }
{
    match s.class {
        Class::Index => s.left,
        _ => 0,
    }
}

// Whether the next child of a head, behind `k` others, is in the body of a sum over a basis.
#[tactic(auto, unfolding(crate::specs::Code::Chains::enters_at))]
pub fn enters(head: usize, k: usize) -> bool
    ensures { result ≡ enters_at head k }
{
    head == 27 && k != 0
}

// What the next child of a head is typed within, behind `k` others: a sum over a basis holds what comes behind its first child, and has its record written.
#[tactic(auto, using(crate::proofs::Binding::index_few), unfolding(crate::specs::Code::Chains::budget_of, crate::specs::Code::Chains::around_of))]
pub fn enter(
    head: usize,
    k: usize,
    stack: &mut [u16],
    top: usize,
    first: Sorted,
    within: usize,
) -> usize
    requires { Enterable stack.old top (budget_of within) first (around_of within) }
    ensures { Entered head k top (budget_of within) first (around_of within) (around_of result) (budget_of result) stack.old stack.new }
{
    if !enters(head, k) {
        return within - 1;
    }
    let at = top + first.left + first.right;
    stack[at] = index_len(first) as u16;
    stack[at + 1] = inner_of(within) as u16;
    budget_of(within) - 1 + 128 * (bodies_of(within) + 1) + 16384 * at
}

// Where the record of the `a`-th sum stands, from the innermost on.
fn record_at(stack: &[u16], inner: usize, a: usize) -> usize
    requires { inner ≤ 65535 }
    ensures { result ≡ link_at stack.now inner a }
{
    let mut at = inner;
    for _ in 0..a {
        at = usize::from(word_at(stack, at + 1));
    }
    at
}

// Whether the `a`-th sum is one that a bound basis may be of, with so many bodies around it.
#[tactic(auto, unfolding(crate::specs::Code::Chains::in_reach))]
fn is_in_reach(bodies: usize, a: usize) -> bool
    ensures { result ≡ in_reach bodies a }
{
    a < 8 && a < bodies
}

// What is found of the basis bound by the `a`-th sum: its index goes to `top`.
pub fn put_bound(stack: &mut [u16], top: usize, within: usize, a: usize) -> Option<Sorted>
    requires { Room top stack.old × (length stack.old ≤ 8320) × ((types : ℕ) × Held types stack.old top (around_of within)) }
    ensures { (types : ℕ) (x : Held types stack.old top (around_of within)) → Answers (bound_shape types a x.trees) result top stack.old stack.new }
{
    if !is_in_reach(bodies_of(within), a) {
        return None;
    }
    let at = record_at(stack, inner_of(within), a);
    let n = usize::from(word_at(stack, at));
    if n == 0 {
        return None;
    }
    stack.copy_within(at - n..at, top);
    Some(Sorted {
        class: Class::Basis,
        left: n,
        right: 0,
    })
}

// Whether a head is a sum over a basis in as many bodies as there may be.
#[tactic(auto, unfolding(crate::specs::Code::Chains::ninth))]
pub fn is_ninth(head: usize, bodies: usize) -> bool
    ensures { result ≡ ninth head bodies }
{
    head == 27 && 8 <= bodies
}
