// The sort of a part, or the place of the first untyped one.
// Heads stand as their numbers, as document 01 and the definitions write them.
ghost use Rattle.std.specs.Prelude.{◌≡◌};
ghost use Rattle.typing.specs.Code.Shapes.{Room};
ghost use Rattle.typing.specs.Code.Chains.{budget_of, around_of};
ghost use Rattle.typing.specs.Code.Verdicts.{settlement, Under, Typable, LeafFound, PartFound};

use crate::bodies::{bodies_of, budget_of, enter, is_ninth, put_bound};
use crate::gathering::{gather, none_yet};
use crate::lookup::{entry_of, put_both};
use crate::rules::conclude;
use crate::sorts::Sorted;
use std::cmp::max;
use term::heads::{Class, arity_of};
use words::word_at;

// What typing finds of a part that has a sort: its number of words, its depth and the sort.
#[derive(Clone, Copy)]
pub struct Part {
    pub size: usize,
    pub depth: usize,
    pub sorted: Sorted,
}

// A part by the sort that is concluded of it. Where it has none it is itself the first untyped one.
fn settled(size: usize, depth: usize, found: Option<Sorted>) -> Result<Part, usize>
    ensures { result ≡ settlement size depth found }
{
    found
        .map(|sorted| Part {
            size,
            depth,
            sorted,
        })
        .ok_or(0)
}

// What is found of a head without children, with such bodies around it. The declarations were tested.
fn conclude_leaf(
    ds: &[u16],
    word: u16,
    stack: &mut [u16],
    top: usize,
    within: usize,
) -> Option<Sorted>
    requires { Under ds.now stack.old top (around_of within) × Room top stack.old }
    ensures { LeafFound ds.now word top (around_of within) result stack.old stack.new }
{
    if word / 256 == 28 {
        return put_bound(stack, top, within, usize::from(word % 256));
    }
    if word / 256 == 1 {
        if word_at(ds, 0) <= word % 256 {
            return None;
        }
        stack[top] = word;
        return Some(Sorted {
            class: Class::Index,
            left: 1,
            right: 0,
        });
    }
    let e = entry_of(ds, word)?;
    put_both(ds, e.left, e.right, stack, top);
    Some(e.sorted)
}

// The sort of the whole part with which `ws` begins, with its words on the stack from `top` on; or the offset of its first untyped part. It calls itself no deeper than the
// budget. A sum over a basis in eight bodies has no sort, and its children are typed all the same: the place of the first untyped part is that of every term.
pub fn type_part(
    ds: &[u16],
    ws: &[u16],
    stack: &mut [u16],
    top: usize,
    within: usize,
) -> Result<Part, usize>
    requires { Typable ds.now ws.now stack.old top (budget_of within) (around_of within) }
    ensures { PartFound ds.now ws.now (budget_of within) top (around_of within) result stack.old stack.new }
{
    if budget_of(within) == 0 {
        return Err(0);
    }
    let word = word_at(ws, 0);
    let Some(n) = arity_of(word) else {
        return Err(0);
    };
    if n == 0 {
        return settled(1, 1, conclude_leaf(ds, word, stack, top, within));
    }
    let head = usize::from(word / 256);
    let mut g = none_yet(head, top);
    let mut deepest = 0;
    let mut next = 1;
    for k in 0..n {
        let inside = enter(head, k, stack, top, g.first, within);
        // A `match`, since `map_err` would ask for the bound of this sum in a closure of its own.
        let child = match type_part(ds, &ws[next..], stack, g.free, inside) {
            Ok(child) => child,
            Err(at) => return Err(next + at),
        };
        g = gather(head, k, stack, g, child.sorted);
        deepest = max(deepest, child.depth);
        next += child.size;
    }
    if is_ninth(head, bodies_of(within)) {
        return Err(0);
    }
    settled(next, deepest + 1, conclude(head, n, stack, g))
}
