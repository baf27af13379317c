// The children of a part as they come. The heads of sums stand as their numbers, as document 01 and the definitions write them.
ghost use Rattle.std.specs.Prelude.{◌≡◌};
ghost use Rattle.typing.specs.Code.Shapes.{Small, Room};
ghost use Rattle.typing.specs.Code.Conclude.{none_yet, gap_of, one_more};

use crate::sorts::{Gathered, Sorted, are_alike};
use term::heads::Class;
use typebook::is_sum;

// Before the first child, whose words go to `top`.
pub fn none_yet(head: usize, top: usize) -> Gathered
    ensures { result ≡ none_yet head top }
{
    let scalar = Sorted {
        class: Class::Scalar,
        left: 0,
        right: 0,
    };
    Gathered {
        top,
        first: scalar,
        latest: scalar,
        at: top,
        free: top,
        alike: is_sum(head),
    }
}

// How many words stay free behind those of the first child: a sum over a basis has a record there.
#[tactic(auto, unfolding(crate::specs::Code::Conclude::gap_of))]
fn gap(head: usize) -> usize
    ensures { result ≡ gap_of head }
{
    if head == 27 { 2 } else { 0 }
}

// One child more, of which `k` came before. Its words stand where the next one's were to go. The first is tested for here: as two functions the loop over the children would be two, each with
// the call of the child, its refusal and its size.
#[tactic(auto, using(crate::proofs::Walked::gap_few), unfolding(crate::specs::Code::Conclude::one_more))]
pub fn gather(head: usize, k: usize, stack: &[u16], g: Gathered, child: Sorted) -> Gathered
    requires { Room g.top stack.now × Room g.free stack.now × Small g.first × Small child }
    ensures { result ≡ one_more head k stack.now g child }
{
    if k == 0 {
        return Gathered {
            top: g.top,
            first: child,
            latest: child,
            at: g.top,
            free: g.top + child.left + child.right + gap(head),
            alike: g.alike,
        };
    }
    let alike = g.alike && are_alike(stack, g.top, g.first, g.free, child);
    Gathered {
        top: g.top,
        first: g.first,
        latest: child,
        at: g.free,
        free: g.free,
        alike,
    }
}
