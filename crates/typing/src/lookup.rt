// What is declared of a name, found by its number. Every function here leans on a test that was made: typing's entry makes it first, by `are_good`, and no other crate sees these. That the
// declarations are good stays a premise, as `Room` and `Inside` do: a struct that keeps it would be handed through each call of `type_part` by pointer, and a word read through one more place.
// Heads stand as their numbers, as document 01 and the definitions write them.
ghost use Rattle.std.specs.Prelude.{◌≡◌, true, ◌++◌, ◌+◌, ◌≤◌, ◌<◌, length};
ghost use Rattle.words.specs.Words.{laid};
ghost use Rattle.declarations.specs.Declarations.{size, good_declarations};
ghost use Rattle.typing.specs.Code.Shapes.{run_at, Inside, Room};
ghost use Rattle.typing.specs.Code.Verdicts.{sorted_by, bare_entry, basis_entry, variable_entry, entry_of};

use crate::sorts::{Run, Sorted};
use term::heads::Class;
use words::append;

// A sort, and where the declarations have the words of its two indices.
#[derive(Clone, Copy)]
pub struct Entry {
    pub sorted: Sorted,
    pub left: Run,
    pub right: Run,
}

// A sort without indices.
fn bare() -> Entry
    ensures { result ≡ bare_entry }
{
    Entry {
        sorted: Sorted {
            class: Class::Scalar,
            left: 0,
            right: 0,
        },
        left: Run { at: 0, len: 0 },
        right: Run { at: 0, len: 0 },
    }
}

#[tactic(auto, unfolding(crate::specs::Code::Verdicts::basis_entry))]
fn basis_entry(ds: &[u16], a: usize) -> Entry
    requires { (length ds.now ≡ size) × (a < 32) }
    ensures { result ≡ basis_entry ds.now a }
{
    let at = 3 + a * 64;
    let n = usize::from(ds[at]);
    Entry {
        sorted: Sorted {
            class: Class::Basis,
            left: n,
            right: 0,
        },
        left: Run { at: at + 1, len: n },
        right: Run { at: 0, len: 0 },
    }
}

// A variable's sort, by its kind: a word of the declarations, whose layout is fixed (0 scalar, 1 ket, 2 bra, 3 operator).
fn sorted_by(kind: u16, n: usize, m: usize) -> Sorted
    ensures { result ≡ sorted_by kind n m }
{
    match kind {
        0 => Sorted {
            class: Class::Scalar,
            left: 0,
            right: 0,
        },
        1 => Sorted {
            class: Class::Ket,
            left: n,
            right: 0,
        },
        2 => Sorted {
            class: Class::Bra,
            left: 0,
            right: n,
        },
        _ => Sorted {
            class: Class::Operator,
            left: n,
            right: m,
        },
    }
}

#[tactic(auto, unfolding(crate::specs::Code::Verdicts::variable_entry))]
fn variable_entry(ds: &[u16], a: usize) -> Entry
    requires { (length ds.now ≡ size) × (a < 32) }
    ensures { result ≡ variable_entry ds.now a }
{
    let at = 2051 + a * 129;
    let n = usize::from(ds[at + 1]);
    let m = usize::from(ds[at + 2]);
    Entry {
        sorted: sorted_by(ds[at] % 4, n, m),
        left: Run { at: at + 3, len: n },
        right: Run {
            at: at + 66,
            len: m,
        },
    }
}

// What is declared of the name in a word, if it is; a scalar where the word has no name.
#[tactic(auto, unfolding(crate::specs::Code::Verdicts::entry_of))]
pub fn entry_of(ds: &[u16], word: u16) -> Option<Entry>
    requires { good_declarations ds.now ≡ true }
    ensures { result ≡ entry_of ds.now word }
{
    let name = word % 256;
    match word / 256 {
        3 if name < ds[1] => Some(basis_entry(ds, usize::from(name))),
        26 if name < ds[2] => Some(variable_entry(ds, usize::from(name))),
        3 | 26 => None,
        _ => Some(bare()),
    }
}

// Puts two runs of the declarations on the stack, one behind the other.
pub fn put_both(ds: &[u16], left: Run, right: Run, stack: &mut [u16], top: usize)
    requires { Inside left ds.now × Inside right ds.now × (left.len ≤ 63) × (right.len ≤ 63) × Room top stack.old }
    ensures { stack.new ≡ laid stack.old top (run_at ds.now left ++ run_at ds.now right) }
{
    let end = append(stack, top, left.of(ds));
    append(stack, end, right.of(ds));
}
