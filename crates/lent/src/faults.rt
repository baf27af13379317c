// What is wrong with a derivation before its first step: two terms in work slices, and lent steps.
ghost use Rattle.std.specs.Prelude.{◌≡◌};
ghost use Rattle.lent.specs.Lent.{lent, fault_number};
ghost use Rattle.lent.specs.Faults.{same_type, fault, told, types_fault, early_code, fault_in};

use crate::steps::{StepsFault, steps_fault};
use typing::terms::{TermType, Typing, type_term};
use words::same;

// A fault that is found before any step. Its code and its side (1 left, 2 right, 0 neither) are the numbers of document 01, which `Refused` of specs/ is stated over and the library hands
// out. A file's fault has a line and no side, so `reader` has a type of its own.
#[derive(Clone, Copy, PartialEq, Eq, Debug)]
pub struct Fault {
    pub code: usize,
    pub side: usize,
    pub at: usize,
}

fn unnamed(code: usize) -> Fault
    ensures { result ≡ fault code 0 0 }
{
    Fault {
        code,
        side: 0,
        at: 0,
    }
}

impl From<StepsFault> for Fault {
    ghost from_gives = { λ f r. r ≡ fault (fault_number f) 0 0 };

    fn from(f: StepsFault) -> Fault {
        unnamed(f.code())
    }
}

// What comes before the steps' own faults: 1 of either slice, 7, and 8 of either term, from the codes that typing has for the two sides: those of document 01 again, 0 for none.
fn terms_fault(left: usize, right: usize) -> Result<(), Fault>
    ensures { result ≡ told (fault (early_code left right 0) 0 0) }
{
    if left == 1 || right == 1 {
        return Err(unnamed(1));
    }
    if left == 7 {
        return Err(unnamed(7));
    }
    if left == 8 || right == 8 {
        return Err(unnamed(8));
    }
    Ok(())
}

// Whether two types are the same. Not by a derived `==`: that takes the words one by one, and a run of no steps took 470 ns for 400.
#[tactic(auto, unfolding(crate::specs::Faults::same_type, crate::specs::Faults::same_sizes))]
fn same_type(a: TermType, b: TermType) -> bool
    ensures { result ≡ same_type a b }
{
    a.kind == b.kind && same(&a.rows, &b.rows) && same(&a.columns, &b.columns)
}

// 13, 10 and 11 of the left side, of the right side, and 12. A typing's code is 0 where it has a type.
fn types_fault(left: Typing, right: Typing) -> Result<(), Fault>
    ensures { result ≡ told (types_fault left right) }
{
    if left.code != 0 {
        return Err(Fault {
            code: left.code,
            side: 1,
            at: left.at,
        });
    }
    if right.code != 0 {
        return Err(Fault {
            code: right.code,
            side: 2,
            at: right.at,
        });
    }
    if !same_type(left.of, right.of) {
        return Err(unnamed(12));
    }
    Ok(())
}

// The first fault of what is lent, by document 01's order. Nothing is written, and nothing is relied on. Each slice goes with the number of what is in it, as `fejogbu_run` is
// lent them.
pub fn first_fault(
    ds: &[u16],
    left: &[u16],
    n: usize,
    right: &[u16],
    m: usize,
    steps: &[u16],
    count: usize,
) -> Result<(), Fault>
    ensures { result ≡ told (fault_in (lent ds.now left.now n right.now m steps.now count)) }
{
    let of_left = type_term(ds, left, n);
    let of_right = type_term(ds, right, m);
    terms_fault(of_left.code, of_right.code)?;
    steps_fault(steps, count)?;
    types_fault(of_left, of_right)
}
