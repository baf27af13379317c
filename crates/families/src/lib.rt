// The rules that are no equation: a function for each family of them. The entry finds the family by the rule's number, and relies on nothing: the words may be any.
#![tactic(auto)]

mod chains;
mod children;
mod collecting;
mod numbers;
mod spreading;
pub mod writing;

ghost use Rattle.std.specs.Prelude.{◌≡◌, cond, length};
ghost use Rattle.term.specs.Parts.{part, part_depth};
ghost use Rattle.types.specs.Sorts.{Context};
ghost use Rattle.rules.specs.Table.{Rule, distributing, rule_of};
ghost use Rattle.rulebook.specs.Code.Rows.{row_of};
ghost use Rattle.rulebook.specs.declared.Family.TheVariants.{Spread};
ghost use Rattle.families.specs.Code.Families.{Does, Lined};
ghost use Rattle.families.specs.Writing.{Writes, Measures, family_of, deepens_in, keeps_depth};

use crate::chains::{absorb, merge, remove, swap};
use crate::children::Part;
use crate::collecting::collect;
use crate::numbers::{BIG_SUM, SCALAR_SUM, SUM};
use crate::spreading::spread;
use crate::writing::{Refusal, Replaced};
use rulebook::{Family, Row, row_of};
use term::parts::{part_at, part_end};

// In the row of a spreading: over child `i`, and not over the child of that number.
const CHILD_I: usize = 2;

// Spreading over the child that the row names, and then `i` is to be 0, or over child `i`.
fn spread_by(part: Part<'_>, row: Row, i: usize, out: &mut [u16]) -> Result<usize, Refusal>
    requires { (rule : Rule) × Lined row Spread rule }
    ensures { (rule : Rule) → Lined row Spread rule → Does part.entry.words.now out.old out.new result rule i 0 }
{
    let which = usize::from(row.b);
    if which == CHILD_I {
        return spread(part, row.a, i, row.c, row.d, out);
    }
    if i != 0 {
        return Err(Refusal::NoInstance);
    }
    spread(part, row.a, which, row.c, row.d, out)
}

// A sum over a basis spreads over its body: over one of scalars or, where it is none, over one of arrays. A refusal writes nothing. Not one `match` with an arm for
// `Err(Refusal::NoInstance)` and `done => done`: the second arm is not told that the refusal is another (`returns-in_default` and `returns-in_default-2` stay open).
fn distribute(part: Part<'_>, i: usize, out: &mut [u16]) -> Result<usize, Refusal>
    ensures { Does part.entry.words.now out.old out.new result distributing i 0 }
{
    if i != 0 {
        return Err(Refusal::NoInstance);
    }
    match spread(part, BIG_SUM, 1, SCALAR_SUM, SCALAR_SUM, out) {
        Ok(end) => Ok(end),
        Err(refusal) => match refusal {
            Refusal::NoInstance => spread(part, BIG_SUM, 1, SUM, SUM, out),
            _ => Err(refusal),
        },
    }
}

// What the rule of a number, with its row, makes of a part. The step's numbers come one by one, since the type of a step is of `lent`, which uses `typing`, as this crate does not. A row of
// collecting says by 1 that a summand is scaled: no enum of two, since it would be made of that test here and be matched once.
fn family_at(
    part: Part<'_>,
    rule: usize,
    row: Row,
    i: usize,
    j: usize,
    out: &mut [u16],
) -> Result<usize, Refusal>
    requires { row ≡ row_of rule }
    ensures { (Γ : Context) → Writes (family_of Γ rule i j part.entry.words.now) out.old out.new result }
{
    if let Family::Collect = row.family {
        return collect(part, row.a == 1, row.b == 1, i, j, out);
    }
    // No other has a second index. Not an arm `_ if j != 0` of the `match`: the arms behind one are not told their family (`returns-in-Remove` and its like stay open).
    if j != 0 {
        return Err(Refusal::NoInstance);
    }
    match row.family {
        Family::Spread => spread_by(part, row, i, out),
        Family::Remove => remove(part, row.a, row.b, i, out),
        Family::Absorb => absorb(part, i, out),
        Family::Merge => merge(part, i, out),
        Family::Swap => swap(part, i, out),
        Family::Distribute => distribute(part, i, out),
        Family::NoRule | Family::Equation | Family::Collect => Err(Refusal::NoInstance),
    }
}

// Whether a rule of a family may leave a part deeper: one that removes, absorbs, merges or exchanges does not, and the others spread, collect or distribute.
fn may_deepen(family: Family) -> bool
    ensures { result ≡ deepens_in family }
{
    !matches!(
        family,
        Family::Remove | Family::Absorb | Family::Merge | Family::Swap
    )
}

// The size of a part, and its depth where that is asked for.
#[derive(Clone, Copy)]
struct Extent {
    size: usize,
    depth: Option<usize>,
}

// The part with which the words begin: one walk tells where it ends, and how deep it is too where a rule of the family may leave it deeper.
fn extent_of(ws: &[u16], family: Family) -> Extent
    ensures { (result.size ≡ length (part ws.now 0)) × (result.depth ≡ cond (deepens_in family) (Some (part_depth ws.now 0)) None) }
{
    if may_deepen(family) {
        let mut depth = 0;
        let part = part_at(ws, 0, &mut depth);
        return Extent {
            size: part.len(),
            depth: Some(depth),
        };
    }
    Extent {
        size: part_end(ws, 0),
        depth: None,
    }
}

// What the rule of a number makes of the part with which the words begin: `NoInstance` where no whole part does, and for a number that is no family's.
pub fn rewrite_family(ws: &[u16], rule: usize, i: usize, j: usize, out: &mut [u16]) -> Replaced
    ensures { ((Γ : Context) → Writes (family_of Γ rule i j ws.now) out.old out.new result.written)
        × Measures rule ws.now result.size result.depth }
{
    let row = row_of(rule);
    let Extent { size, depth } = extent_of(ws, row.family);
    if size == 0 {
        return Replaced {
            written: Err(Refusal::NoInstance),
            size,
            depth,
        };
    }
    let part = Part { words: &ws[..size] };
    let written = family_at(part, rule, row, i, j, out);
    Replaced {
        written,
        size,
        depth,
    }
}

// Whether the rule of a number leaves a part as deep as it was: one that exchanges does.
pub fn keeps_depth(rule: usize) -> bool
    ensures { result ≡ keeps_depth (rule_of rule) }
{
    matches!(row_of(rule).family, Family::Swap)
}
