// The rules that are one equation: the part is matched against the left side, and the right side is built.
ghost use Rattle.std.specs.Prelude.{◌≡◌, true, ◌⊎◌};
ghost use Rattle.words.specs.Listed.{lacks};
ghost use Rattle.declarations.specs.Declarations.{context_at};
ghost use Rattle.rules.specs.Table.{Condition};
ghost use Rattle.rules.specs.Rewrite.{satisfied, holes};
ghost use Rattle.rules.specs.Code.Conditions.{asked, of_words};
ghost use Rattle.rulebook.specs.Code.Rows.{condition_number};
ghost use Rattle.step.specs.Code.Building.{Caught, AllSorted};
ghost use Rattle.step.specs.Code.Site.{Site, Equation, equated_at};
ghost use Rattle.families.specs.Writing.{Writes};

use crate::building::build_side;
use declarations::is_marked;
use families::writing::Refusal;
use lent::steps::Step;
use matcher::{Match, match_words};
use rulebook::{Row, copy_from};
use shapes::{View, class_of};
use term::heads::OWN_BASIS;
use typebook::number;
use words::word_at;

// The conditions of equations, by their numbers in the rows: the kinds from 1 to 3 stand between. A row's last number is a head where its family asks for one, so it stays a number.
const ANY: u16 = 0;

const UNUSED: u16 = 4;

const MARKED: u16 = 5;

// Whether no word is the given one.
fn is_without(ws: &[u16], word: u16) -> bool
    ensures { result ≡ lacks word ws.now }
{
    !ws.contains(&word)
}

// Whether the parts in the holes meet the condition of a rule: that in hole 0 is of a kind or a marked variable, or that in hole 1 does not use the basis that the part binds.
fn is_met(ds: &[u16], ws: &[u16], found: Match, condition: u16) -> bool
    requires { (x : Caught ds.now ws.now found) × (k : Condition) × (condition ≡ condition_number k) × ((of_words k ≡ true) ⊎ AllSorted x) × (asked k found.held ≡ true) }
    ensures { (x : Caught ds.now ws.now found) (k : Condition)
        → condition ≡ condition_number k → (of_words k ≡ true) ⊎ AllSorted x → result ≡ satisfied (context_at ds.now x.bodies) k (holes x.trees) }
{
    match condition {
        ANY => true,
        UNUSED => is_without(found.part(ws, 1), OWN_BASIS),
        MARKED => is_marked(ds, word_at(ws, found.holes[0].start)),
        // classes are numbered as kinds are, from the scalars' 3 on
        _ => number(class_of(ds, &ws[found.holes[0].start..], 0, 64)) as u16 == 3 + condition,
    }
}

// What the equation that a step names, with its row, makes of the part with which the words begin: those of the term from the place on.
pub fn equate(
    ds: &[u16],
    term: &[u16],
    ws: &[u16],
    s: Step,
    row: Row,
    out: &mut [u16],
) -> Result<usize, Refusal>
    requires { Site ds.now term.now s.place ws.now × Equation s.rule row }
    ensures { (x : Site ds.now term.now s.place ws.now) (e : Equation s.rule row)
        → Writes (equated_at ds.now x e s.i s.j) out.old out.new result }
{
    if s.i != 0 || s.j != 0 {
        return Err(Refusal::NoInstance);
    }
    let mut sides = [0u16; 24];
    copy_from(s.rule as usize, row.a as usize, &mut sides);
    let n = row.b as usize;
    let m = row.c as usize;
    // not `map_err` and `?`: `is_met-requires` and its like stay open, since the match is then told by way of two more answers
    let Ok(found) = match_words(&sides[..n], ws) else {
        return Err(Refusal::NoInstance);
    };
    if !is_met(ds, ws, found, row.d) {
        return Err(Refusal::NoInstance);
    }
    let view = View {
        term,
        place: s.place as usize,
        ws,
    };
    Ok(build_side(ds, view, found, &sides[n..n + m], out))
}
