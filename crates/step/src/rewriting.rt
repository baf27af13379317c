// A rule at a part of a term: its row says whether it is an equation.
ghost use Rattle.std.specs.Prelude.{◌≡◌, ◌<◌, length, IfOk};
ghost use Rattle.rulebook.specs.Code.Rows.{row_of};
ghost use Rattle.families.specs.Writing.{Measures};
ghost use Rattle.lent.specs.Lent.{asked};
ghost use Rattle.step.specs.Code.Site.{words_from, ends, Site, Promise};

use crate::equations::equate;
use families::rewrite_family;
use families::writing::Refusal;
use lent::steps::Step;
use rulebook::{Family, Row};
use term::parts::part_at;

// What was written for a part: where that ends, how many words the part has and, where the rule may leave it deeper, how deep it is.
#[derive(Clone, Copy)]
pub struct Rewritten {
    pub end: usize,
    pub size: usize,
    pub depth: Option<usize>,
}

// What the rule that a step names, with its row, makes of the part at the place.
pub fn rewrite_part(
    ds: &[u16],
    term: &[u16],
    s: Step,
    row: Row,
    out: &mut [u16],
) -> Result<Rewritten, Refusal>
    requires { Site ds.now term.now s.place (words_from term.now s.place) × (s.place < length term.now) × (row ≡ row_of s.rule) }
    ensures { Promise ds.now term.now (asked s) out.old out.new (ends result)
        × IfOk result (λ r. Measures s.rule (words_from term.now s.place) r.size r.depth) }
{
    let place = s.place as usize;
    let ws = &term[place..];
    match row.family {
        Family::Equation => {
            let end = equate(ds, term, ws, s, row, out)?;
            let mut depth = 0;
            let part = part_at(ws, 0, &mut depth);
            Ok(Rewritten {
                end,
                size: part.len(),
                depth: Some(depth),
            })
        }
        _ => {
            let made = rewrite_family(ws, s.rule as usize, s.i as usize, s.j as usize, out);
            let end = made.written?;
            Ok(Rewritten {
                end,
                size: made.size,
                depth: made.depth,
            })
        }
    }
}
