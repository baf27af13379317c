// Building a right side: one walk over its words. A hole's part is copied, and an index comes from the type of what a hole holds.
ghost use Rattle.std.specs.Prelude.{◌≡◌, true, ◌⊎◌, List, [], ◌∷◌};
ghost use Rattle.words.specs.Words.{Added};
ghost use Rattle.term.specs.Trees.{Tree, words};
ghost use Rattle.term.specs.Parts.{parse, tree_in};
ghost use Rattle.declarations.specs.Declarations.{context_at};
ghost use Rattle.rules.specs.Rewrite.{sort_of};
ghost use Rattle.shapes.specs.Bodies.{outer_at};
ghost use Rattle.step.specs.Code.Building.{HasSort, chosen_index, piece, pieces, asks, all_ask, indexless, Caught, AllSorted};

use matcher::Match;
use shapes::{View, append_side, class_of};
use term::heads::{Class, SCALAR_ZERO};
use term::parts::Side;
use words::{append, append_word};

// The heads of a right side's words that are none of a term's, which are all lower: 255:k is what hole k holds, 253:k the second index of its type, and 254:k, the only other, the first.
const HOLE: u16 = 255;

const SECOND_INDEX: u16 = 253;

// The index of the type of the part with which the words begin, written behind what stands there: an operator's second is that of its columns, and a bra's
// only one too. Where the type has none it is 5:0, the `no_index` of `rules`. The part stands in the bodies that are around the place of the term.
fn append_index(ds: &[u16], part: View, second: bool, out: &mut [u16], at: usize) -> usize
    requires { (bodies : List Tree) × HasSort ds.now bodies (outer_at part.term.now part.place) part.ws.now }
    ensures { (bodies : List Tree) → HasSort ds.now bodies (outer_at part.entry.term.now part.entry.place) part.entry.ws.now
        → Added out.old at (words (chosen_index second (sort_of (context_at ds.now bodies) (tree_in (parse part.entry.ws.now))))) out.new result }
{
    let class = class_of(ds, part.ws, 0, 64);
    // not one match on the class and `second`: its arms join before the words are written, and `returns` is not told the side
    if second {
        return match class {
            Class::Operator => append_side(ds, part, 0, Side::Right, 64, out, at),
            _ => append_word(out, at, SCALAR_ZERO),
        };
    }
    match class {
        Class::Ket => append_side(ds, part, 0, Side::Left, 64, out, at),
        Class::Bra => append_side(ds, part, 0, Side::Right, 64, out, at),
        Class::Operator => append_side(ds, part, 0, Side::Left, 64, out, at),
        _ => append_word(out, at, SCALAR_ZERO),
    }
}

// One word of the right side, for a match of the part with which the words begin. What a hole holds is a further part of them. Here, for a whole side and in `is_met` the premises on a match
// are no one record: the last of them is of the word, of the side or of the condition.
fn build_word(ds: &[u16], view: View, found: Match, word: u16, out: &mut [u16], at: usize) -> usize
    requires { ((x : Caught ds.now view.ws.now found) × (x.outer ≡ outer_at view.term.now view.place) × ((indexless (word ∷ []) ≡ true) ⊎ AllSorted x)) × (asks found.held word ≡ true) }
    ensures { (x : Caught ds.now view.entry.ws.now found)
        → x.outer ≡ outer_at view.entry.term.now view.entry.place → (indexless (word ∷ []) ≡ true) ⊎ AllSorted x
        → Added out.old at (piece (context_at ds.now x.bodies) x.trees word) out.new result }
{
    if word / 256 < SECOND_INDEX {
        return append_word(out, at, word);
    }
    let hole = (word % 256) as usize;
    if word / 256 == HOLE {
        return append(out, at, found.part(view.ws, hole));
    }
    let start = found.holes[hole].start;
    let part = View {
        ws: &view.ws[start..],
        ..view
    };
    append_index(ds, part, word / 256 == SECOND_INDEX, out, at)
}

// All words of a right side.
pub fn build_side(ds: &[u16], view: View, found: Match, side: &[u16], out: &mut [u16]) -> usize
    requires { ((x : Caught ds.now view.ws.now found) × (x.outer ≡ outer_at view.term.now view.place) × ((indexless side.now ≡ true) ⊎ AllSorted x)) × (all_ask found.held side.now ≡ true) }
    ensures { (x : Caught ds.now view.entry.ws.now found)
        → x.outer ≡ outer_at view.entry.term.now view.entry.place → (indexless side.now ≡ true) ⊎ AllSorted x
        → Added out.old 0 (pieces (context_at ds.now x.bodies) x.trees side.now) out.new result }
{
    let mut done = 0;
    for &word in side {
        done = build_word(ds, view, found, word, out, done);
    }
    done
}
