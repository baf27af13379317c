// What is read off the words of a typed part: its class, and the two indices of its type. The heads and the typing rules say where each is, and nothing is tested on
// the way. Every function answers whatever the words are.
// Heads stand as their numbers, as document 01, the definitions and the lines of `typebook` write them. So do a rule's digits: the typing rules stay one table of lines, whose head says what
// each digit means, and whether a child is the first or the second is read off a digit.
// A declared kind is a word of the declarations, whose layout is fixed: 0 scalar, 1 ket, 2 bra, 3 operator, and 4 more where it is marked.
#![tactic(auto)]

ghost use Rattle.std.specs.Prelude.{◌≡◌, cond, ◌<◌, ◌+◌, ◌%◌, eqb, length, get_or};
ghost use Rattle.words.specs.Words.{Added};
ghost use Rattle.term.specs.Parts.{part};
ghost use Rattle.typebook.specs.Code.Shapes.{number_of};
ghost use Rattle.shapes.specs.Bodies.{back, walked, bound_in, outer_at};
ghost use Rattle.shapes.specs.Reading.{second_of, variable_index, declared_index, variable_class, child_at, turned_if, class_at, at_right, digit, is_right, side_at};

use term::heads::{Class, INDEX_PRODUCT, arity_of, result_class};
use term::parts::{Side, part_end};
use typebook::{rule_of, turn};
use words::{append, append_run, append_word, run, word_at};

// The words of a term from a place on, or of a part there, and the term around them: what is bound outside these words is bound around the place.
#[derive(Clone, Copy)]
pub struct View<'a> {
    pub term: &'a [u16],
    pub place: usize,
    pub ws: &'a [u16],
}

// The class of a variable, which is declared: its kind. A name is a number below 256, since a `u8` would be made of one at each call and be made one again at each use.
fn variable_class(ds: &[u16], name: usize) -> Class
    requires { name < 256 }
    ensures { number_of result ≡ variable_class ds.now name }
{
    match word_at(ds, 2051 + name * 129) % 4 {
        0 => Class::Scalar,
        1 => Class::Ket,
        2 => Class::Bra,
        _ => Class::Operator,
    }
}

// A class, or its adjoint's. `turned` is what the walk down found, whether it passed an odd number of adjoints: a choice made here is one at both ends of the walk.
#[tactic(auto, using(crate::proofs::Steps::turned_number))]
fn turn_if(turned: bool, class: Class) -> Class
    ensures { number_of result ≡ turned_if turned (number_of class) }
{
    if turned { turn(class) } else { class }
}

// Where the first child of a part begins, or the second: past the end where there is no first, since words that are no part would else be read twice at every head. No `Option`: every read
// past the end answers as one of no head does. `second` stays a test: two of the three callers have it as one of a rule's digit, and would each write the choice.
fn child_at(ws: &[u16], from: usize, second: bool) -> usize
    requires { from < length ws.now }
    ensures { result ≡ child_at ws.now from second }
{
    if second {
        let end = part_end(ws, from + 1);
        if end == from + 1 {
            return ws.len();
        }
        return end;
    }
    from + 1
}

// The class of the part that begins at `from`. It goes down no deeper than `budget`, and where that does not do there is no class.
pub fn class_of(ds: &[u16], ws: &[u16], from: usize, budget: usize) -> Class
    ensures { number_of result ≡ class_at ds.now ws.now budget from }
{
    let mut turned = false;
    let mut at = from;
    for _ in 0..budget {
        let word = word_at(ws, at);
        let head = usize::from(word / 256);
        if head == 26 {
            return turn_if(turned, variable_class(ds, usize::from(word % 256)));
        }
        let whose = rule_of(head) / 256 % 16;
        if whose == 0 {
            return turn_if(turned, result_class(head));
        }
        turned = turned != (whose == 3);
        at = child_at(ws, at, whose == 2);
    }
    Class::Nothing
}

// Which of a variable's indices is on a side, by its kind.
fn second_of(side: Side, kind: u16) -> usize
    ensures { result ≡ second_of (at_right side) kind }
{
    match side {
        Side::Right if kind % 4 == 3 => 1,
        _ => 0,
    }
}

// The index of a variable.
fn variable_index(ds: &[u16], name: usize, side: Side) -> &[u16]
    requires { name < 256 }
    ensures { result.now ≡ variable_index ds.now (at_right side) name }
{
    let entry = 2051 + name * 129;
    let k = second_of(side, word_at(ds, entry));
    run(
        ds,
        entry + 3 + k * 63,
        usize::from(word_at(ds, entry + 1 + k)),
    )
}

// The index of the name in a word, which is declared; none where it has no name.
fn declared_index(ds: &[u16], side: Side, word: u16) -> &[u16]
    ensures { result.now ≡ declared_index ds.now (at_right side) word }
{
    let name = usize::from(word % 256);
    if word / 256 == 3 {
        return run(
            ds,
            3 + name * 64 + 1,
            usize::from(word_at(ds, 3 + name * 64)),
        );
    }
    if word / 256 == 26 {
        return variable_index(ds, name, side);
    }
    &[]
}

// The sum that binds the a-th basis around a place. One walk back from the place: `parts` whole parts stand between here and the nearest head above, and `left` sums are still to be passed in
// whose bodies the place is. A sum has the place in its body where one part, its index, stands between. The answer is the offset of the sum, or how many are left to be passed where the walk comes to
// the front of the words.
fn binder_of(ws: &[u16], at: usize, a: usize) -> Result<usize, usize>
    ensures { result ≡ walked (back ws.now at 0 a) }
{
    let mut parts = 0;
    let mut left = a;
    for i in (0..at).rev() {
        let word = word_at(ws, i);
        if let Some(n) = arity_of(word) {
            if n <= parts {
                parts = parts - n + 1;
            } else {
                let is_body = parts == 1;
                parts = 0;
                if is_body && word / 256 == 27 {
                    if left == 0 {
                        return Ok(i);
                    }
                    left -= 1;
                }
            }
        }
    }
    Err(left)
}

// The words of the part that begins at `from`, written behind what stands in `out`.
fn append_part(out: &mut [u16], at: usize, ws: &[u16], from: usize) -> usize
    ensures { Added out.old at (part ws.now from) out.new result }
{
    append_run(out, at, ws, from, part_end(ws, from))
}

// The words of the index of the a-th basis that is bound around an offset, the part behind its sum's head, written behind what stands in `out`.
fn append_bound(view: View, from: usize, a: usize, out: &mut [u16], at: usize) -> usize
    ensures { Added out.old at (bound_in view.entry.ws.now (outer_at view.entry.term.now view.entry.place) from a) out.new result }
{
    match binder_of(view.ws, from, a) {
        Ok(sum) => append_part(out, at, view.ws, sum + 1),
        Err(left) => match binder_of(view.term, view.place, left) {
            Ok(sum) => append_part(out, at, view.term, sum + 1),
            Err(_) => append(out, at, &[]),
        },
    }
}

// The word at an offset, or 0, which is of no head, where no budget is left: an `Option` would be turned into that 0 at once, as `word_at` does past the end.
fn word_within(ws: &[u16], from: usize, budget: usize) -> u16
    ensures { result ≡ cond (eqb budget 0) 0 (get_or ws.now from 0) }
{
    if budget == 0 {
        return 0;
    }
    word_at(ws, from)
}

// The digit of a rule that says whose index is on a side.
fn digit_of(side: Side, rule: u16) -> u16
    ensures { result ≡ digit (at_right side) rule }
{
    match side {
        Side::Left => rule / 16 % 16,
        Side::Right => rule % 16,
    }
}

// The side of a child whose index a digit names.
fn side_of(digit: u16) -> Side
    ensures { at_right result ≡ is_right digit }
{
    if digit % 2 == 0 {
        Side::Right
    } else {
        Side::Left
    }
}

// The words of the left index (the rows), or of the right one (the columns), of the part that begins at `from`, written behind what stands in `out`. It
// calls itself no deeper than `budget`.
pub fn append_side(
    ds: &[u16],
    view: View,
    from: usize,
    side: Side,
    budget: usize,
    out: &mut [u16],
    at: usize,
) -> usize
    ensures { Added out.old at (side_at ds.now view.entry.ws.now (outer_at view.entry.term.now view.entry.place) (at_right side) budget from) out.new result }
{
    let word = word_within(view.ws, from, budget);
    let head = usize::from(word / 256);
    if let Class::Index = result_class(head) {
        return append_part(out, at, view.ws, from);
    }
    let rule = rule_of(head);
    if 4 <= rule / 4096 {
        let second = child_at(view.ws, from, true);
        let first = append_word(out, at, INDEX_PRODUCT);
        let mid = append_side(ds, view, from + 1, side, budget - 1, out, first);
        return append_side(ds, view, second, side, budget - 1, out, mid);
    }
    let whose = digit_of(side, rule);
    if whose == 0 {
        if head == 28 {
            return append_bound(view, from, usize::from(word % 256), out, at);
        }
        return append(out, at, declared_index(ds, side, word));
    }
    let child = child_at(view.ws, from, 3 <= whose);
    append_side(ds, view, child, side_of(whose), budget - 1, out, at)
}
