// What the typing rules conclude of the sorts of a part's children, by the lines of `typebook`. The rules stay one table of lines, whose head says what each digit means: the digits are its
// data, and are read off here. Whether indices are multiplied is such a digit too, so `product` is a `bool` beside the lengths and the words that it is asked for.
ghost use Rattle.std.specs.Prelude.{◌≡◌, ◌&&◌, ◌≤◌, ◌<◌, length};
ghost use Rattle.words.specs.Words.{laid, Added};
ghost use Rattle.typing.specs.Code.Shapes.{shape_at, run_at, Inside, Near, Ready};
ghost use Rattle.typebook.specs.Code.Lines.{rule_at, met, side_of, short_both};
ghost use Rattle.typing.specs.Code.Conclude.{place_of, side_size, plan_of, standing, sides_of, Laying, Concludes};

use crate::sorts::{Gathered, Plan, Run, Sorted};
use term::heads::INDEX_PRODUCT;
use typebook::{are_fit, class_by, rule_of};
use words::{append, insert, same};

// Where one of the children's indices stands, by its digit in the line of the head.
fn piece(k: u16, g: Gathered) -> Run
    requires { Near g }
    ensures { result ≡ place_of k g }
{
    let a = g.first;
    let b = g.latest;
    match k {
        1 => Run {
            at: g.top,
            len: a.left,
        },
        2 => Run {
            at: g.top + a.left,
            len: a.right,
        },
        3 => Run {
            at: g.at,
            len: b.left,
        },
        4 => Run {
            at: g.at + b.left,
            len: b.right,
        },
        _ => Run { at: g.top, len: 0 },
    }
}

// Whether the children are as the first digit of a rule asks. 1 and 2 are the digits of the first's index that is to be the second's.
fn meets(test: u16, stack: &[u16], g: Gathered) -> bool
    requires { Ready g stack.now }
    ensures { result ≡ met test (shape_at stack.now g.top g.first) (shape_at stack.now g.at g.latest) g.alike }
{
    match test {
        1 | 2 => same(piece(test, g).of(stack), piece(3, g).of(stack)),
        3 => g.alike,
        5 => g.first.class == g.latest.class,
        _ => true,
    }
}

// How many words an index of the result has, or the product of two where there are some.
#[tactic(auto, unfolding(crate::specs::Code::Conclude::side_size))]
fn side_size(product: bool, n: usize, m: usize) -> usize
    requires { (n ≤ 63) × (m ≤ 63) }
    ensures { result ≡ side_size product n m }
{
    if !product {
        n
    } else if n == 0 {
        0
    } else {
        n + m + 1
    }
}

// Whether all is as the rule asks: the classes fit, the indices meet, and products of indices have at most 63 words. One test, of what the three ask, which `plan` leaves by.
#[tactic(auto, using(crate::proofs::Concluding::short_sides))]
fn all_well(fit: bool, met: bool, product: bool, n: usize, m: usize) -> bool
    ensures { result ≡ (fit && (met && short_both product n m)) }
{
    fit && met && (!product || (n <= 63 && m <= 63))
}

// What a head, by its rule, makes of its `n` children, at least one, whose indices meet or not; nothing where they have no sort.
fn plan(head: usize, n: usize, rule: u16, met: bool, g: Gathered) -> Option<Plan>
    requires { (rule ≡ rule_at head) × Near g }
    ensures { result ≡ plan_of head n met g }
{
    let class = g.first.class;
    let other = g.latest.class;
    let product = 4 <= rule / 4096;
    let left = piece(rule / 16 % 16, g);
    let right = piece(rule % 16, g);
    let rows = side_size(product, left.len, g.latest.left);
    let columns = side_size(product, right.len, g.latest.right);
    if !all_well(are_fit(head, n, class, other), met, product, rows, columns) {
        return None;
    }
    Some(Plan {
        sorted: Sorted {
            class: class_by(rule / 256 % 16, head, class, other),
            left: rows,
            right: columns,
        },
        product,
        left,
        right,
    })
}

// Writes an index, or the product of two, behind the first `to` words.
fn put_side(made: &mut [u16], to: usize, stack: &[u16], product: bool, p: Run, q: Run) -> usize
    requires { (to < length made.old) × Inside p stack.now × Inside q stack.now }
    ensures { Added made.old to (side_of product (run_at stack.now p) (run_at stack.now q)) made.new result }
{
    if product && p.len != 0 {
        made[to] = INDEX_PRODUCT;
        let end = append(made, to + 1, p.of(stack));
        return append(made, end, q.of(stack));
    }
    append(made, to, p.of(stack))
}

// Whether words stand where they are wanted, so far as there are any.
fn stands(r: Run, at: usize) -> bool
    ensures { result ≡ standing r at }
{
    r.len == 0 || r.at == at
}

// Lays the indices of the result on the stack. Where they stand there already, nothing moves; the factors of a product on the left alone (of indices, bases or kets) stand one behind the
// other and move up by the word in front of them.
fn lay(stack: &mut [u16], p: Plan, g: Gathered)
    requires { Laying stack.old p g }
    ensures { stack.new ≡ laid stack.old g.top (sides_of stack.old p g) }
{
    let left = p.left;
    let right = p.right;
    if stands(left, g.top) {
        if p.product {
            if left.len != 0 && right.len == 0 && g.at == g.top + left.len {
                insert(stack, g.top, INDEX_PRODUCT, left.len + g.latest.left);
                return;
            }
        } else {
            if stands(right, g.top + left.len) {
                return;
            }
        }
    }
    let mut made = [0u16; 128];
    let n = put_side(&mut made, 0, stack, p.product, left, piece(3, g));
    let end = put_side(&mut made, n, stack, p.product, right, piece(4, g));
    append(stack, g.top, &made[..end]);
}

// What a head concludes of its `n` children, at least one.
pub fn conclude(head: usize, n: usize, stack: &mut [u16], g: Gathered) -> Option<Sorted>
    requires { Ready g stack.old }
    ensures { Concludes head n g stack.old result stack.new }
{
    let rule = rule_of(head);
    let p = plan(head, n, rule, meets(rule / 4096, stack, g), g)?;
    lay(stack, p, g);
    Some(p.sorted)
}
