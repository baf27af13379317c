// The library for others: the replay, the run, the single step, its preview, the typing, the lookup of a part and the constructors as functions of plain numbers and lent slices,
// which C and Rust can call. Nothing is relied on. Where a function hands out an answer as numbers, a slice for it of another size is refused: the function returns 1 and touches
// nothing.
#![tactic(auto)]

ghost use Rattle.std.specs.Prelude.{◌≡◌, cond, ◌&&◌, length, get_or};
ghost use Rattle.term.specs.Parts.{part, part_depth};
ghost use Rattle.declarations.specs.Declarations.{is_index, is_variable};
ghost use Rattle.declarations.specs.Put as P;
ghost use Rattle.typing.specs.Answers.{typing_of};
ghost use Rattle.lent.specs.Lent.{is_side, has_room, step_put};
ghost use Rattle.step.specs.Answers.{answer_to, words_left};
ghost use Rattle.step.specs.Previews.{preview_of};
ghost use Rattle.lent.specs.Lent.{lent};
ghost use Rattle.step.specs.Runs.{run_answer, left_after, right_after};
ghost use Rattle.file.specs.Replays.{replay_answer, left_replayed, right_replayed};
ghost use Rattle.library.specs.Numbers.{of_size, status, handed, answer_numbers, step_numbers, typing_numbers, Told, put_number, step_of, move_of};

use declarations::constructor::{PutError, put_basis, put_variable, start};
use file::replay::replay;
use lent::steps::{Step, put_step};
use step::preview::preview_step;
use step::run::{Answer, run_steps};
use step::single::take_step;
use term::parts::{Side, part_at};
use typing::terms::{Typing, sizes_of, type_term};
use words::copy_words;

// Copies numbers into a slice of their size.
fn copy_numbers(to: &mut [u64], from: &[usize])
    requires { length to.old ≡ length from.now }
    ensures { to.new ≡ from.now }
{
    for (i, place) in to.iter_mut().enumerate() {
        *place = from[i] as u64;
    }
}

fn put_answer(answer: &mut [u64], a: Answer)
    requires { length answer.old ≡ 6 }
    ensures { answer.new ≡ answer_numbers a }
{
    let numbers = [a.code, a.side, a.step, a.at, a.left, a.right];
    copy_numbers(answer, &numbers);
}

// Replays a file's bytes in two work slices. The six numbers are code, side, step, at and the lengths of the two terms that are left.
#[unsafe(no_mangle)]
pub extern "C" fn fejogbu_replay(
    bytes: &[u8],
    left: &mut [u16],
    right: &mut [u16],
    answer: &mut [u64],
) -> u64
    ensures returned { result ≡ status (of_size 6 answer.old) }
    ensures answered { answer.new ≡ handed (of_size 6 answer.old)
        (answer_numbers (replay_answer bytes.now left.old right.old)) answer.old }
    ensures lefts { left.new ≡ handed (of_size 6 answer.old) (left_replayed bytes.now left.old right.old) left.old }
    ensures rights { right.new ≡ handed (of_size 6 answer.old) (right_replayed bytes.now left.old right.old) right.old }
{
    if answer.len() != 6 {
        return 1;
    }
    put_answer(answer, replay(bytes, left, right));
    0
}

// Takes the first `count` of the lent steps on the terms in the first `n` words of `left` and the first `m` of `right`. The six numbers are those of the replay.
#[unsafe(no_mangle)]
pub extern "C" fn fejogbu_run(
    ds: &[u16],
    left: &mut [u16],
    n: usize,
    right: &mut [u16],
    m: usize,
    steps: &[u16],
    count: usize,
    answer: &mut [u64],
) -> u64
    ensures returned { result ≡ status (of_size 6 answer.old) }
    ensures answered { answer.new ≡ handed (of_size 6 answer.old)
        (answer_numbers (run_answer (lent ds.now left.old n right.old m steps.now count))) answer.old }
    ensures lefts { left.new ≡ handed (of_size 6 answer.old)
        (left_after (lent ds.now left.old n right.old m steps.now count)) left.old }
    ensures rights { right.new ≡ handed (of_size 6 answer.old)
        (right_after (lent ds.now left.old n right.old m steps.now count)) right.old }
{
    if answer.len() != 6 {
        return 1;
    }
    put_answer(answer, run_steps(ds, left, n, right, m, steps, count));
    0
}

// Takes one step of the term in the first `n` words of a work slice. The five numbers are code, side, step, at and the length of the term that is left.
#[unsafe(no_mangle)]
pub extern "C" fn fejogbu_step(
    ds: &[u16],
    term: &mut [u16],
    n: usize,
    rule: u16,
    place: u16,
    i: u16,
    j: u16,
    answer: &mut [u64],
) -> u64
    ensures returned { result ≡ status (of_size 5 answer.old) }
    ensures answered { answer.new ≡ handed (of_size 5 answer.old)
        (step_numbers (answer_to ds.now term.old n (step_of rule place i j))) answer.old }
    ensures terms { term.new ≡ handed (of_size 5 answer.old) (words_left ds.now term.old n (step_of rule place i j)) term.old }
{
    if answer.len() != 5 {
        return 1;
    }
    let a = take_step(ds, term, n, Step { rule, place, i, j });
    let numbers = [a.code, a.side, a.step, a.at, a.length];
    copy_numbers(answer, &numbers);
    0
}

fn put_numbers(answer: &mut [u64], t: Typing)
    requires { length answer.old ≡ 9 }
    ensures { answer.new ≡ typing_numbers t }
{
    let sizes = sizes_of(t.of.kind);
    let numbers = [
        t.code,
        t.side,
        t.step,
        t.at,
        t.length,
        t.depth,
        sizes.number as usize,
        sizes.rows,
        sizes.columns,
    ];
    copy_numbers(answer, &numbers);
}

// Hands out nine numbers, and the words of the two indices of a type: what is told of a term, or of what a step leaves.
fn hand_out(answer: &mut [u64], rows: &mut [u16], columns: &mut [u16], t: Typing) -> u64
    ensures { Told answer.old rows.old columns.old t result answer.new rows.new columns.new }
{
    if answer.len() != 9 || rows.len() != 63 || columns.len() != 63 {
        return 1;
    }
    put_numbers(answer, t);
    copy_words(rows, &t.of.rows);
    copy_words(columns, &t.of.columns);
    0
}

// The type of the term in the first `n` words of a work slice. The nine numbers are code, side, step, at, length, depth, the kind (0 scalar, 1 ket, 2 bra, 3 operator) and the lengths of
// the indices of its rows and of its columns; their words go into the two slices, with zeros behind.
#[unsafe(no_mangle)]
pub extern "C" fn fejogbu_typing(
    ds: &[u16],
    term: &[u16],
    n: usize,
    answer: &mut [u64],
    rows: &mut [u16],
    columns: &mut [u16],
) -> u64
    ensures { Told answer.old rows.old columns.old
        (typing_of ds.now term.now n) result answer.new rows.new columns.new }
{
    hand_out(answer, rows, columns, type_term(ds, term, n))
}

// Shows one step of the term in the first `n` words of a work slice, which is not written. The first five numbers are those of the step; the others and the words are what typing tells of
// what it would leave.
#[unsafe(no_mangle)]
pub extern "C" fn fejogbu_preview(
    ds: &[u16],
    term: &[u16],
    n: usize,
    rule: u16,
    place: u16,
    i: u16,
    j: u16,
    answer: &mut [u64],
    rows: &mut [u16],
    columns: &mut [u16],
) -> u64
    ensures { Told answer.old rows.old columns.old
        (preview_of ds.now term.now n (step_of rule place i j)) result answer.new rows.new columns.new }
{
    hand_out(
        answer,
        rows,
        columns,
        preview_step(ds, term, n, Step { rule, place, i, j }),
    )
}

// The part that begins at the offset `at` of any words: how many words it has, and its depth; 0 and 0 where none begins there.
#[unsafe(no_mangle)]
pub extern "C" fn fejogbu_part(words: &[u16], at: usize, depth: &mut usize) -> usize
    ensures returned { result ≡ length (part words.now at) }
    ensures deep { depth.new ≡ part_depth words.now at }
{
    let found = part_at(words, at, depth);
    found.len()
}

// The numbers that the three constructors below hand out to C. A function here and no `code` of `PutError`: a file has 7 where C has 1, for `WrongSize`.
fn put_number(put: Result<(), PutError>) -> u64
    ensures { result ≡ put_number put }
{
    match put {
        Ok(()) => 0,
        Err(PutError::WrongSize) => 1,
        Err(PutError::Full) => 6,
        Err(PutError::Bad) => 7,
    }
}

// Declarations of so many types, and no name of a basis or a variable. Returns 0 where that was done, 1 for a slice of another size than 6,179 words, 7 for more than 32 types.
#[unsafe(no_mangle)]
pub extern "C" fn fejogbu_start_declarations(ds: &mut [u16], types: usize) -> u64
    ensures returned { result ≡ put_number (P.start_answer ds.old types) }
    ensures declared { ds.new ≡ P.leaves (P.start_answer ds.old types) (P.started ds.old types) ds.old }
{
    put_number(start(ds, types))
}

// One basis name more, of an index. Returns 0 where it was put, 1 for a slice of another size, 6 where 32 are declared, 7 for words that are not exactly one index.
#[unsafe(no_mangle)]
pub extern "C" fn fejogbu_put_basis(ds: &mut [u16], index: &[u16]) -> u64
    ensures returned { result ≡ put_number (P.answer (P.room ds.old 1) (is_index (get_or ds.old 0 0) index.now)) }
    ensures declared { ds.new ≡ P.leaves (P.answer (P.room ds.old 1) (is_index (get_or ds.old 0 0) index.now))
        (P.basis_put ds.old index.now) ds.old }
{
    put_number(put_basis(ds, index))
}

// One variable more, of a kind (0 scalar, 1 ket, 2 bra, 3 operator, 7 an operator that is declared unitary, with one index twice) and exactly the indices that it wants. Returns as putting a
// basis name does.
#[unsafe(no_mangle)]
pub extern "C" fn fejogbu_put_variable(
    ds: &mut [u16],
    kind: u16,
    first: &[u16],
    second: &[u16],
) -> u64
    ensures returned { result ≡ put_number (P.answer (P.room ds.old 2) (is_variable (get_or ds.old 0 0) kind first.now second.now)) }
    ensures declared { ds.new ≡ P.leaves (P.answer (P.room ds.old 2) (is_variable (get_or ds.old 0 0) kind first.now second.now))
        (P.variable_put ds.old kind first.now second.now) ds.old }
{
    put_number(put_variable(ds, kind, first, second))
}

// Puts a step as the k-th of those that `steps` holds. Returns 1 where it was put; 0, and nothing is changed, where there is no room for it or the side is neither 1 nor 2.
#[unsafe(no_mangle)]
#[tactic(auto, unfolding(lent::specs::Lent::side_in))]
pub extern "C" fn fejogbu_put_step(
    steps: &mut [u16],
    k: usize,
    side: u16,
    rule: u16,
    place: u16,
    i: u16,
    j: u16,
) -> u64
    ensures returned { result ≡ cond (is_side side && has_room steps.old k) 1 0 }
    ensures stepped { steps.new ≡ cond (is_side side) (step_put steps.old k (move_of side rule place i j)) steps.old }
{
    let side = match side {
        1 => Side::Left,
        2 => Side::Right,
        _ => return 0,
    };
    u64::from(put_step(steps, k, side, Step { rule, place, i, j }))
}
