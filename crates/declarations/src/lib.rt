// Declarations as a caller lends them: one slice of words of fixed layout.
// A variable's kind stays the number of its word (0 scalar, 1 ket, 2 bra, 3 operator, 7 an operator that is marked), as that layout and `fejogbu_put_variable` fix it, and heads stand as
// their numbers, as the paper and the table write them.
#![tactic(auto)]

pub mod constructor;

ghost use Rattle.std.specs.Prelude.{◌≡◌, ◌+◌, ◌≤◌, ◌<◌, take, drop, MatchOption};
ghost use Rattle.declarations.specs.Declarations.{is_index, marks_square, are_wanted, is_variable, good_basis, good_variable, counted, good_declarations, names_in, marked_word};

use term::heads::INDEX_PRODUCT;
use term::parts::part_end;
use term::terms::{Names, are_index_words, is_index_word};
use words::{same, word_at};

// The words of all declarations, used or not.
pub const SIZE: usize = 6179;

// Whether all words are exactly one index over so many types. Most are one word, which is not walked. Not by `is_empty`, whose answer `omega` does not read:
// the goals `returns-then-part_end-ws` and `returns-else-part_end-ws` did not close.
#[tactic(auto, using(crate::proofs::Entries::plain_index))]
pub fn is_index(types: usize, ws: &[u16]) -> bool
    ensures { result ≡ is_index types ws.now }
{
    if ws.len() == 1 {
        return ws[0] != INDEX_PRODUCT && is_index_word(types, ws[0]);
    }
    if ws.len() == 0 || 63 < ws.len() {
        return false;
    }
    part_end(ws, 0) == ws.len() && are_index_words(types, ws)
}

// Whether a kind is not marked, or the operator's with two equal indices.
#[tactic(auto, unfolding(crate::specs::Declarations::marks_square))]
fn marks_square(kind: u16, first: &[u16], second: &[u16]) -> bool
    ensures { result ≡ marks_square kind first.now second.now }
{
    kind < 4 || (kind == 7 && same(first, second))
}

// Whether the words are exactly the indices that a kind, marked or not, wants.
fn are_wanted(types: usize, kind: u16, first: &[u16], second: &[u16]) -> bool
    ensures { result ≡ are_wanted types kind first.now second.now }
{
    match kind % 4 {
        0 => first.is_empty() && second.is_empty(),
        3 => is_index(types, first) && is_index(types, second),
        _ => is_index(types, first) && second.is_empty(),
    }
}

// Whether a kind is one, marked or not, and the words are exactly the indices that it wants.
#[tactic(auto, unfolding(crate::specs::Declarations::is_variable))]
pub fn is_variable(types: usize, kind: u16, first: &[u16], second: &[u16]) -> bool
    ensures { result ≡ is_variable types kind first.now second.now }
{
    marks_square(kind, first, second) && are_wanted(types, kind, first, second)
}

// The `n` words from `at` on. A length word may say anything: none are taken where it says more than an index may have.
fn index_at(ds: &[u16; SIZE], at: usize, n: u16) -> Option<&[u16]>
    requires { at + 63 ≤ 6179 }
    ensures { MatchOption result (63 < n) (λ ws. (n ≤ 63) × (ws.now ≡ take n (drop at ds.now))) }
{
    if 63 < n {
        return None;
    }
    let end = at + usize::from(n);
    Some(&ds[at..end])
}

fn basis_is_good(ds: &[u16; SIZE], a: usize) -> bool
    requires { a < 32 }
    ensures { result ≡ good_basis ds.now a }
{
    let at = 3 + a * 64;
    let Some(index) = index_at(ds, at + 1, ds[at]) else {
        return false;
    };
    is_index(usize::from(ds[0]), index)
}

fn variable_is_good(ds: &[u16; SIZE], a: usize) -> bool
    requires { a < 32 }
    ensures { result ≡ good_variable ds.now a }
{
    let at = 2051 + a * 129;
    let Some(first) = index_at(ds, at + 3, ds[at + 1]) else {
        return false;
    };
    let Some(second) = index_at(ds, at + 66, ds[at + 2]) else {
        return false;
    };
    is_variable(usize::from(ds[0]), ds[at], first, second)
}

// Whether no count is above the names that there are.
#[tactic(auto, unfolding(crate::specs::Declarations::counted))]
pub(crate) fn are_counts(types: u16, bases: u16, variables: u16) -> bool
    ensures { result ≡ counted types bases variables }
{
    types <= 32 && bases <= 32 && variables <= 32
}

// Whether a slice is good declarations: of the size, and each entry exactly the indices wanted, within the limits and the names.
pub fn are_good(ds: &[u16]) -> bool
    ensures { result ≡ good_declarations ds.now }
{
    let Some(ds) = ds.as_array::<SIZE>() else {
        return false;
    };
    if !are_counts(ds[0], ds[1], ds[2]) {
        return false;
    }
    (0..usize::from(ds[1])).all(|a| basis_is_good(ds, a))
        && (0..usize::from(ds[2])).all(|a| variable_is_good(ds, a))
}

// How many names of each kind are declared; none where the slice is not of the size. The three zeros stand here: a `Default` in `term` would serve this place alone.
pub fn names_of(ds: &[u16]) -> Names
    ensures { result ≡ names_in ds.now }
{
    let Some(ds) = ds.as_array::<SIZE>() else {
        return Names {
            types: 0,
            bases: 0,
            variables: 0,
        };
    };
    Names {
        types: usize::from(ds[0]),
        bases: usize::from(ds[1]),
        variables: usize::from(ds[2]),
    }
}

// Whether a word is that of a variable that is declared and marked.
#[tactic(auto, unfolding(crate::specs::Declarations::marked_word))]
pub fn is_marked(ds: &[u16], word: u16) -> bool
    ensures { result ≡ marked_word ds.now word }
{
    let name = usize::from(word % 256);
    word / 256 == 26 && name < usize::from(word_at(ds, 2)) && 4 <= word_at(ds, 2051 + name * 129)
}
