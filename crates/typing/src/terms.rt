// The typing of one term.
ghost use Rattle.std.specs.Prelude.{◌≡◌, true, ◌≤◌, length};
ghost use Rattle.types.specs.Sorts.{Sort};
ghost use Rattle.types.specs.TypeOf.{typed};
ghost use Rattle.declarations.specs.Declarations.{context_in, good_declarations};
ghost use Rattle.typing.specs.Answers.{sizes_of, refuse, answer_of, typing_of};
ghost use Rattle.typebook.specs.Code.Shapes.{shape_of};
ghost use Rattle.typing.specs.Code.Shapes.{shape_at, Small};
ghost use Rattle.typing.specs.Code.Verdicts.{need, Found, typing_in, kind_of};

use crate::infer::{Part, type_part};
use crate::sorts::Sorted;
use crate::strays::stray_in;
use declarations::{are_good, names_of};
use term::heads::Class;
use term::terms::{all_declared, is_term};
use words::copy_words;

// The kind of a type, with the lengths of its indices. Not `Class`, whose indices and bases are no types.
#[derive(Clone, Copy, PartialEq, Eq)]
pub enum Kind {
    Scalar,
    Ket(usize),
    Bra(usize),
    Operator(usize, usize),
}

// A kind by its number (0 scalar, 1 ket, 2 bra, 3 operator) with the lengths of the indices of its rows and of its columns, 0 where it has none: the numbers of the C interface.
#[derive(Clone, Copy)]
pub struct Sizes {
    pub number: u16,
    pub rows: usize,
    pub columns: usize,
}

pub fn sizes_of(kind: Kind) -> Sizes
    ensures { result ≡ sizes_of kind }
{
    match kind {
        Kind::Scalar => Sizes {
            number: 0,
            rows: 0,
            columns: 0,
        },
        Kind::Ket(rows) => Sizes {
            number: 1,
            rows,
            columns: 0,
        },
        Kind::Bra(columns) => Sizes {
            number: 2,
            rows: 0,
            columns,
        },
        Kind::Operator(rows, columns) => Sizes {
            number: 3,
            rows,
            columns,
        },
    }
}

// A type: its kind, and the words of its indices with zeros behind. A ket's index is that of its rows, a bra's that of its columns. The lengths stand in the kind and the words beside it in arrays, as the
// C interface hands them out.
#[derive(Clone, Copy)]
pub struct TermType {
    pub kind: Kind,
    pub rows: [u16; 63],
    pub columns: [u16; 63],
}

// The answer: a code with its place, or the length, the depth and the type of the term. Its fields are the numbers that document 01 and the C interface fix.
#[derive(Clone, Copy)]
pub struct Typing {
    pub code: usize,
    pub side: usize,
    pub step: usize,
    pub at: usize,
    pub length: usize,
    pub depth: usize,
    pub of: TermType,
}

// Refusals are given by their codes: as an enum that the entry turned into codes they took 1.15 of the time at a term of 3 words, 1.10 at one of 5, since the answer was copied once more.
#[tactic(auto, unfolding(crate::specs::Answers::refuse, crate::specs::Answers::type_record, crate::specs::Answers::pad))]
fn refused_with(code: usize, at: usize) -> Typing
    ensures { result ≡ refuse code at }
{
    Typing {
        code,
        side: 0,
        step: 0,
        at,
        length: 0,
        depth: 0,
        of: TermType {
            kind: Kind::Scalar,
            rows: [0; 63],
            columns: [0; 63],
        },
    }
}

// The kind of a type with such a sort. An index or a basis is no type.
fn kind_of(s: Sorted) -> Option<Kind>
    ensures { result ≡ kind_of s.class s.left s.right }
{
    match s.class {
        Class::Scalar => Some(Kind::Scalar),
        Class::Ket => Some(Kind::Ket(s.left)),
        Class::Bra => Some(Kind::Bra(s.right)),
        Class::Operator => Some(Kind::Operator(s.left, s.right)),
        _ => None,
    }
}

// A sort as a type, if it is one. Its words stand at the bottom of the stack.
fn answered(size: usize, depth: usize, stack: &[u16], s: Sorted) -> Typing
    requires { Small s × (126 ≤ length stack.now) }
    ensures { (S : Sort) → shape_at stack.now 0 s ≡ shape_of S → result ≡ answer_of size depth (typed S) }
{
    let Some(kind) = kind_of(s) else {
        return refused_with(11, 0);
    };
    let end = s.left + s.right;
    let mut rows = [0u16; 63];
    let mut columns = [0u16; 63];
    copy_words(&mut rows, &stack[..s.left]);
    copy_words(&mut columns, &stack[s.left..end]);
    Typing {
        code: 0,
        side: 0,
        step: 0,
        at: 0,
        length: size,
        depth,
        of: TermType {
            kind,
            rows,
            columns,
        },
    }
}

// What is found of some words on a stack of `N` words, and the words of its sort at the bottom of the one that is lent.
fn walk_on<const N: usize>(ds: &[u16], ws: &[u16], bottom: &mut [u16]) -> Result<Part, usize>
    requires { (good_declarations ds.now ≡ true) × (need (length ws.now) 64 ≤ N) × (N ≤ 8320) × (126 ≤ length bottom.old) }
    ensures { Found (context_in ds.now) ws.now 64 0 result bottom.old bottom.new }
{
    let mut stack = [0u16; N];
    let found = type_part(ds, ws, &mut stack, 0, 64);
    copy_words(bottom, &stack[..126]);
    found
}

// What the walk finds of some words, and the words of its sort at the bottom of the stack, which is large enough for a term of ten. To clear a large one takes longer than to type a
// term of few words, so that a larger term has its own.
fn walk(ds: &[u16], ws: &[u16], stack: &mut [u16]) -> Result<Part, usize>
    requires { (good_declarations ds.now ≡ true) × (length ws.now ≤ 4096) × (length stack.old ≡ 768) }
    ensures { Found (context_in ds.now) ws.now 64 0 result stack.old stack.new }
{
    let n = ws.len();
    if n <= 10 {
        return type_part(ds, ws, stack, 0, 64);
    }
    if n <= 30 {
        return walk_on::<2048>(ds, ws, stack);
    }
    walk_on::<8320>(ds, ws, stack)
}

// What all of some words are found to be, in one walk where they are typed. That the declarations are good and the words at most 4096 was tested by the one caller: both stay premises, since a
// struct that keeps them would be made and taken apart again for one call.
fn typed_in(ds: &[u16], ws: &[u16]) -> Typing
    requires { (good_declarations ds.now ≡ true) × (length ws.now ≤ 4096) }
    ensures { result ≡ typing_in ds.now ws.now }
{
    let n = ws.len();
    let mut stack = [0u16; 768];
    match walk(ds, ws, &mut stack) {
        Ok(part) => {
            if part.size != n || !all_declared(names_of(ds), ws) {
                return refused_with(8, 0);
            }
            answered(n, part.depth, &stack, part.sorted)
        }
        Err(at) => {
            if !is_term(names_of(ds), ws, n) {
                return refused_with(8, 0);
            }
            if let Err(stray) = stray_in(ws, 0, 0, 64) {
                return refused_with(13, stray);
            }
            refused_with(10, at)
        }
    }
}

// The type of the term in the first `n` words of a work slice, under declarations: the slice and `n` are as the C interface lends them. Nothing is relied on: the tests are 1, 7, 8, 13, 10 and 11.
pub fn type_term(ds: &[u16], ws: &[u16], n: usize) -> Typing
    ensures { result ≡ typing_of ds.now ws.now n }
{
    if ws.len() != 4096 {
        return refused_with(1, 0);
    }
    if !are_good(ds) {
        return refused_with(7, 0);
    }
    if 4096 < n {
        return refused_with(8, 0);
    }
    typed_in(ds, &ws[..n])
}
