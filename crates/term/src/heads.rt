// The table of heads: how many children a word wants, and the sorts of a head's result and of its children.
// "A word is head × 256 + a", says document 01, and `read` of specs/Heads takes it apart so; `word / 256` and `word % 256` are this sentence, where the two bytes of `to_be_bytes` would be another.
ghost use Rattle.std.specs.Prelude.{◌≡◌, ◌/◌};
ghost use Rattle.term.specs.Heads.{arity_of, result_of, child_of};
ghost use Rattle.term.specs.Code.Lines.{line_at, class_of};

// The sorts that the table tells apart. An `Array` is a ket, a bra or an operator; a `Term` is one of these or a scalar. `Nothing` is where there is no head or no such child: a digit of the table
// as the others are, and compared as they are; as an Option<Class> it would be a case of its own wherever digits and classes meet, and say no more.
#[derive(Clone, Copy, PartialEq, Eq)]
pub enum Class {
    Nothing,
    Index,
    Basis,
    Scalar,
    Ket,
    Bra,
    Operator,
    Array,
    Term,
}

// The words of heads that the code writes or looks for by name.
pub const INDEX_PRODUCT: u16 = 0x0200; // 2

pub const SCALAR_ZERO: u16 = 0x0500; // 5

pub const SCALAR_ONE: u16 = 0x0600; // 6

pub const SCALING: u16 = 0x1300; // 19

pub const OWN_BASIS: u16 = 0x1c00; // 28:0

// The table: a line a head, four hexadecimal digits: its form, the class of its result and those of its two children.
// The form: 0 no such head; 1 the low byte is a name; 2 the low byte is the number of children, all of the third digit's
// class; 3, 4, 5 a low byte of 0 and none, one or two children. The classes are numbered as in `class_of`.
// Digits, since the heads stand in one table, a line a head, as document 01 asks. A `match` becomes one table among the program's constants, where an array would be laid out anew at each look.
#[tactic(auto, unfolding(crate::specs::Code::Lines::line_at))]
fn line_of(head: usize) -> u16
    ensures { result ≡ line_at head }
{
    match head {
        0 => 0x0000, // no head
        1 => 0x1100, // 1:a  type name
        2 => 0x5111, // 2    product of type indices
        3 => 0x1200, // 3:a  basis name
        4 => 0x5222, // 4    pair of bases
        5 => 0x3300, // 5    scalar 0
        6 => 0x3300, // 6    scalar 1
        7 => 0x2330, // 7:n  scalar sum
        8 => 0x2330, // 8:n  scalar product
        9 => 0x4330, // 9    conjugate
        10 => 0x5322, // 10   delta
        11 => 0x5354, // 11   DOT
        12 => 0x4410, // 12   zero ket
        13 => 0x4510, // 13   zero bra
        14 => 0x5611, // 14   zero operator
        15 => 0x4610, // 15   identity
        16 => 0x4420, // 16   ket of a basis
        17 => 0x4520, // 17   bra of a basis
        18 => 0x4770, // 18   adjoint
        19 => 0x5737, // 19   scaling
        20 => 0x2770, // 20:n sum
        21 => 0x5777, // 21   tensor
        22 => 0x5464, // 22   MULK
        23 => 0x5556, // 23   MULB
        24 => 0x5645, // 24   OUTER
        25 => 0x5666, // 25   MULO
        26 => 0x1800, // 26:a variable
        27 => 0x5818, // 27   sum over a basis
        28 => 0x1200, // 28:a bound basis
        _ => 0,
    }
}

// The class that a digit of a line stands for. No `TryFrom`: every digit of the table is a class, and none is refused.
fn class_of(digit: u16) -> Class
    ensures { result ≡ class_of digit }
{
    match digit {
        0 => Class::Nothing,
        1 => Class::Index,
        2 => Class::Basis,
        3 => Class::Scalar,
        4 => Class::Ket,
        5 => Class::Bra,
        6 => Class::Operator,
        7 => Class::Array,
        8 => Class::Term,
        _ => Class::Nothing,
    }
}

// The forms once more, the first digits of the table's lines: a digit a head from the right, of heads 0 to 15 and of 16 to 28. Scanning asks for nothing else. Its next step goes by
// the form, and by a `match` on the head it would jump to another place for each, which no processor foresees in a term of many heads: a scan of 3,004 words took 12.3 µs so, and 3.0 by these.
const FORMS_FROM_0: u64 = 0x4544554223351510;

const FORMS_FROM_16: u64 = 0x1515555525444;

// The form of a head, and 0 for a number that is no head's: the first digit of its line.
fn form_of(head: usize) -> usize
    ensures { result ≡ line_at head / 4096 }
{
    if head < 16 {
        return ((FORMS_FROM_0 >> (head * 4)) % 16) as usize;
    }
    if head < 29 {
        return ((FORMS_FROM_16 >> ((head - 16) * 4)) % 16) as usize;
    }
    0
}

// How many children the word wants, if its head is known.
pub fn arity_of(word: u16) -> Option<usize>
    ensures { result ≡ arity_of word }
{
    let low = usize::from(word % 256);
    match form_of(usize::from(word / 256)) {
        0 => None,
        1 => Some(0),
        2 => (low != 0).then_some(low),
        form => (low == 0).then_some(form - 3),
    }
}

// The class of a head's result; `Nothing` for a number that is no head's.
pub fn result_class(head: usize) -> Class
    ensures { result ≡ result_of head }
{
    class_of(line_of(head) / 256 % 16)
}

// The class of a head's child; `Nothing` where the head has no such child. The children of a counted head are all of one class.
pub fn child_class(head: usize, child: usize) -> Class
    ensures { result ≡ child_of head child }
{
    let line = line_of(head);
    match (line / 4096, child) {
        (2, _) | (_, 0) => class_of(line / 16 % 16),
        (_, 1) => class_of(line % 16),
        _ => Class::Nothing,
    }
}
