// The typing rules as data, a line a head, and the classes that they want and give.
#![tactic(auto)]

ghost use Rattle.std.specs.Prelude.{◌≡◌};
ghost use Rattle.typebook.specs.Code.Shapes.{number_of, fitting};
ghost use Rattle.typebook.specs.Code.Lines.{rule_at, is_sum, fitted, turned, class_by};

use term::heads::{Class, child_class, result_class};

// The rules: a line a head, four hexadecimal digits, and 0 for a number that is no head's. Digits, since the rules stand in one table as the heads do; whoever reads a line takes its digits apart.
// What is asked of the children beside their classes: 0 nothing; 1 one index; 2 the first's columns are the second's rows; 3 all are alike; 4 nothing, and their indices are
// multiplied; 5 one class, and likewise.
// The class: 0 as in the table of heads; 1 the first's; 2 the second's; 3 the first's adjoint's.
// The two indices: 0 none; 1 and 2 those of the first; 3 and 4 those of the second.
#[tactic(auto, unfolding(crate::specs::Code::Lines::rule_at, crate::specs::Code::Lines::rules))]
pub fn rule_of(head: usize) -> u16
    ensures { result ≡ rule_at head }
{
    match head {
        0 => 0x0000, // no head
        1 => 0x0000, // 1:a  type name
        2 => 0x4012, // 2    product of type indices
        3 => 0x0000, // 3:a  basis name
        4 => 0x4012, // 4    pair of bases
        5 => 0x0000, // 5    scalar 0
        6 => 0x0000, // 6    scalar 1
        7 => 0x3112, // 7:n  scalar sum
        8 => 0x3112, // 8:n  scalar product
        9 => 0x0000, // 9    conjugate
        10 => 0x1000, // 10   delta
        11 => 0x2014, // 11   DOT
        12 => 0x0010, // 12   zero ket
        13 => 0x0001, // 13   zero bra
        14 => 0x0013, // 14   zero operator
        15 => 0x0011, // 15   identity
        16 => 0x0010, // 16   ket of a basis
        17 => 0x0001, // 17   bra of a basis
        18 => 0x0321, // 18   adjoint
        19 => 0x0234, // 19   scaling
        20 => 0x3112, // 20:n sum
        21 => 0x5112, // 21   tensor
        22 => 0x2014, // 22   MULK
        23 => 0x2014, // 23   MULB
        24 => 0x2014, // 24   OUTER
        25 => 0x2014, // 25   MULO
        26 => 0x0000, // 26:a variable
        27 => 0x0234, // 27   sum over a basis
        _ => 0,
    }
}

// The heads of sums and products of many: those whose children are all alike, by the first digit of the rule.
pub fn is_sum(head: usize) -> bool
    ensures { result ≡ is_sum head }
{
    rule_of(head) / 4096 == 3
}

// The number of a class, which is its digit in the table of heads. No `From`: `number(class)` says which number, `u8::from(class)` would not.
pub fn number(class: Class) -> u8
    ensures { result ≡ number_of class }
{
    match class {
        Class::Nothing => 0,
        Class::Index => 1,
        Class::Basis => 2,
        Class::Scalar => 3,
        Class::Ket => 4,
        Class::Bra => 5,
        Class::Operator => 6,
        Class::Array => 7,
        Class::Term => 8,
    }
}

// Whether a child's class is the one that the table of heads wants: the same, or any array where an array is wanted, and any type where a term is.
fn fits(class: Class, wanted: Class) -> bool
    ensures { result ≡ fitting class wanted }
{
    match wanted {
        Class::Array => matches!(class, Class::Ket | Class::Bra | Class::Operator),
        Class::Term => matches!(
            class,
            Class::Scalar | Class::Ket | Class::Bra | Class::Operator
        ),
        _ => class == wanted,
    }
}

// Whether the children are of the classes that the head wants. A sum's are all like the first.
#[tactic(auto, unfolding(crate::specs::Code::Lines::fitted))]
pub fn are_fit(head: usize, n: usize, class: Class, other: Class) -> bool
    ensures { result ≡ fitted head n class other }
{
    fits(class, child_class(head, 0))
        && (is_sum(head) || n != 2 || fits(other, child_class(head, 1)))
}

// The class of the result; `k` is the second digit of the head's rule, and whatever names no class asks the table of heads.
#[tactic(auto, unfolding(crate::specs::Code::Lines::class_by))]
pub fn class_by(k: u16, head: usize, class: Class, other: Class) -> Class
    ensures { result ≡ class_by k head class other }
{
    match k {
        1 => class,
        2 => other,
        3 => turn(class),
        _ => result_class(head),
    }
}

// The class of an adjoint.
pub fn turn(class: Class) -> Class
    ensures { result ≡ turned class }
{
    match class {
        Class::Ket => Class::Bra,
        Class::Bra => Class::Ket,
        _ => class,
    }
}
