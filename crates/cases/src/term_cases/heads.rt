// The cases of the table of heads. 20 is a head's line of the table, 21 the number of children that a word wants, 22 the class of a head's
// result, and 23 the class of a head's child.
use crate::input::{Input, narrow, next_number};
use crate::output::{Output, also, first};
use std::io;
use term::heads::{arity_of, child_class, result_class};
use typebook::number;

// The number of children that a word wants; 256, which no n reaches, for an unknown head, as the stored output has it.
fn children(word: usize) -> usize {
    arity_of(narrow(word)).unwrap_or(256)
}

fn result(head: usize) -> usize {
    usize::from(number(result_class(head)))
}

fn child(head: usize, i: usize) -> usize {
    usize::from(number(child_class(head, i)))
}

// The classes of the result and of the children 0, 1 and 2.
fn also_classes(output: &mut Output, head: usize) -> io::Result<()> {
    also(output, result(head))?;
    also(output, child(head, 0))?;
    also(output, child(head, 1))?;
    also(output, child(head, 2))
}

// A line of the table: the head, the children of head:0 and of head:1, and the classes.
fn show_line(output: &mut Output, head: usize) -> io::Result<()> {
    if head < 256 {
        first(output, head)?;
        also(output, children(head * 256))?;
        also(output, children(head * 256 + 1))?;
        also_classes(output, head)?;
    }
    Ok(())
}

pub fn answer(input: &mut Input, output: &mut Output, op: usize) -> io::Result<()> {
    let n = next_number(input)?;
    match op {
        20 => show_line(output, n),
        21 => first(output, children(n)),
        22 => first(output, result(n)),
        _ => first(output, child(n, next_number(input)?)),
    }
}
