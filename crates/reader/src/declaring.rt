// The lines that declare: types, bases and variables.
ghost use Rattle.std.specs.Prelude.{◌≡◌, MatchOption, [], length, get_or};
ghost use Rattle.std.proofs.Math.Option.{none, some};
ghost use Rattle.term.specs.Terms.{max_names};
ghost use Rattle.declarations.specs.Put.{room, answer, leaves, variable_put};
ghost use Rattle.declarations.specs.Declarations.{is_variable};
ghost use Rattle.text.specs.Numbers.{at_most};
ghost use Rattle.text.specs.Tokens.{tokens_in};
ghost use Rattle.format.specs.Files.{Basis, File, Var, WellDeclared};
ghost use Rattle.format.specs.Reading.{kind_of_letter, take_types, variable_with, words_behind};
ghost use Rattle.format.specs.Kept.{declarations_of};
ghost use Rattle.reader.specs.Code.Keys.{word_of};
ghost use Rattle.reader.specs.Code.Lines as L;
ghost use Rattle.reader.specs.Code.Lines.{fault, ordered, put_code, WordsRead};

use crate::faults::{Fault, refused};
use declarations::SIZE;
use declarations::constructor::{PutError, put_basis, put_variable, start};
use term::parts::part_end;
use text::numbers::read_number;
use text::tokens::read_tokens;

// The kinds of a variable, each by the word that declarations have for it (so `as u16` below); a `Unitary` is a marked operator. Neither `Class` of `term` nor `Kind` of `typing` serves: the one
// has no numbers and no mark, the other holds the lengths of a type's indices.
#[derive(Clone, Copy)]
enum Kind {
    Scalar = 0,
    Ket = 1,
    Bra = 2,
    Operator = 3,
    Unitary = 7,
}

// A variable's kind by its letter.
fn kind_of(letter: u8) -> Option<Kind>
    ensures { MatchOption result (kind_of_letter letter ≡ none) (λ k. kind_of_letter letter ≡ some (word_of k)) }
{
    match letter {
        b'S' => Some(Kind::Scalar),
        b'K' => Some(Kind::Ket),
        b'B' => Some(Kind::Bra),
        b'O' => Some(Kind::Operator),
        b'U' => Some(Kind::Unitary),
        _ => None,
    }
}

// The types of a file, before any other name.
pub fn take_types(text: &[u8], line: usize, ds: &mut [u16; SIZE]) -> Result<(), Fault>
    ensures { (f : File) → f.bases ≡ [] → f.variables ≡ [] → L.Put declarations_of line
        (take_types f (at_most max_names text.now)) result ds.new }
{
    let Some(n) = read_number(text) else {
        return Err(refused(5, line));
    };
    if 32 < n {
        return Err(refused(5, line));
    }
    start(ds, n).map_err(|e| put_fault(e, line))
}

// How many words an index has, of no more than there is room for.
fn read_words(text: &[u8], line: usize, out: &mut [u16]) -> Result<usize, Fault>
    ensures { WordsRead (tokens_in text.now) line out.old out.new result }
{
    let Some(n) = read_tokens(text, out) else {
        return Err(refused(5, line));
    };
    if out.len() < n {
        return Err(refused(7, line));
    }
    Ok(n)
}

// The same of the tokens behind a letter, each behind a space.
fn read_words_behind(text: &[u8], line: usize, out: &mut [u16]) -> Result<usize, Fault>
    ensures { WordsRead (words_behind text.now) line out.old out.new result }
{
    match text {
        [] => Ok(0),
        [b' ', tokens @ ..] => read_words(tokens, line, out),
        _ => Err(refused(5, line)),
    }
}

// The fault of a line whose types, basis or variable cannot be put. No `From`: the line is no part of the error.
fn put_fault(e: PutError, line: usize) -> Fault
    ensures { result ≡ fault (put_code e) line }
{
    match e {
        PutError::Full => refused(6, line),
        PutError::WrongSize | PutError::Bad => refused(7, line),
    }
}

// Puts a variable. A marked operator's index is both of its indices; another operator's second one begins where its first one ends.
fn put_words(ds: &mut [u16], kind: Kind, words: &[u16]) -> Result<(), PutError>
    ensures value { let v = variable_with (word_of kind) words.now in
        result ≡ answer (room ds.old 2) (is_variable (get_or ds.old 0 0) v.kind v.first v.second) }
    ensures ds_after { let v = variable_with (word_of kind) words.now in
        ds.new ≡ leaves result (variable_put ds.old v.kind v.first v.second) ds.old }
{
    let word = kind as u16;
    match kind {
        Kind::Scalar | Kind::Ket | Kind::Bra => put_variable(ds, word, words, &[]),
        Kind::Operator => {
            let n = part_end(words, 0);
            put_variable(ds, word, &words[..n], &words[n..])
        }
        Kind::Unitary => put_variable(ds, word, words, words),
    }
}

pub fn take_basis(text: &[u8], line: usize, ds: &mut [u16; SIZE]) -> Result<(), Fault>
    ensures { (f : File) → WellDeclared f → f.variables ≡ [] → ds.old ≡ declarations_of f
        → L.Put declarations_of line (ordered Basis f text.now) result ds.new }
{
    if ds[1] == 32 {
        return Err(refused(6, line));
    }
    let mut words = [0u16; 126];
    let n = read_words(text, line, &mut words)?;
    put_basis(ds, &words[..n]).map_err(|e| put_fault(e, line))
}

pub fn take_variable(text: &[u8], line: usize, ds: &mut [u16; SIZE]) -> Result<(), Fault>
    ensures { (f : File) → WellDeclared f → ds.old ≡ declarations_of f
        → L.Put declarations_of line (ordered Var f text.now) result ds.new }
{
    if ds[2] == 32 {
        return Err(refused(6, line));
    }
    let Some((letter, behind)) = text.split_first() else {
        return Err(refused(5, line));
    };
    let Some(kind) = kind_of(*letter) else {
        return Err(refused(5, line));
    };
    let mut words = [0u16; 126];
    let n = read_words_behind(behind, line, &mut words)?;
    put_words(ds, kind, &words[..n]).map_err(|e| put_fault(e, line))
}
