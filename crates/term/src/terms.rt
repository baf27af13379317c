// Declared names, and the test of a term.
ghost use Rattle.std.specs.Prelude.{◌≡◌};
ghost use Rattle.term.specs.Terms.{known, declared, all_declared, index_word, all_index_words, is_term};

use crate::heads::INDEX_PRODUCT;
use crate::parts::part_at;

// How many names of each kind are declared.
#[derive(Clone, Copy)]
pub struct Names {
    pub types: usize,
    pub bases: usize,
    pub variables: usize,
}

#[tactic(auto, unfolding(crate::specs::Terms::known))]
fn is_known(name: usize, count: usize) -> bool
    ensures { result ≡ known name count }
{
    name < count && name < 32
}

// Whether the name in a word, if it has one, is declared. The heads stand by their numbers, as the table and the paper write them.
#[tactic(auto, unfolding(crate::specs::Terms::declared))]
pub fn is_declared(names: Names, word: u16) -> bool
    ensures { result ≡ declared names word }
{
    let name = usize::from(word % 256);
    match word / 256 {
        1 => is_known(name, names.types), // 1:a  type name
        3 => is_known(name, names.bases), // 3:a  basis name
        26 => is_known(name, names.variables), // 26:a variable
        _ => true,
    }
}

// Whether a word may stand in an index over so many types: a type name, or a product's head.
#[tactic(auto, unfolding(crate::specs::Terms::index_word))]
pub fn is_index_word(types: usize, word: u16) -> bool
    ensures { result ≡ index_word types word }
{
    match word / 256 {
        1 => usize::from(word % 256) < types, // 1:a  type name
        _ => word == INDEX_PRODUCT,
    }
}

// Whether the names in all words are declared. This and `are_index_words` differ in their test alone, but one function over a test would be `ws.iter().all` itself.
pub fn all_declared(names: Names, ws: &[u16]) -> bool
    ensures { result ≡ all_declared names ws.now }
{
    ws.iter().all(|&word| is_declared(names, word))
}

// Whether all words may stand in an index over so many types.
pub fn are_index_words(types: usize, ws: &[u16]) -> bool
    ensures { result ≡ all_index_words types ws.now }
{
    ws.iter().all(|&word| is_index_word(types, word))
}

// Whether the first `n` words of `ws` are a term: one whole part to its end, within the limits and with declared names.
// `n` stands beside the slice, since `n` words of fewer are refused here, and a caller need not show that it has so many: the reader hands its whole array.
pub fn is_term(names: Names, ws: &[u16], n: usize) -> bool
    ensures { result ≡ is_term names ws.now n }
{
    if ws.len() < n || n == 0 || 4096 < n {
        return false;
    }
    let term = &ws[..n];
    let mut depth = 0;
    let part = part_at(term, 0, &mut depth);
    if part.len() != n || 64 < depth {
        return false;
    }
    all_declared(names, term)
}
