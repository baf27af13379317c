// Tokens, and the words that they are.
ghost use Rattle.std.specs.Prelude.{◌≡◌, ◌+◌, ◌*◌, length};
ghost use Rattle.std.proofs.Math.Option.{some};
ghost use Rattle.text.specs.Numbers.{at_most, told};
ghost use Rattle.text.specs.Pieces.{parted, space};
ghost use Rattle.text.specs.Tokens.{known, bare, paired, token_in, tokens_in, stored};

use crate::numbers::read_number;
use crate::pieces::find;
use term::heads::arity_of;

fn is_known(word: u16) -> bool
    ensures { result ≡ known word }
{
    arity_of(word).is_some()
}

// A part of a token: a number up to 255.
fn read_part(text: &[u8]) -> Option<u8>
    ensures { result ≡ told (λ n. n) (at_most 255 text.now) }
{
    let n = read_number(text)?;
    u8::try_from(n).ok()
}

fn word_of(head: u8, part: u8) -> u16
    ensures { result ≡ head * 256 + part }
{
    u16::from_be_bytes([head, part])
}

// The token of a head alone.
fn bare_token(head: u8) -> Option<u16>
    ensures { result ≡ told (λ n. n) (bare (some head)) }
{
    if is_known(word_of(head, 1)) {
        return None;
    }
    Some(word_of(head, 0))
}

// The token of a head and a part with a colon between.
fn paired_token(head: u8, part: u8) -> Option<u16>
    ensures { result ≡ told (λ n. n) (paired (some head) (some part)) }
{
    let word = word_of(head, part);
    if is_known(word_of(head, 1)) || !is_known(word) {
        return Some(word);
    }
    None
}

pub fn read_token(text: &[u8]) -> Option<u16>
    ensures { result ≡ told (λ n. n) (token_in text.now) }
{
    let Some(colon) = find(text, b':') else {
        return bare_token(read_part(text)?);
    };
    let head = read_part(&text[..colon])?;
    let part = read_part(&text[colon + 1..])?;
    paired_token(head, part)
}

// The tokens of a value, with single spaces between: their words to the front of `out`, as many as it has room for. The value is read to its end all the same, or to the first token
// that is malformed. `n` is counted beside the `for`, since it is the answer too, and the number that `enumerate` gives ends with the loop.
pub fn read_tokens(text: &[u8], out: &mut [u16]) -> Option<usize>
    ensures { (result ≡ told length (tokens_in text.now)) × (out.new ≡ stored (parted space text.now) out.old 0) }
{
    let mut n = 0;
    for piece in text.split(|byte| *byte == b' ') {
        let word = read_token(piece)?;
        if n < out.len() {
            out[n] = word;
        }
        n += 1;
    }
    Some(n)
}
