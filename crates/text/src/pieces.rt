// The bytes of a file, and text cut at a separator.
ghost use Rattle.std.specs.Prelude.{◌≡◌, ◌==◌, false, position};
ghost use Rattle.text.specs.Bytes.{printable, fine, all_fine, bad_line};
ghost use Rattle.text.specs.Pieces.{piece_end, starts};

#[tactic(auto, unfolding(crate::specs::Bytes::printable))]
fn is_printable(byte: u8) -> bool
    ensures { result ≡ printable byte }
{
    (b' '..=b'~').contains(&byte)
}

#[tactic(auto, unfolding(crate::specs::Bytes::fine))]
fn is_fine(byte: u8) -> bool
    ensures { result ≡ fine byte }
{
    byte == b'\n' || is_printable(byte)
}

// Whether a file may have all these bytes. It looks at all of them, so that it is compiled to tests of many at a time: most files have no bad byte.
fn are_fine(bytes: &[u8]) -> bool
    ensures { result ≡ all_fine bytes.now }
{
    let mut fine = true;
    for byte in bytes {
        fine &= is_fine(*byte);
    }
    fine
}

// The line of the first byte that a file may not have, or the unfinished last line; none where all bytes are good and the last is a LF.
fn first_bad_line(bytes: &[u8]) -> Option<usize>
    ensures { result ≡ bad_line 1 false bytes.now }
{
    let mut line = 1;
    let mut ended = false;
    for byte in bytes {
        if *byte == b'\n' {
            line += 1;
            ended = true;
        } else if is_printable(*byte) {
            ended = false;
        } else {
            return Some(line);
        }
    }
    if ended { None } else { Some(line) }
}

// The same, without counting lines where no byte is bad.
pub fn bad_line(bytes: &[u8]) -> Option<usize>
    ensures { result ≡ bad_line 1 false bytes.now }
{
    if bytes.ends_with(b"\n") && are_fine(bytes) {
        return None;
    }
    first_bad_line(bytes)
}

// Where a byte stands first, if anywhere.
pub fn find(text: &[u8], b: u8) -> Option<usize>
    ensures { result ≡ position (λ x. x == b) text.now }
{
    text.iter().position(|byte| *byte == b)
}

// Where the piece that begins at `at` ends: at the next byte `b`, or at the end of the text. By places: with `position` over the rest, whose start is then kept beside `at`, each step line takes
// 46 instructions more.
pub fn piece_end(text: &[u8], at: usize, b: u8) -> usize
    ensures { result ≡ piece_end text.now at b }
{
    for i in at..text.len() {
        if text[i] == b {
            return i;
        }
    }
    at.max(text.len())
}

// Whether a text begins with a key. No code of the library calls it: it is an entry that docs/STATEMENT.md names. The reader's `key_of` asks `strip_prefix`, which hands on the value behind.
pub fn starts_with(text: &[u8], key: &[u8]) -> bool
    ensures { result ≡ starts key.now text.now }
{
    text.starts_with(key)
}
