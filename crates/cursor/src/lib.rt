// The reader holds the file's bytes and its own place. It goes by value: what reads a piece gives the reader that stands behind it.
#![tactic(auto)]

ghost use Rattle.std.specs.Prelude.{◌≡◌};
ghost use Rattle.cursor.specs.Reading.{past, at_end, next_of};

use text::pieces::piece_end;

#[derive(Clone, Copy)]
pub struct Reader<'a> {
    pub bytes: &'a [u8],
    pub at: usize,
}

// A piece that was read, from the reader's place to `end`, and the reader that stands behind it. Its end and not its text: a reader may stand behind the last byte, where there is no text to
// slice, and `next` asks nothing of it (`next_of`).
#[derive(Clone, Copy)]
pub struct Piece<'a> {
    pub end: usize,
    pub rest: Reader<'a>,
}

// Behind the byte that ends a piece, or one past the end of the text where none does. A number and no `Option`: it is the place that document 01 has the reader hold, and a function of its own,
// so that the choice for a place behind the text has one equation (`past`).
fn past_end(bytes: &[u8], end: usize) -> usize
    ensures { result ≡ past bytes.now end }
{
    if bytes.len() < end {
        return end;
    }
    end + 1
}

impl<'a> Reader<'a> {
    pub fn is_at_end(self) -> bool
        ensures { result ≡ at_end self.entry.bytes.now self.entry.at }
    {
        self.bytes.len() <= self.at
    }

    // The next piece: a line, where `b` is a LF, or a field of a line, where it is a space.
    pub fn next(self, b: u8) -> Piece<'a>
        ensures { result ≡ next_of self.entry b }
    {
        let bytes = self.bytes;
        let end = piece_end(bytes, self.at, b);
        let at = past_end(bytes, end);
        Piece {
            end,
            rest: Reader { bytes, at },
        }
    }
}
