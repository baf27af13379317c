// The words of a rule's left side against the words of a term from a place on, with any words behind. Each child is a further part of these words, and nothing is
// relied on: either may be any words.
#![tactic(auto)]

ghost use Rattle.std.specs.Prelude.{◌≡◌, ◌<◌, Ok, drop};
ghost use Rattle.matcher.specs.Matching.{Standing, began, missed, passed, taken, held_in, hole_matched, word_matched, match_of};

use term::parts::part_end;
use words::{run, same};

// The part that a hole holds: from where up to where it stands.
#[derive(Clone, Copy)]
pub struct Hole {
    pub start: usize,
    pub end: usize,
}

// How far a walk has come: it stands at `at`, and the first `held` holes were met. No `Vec` of holes: the library has no heap, and a left side has five at most.
#[derive(Clone, Copy)]
pub struct Match {
    pub at: usize,
    pub held: usize,
    pub holes: [Hole; 5],
}

// Where a walk stops: the word of the left side that is not met where the walk then stood, a head's, or that of a hole which was to hold the same part again.
#[derive(Clone, Copy)]
pub struct Miss {
    pub wanted: u16,
    pub found: Match,
}

// Nothing met yet.
fn begin() -> Match
    ensures { result ≡ began }
{
    Match {
        at: 0,
        held: 0,
        holes: [Hole { start: 0, end: 0 }; 5],
    }
}

impl Match {
    // The words that a hole holds.
    pub fn part<'a>(&self, ws: &'a [u16], hole: usize) -> &'a [u16]
        ensures { result.now ≡ held_in ws.now self.now hole }
    {
        if 5 <= hole {
            return &[];
        }
        let held = self.holes[hole];
        run(ws, held.start, held.end.saturating_sub(held.start))
    }

    // This word is not met.
    fn miss(&self, word: u16) -> Miss
        ensures { result ≡ missed self.now word }
    {
        Miss {
            wanted: word,
            found: *self,
        }
    }

    // A word is met, and the next is looked for at `at`.
    fn pass(&self, at: usize) -> Match
        ensures { result ≡ passed self.now at }
    {
        Match { at, ..*self }
    }

    // A new hole takes what stands from here up to `end`.
    fn take(&self, hole: usize, end: usize) -> Match
        requires { hole < 5 }
        ensures { result ≡ taken self.now hole end }
    {
        let mut next = *self;
        next.at = end;
        next.held = hole + 1;
        next.holes[hole] = Hole {
            start: self.at,
            end,
        };
        next
    }

    // A hole that is met first takes the part with which the words from here on begin; one that was met before wants the same part again.
    fn match_hole(&self, ws: &[u16], here: &[u16], word: u16) -> Result<Match, Miss>
        requires { Standing ws.now self.now × (here.now ≡ drop self.now.at ws.now) }
        ensures { result ≡ hole_matched ws.now self.now word }
    {
        let hole = usize::from(word % 256);
        if 5 <= hole {
            return Err(self.miss(word));
        }
        let size = part_end(here, 0);
        if size == 0 {
            return Err(self.miss(word));
        }
        let end = self.at + size;
        if hole == self.held {
            return Ok(self.take(hole, end));
        }
        if same(self.part(ws, hole), &here[..size]) {
            return Ok(self.pass(end));
        }
        Err(self.miss(word))
    }

    // One word of the left side, where the walk stands. A hole is the word 255:k: numbers are compared as `is_hole` of the specification compares them.
    fn match_word(&self, ws: &[u16], word: u16) -> Result<Match, Miss>
        requires { Standing ws.now self.now }
        ensures { result ≡ word_matched ws.now self.now word }
    {
        let here = &ws[self.at..];
        if word / 256 == 255 {
            return self.match_hole(ws, here, word);
        }
        // `here.first() == Some(&word)` was tried: what `==` of two options of references answers stayed open in the goal `returns-then-eq`.
        if 0 < here.len() && here[0] == word {
            return Ok(self.pass(self.at + 1));
        }
        Err(self.miss(word))
    }
}

// The words of a left side, from the first of `ws` on.
pub fn match_words(side: &[u16], ws: &[u16]) -> Result<Match, Miss>
    ensures { result ≡ match_of side.now ws.now }
{
    let mut found = begin();
    for &word in side {
        found = found.match_word(ws, word)?;
    }
    Ok(found)
}
