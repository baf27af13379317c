// A part, and its children as parts of its words.
ghost use Rattle.std.specs.Prelude.{◌≡◌};
ghost use Rattle.term.specs.Parts.{Whole};
ghost use Rattle.families.specs.Code.Children.{child_in, Under};

use term::heads::arity_of;
use term::parts::part_end;

// Where a child of a part begins and ends in the part's words. `matcher` has the same pair for a hole: neither crate uses the other.
#[derive(Clone, Copy)]
pub struct Child {
    pub start: usize,
    pub end: usize,
}

// The words of one whole part. What a type keeps has one proof at most, hence the bars: that the words are a tree's, and not which tree.
#[derive(Clone, Copy)]
pub struct Part<'a> {
    pub words: &'a [u16],
    ghost whole: { ∥ Whole words.now ∥₁ },
}

impl<'a> Part<'a> {
    // Child `i`.
    pub fn child(self, i: usize) -> Option<Child>
        ensures { result ≡ child_in self.entry.words.now i }
    {
        let n = arity_of(self.words[0])?;
        if n <= i {
            return None;
        }
        let mut start = 1;
        for _ in 0..i {
            start = part_end(self.words, start);
        }
        let end = part_end(self.words, start);
        Some(Child { start, end })
    }

    // The same where the part and the child have the heads of these numbers; else none.
    pub fn child_under(self, parent: u16, i: usize, child: u16) -> Option<Child>
        ensures { Under self.entry.words.now parent i child result }
    {
        if self.words[0] / 256 != parent {
            return None;
        }
        let c = self.child(i)?;
        if self.words[c.start] / 256 != child {
            return None;
        }
        Some(c)
    }
}
