// The keys of a file, and the stages in which they come.
ghost use Rattle.std.specs.Prelude.{◌≡◌, length, drop, MatchOption};
ghost use Rattle.format.specs.Files.{Other, key_text};
ghost use Rattle.format.specs.Reading.{key_of, fits, stage_after};
ghost use Rattle.reader.specs.Code.Keys.{named, number};

// How far a file was read: before its types, among its bases, among its variables, behind its left side, among its steps, at its end.
#[derive(Clone, Copy)]
pub enum Stage {
    Start,
    Bases,
    Variables,
    LeftSide,
    Steps,
    End,
}

#[derive(Clone, Copy)]
pub enum Key {
    Types,
    Basis,
    Var,
    LeftTerm,
    RightTerm,
    Step,
    End,
}

const KEYS: [Key; 7] = [
    Key::Types,
    Key::Basis,
    Key::Var,
    Key::LeftTerm,
    Key::RightTerm,
    Key::Step,
    Key::End,
];

impl Key {
    // As it is written, with its `=`.
    fn text(self) -> &'static [u8]
        ensures { result.now ≡ key_text (named self) }
    {
        match self {
            Key::Types => b"types=",
            Key::Basis => b"basis=",
            Key::Var => b"var=",
            Key::LeftTerm => b"left=",
            Key::RightTerm => b"right=",
            Key::Step => b"step=",
            Key::End => b"end=",
        }
    }

    // The stage behind its line.
    pub fn stage_after(self) -> Stage
        ensures { number result ≡ stage_after (named self) }
    {
        match self {
            Key::Types | Key::Basis => Stage::Bases,
            Key::Var => Stage::Variables,
            Key::LeftTerm => Stage::LeftSide,
            Key::RightTerm | Key::Step => Stage::Steps,
            Key::End => Stage::End,
        }
    }

    // Whether it may come in a stage.
    pub fn fits(self, stage: Stage) -> bool
        ensures { result ≡ fits (named self) (number stage) }
    {
        match self {
            Key::Types => matches!(stage, Stage::Start),
            Key::Basis => matches!(stage, Stage::Bases),
            Key::Var | Key::LeftTerm => matches!(stage, Stage::Bases | Stage::Variables),
            Key::RightTerm => matches!(stage, Stage::LeftSide),
            Key::Step | Key::End => matches!(stage, Stage::Steps),
        }
    }
}

// The key that a line begins with, and the value behind it.
pub fn key_of(line: &[u8]) -> Option<(Key, &[u8])>
    ensures { MatchOption result (key_of line.now ≡ Other)
        (λ p. (key_of line.now ≡ named p.0) × (p.1.now ≡ drop (length (key_text (named p.0))) line.now)) }
{
    for key in KEYS {
        if let Some(value) = line.strip_prefix(key.text()) {
            return Some((key, value));
        }
    }
    None
}
