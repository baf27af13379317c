// What a rewriting answers.
ghost use Rattle.std.specs.Prelude.{◌≡◌};
ghost use Rattle.families.specs.Writing.{code_of};

// Why a step is refused. This crate finds the last two; `step` finds all four, and has no type of its own for them, so that `?` passes each up as it is.
#[derive(Clone, Copy)]
pub enum Refusal {
    // The number is no rule's.
    NoRule,
    // No part begins at the place.
    NoPart,
    // The part is no instance of the rule.
    NoInstance,
    // The result passes a limit.
    TooBig,
}

impl Refusal {
    // The number by which an answer tells it.
    pub fn code(self) -> usize
        ensures { result ≡ code_of self }
    {
        match self {
            Refusal::NoRule => 20,
            Refusal::NoPart => 21,
            Refusal::NoInstance => 22,
            Refusal::TooBig => 23,
        }
    }
}

// What a rule of a family makes of the part with which words begin: where what is written for it ends, or why nothing is. Of the part itself the same is told either way: how many words it
// has and, where the rule may leave it deeper, how deep it is.
#[derive(Clone, Copy)]
pub struct Replaced {
    pub written: Result<usize, Refusal>,
    pub size: usize,
    pub depth: Option<usize>,
}
