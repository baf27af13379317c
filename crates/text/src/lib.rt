// The text of a file: its bytes, the pieces between separators, decimal numbers, and tokens.
#![tactic(auto)]

pub mod numbers;
pub mod pieces;
pub mod tokens;
