// The replay of a file: the entry with the three demands.
#![tactic(auto)]

pub mod replay;
