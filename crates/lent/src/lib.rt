// What is lent to the run of a derivation: its steps as words, and what is wrong before the first of them.
#![tactic(auto)]

pub mod faults;
pub mod steps;
