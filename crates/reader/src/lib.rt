// The reading of a file into lent words.
#![tactic(auto)]

mod declaring;
pub mod faults;
pub mod files;
mod keys;
mod stepping;
mod terms;
mod walking;
