#![tactic(auto)]

mod bodies;
mod gathering;
mod infer;
mod lookup;
mod rules;
mod sorts;
mod strays;
pub mod terms;
