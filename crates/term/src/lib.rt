#![tactic(auto)]

mod ahead;
pub mod heads;
pub mod parts;
pub mod terms;
