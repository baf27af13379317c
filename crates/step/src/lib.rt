// A step and a row have their numbers as u16, and `as usize` widens them where they count or are a place: after `usize::from` the number has a second name, which the answers of each such
// function have to bring back to the first. Slices are lent with a length beside them where the C interface lends them so: to `take_step`, `preview_step` and `run_steps`, and from these on.
#![tactic(auto)]

mod building;
mod equations;
pub mod preview;
mod rewriting;
pub mod run;
mod running;
pub mod single;
mod stepping;
