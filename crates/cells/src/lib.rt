// The cells of a grip, and the names of the calls.
#![tactic(auto)]

mod cell;
mod verb;

pub use cell::Cell;
pub use verb::Verb;
