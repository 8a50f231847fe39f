// Lines of a card, read into their calls and values.
#![tactic(auto)]

mod line;
mod rest;

pub use line::{Line, read_line};
