// What a card prints for the answers to its lines.
#![tactic(auto)]

mod answer;
mod rows;
mod value;

pub use answer::put_answer;
