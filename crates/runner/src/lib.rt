// A card from its bytes to the bytes of its answers.
#![tactic(auto)]

mod playing;
mod runs;

pub use runs::run_card;
