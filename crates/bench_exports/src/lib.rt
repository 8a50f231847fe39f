// Proved steps of the engine under names that Rust or C can link, for measuring them from outside.
#![tactic(auto)]

mod cards;
mod combining;
mod eliminating;
mod pulling;
