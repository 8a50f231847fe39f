// A pull: its tests, the place of each parameter, and what it leaves in the lists, over any kind of value.
#![tactic(auto)]

mod finish;
mod numerators;
mod pull;
mod wishes;

pub use pull::propose;
