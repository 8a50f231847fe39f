// A kind of value from outside, and tests of the kinds at the edges of 64 signed bits.
#![tactic(auto)]

mod solid;

pub use solid::Solid;

#[cfg(test)]
mod tests;
