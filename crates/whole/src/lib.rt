// Whole numbers: common divisors and multiples, and the laws that proofs above cite.
#![tactic(auto)]

mod bounds;
mod euclid;
mod laws;

pub use bounds::some_above;
pub use euclid::{common_divisor, common_divisor_all, common_multiple};
pub use laws::{common_divisor_of_all_stands, greatest_divisor_stands, least_multiple_stands};
