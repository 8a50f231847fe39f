// Values over a common denominator: one scaled sum, quotients, common multiples and lowest terms.
#![tactic(auto)]

mod multiple;
mod settling;
mod steps;

pub use multiple::Multiple;
pub use steps::{add, divided, divisor_with};
