// The workings of a grip: the finished table with its roles and shares.
#![tactic(auto)]

mod choosing;
mod making;
mod reading;
mod sharing;
mod workings;

pub use workings::Workings;
