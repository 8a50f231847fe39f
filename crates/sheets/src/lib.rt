// A sheet without a grip: opening it, binding relations and unbinding them.
#![tactic(auto)]

mod record;

pub use record::Sheet;
pub use record::limits::{bad_denominator, unfit, unfit_values};
pub use record::opening::clear;
