// Calls on a sheet, and what they give back, as values.
#![tactic(auto)]

mod answer;
mod call;

pub use answer::{Answer, Given};
pub use call::Call;
