// The plain records of a sheet, and the limits on its numbers, which definitions and code share.
#![tactic(auto)]

pub mod limits;
mod refusal;
mod relation;
mod role;

pub use refusal::Refusal;
pub use relation::{Mark, Relation};
pub use role::Role;
