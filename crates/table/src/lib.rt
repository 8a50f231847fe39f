// The table of a grip's relations, and its elimination.
#![tactic(auto)]

mod elimination;
mod finished;
mod limits;
mod row;
mod start;
mod table;

pub use row::Row;
pub use table::Table;
