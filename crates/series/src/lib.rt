// Series of calls on one sheet, from its opening on.
#![tactic(auto)]

mod running;

pub use running::{Ran, run};
