// Values that one word writes: numbers, the values of the kinds, and what a line's first word names.
#![tactic(auto)]

mod append;
mod keyword;
mod length;
mod number;
mod point;
mod values;
mod written;

pub use append::append_bytes;
pub use keyword::{Keyword, read_keyword};
pub use values::{read_value, read_values};
pub use written::Written;
