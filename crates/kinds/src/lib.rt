// Kinds of value: a list of whole-number coordinates with an inner product.
#![tactic(auto)]

mod kind;
mod length;
mod limits;
mod point;
mod step;
mod total;

pub use kind::Kind;
pub use length::Length;
pub use limits::{value_above, values_above};
pub use point::Point;
pub use step::fused;
pub use total::{combine, read, write};
