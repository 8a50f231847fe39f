// The first line of a card: the kind of value, and the names of the parameters.
#![tactic(auto)]

mod kind;
mod name;
mod read;

pub use kind::KindWord;
pub use name::{good_names, is_name};
pub use read::{Heading, read_heading};
