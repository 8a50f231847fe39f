// The first line of a card, written from its kind and its names, and the two ways back.
#![tactic(auto)]

mod trip;
mod write;

pub use trip::{copy_heading, laws_of_headings, reread_heading};
pub use write::write_heading;
