// Lines of a card, written from their calls and values, and the two ways back.
#![tactic(auto)]

mod draft;
mod trip;
mod write;

pub use trip::{copy_line, laws_of_lines, reread_line};
pub use write::write_line;
