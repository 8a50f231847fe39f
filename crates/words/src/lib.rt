// A card's lines, the words of a line, and whole numbers as a card writes them.
#![tactic(auto)]

mod fault;
mod lines;
mod number;
mod word;

pub use fault::Fault;
pub use lines::{Lines, laws_of_cards, line_text, place_line};
pub use number::{append_number, parse_number};
pub use word::{Reader, Word, place_of};
