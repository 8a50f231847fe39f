// What a card's lines ask of the sheet: the calls that they make.
#![tactic(auto)]

mod asking;
mod script;

pub use script::{Script, read_script};
