// The grip on a sheet: the calls that make it, pull with it and end it. The caller lends each call its lists one by one.
#![tactic(auto)]

mod ending;
mod marks;
mod pulling;
mod reading;
mod taking;
mod token;

pub use taking::Gripped;
pub use token::{Grip, Proposed, Refused, Unproposed};
