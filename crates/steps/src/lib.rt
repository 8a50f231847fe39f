// One call on a sheet in its state, with the lists that the call is lent.
#![tactic(auto)]

mod free;
mod gripped;
mod held;
mod lists;
mod state;

pub use free::{bind_step, grip_step, unbind_step};
pub use gripped::{keep_step, pull_step};
pub use held::{Held, Offer};
pub use lists::Lists;
pub use state::State;
