// A desk: a sheet in one of its states, together with the lists that its calls are lent.
#![tactic(auto)]

mod calling;
mod closing;
mod desk;
mod fault;
mod opening;

pub use closing::Closed;
pub use desk::Desk;
pub use fault::Fault;
