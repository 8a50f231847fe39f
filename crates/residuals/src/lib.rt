// What a pull reads, how far its wishes are from meeting each relation that counts, and what each row of the table makes of that.
#![tactic(auto)]

mod residual;
mod rows;
mod task;

pub use task::Task;
