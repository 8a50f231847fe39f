ghost use Rattle.std.specs.Prelude.{◌≤◌};

pub mod binding;
pub mod limits;
pub mod opening;
pub mod reading;

// A sheet's own numbers. Its values, relations and constants lie in the caller's lists, the constants beside the relations. Each
// call is lent them one by one, since what it may write of them differs from call to call.
#[derive(Drop)]
pub struct Sheet {
    // how many parameters
    count: usize,
    // how many relations are bound
    bound: usize,
    // the one denominator of the values
    pub denominator: i64,
    ghost some: { 1 ≤ count },
    ghost few: { count ≤ 48 },
    ghost room: { bound ≤ 24 },
}
