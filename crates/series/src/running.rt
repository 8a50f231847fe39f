ghost use Rattle.std.specs.Prelude.{map};
ghost use Rattle.calls.specs.Shown.{call_of};
ghost use Rattle.series.specs.Series.{RanLawfully};

use calls::{Answer, Call};
use desk::{Closed, Desk, Fault};
use kinds::Kind;
use records::Role;
use std::alloc::Global;

// What a series of calls gave: an answer to each, and the sheet's values at the end, numerators over a denominator.
#[derive(Drop)]
pub struct Ran<K> {
    pub answers: Vec<Answer<K>>,
    pub values: Vec<K>,
    pub denominator: i64,
}

// Opens a sheet of `count` parameters and makes the calls in their order. A grip that is open at the end is dropped.
pub fn run<K: Kind>(heap: Global, count: usize, calls: &[Call<K, Role>]) -> Result<Ran<K>, Fault>
    ensures { RanLawfully K.size K.coords count (map (call_of K.coords) calls.now) result }
{
    let mut answers = Vec::with_capacity(heap, calls.len())?;
    let mut desk = Desk::open(heap, count)?;
    for call in calls {
        let (next, answer) = desk.call(heap, call)?;
        desk = next;
        answers.push_reserved(answer);
    }
    let Closed {
        values,
        denominator,
    } = desk.close();
    Ok(Ran {
        answers,
        values,
        denominator,
    })
}
