// The calls of a card's lines.
ghost use Rattle.words.specs.Lines.{lines, uncut};
ghost use Rattle.scripts.specs.Scripts.{ScriptRead};

use crate::asking::call_of;
use calls::Call;
use forms::Written;
use kinds::Kind;
use lines::read_line;
use records::Role;
use std::alloc::Global;
use words::{Fault, Lines};

// The calls that a card's lines make, and for each line whether it made one. A series takes its calls as one list, so the lines
// that made none are told apart from them.
#[derive(Drop)]
pub struct Script<V> {
    pub calls: Vec<Call<V, Role>>,
    pub made: Vec<bool>,
}

// The script of the card's other lines, on a sheet of `count` names.
pub fn read_script<V: Written + Kind + Drop>(
    heap: Global,
    count: usize,
    rest: &mut Lines<'_>,
) -> Result<Script<V>, Fault>
    ensures { ScriptRead V.form V.coords count (lines (uncut rest.old)) result }
{
    let mut calls = Vec::new(heap);
    let mut made = Vec::new(heap);
    while let Some(line) = rest.next() {
        match read_line(heap, count, line) {
            Ok(line) => {
                calls.push(call_of(heap, line)?)?;
                made.push(true)?;
            }
            // a line that is not of the form is answered, and only want of memory ends the reading
            Err(Fault::Form) => made.push(false)?,
            Err(Fault::Memory) => return Err(Fault::Memory),
        }
    }
    Ok(Script { calls, made })
}
