// A line, read into its call and its values.
ghost use Rattle.lines.specs.Lines.{LineRead};

use super::rest::Rest;
use calls::Call;
use cells::Cell;
use forms::{Written, read_keyword};
use std::alloc::Global;
use words::Fault;

// A call with its values, in the order of the names: a grip has a cell for each.
pub type Line<V> = Call<V, Cell>;

// The line that the bytes spell, for a sheet of `count` names.
pub fn read_line<V: Written>(heap: Global, count: usize, line: &[u8]) -> Result<Line<V>, Fault>
    ensures { LineRead V.form count line.now result }
{
    let (verb, reader) = read_keyword(line).ok_or(Fault::Form)?;
    let rest = Rest {
        heap,
        count,
        reader,
    };
    rest.line(verb)
}
