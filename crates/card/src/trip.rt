// From bytes to a line and back, and from a line to bytes and back. A heading has no count and no kind of value, so that its two
// ways are functions of their own.
ghost use Rattle.lines.specs.Lines.{said};
ghost use Rattle.card.specs.Writes.{OneReading, OneSpelling, Copied, Reread};

use super::write::write_line;
use forms::Written;
use lines::{Line, read_line};
use std::alloc::Global;
use words::Fault;

// Bytes spell one line at most, and a line has one spelling at most.
pub fn laws_of_lines<V: Written>()
    ensures reading { OneReading V.form }
    ensures spelling { OneSpelling V.form }
{}

// Reads a line and writes it back.
pub fn copy_line<V: Written>(
    heap: Global,
    count: usize,
    line: &[u8],
    out: &mut [u8],
) -> Result<usize, Fault>
    ensures { Copied V.form count line.now out.old out.new result }
{
    let read: Line<V> = read_line(heap, count, line)?;
    write_line(heap, count, &read, out)
}

// Writes a line into `space` and reads it back.
pub fn reread_line<V: Written>(
    heap: Global,
    count: usize,
    line: &Line<V>,
    space: &mut [u8],
) -> Result<Line<V>, Fault>
    ensures { Reread V.form count (said line.now) space.old space.new result }
{
    let size = write_line(heap, count, line, space)?;
    read_line(heap, count, &space[..size])
}
