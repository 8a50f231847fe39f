// From bytes to a heading and back, and from a heading to bytes and back.
// Beside the like ways of `card`: a line has a count and a kind of value, and a heading lends its names, so one function for both is no plainer.
ghost use Rattle.heading.specs.Headings.{names_of};
ghost use Rattle.heading_write.specs.Writes.{OneReading, OneSpelling, Copied, Reread};

use super::write::write_heading;
use heading::{Heading, read_heading};
use std::alloc::Global;
use words::Fault;

// Bytes spell one heading at most, and a heading has one spelling at most.
pub fn laws_of_headings()
    ensures reading { OneReading }
    ensures spelling { OneSpelling }
{}

// Reads a heading and writes it back.
pub fn copy_heading(heap: Global, line: &[u8], out: &mut [u8]) -> Result<usize, Fault>
    ensures { Copied line.now out.old out.new result }
{
    let read = read_heading(heap, line)?;
    write_heading(heap, &read, out)
}

// Writes a heading into `space` and reads it back.
pub fn reread_heading<'a>(
    heap: Global,
    heading: &Heading<'_>,
    space: &'a mut [u8],
) -> Result<Heading<'a>, Fault>
    ensures { Reread heading.now.kind (names_of heading.now) space.old result }
{
    let size = write_heading(heap, heading, space)?;
    read_heading(heap, &space[..size])
}
