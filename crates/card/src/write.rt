// A line, written from its call and its values.
ghost use Rattle.lines.specs.Lines.{said};
ghost use Rattle.card.specs.Writes.{LineWritten, LineBytes};

use super::draft::{Draft, verb_of};
use forms::{Keyword, Written, append_bytes};
use lines::Line;
use std::alloc::Global;
use words::{Fault, place_line};

// The bytes of a line, however many.
fn line_bytes<V: Written>(heap: Global, count: usize, line: &Line<V>) -> Result<Vec<u8>, Fault>
    ensures { LineBytes V.form count (said line.now) result }
{
    let mut draft = Draft {
        count,
        text: Vec::new(heap),
    };
    let verb = verb_of(line);
    verb.put(&mut draft.text)?;
    draft.put_rest(line)?;
    append_bytes(b"\n", &mut draft.text)?;
    Ok(draft.text)
}

// Writes the line's bytes at the front of `out`, and tells how many.
pub fn write_line<V: Written>(
    heap: Global,
    count: usize,
    line: &Line<V>,
    out: &mut [u8],
) -> Result<usize, Fault>
    ensures { LineWritten V.form count (said line.now) out.old out.new result }
{
    let text = line_bytes(heap, count, line)?;
    place_line(text.as_slice(), out)
}
