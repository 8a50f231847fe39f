// The first line of a card, written. Other lines are written from a count and for a kind of value, this one from lent names.
ghost use Rattle.std.specs.Prelude.{◌≡◌, ◌++◌};
ghost use Rattle.words.specs.Faults.{Done};
ghost use Rattle.words.specs.Words.{spaced};
ghost use Rattle.heading.specs.Names.{texts};
ghost use Rattle.heading.specs.Headings.{names_of};
ghost use Rattle.heading_write.specs.Writes.{HeadingBytes, HeadingWritten};

use forms::{Keyword, append_bytes};
use heading::{Heading, KindWord, good_names};
use std::alloc::Global;
use words::{Fault, place_line};

// Appends the names, each behind a space.
fn put_names(names: &[&[u8]], out: &mut Vec<u8>) -> Result<(), Fault>
    ensures { Done result (out.new.items ≡ out.old.items ++ spaced (texts names.now)) }
{
    for name in names {
        append_bytes(b" ", out)?;
        append_bytes(name, out)?;
    }
    Ok(())
}

// The bytes of a heading, whatever the names.
fn heading_bytes(heap: Global, kind: KindWord, names: &[&[u8]]) -> Result<Vec<u8>, Fault>
    ensures { HeadingBytes kind (texts names.now) result }
{
    let mut text = Vec::new(heap);
    kind.put(&mut text)?;
    put_names(names, &mut text)?;
    append_bytes(b"\n", &mut text)?;
    Ok(text)
}

// Writes the heading's bytes at the front of `out`, and tells how many.
pub fn write_heading(heap: Global, heading: &Heading<'_>, out: &mut [u8]) -> Result<usize, Fault>
    ensures { HeadingWritten heading.now.kind (names_of heading.now) out.old out.new result }
{
    let names = heading.names.as_slice();
    if !good_names(names) {
        return Err(Fault::Form);
    }
    let text = heading_bytes(heap, heading.kind, names)?;
    place_line(text.as_slice(), out)
}
