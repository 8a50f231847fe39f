// The first line of a card, read.
ghost use Rattle.std.specs.Prelude.{◌≡◌, false};
ghost use Rattle.words.specs.Reading.{left, starts};
ghost use Rattle.heading.specs.Names.{NamesRead};
ghost use Rattle.heading.specs.Headings.{HeadingRead};

use super::kind::KindWord;
use super::name::{NAMES, holds, next_name};
use forms::read_keyword;
use std::alloc::Global;
use words::{Fault, Reader};

// What a card's first line says: the kind of value, and the names, each the part of the card that it was read from.
#[derive(Drop)]
pub struct Heading<'a> {
    pub kind: KindWord,
    pub names: Vec<&'a [u8]>,
}

// The names that the words left are.
fn read_names<'a>(heap: Global, reader: &mut Reader<'a>) -> Result<Vec<&'a [u8]>, Fault>
    requires { starts reader.old ≡ false }
    ensures { NamesRead (left reader.old) result }
{
    let mut names = Vec::new(heap);
    while !reader.at_end() {
        let name = next_name(reader).ok_or(Fault::Form)?;
        if names.len() >= NAMES || holds(names.as_slice(), name) {
            return Err(Fault::Form);
        }
        names.push(name)?;
    }
    if names.is_empty() {
        return Err(Fault::Form);
    }
    Ok(names)
}

// The heading that the bytes spell.
pub fn read_heading<'a>(heap: Global, line: &'a [u8]) -> Result<Heading<'a>, Fault>
    ensures { HeadingRead line.now result }
{
    let (kind, mut reader) = read_keyword::<KindWord>(line).ok_or(Fault::Form)?;
    let names = read_names(heap, &mut reader)?;
    Ok(Heading { kind, names })
}
