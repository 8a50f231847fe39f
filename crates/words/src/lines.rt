// A card cut into lines.
ghost use Rattle.std.specs.Prelude.{◌≡◌};
ghost use Rattle.words.specs.Lines.{uncut, CutOff, TextOf, Placed, Cuts};

use super::fault::Fault;
use super::word::place_of;

// A line has at most so many bytes.
const LINE: usize = 1024;

// The lines of a card that are still to be read.
#[derive(Drop)]
pub struct Lines<'a> {
    rest: &'a [u8],
}

impl<'a> Lines<'a> {
    // All lines of a card.
    pub fn new(card: &'a [u8]) -> Lines<'a>
        ensures { uncut result ≡ card.now }
    {
        Lines { rest: card }
    }

    // The next line with its byte 10, or what is left of the card where no byte 10 follows; none at the end.
    pub fn next(&mut self) -> Option<&'a [u8]>
        ensures { CutOff (uncut self.old) (uncut self.new) result }
    {
        if self.rest.is_empty() {
            return None;
        }
        let size = match place_of(b'\n', self.rest) {
            Some(end) => end + 1,
            None => self.rest.len(),
        };
        let (line, rest) = self.rest.split_at(size);
        self.rest = rest;
        Some(line)
    }
}

// The bytes of a line before its byte 10; none if it does not end so, or has more than 1,024 bytes.
pub fn line_text<'a>(line: &'a [u8]) -> Option<&'a [u8]>
    ensures { TextOf line.now result }
{
    if line.len() > LINE {
        return None;
    }
    line.strip_suffix(b"\n")
}

// Copies a line to the front of `out`, and tells its size; refused if it has more than 1,024 bytes or `out` is too short.
pub fn place_line(line: &[u8], out: &mut [u8]) -> Result<usize, Fault>
    ensures { Placed line.now out.old out.new result }
{
    let size = line.len();
    if size > LINE || size > out.len() {
        return Err(Fault::Form);
    }
    out[..size].copy_from_slice(line);
    Ok(size)
}

// The lines of every card, joined, are the card; each ends at its only byte 10, or is the last and has none.
pub fn laws_of_cards()
    ensures { Cuts }
{}
