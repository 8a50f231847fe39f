// Running a card. The heap is handed on, as to everything that takes memory.
ghost use Rattle.runner.specs.Cards.{Prints};

use crate::playing::play_on;
use forms::append_bytes;
use heading::read_heading;
use std::alloc::Global;
use words::{Fault, Lines};

// A card has at most so many bytes.
const CARD: usize = 65_536;

// What a card prints.
pub fn run_card(heap: Global, card: &[u8]) -> Result<Vec<u8>, Fault>
    ensures { Prints card.now result }
{
    let mut out = Vec::new(heap);
    let mut lines = Lines::new(card);
    let first = match lines.next() {
        Some(line) if card.len() <= CARD => read_heading(heap, line),
        _ => Err(Fault::Form),
    };
    match first {
        Ok(heading) => {
            play_on(
                heap,
                heading.kind,
                heading.names.len(),
                &mut lines,
                &mut out,
            )?;
        }
        // a bad first line is answered, and only want of memory ends the card
        Err(Fault::Form) => append_bytes(b"no 16\n", &mut out)?,
        Err(Fault::Memory) => return Err(Fault::Memory),
    }
    append_bytes(b"end\n", &mut out)?;
    Ok(out)
}
