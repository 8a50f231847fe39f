// A number as a value of its own.
ghost use Rattle.std.specs.Prelude.{Decides};
ghost use Rattle.words.specs.Numbers.{Number, Short};
ghost use Rattle.forms.specs.Laws.{number_laws};

use super::written::Written;
use words::{Fault, Word, append_number, parse_number};

// Whether at most 8 digits write the number.
pub(crate) fn short(n: i64) -> bool
    ensures { Decides result (Short n) }
{
    n < 100_000_000 && n > -100_000_000
}

impl Written for i64 {
    ghost form = { Number };

    ghost laws = { number_laws };

    fn parse(word: Word<'_>) -> Option<i64> {
        match word {
            Word::Number(bytes) => parse_number(bytes),
            _ => None,
        }
    }

    fn put(self, out: &mut Vec<u8>) -> Result<(), Fault> {
        if !short(self) {
            return Err(Fault::Form);
        }
        append_number(self, out)
    }
}
