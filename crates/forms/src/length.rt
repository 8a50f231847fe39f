ghost use Rattle.forms.specs.Values.{LengthForm};
ghost use Rattle.forms.specs.Points.{length_laws};

use super::written::Written;
use kinds::Length;
use words::{Fault, Word};

impl Written for Length {
    ghost form = { LengthForm };

    ghost laws = { length_laws };

    fn parse(word: Word<'_>) -> Option<Length> {
        i64::parse(word).map(|x| Length { x })
    }

    fn put(self, out: &mut Vec<u8>) -> Result<(), Fault> {
        self.x.put(out)
    }
}
