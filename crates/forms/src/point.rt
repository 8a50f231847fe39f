ghost use Rattle.words.specs.Numbers.{Exactly};
ghost use Rattle.forms.specs.Values.{PointForm};
ghost use Rattle.forms.specs.Points.{point_laws};

use super::append::append_bytes;
use super::written::Written;
use kinds::Point;
use words::{Fault, Word, parse_number, place_of};

// The point that two numbers with a comma between them write.
fn parse_point(bytes: &[u8]) -> Option<Point>
    ensures { Exactly PointForm bytes.now result }
{
    let comma = place_of(b',', bytes)?;
    let x = parse_number(&bytes[..comma])?;
    let y = parse_number(&bytes[comma + 1..])?;
    Some(Point { x, y })
}

impl Written for Point {
    ghost form = { PointForm };

    ghost laws = { point_laws };

    fn parse(word: Word<'_>) -> Option<Point> {
        match word {
            Word::Number(bytes) => parse_point(bytes),
            _ => None,
        }
    }

    fn put(self, out: &mut Vec<u8>) -> Result<(), Fault> {
        self.x.put(out)?;
        append_bytes(b",", out)?;
        self.y.put(out)
    }
}
