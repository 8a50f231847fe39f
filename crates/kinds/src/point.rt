ghost use Rattle.kinds.specs.Coords.{dot};
ghost use Rattle.kinds.specs.Models.{point_coords};
ghost use Rattle.kinds.specs.Dots.{point_laws};

use crate::kind::Kind;
use crate::step::fused;
use records::Refusal;

// A point: two coordinates. It and a length are no instances of one type over a count: a kind has 1 to 4 coordinates, and a const
// parameter can be any number.
#[derive(Clone, Copy)]
pub struct Point {
    pub x: i64,
    pub y: i64,
}

impl Kind for Point {
    ghost size = { 2 };

    ghost coords = { point_coords };

    ghost inner = { dot 2 };

    ghost laws = { point_laws };

    fn count() -> usize {
        2
    }

    fn zero() -> Point {
        Point { x: 0, y: 0 }
    }

    fn coordinate(&self, k: usize) -> Result<i64, Refusal> {
        match k {
            0 => Ok(self.x),
            1 => Ok(self.y),
            _ => Err(Refusal::NoCoordinate),
        }
    }

    fn with_coordinate(self, k: usize, v: i64) -> Result<Point, Refusal> {
        match k {
            0 => Ok(Point { x: v, y: self.y }),
            1 => Ok(Point { x: self.x, y: v }),
            _ => Err(Refusal::NoCoordinate),
        }
    }

    fn plus_scaled(self, k: i64, v: Point) -> Result<Point, Refusal> {
        let x = fused(self.x, k, v.x)?;
        let y = fused(self.y, k, v.y)?;
        Ok(Point { x, y })
    }
}
