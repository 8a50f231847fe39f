ghost use Rattle.kinds.specs.Coords.{dot};
ghost use Rattle.kinds.specs.Models.{length_coords};
ghost use Rattle.kinds.specs.Dots.{length_laws};

use crate::kind::Kind;
use crate::step::fused;
use records::Refusal;

// A length: one coordinate.
#[derive(Clone, Copy)]
pub struct Length {
    pub x: i64,
}

impl Kind for Length {
    ghost size = { 1 };

    ghost coords = { length_coords };

    ghost inner = { dot 1 };

    ghost laws = { length_laws };

    fn count() -> usize {
        1
    }

    fn zero() -> Length {
        Length { x: 0 }
    }

    fn coordinate(&self, k: usize) -> Result<i64, Refusal> {
        match k {
            0 => Ok(self.x),
            _ => Err(Refusal::NoCoordinate),
        }
    }

    fn with_coordinate(self, k: usize, v: i64) -> Result<Length, Refusal> {
        match k {
            0 => Ok(Length { x: v }),
            _ => Err(Refusal::NoCoordinate),
        }
    }

    fn plus_scaled(self, k: i64, v: Length) -> Result<Length, Refusal> {
        let x = fused(self.x, k, v.x)?;
        Ok(Length { x })
    }
}
