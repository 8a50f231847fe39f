ghost use Rattle.kinds_tests.specs.Solid.{solid_coords, solid_inner};
ghost use Rattle.kinds_tests.specs.Laws.{solid_laws};

use kinds::{Kind, fused};
use records::Refusal;

// A value with three coordinates.
#[derive(Clone, Copy)]
pub struct Solid {
    pub x: i64,
    pub y: i64,
    pub z: i64,
}

impl Kind for Solid {
    ghost size = { 3 };

    ghost coords = { solid_coords };

    ghost inner = { solid_inner };

    ghost laws = { solid_laws };

    fn count() -> usize {
        3
    }

    fn zero() -> Solid {
        Solid { x: 0, y: 0, z: 0 }
    }

    fn coordinate(&self, k: usize) -> Result<i64, Refusal> {
        match k {
            0 => Ok(self.x),
            1 => Ok(self.y),
            2 => Ok(self.z),
            _ => Err(Refusal::NoCoordinate),
        }
    }

    fn with_coordinate(self, k: usize, v: i64) -> Result<Solid, Refusal> {
        match k {
            0 => Ok(Solid {
                x: v,
                y: self.y,
                z: self.z,
            }),
            1 => Ok(Solid {
                x: self.x,
                y: v,
                z: self.z,
            }),
            2 => Ok(Solid {
                x: self.x,
                y: self.y,
                z: v,
            }),
            _ => Err(Refusal::NoCoordinate),
        }
    }

    fn plus_scaled(self, k: i64, v: Solid) -> Result<Solid, Refusal> {
        let x = fused(self.x, k, v.x)?;
        let y = fused(self.y, k, v.y)?;
        let z = fused(self.z, k, v.z)?;
        Ok(Solid { x, y, z })
    }
}
