ghost use Rattle.std.specs.Prelude.{◌≡◌, ℕ, List, replicate, ℤ, pos};
ghost use Rattle.kinds.specs.Laws.{Laws};
ghost use Rattle.kinds.specs.Outcomes.{combined, put_at, read_at};
ghost use Rattle.records.specs.Outcomes.{image};

use records::Refusal;

// A kind of value. The engine knows of a value only what is promised here.
pub trait Kind: Copy {
    // how many coordinates a value has
    ghost size: { ℕ };

    // a value's coordinates
    ghost coords: { Self → List ℤ };

    // the inner product of coordinates of any size; no call works it out
    ghost inner: { List ℤ → List ℤ → ℤ };

    // How many coordinates a value has.
    fn count() -> usize
        ensures { result ≡ size };

    // The value whose coordinates are all 0.
    fn zero() -> Self
        ensures { coords result ≡ replicate size (pos 0) };

    // Coordinate k, counted from 0.
    fn coordinate(&self, k: usize) -> Result<i64, Refusal>
        ensures { result ≡ read_at (coords self.now) k };

    // The same value with v at coordinate k.
    fn with_coordinate(self, k: usize, v: i64) -> Result<Self, Refusal>
        ensures { image coords result ≡ put_at (coords self) k v };

    // This value plus k × v, by coordinates.
    fn plus_scaled(self, k: i64, v: Self) -> Result<Self, Refusal>
        ensures { image coords result ≡ combined (coords self) k (coords v) };

    ghost laws: { Laws size coords inner };
}
