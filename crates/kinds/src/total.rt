ghost use Rattle.std.specs.Prelude.{◌≡◌, if◌then◌else◌, slice_set};
ghost use Rattle.kinds.specs.Coords.{plus_scaled};
ghost use Rattle.kinds.specs.Outcomes.{all_fit};
ghost use Rattle.whole.specs.Lists.{at};

use crate::kind::Kind;

// u + k × v where it fits, and u where it does not.
pub fn combine<K: Kind>(u: K, k: i64, v: K) -> K
    ensures { K.coords result ≡ (if all_fit (K.coords u) k (K.coords v) then plus_scaled (K.coords u) k (K.coords v) else K.coords u) }
{
    u.plus_scaled(k, v).unwrap_or(u)
}

// Coordinate k, and 0 where there is none.
pub fn read<K: Kind>(v: K, k: usize) -> i64
    ensures { result ≡ at (K.coords v) k }
{
    v.coordinate(k).unwrap_or(0)
}

// v with x at coordinate k, and v itself where it has no such coordinate.
pub fn write<K: Kind>(v: K, k: usize, x: i64) -> K
    ensures { K.coords result ≡ slice_set (K.coords v) k x }
{
    v.with_coordinate(k, x).unwrap_or(v)
}
