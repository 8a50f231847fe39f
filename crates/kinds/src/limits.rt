ghost use Rattle.std.specs.Prelude.{◌≡◌, map, length};
ghost use Rattle.whole.specs.Lists.{at, coord};
ghost use Rattle.whole.specs.Tests.{above, any};

use crate::kind::Kind;
use crate::total::read;

// Whether some coordinate of v is above `most` in size.
pub fn value_above<K: Kind>(v: K, most: u64) -> bool
    ensures { result ≡ any K.size (λ c. above most (at (K.coords v) c)) }
{
    (0..K::count()).any(|k| read(v, k).unsigned_abs() > most)
}

// Whether some coordinate of some value is above `most` in size.
pub fn values_above<K: Kind>(vs: &[K], most: u64) -> bool
    ensures { result ≡ any (length vs.now) (λ s. any K.size (λ c. above most (coord (map K.coords vs.now) s c))) }
{
    vs.iter().any(|v| value_above(*v, most))
}
