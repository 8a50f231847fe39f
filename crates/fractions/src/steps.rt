// Steps on one value.
ghost use Rattle.std.specs.Prelude.{◌≡◌};
ghost use Rattle.fractions.specs.Steps.{plus, divisor_from, divided};

use kinds::{Kind, combine, read, write};
use whole::common_divisor;

// u + k × v where it fits, and u where it does not; with a factor of 0 there is nothing to add.
pub fn add<K: Kind>(u: K, k: i64, v: K) -> K
    ensures { K.coords result ≡ plus (K.coords u) k (K.coords v) }
{
    if k == 0 { u } else { combine(u, k, v) }
}

// The greatest common divisor of a number and all coordinates of a value.
pub fn divisor_with<K: Kind>(a: u64, v: K) -> u64
    ensures { result ≡ divisor_from a (K.coords v) }
{
    (0..K::count()).fold(a, |g, k| common_divisor(g, read(v, k).unsigned_abs()))
}

// Each coordinate divided by g; nothing is divided by a number below 1.
pub fn divided<K: Kind>(v: K, g: i64) -> K
    ensures { K.coords result ≡ divided K.size (K.coords v) g }
{
    if g < 1 {
        return v;
    }
    let mut quotient = v;
    // a kind tells its coordinates by number alone
    for k in 0..K::count() {
        quotient = write(quotient, k, read(v, k) / g);
    }
    quotient
}
