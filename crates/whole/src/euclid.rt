// Common divisors and multiples of numbers of 64 bits.
ghost use Rattle.std.specs.Prelude.{◌≡◌, if◌then◌else◌, Some, None, nat_le, unsigned_abs};
ghost use Rattle.whole.specs.Gcd.{gcd, gcd_all, lcm};

// The greatest common divisor, by remainders; two zeros give 0.
pub fn common_divisor(a: u64, b: u64) -> u64
    ensures { result ≡ gcd a b }
{
    let mut x = a;
    let mut y = b;
    while y != 0 {
        let rest = x % y;
        x = y;
        y = rest;
    }
    x
}

// The greatest common divisor of g and the size of x. A number is mostly larger than the divisor so far, so its remainder is the
// first step.
fn divisor_with(g: u64, x: i64) -> u64
    ensures { result ≡ gcd g (unsigned_abs x) }
{
    if x == 0 {
        return g;
    }
    common_divisor(x.unsigned_abs(), g)
}

// The greatest common divisor of a list's numbers; 0 when all are 0.
pub fn common_divisor_all(xs: &[i64]) -> u64
    ensures { result ≡ gcd_all xs.now }
{
    let mut g = 0;
    for x in xs {
        g = divisor_with(g, *x);
        // no further number changes it
        if g == 1 {
            return 1;
        }
    }
    g
}

// The least common multiple, if it is at most `most`. The product is made only once it is known to fit.
pub fn common_multiple(a: u64, b: u64, most: u64) -> Option<u64>
    ensures { result ≡ (if nat_le (lcm a b) most then Some (lcm a b) else None) }
{
    let g = common_divisor(a, b);
    if g == 0 {
        return Some(0);
    }
    let part = a / g;
    if part == 0 {
        return Some(0);
    }
    if b > most / part {
        return None;
    }
    Some(part * b)
}
