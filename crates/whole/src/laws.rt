// The laws of common divisors and multiples.
ghost use Rattle.whole.specs.Laws.{GcdGreatest, LcmLeast, GcdAllGreatest};

// The gcd of two numbers is their greatest common divisor.
pub fn greatest_divisor_stands()
    ensures { GcdGreatest }
{}

// The lcm of two numbers is their least common multiple.
pub fn least_multiple_stands()
    ensures { LcmLeast }
{}

// The gcd of a list divides each number exactly, and every other common divisor divides it.
pub fn common_divisor_of_all_stands()
    ensures { GcdAllGreatest }
{}
