ghost use Rattle.std.specs.Prelude.{◌≡◌};
ghost use Rattle.whole.specs.Lists.{at};
ghost use Rattle.whole.specs.Tests.{above, any};

// Whether one of the first n numbers is above `most` in size; one that the list lacks is 0.
pub fn some_above(xs: &[i64], n: usize, most: u64) -> bool
    ensures { result ≡ any n (λ j. above most (at xs.now j)) }
{
    let known = n.min(xs.len());
    xs[..known].iter().any(|x| x.unsigned_abs() > most)
}
