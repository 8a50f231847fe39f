ghost use Rattle.std.specs.Prelude.{◌≡◌, length};
ghost use Rattle.whole.specs.Lists.{coord};
ghost use Rattle.whole.specs.Tests.{above, any};

use whole::some_above;

// Whether some row has, among its first n numbers, one above `most` in size.
pub(crate) fn some_row_above(rows: &[[i64; 48]], n: usize, most: u64) -> bool
    ensures { result ≡ any (length rows.now) (λ i. any n (λ s. above most (coord rows.now i s))) }
{
    rows.iter().any(|row| some_above(row, n, most))
}
