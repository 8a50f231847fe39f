ghost use Rattle.std.specs.Prelude.{◌≡◌, ◌+◌, ◌<◌, ◌≤◌, false, ◌++◌, length, drop, replicate, pos, ◌*ℤ◌, slice_set, unsigned_abs};
ghost use Rattle.linear.specs.Elimination.{start};
ghost use Rattle.linear.specs.Gram.{gram};
ghost use Rattle.table.specs.Limits.{Within, outside};
ghost use Rattle.table.specs.Tables.{rows_grid};
ghost use Rattle.whole.specs.Lists.{at, coord, tab};
ghost use Rattle.whole.specs.Sums.{sum_below};

use crate::row::Row;

// v × x × y.
fn weighted(v: i64, x: i64, y: i64) -> i64
    requires { (unsigned_abs v ≤ 12) × ((unsigned_abs x ≤ 1000) × (unsigned_abs y ≤ 1000)) }
    ensures value { result ≡ v *ℤ (x *ℤ y) }
    ensures size { unsigned_abs result ≤ 12000000 }
{
    v * (x * y)
}

// The sum over the parameters of v × x × y.
fn weighted_sum(shares: &[i64], xs: &[i64; 48], ys: &[i64; 48]) -> i64
    requires few { length shares.now ≤ 48 }
    requires shares { Within 12 (length shares.now) shares.now }
    requires rows { Within 1000 (length shares.now) xs.now × Within 1000 (length shares.now) ys.now }
    ensures { result ≡ sum_below (length shares.now) (λ s. at shares.now s *ℤ (at xs.now s *ℤ at ys.now s)) }
{
    let mut sum = 0;
    // by number: pairs within pairs took 1.7 times as long
    for (s, v) in shares.iter().enumerate() {
        sum += weighted(*v, xs[s], ys[s]);
    }
    sum
}

impl Row {
    // The row becomes row i of the first table: row i of the sums, then 1 in place i of the unit matrix and 0 elsewhere.
    fn begin(&mut self, i: usize, shares: &[i64], rows: &[[i64; 48]])
        requires row { i < length rows.now }
        requires limits { outside (length shares.now) (length rows.now) shares.now rows.now ≡ false }
        ensures { let m = length rows.now in
            self.new.cells ≡ slice_set (tab m (gram (length shares.now) (at shares.now) (coord rows.now) i) ++ drop m (replicate 24 (pos 0))) (m + i) (pos 1) }
    {
        self.cells = [0; 24];
        // by number: of a list that is written through a zip, a proof does not see what it becomes
        for (j, other) in rows.iter().enumerate() {
            self.cells[j] = weighted_sum(shares, &rows[i], other);
        }
        self.cells[rows.len() + i] = 1;
    }
}

// The rows become the first table's: the sums, then the unit matrix. The places after them are 0.
pub(crate) fn write_first(all: &mut [Row], shares: &[i64], rows: &[[i64; 48]])
    requires many { length all.old ≡ length rows.now }
    requires limits { outside (length shares.now) (length rows.now) shares.now rows.now ≡ false }
    ensures { rows_grid all.new ≡ start (length shares.now) (length rows.now) (at shares.now) (coord rows.now) }
{
    // a row's 1 stands by the row's number
    for (i, row) in all.iter_mut().enumerate() {
        row.begin(i, shares, rows);
    }
}
