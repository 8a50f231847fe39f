ghost use Rattle.std.specs.Prelude.{◌≡◌, ◌≤◌, false, ◌||◌, length, ◌==◌};
ghost use Rattle.linear.specs.Elimination.{beyond, eliminated};
ghost use Rattle.records.specs.Outcomes.{image};
ghost use Rattle.table.specs.Tables.{rows_grid};
ghost use Rattle.whole.specs.Tests.{is_zero};

use crate::row::{Factors, Row};
use records::Refusal;

// Whether a pivot makes its relation spare: then the step leaves the whole table as it is.
fn spare(pivot: i64) -> bool
    ensures { result ≡ is_zero pivot }
{
    pivot == 0
}

// Whether step k leaves row i as it is: it is the pivot row, or its number q in column k is 0.
fn stays(i: usize, k: usize, q: i64) -> bool
    ensures { result ≡ (i == k || is_zero q) }
{
    i == k || q == 0
}

// The elimination of m rows in their first 2 m columns. The first number beyond the limit ends it.
pub(crate) fn eliminate(rows: &mut [Row]) -> Result<(), Refusal>
    requires { (length rows.old ≤ 12) × (beyond (length rows.old) (rows_grid rows.old) ≡ false) }
    ensures { let m = length rows.old in
        image (λ done. rows_grid rows.new) result ≡ eliminated m m (rows_grid rows.old) }
{
    let m = rows.len();
    let w = m + m;
    'steps: {
        // a step goes by a number: its pivot is in row k and column k
        for k in 0..m {
            let pivot = rows[k];
            let p = pivot.cells[k];
            if spare(p) {
                continue;
            }
            for (i, row) in rows.iter_mut().enumerate() {
                let q = row.cells[k];
                if stays(i, k, q) {
                    continue;
                }
                row.change(w, Factors { p, q }, &pivot);
                if row.beyond(w) {
                    break 'steps Err(Refusal::TableTooLarge);
                }
            }
        }
        Ok(())
    }
}
