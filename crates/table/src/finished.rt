ghost use Rattle.std.specs.Prelude.{◌≡◌, length};
ghost use Rattle.linear.specs.Elimination.{eliminated, start};
ghost use Rattle.records.specs.declared.refusal.Refusal.TheVariants.{Unfit};
ghost use Rattle.records.specs.Outcomes.{guard, image};
ghost use Rattle.table.specs.Limits.{outside};
ghost use Rattle.table.specs.Tables.{grid};
ghost use Rattle.whole.specs.Lists.{at, coord};

use crate::elimination::eliminate;
use crate::limits::some_row_above;
use crate::row::Row;
use crate::start::write_first;
use crate::table::Table;
use records::Refusal;
use whole::some_above;

// Whether the numbers that a table is to be made of are outside their limits.
fn is_outside(shares: &[i64], rows: &[[i64; 48]]) -> bool
    ensures { result ≡ outside (length shares.now) (length rows.now) shares.now rows.now }
{
    let n = shares.len();
    n > 48 || rows.len() > 12 || some_above(shares, n, 12) || some_row_above(rows, n, 1000)
}

impl Table {
    // The finished table of relations: `shares` holds v(s) for each parameter, and `rows` a relation's coefficients each.
    pub fn finished(shares: &[i64], rows: &[[i64; 48]]) -> Result<Table, Refusal>
        ensures { let n = length shares.now in
            let m = length rows.now in
            image (grid m) result ≡ guard (outside n m shares.now rows.now) Unfit (eliminated m m (start n m (at shares.now) (coord rows.now))) }
    {
        if is_outside(shares, rows) {
            return Err(Refusal::Unfit);
        }
        let m = rows.len();
        let mut all = [Row { cells: [0; 24] }; 12];
        write_first(&mut all[..m], shares, rows);
        eliminate(&mut all[..m])?;
        Ok(Table { rows: all })
    }
}
