ghost use Rattle.std.specs.Prelude.{◌≡◌, ◌≤◌, length, map, pos, ◌-ℤ◌, ◌*ℤ◌, ◌<ℤ◌, int_div, unsigned_abs};
ghost use Rattle.linear.specs.Elimination.{table_limit};
ghost use Rattle.table.specs.Limits.{Within};
ghost use Rattle.table.specs.Rows.{changed, mixed, row_beyond};

use records::limits::TABLE_LIMIT;
use whole::common_divisor_all;

// A row of a table: m numbers, then m more; the places after them are not used.
#[derive(Clone, Copy)]
pub struct Row {
    pub cells: [i64; 24],
}

// The factors of a step: a row becomes p × the row - q × the pivot row.
#[derive(Clone, Copy)]
pub(crate) struct Factors {
    pub(crate) p: i64,
    pub(crate) q: i64,
    // neither is beyond the limit of a table's numbers
    ghost row: { unsigned_abs p ≤ table_limit },
    ghost pivot: { unsigned_abs q ≤ table_limit },
}

impl Factors {
    // p × x - q × y.
    fn mix(self, x: i64, y: i64) -> i64
        requires { (unsigned_abs x ≤ table_limit) × (unsigned_abs y ≤ table_limit) }
        ensures { result ≡ self.p *ℤ x -ℤ self.q *ℤ y }
    {
        self.p * x - self.q * y
    }

    // Each number x becomes p × x - q × y, where y is the pivot row's number in its place.
    fn combine(self, cells: &mut [i64], pivot: &[i64; 24])
        requires size { length cells.old ≤ 24 }
        requires rows { Within table_limit (length cells.old) cells.old × Within table_limit (length cells.old) pivot.now }
        ensures { cells.new ≡ mixed (length cells.old) self.p self.q cells.old pivot.now }
    {
        // by number: of a list that is written through a zip, a proof does not see what it becomes
        for (j, x) in cells.iter_mut().enumerate() {
            *x = self.mix(*x, pivot[j]);
        }
    }
}

// Each number is divided by g.
fn divide(cells: &mut [i64], g: i64)
    requires { pos 1 <ℤ g }
    ensures { cells.new ≡ map (λ x. int_div x g) cells.old }
{
    for x in cells {
        *x /= g;
    }
}

impl Row {
    // One step of the elimination on this row: the pivot row is mixed in, and the first w numbers are divided by their greatest
    // common divisor.
    pub(crate) fn change(&mut self, w: usize, factors: Factors, pivot: &Row)
        requires size { w ≤ 24 }
        requires rows { (Within table_limit w self.old.cells) × (Within table_limit w pivot.now.cells) }
        ensures { self.new.cells ≡ changed w factors.p factors.q self.old.cells pivot.now.cells }
    {
        let cells = &mut self.cells[..w];
        factors.combine(cells, &pivot.cells);
        let g = common_divisor_all(cells);
        if g > 1 {
            divide(cells, g as i64);
        }
    }

    // Whether one of the first w numbers is beyond the limit.
    pub(crate) fn beyond(&self, w: usize) -> bool
        requires { w ≤ 24 }
        ensures { result ≡ row_beyond w self.now.cells }
    {
        self.cells[..w]
            .iter()
            .any(|x| x.unsigned_abs() > TABLE_LIMIT)
    }
}
