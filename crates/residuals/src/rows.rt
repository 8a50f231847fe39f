// The rows of the relations that count: their residuals, and what the rows carry in lowest terms.
ghost use Rattle.std.specs.Prelude.{◌≡◌, ◌≤◌, false, map, length};
ghost use Rattle.records.specs.Outcomes.{image};
ghost use Rattle.linear.specs.Elimination.{table_limit};
ghost use Rattle.rules.specs.Limits.{most_residual};
ghost use Rattle.rules.specs.Pulling.{some_above, residuals};
ghost use Rattle.workings.specs.Shown.{shown};
ghost use Rattle.residuals.specs.Steps.{lower};
ghost use Rattle.residuals.specs.Rows.{chosen};
ghost use Rattle.residuals.specs.Written.{residuals_written, carried_written, rows_written};

use crate::residual::carried;
use crate::task::Task;
use fractions::{divided, divisor_with};
use kinds::{Kind, value_above};
use records::Refusal;
use records::limits::MOST_RESIDUAL;
use workings::Workings;

// A row's diagonal number p and what the row carries, both divided by their greatest common divisor; a spare row that carries
// something other than zero has no placing.
fn lower_row<K: Kind>(p: u64, g: K) -> Result<(u64, K), Refusal>
    requires { p ≤ table_limit }
    ensures { image (λ q. (q.0, K.coords q.1)) result ≡ lower K.size p (K.coords g) }
{
    if p == 0 {
        if value_above(g, 0) {
            return Err(Refusal::Impossible);
        }
        return Ok((0, g));
    }
    let h = divisor_with(p, g);
    Ok((p / h, divided(g, h as i64)))
}

// Writes what the rows carry, each with its diagonal number in lowest terms, up to the first row that has no placing.
fn write_carried<K: Kind>(
    workings: &Workings,
    found: &[K],
    diagonal: &mut [u64],
    sums: &mut [K],
) -> Result<(), Refusal>
    requires many { length found.now ≡ (shown workings.now).m }
    requires numbers { length diagonal.old ≡ (shown workings.now).m }
    requires sums { length sums.old ≡ (shown workings.now).m }
    requires small { some_above most_residual K.size (shown workings.now).m (map K.coords found.now) ≡ false }
    ensures { let w = shown workings.now in (result, diagonal.new, map K.coords sums.new) ≡ carried_written K.size w.m w.table (map K.coords found.now) diagonal.old (map K.coords sums.old) }
{
    // the workings tell their rows by number alone
    for i in 0..workings.m() {
        let p = workings.diagonal(i);
        let g = carried(workings.right_half(i), found);
        let (number, sum) = lower_row(p, g)?;
        diagonal[i] = number;
        sums[i] = sum;
    }
    Ok(())
}

impl<K: Kind> Task<'_, K> {
    // Writes the residuals of the relations that count, up to the first that is too large.
    fn write_residuals(&self, found: &mut [K]) -> Result<(), Refusal>
        requires { length found.old ≡ length self.now.rows.now }
        ensures { let t = self.now in let w = shown t.workings.now in (result, map K.coords found.new) ≡ residuals_written K.size (length t.rows.now) (residuals K.size w.count w.roles (chosen w.count t.relations.now (map K.coords t.constants.now) t.rows.now) t.d (map K.coords t.values.now) (map K.coords t.wishes.now)) (map K.coords found.old) }
    {
        // a residual asks for its relation's number
        for (i, place) in found.iter_mut().enumerate() {
            let c = self.residual(i);
            if value_above(c, MOST_RESIDUAL) {
                return Err(Refusal::GapTooLarge);
            }
            *place = c;
        }
        Ok(())
    }

    // Writes the residuals of the relations that count, what their rows carry, and the rows' diagonal numbers, those two in lowest
    // terms. Each list has a place for each row.
    pub fn write_rows(
        &self,
        found: &mut [K],
        diagonal: &mut [u64],
        sums: &mut [K],
    ) -> Result<(), Refusal>
        ensures { let t = self.now in let w = shown t.workings.now in (result, map K.coords found.new, diagonal.new, map K.coords sums.new) ≡ rows_written K.size (length t.rows.now) w.table (residuals K.size w.count w.roles (chosen w.count t.relations.now (map K.coords t.constants.now) t.rows.now) t.d (map K.coords t.values.now) (map K.coords t.wishes.now)) (map K.coords found.old) diagonal.old (map K.coords sums.old) }
    {
        let m = self.rows.len();
        if found.len() != m || diagonal.len() != m || sums.len() != m {
            return Err(Refusal::Unfit);
        }
        self.write_residuals(found)?;
        write_carried(self.workings, found, diagonal, sums)
    }
}
