// How far the wishes are from meeting each relation that counts, and what a row of the table makes of it.
ghost use Rattle.std.specs.Prelude.{◌≡◌, ℕ, ◌<◌, ◌≤◌, false, [], map, length, slice_index, slice_index_or, unsigned_abs};
ghost use Rattle.whole.specs.Lists.{at, tab};
ghost use Rattle.linear.specs.Elimination.{table_limit};
ghost use Rattle.rules.specs.Limits.{most_residual};
ghost use Rattle.rules.specs.Sheets.{relation_at};
ghost use Rattle.rules.specs.Pulling.{some_above};
ghost use Rattle.workings.specs.Shown.{shown};
ghost use Rattle.fractions.specs.Steps.{plus};
ghost use Rattle.residuals.specs.Steps.{factor, taken, residual_at, carried_at};

use crate::task::Task;
use fractions::add;
use kinds::Kind;
use records::Role;

// A residual less one parameter's term: d × coefficient × wish, or coefficient × kept numerator where it is held.
fn less_term<K: Kind>(sum: K, d: i64, coefficient: i64, role: Role, wish: K, value: K) -> K
    requires over { unsigned_abs d ≤ 45000 }
    requires small { unsigned_abs coefficient ≤ 1000 }
    ensures { K.coords result ≡ plus (K.coords sum) (factor role d coefficient) (taken role (K.coords wish) (K.coords value)) }
{
    match role {
        Role::Held => add(sum, -coefficient, value),
        Role::Pulled | Role::Loose(_) => add(sum, -(d * coefficient), wish),
    }
}

impl<K: Kind> Task<'_, K> {
    // The residual of the relation in row i: d × q, less the terms of all parameters.
    pub(crate) fn residual(&self, i: usize) -> K
        requires { i < length self.now.rows.now }
        ensures { let t = self.now in let w = shown t.workings.now in let j = slice_index t.rows.now i in K.coords result ≡ tab K.size (residual_at w.count w.roles t.d (map K.coords t.values.now) (map K.coords t.wishes.now) (relation_at t.relations.now j).coefficients (slice_index_or (map K.coords t.constants.now) j [])) }
    {
        let relation = &self.relations[self.rows[i]];
        let mut sum = add(K::zero(), self.d, self.constants[self.rows[i]]);
        // four lists side by side: a number is plainer than pairs within pairs
        for (s, role) in self.workings.roles().iter().enumerate() {
            sum = less_term(
                sum,
                self.d,
                relation.coefficients[s],
                *role,
                self.wishes[s],
                self.values[s],
            );
        }
        sum
    }
}

// The sum over j of row[j] × residuals[j].
pub(crate) fn carried<K: Kind>(row: &[i64], residuals: &[K]) -> K
    requires long { length row.now ≤ length residuals.now }
    requires few { length row.now ≤ 12 }
    requires limited { (j : ℕ) → unsigned_abs (at row.now j) ≤ table_limit }
    requires small { some_above most_residual K.size (length row.now) (map K.coords residuals.now) ≡ false }
    ensures { K.coords result ≡ tab K.size (carried_at (length row.now) row.now (map K.coords residuals.now)) }
{
    let mut sum = K::zero();
    for (number, residual) in row.iter().zip(residuals) {
        sum = add(sum, *number, *residual);
    }
    sum
}
