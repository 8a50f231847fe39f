// The numerators of a proposal over ℓ × d.
ghost use Rattle.std.specs.Prelude.{◌≡◌, ℕ, ◌<◌, ◌≤◌, false, map, length, ◌*ℤ◌, unsigned_abs};
ghost use Rattle.whole.specs.Lists.{at, tab};
ghost use Rattle.rules.specs.Limits.{most_multiplier};
ghost use Rattle.rules.specs.Gripping.{is_held};
ghost use Rattle.rules.specs.Pulling.{some_above};
ghost use Rattle.workings.specs.Shown.{shown};
ghost use Rattle.pulls.specs.Steps.{shift_at, numerator_over};
ghost use Rattle.pulls.specs.Finish.{numerators_by};

use fractions::{Multiple, add};
use kinds::Kind;
use records::Role;
use residuals::Task;

// One parameter's numerator: ℓ × n if it is held, e × wish if it is pulled, and that with its share of the shift if it is loose.
fn numerator<K: Kind>(role: Role, l: i64, e: i64, value: K, wish: K, share: i64, moved: K) -> K
    requires wished { is_held role ≡ false → (c : ℕ) → c < K.size → unsigned_abs (e *ℤ at (K.coords wish) c) ≤ 5000000000000000000 }
    requires shifted { (c : ℕ) → c < K.size → unsigned_abs (share *ℤ at (K.coords moved) c) ≤ 5000000000000000000 }
    requires whole { (c : ℕ) → c < K.size → unsigned_abs (numerator_over role l e (at (K.coords value) c) (at (K.coords wish) c) share (at (K.coords moved) c)) ≤ 5000000000000000000 }
    ensures { K.coords result ≡ tab K.size (λ c. numerator_over role l e (at (K.coords value) c) (at (K.coords wish) c) share (at (K.coords moved) c)) }
{
    match role {
        Role::Held => add(K::zero(), l, value),
        Role::Pulled => add(K::zero(), e, wish),
        Role::Loose(_) => add(add(K::zero(), e, wish), share, moved),
    }
}

// The sum over the rows of the coefficient of parameter s times the multiplier, which is zero in a spare row.
fn shift<K: Kind>(task: &Task<'_, K>, s: usize, multipliers: &[K]) -> K
    requires place { s < (shown task.now.workings.now).count }
    requires long { length task.now.rows.now ≤ length multipliers.now }
    requires limited { some_above most_multiplier K.size (length task.now.rows.now) (map K.coords multipliers.now) ≡ false }
    ensures { K.coords result ≡ tab K.size (shift_at task.now.relations.now task.now.rows.now (map K.coords multipliers.now) s) }
{
    let mut sum = K::zero();
    // by number, which the check reads faster than two lists side by side
    for (i, row) in task.rows.iter().enumerate() {
        sum = add(sum, task.relations[*row].coefficients[s], multipliers[i]);
    }
    sum
}

// Writes the numerators over ℓ × d of all parameters.
pub(crate) fn write_numerators<K: Kind>(
    task: &Task<'_, K>,
    multiple: Multiple,
    multipliers: &[K],
    proposal: &mut [K],
)
    requires long { length task.now.rows.now ≤ length multipliers.now }
    requires limited { some_above most_multiplier K.size (length task.now.rows.now) (map K.coords multipliers.now) ≡ false }
    requires proposed { length proposal.old ≡ (shown task.now.workings.now).count }
    ensures { let t = task.now in let w = shown t.workings.now in map K.coords proposal.new ≡ numerators_by K.size w.count w.roles w.shares multiple.l t.d (map K.coords t.values.now) (map K.coords t.wishes.now) t.relations.now t.rows.now (map K.coords multipliers.now) }
{
    let roles = task.workings.roles();
    let shares = task.workings.shares();
    let l = multiple.l as i64;
    let e = l * task.d;
    // the shift asks for the parameter's number
    for (s, place) in proposal.iter_mut().enumerate() {
        let moved = shift(task, s, multipliers);
        *place = numerator(
            roles[s],
            l,
            e,
            task.values[s],
            task.wishes[s],
            shares[s],
            moved,
        );
    }
}
