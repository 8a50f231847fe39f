// From the rows in lowest terms to the proposal.
ghost use Rattle.std.specs.Prelude.{◌≡◌, ℕ, ◌<◌, map, length, pos, slice_index};
ghost use Rattle.whole.specs.Lists.{coord};
ghost use Rattle.workings.specs.Shown.{shown};
ghost use Rattle.pulls.specs.Steps.{placed};
ghost use Rattle.pulls.specs.Finish.{finished};

use crate::numerators::write_numerators;
use fractions::Multiple;
use kinds::Kind;
use records::Refusal;
use residuals::Task;

// The denominator of the proposal, whose numerators are then in its list.
pub(crate) fn finish<K: Kind>(
    task: &Task<'_, K>,
    numbers: &[u64],
    sums: &mut [K],
    proposal: &mut [K],
) -> Result<i64, Refusal>
    requires numbers { length numbers.now ≡ length task.now.rows.now }
    requires sums { length sums.old ≡ length task.now.rows.now }
    requires spare { (i : ℕ) → i < length numbers.now → slice_index numbers.now i ≡ 0 → (c : ℕ) → c < K.size → coord (map K.coords sums.old) i c ≡ pos 0 }
    requires proposed { length proposal.old ≡ (shown task.now.workings.now).count }
    ensures { let t = task.now in let w = shown t.workings.now in placed result (map K.coords proposal.new) ≡ finished K.size w.count w.roles w.shares t.d (map K.coords t.values.now) (map K.coords t.wishes.now) t.relations.now t.rows.now numbers.now (map K.coords sums.old) }
{
    let multiple = Multiple::of(numbers)?;
    multiple.multiply(numbers, sums)?;
    write_numerators(task, multiple, sums, proposal);
    multiple.settle(task.d, proposal)
}
