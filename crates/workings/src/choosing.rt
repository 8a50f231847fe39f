ghost use Rattle.std.specs.Prelude.{◌≡◌, [], map, length, take, OnOk, OnErr, Ok, nat_lt};
ghost use Rattle.arrayvec.specs.ArrayVec.{array_vec_len};
ghost use Rattle.records.specs.declared.refusal.Refusal.TheVariants.{Crowded};
ghost use Rattle.records.specs.Outcomes.{guard, image};
ghost use Rattle.rules.specs.Sheets.{bad_coefs, relation_at};
ghost use Rattle.whole.specs.Tests.{any};
ghost use Rattle.workings.specs.Chosen.{countable};
ghost use Rattle.workings.specs.Rows.{coefficient_rows};

use arrayvec::ArrayVec;
use records::limits::{MOST_COEFFICIENT, MOST_COUNTED};
use records::{Refusal, Relation, Role};
use roles::relation_counts;
use whole::some_above;

// Whether a relation has a coefficient out of range.
pub(crate) fn some_out_of_range(relations: &[Relation], n: usize) -> bool
    ensures { result ≡ any (length relations.now) (λ i. bad_coefs n (relation_at relations.now i).coefficients) }
{
    relations.iter().any(|relation| some_above(&relation.coefficients, n, MOST_COEFFICIENT))
}

// Puts the coefficients of the relations that count by the roles, in bound order, into an empty list. Where they are more than
// 12 they are refused, and the first 12 stand in the list. The list is lent, since to hand it back would write all its places
// once more at each grip.
pub(crate) fn choose(
    relations: &[Relation],
    roles: &[Role],
    chosen: &mut ArrayVec<[i64; 48], MOST_COUNTED>,
) -> Result<(), Refusal>
    requires { chosen.old.items ≡ [] }
    ensures rows { image (λ _. coefficient_rows (length roles.now) chosen.new) result ≡ guard (nat_lt 12 (length (countable relations.now roles.now))) Crowded (Ok (map (λ b. b.coefs) (countable relations.now roles.now))) }
    ensures many { OnOk result (array_vec_len chosen.new ≡ length (countable relations.now roles.now)) }
    ensures full { OnErr result (coefficient_rows (length roles.now) chosen.new ≡ take 12 (map (λ b. b.coefs) (countable relations.now roles.now))) }
{
    for relation in relations {
        if relation_counts(&relation.coefficients, roles) {
            if chosen.is_full() {
                return Err(Refusal::Crowded);
            }
            chosen.push(relation.coefficients);
        }
    }
    Ok(())
}
